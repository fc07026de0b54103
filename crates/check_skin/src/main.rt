// check SKIN: says whether a skin's bytes, from anywhere, are a closed skin, or which rule is in fault and where.
#![tactic(auto)]

use anyhow::bail;
use block::Refusal;
use checker::{check, work_needed};
use mesh::Header;
use std::alloc::{AllocError, Global};
use std::io::Read;
use std::process::ExitCode;
use std::{env, fs, io};
use thiserror::Error;

const USAGE: &str = "usage: check SKIN
SKIN is a file of a skin's bytes, or - for standard input.
A closed skin is answered by 'closed', any other by 'refused N at P', and status 1.";

// Why bytes are not called closed.
#[derive(Debug, Drop, Error)]
enum Fault {
    #[error("{0}")]
    Refused(#[from] Refusal),
    #[error("not enough memory to check it")]
    NoMemory(#[from] AllocError),
}

// What went wrong was said where it could be, and whole, which an error keeps only in part: here only the status is left.
// `skin` has the same lines: a library for them would hold nothing else.
fn main(rt: HostRuntime) -> ExitCode {
    match answer(&rt) {
        Ok(()) => ExitCode::SUCCESS,
        Err(_) => ExitCode::FAILURE,
    }
}

fn answer(rt: &HostRuntime) -> anyhow::Result<()> {
    let args: Vec<String> = env::args(rt)?.skip(1).collect(rt.alloc())?;
    match args.as_slice() {
        [help] if help.as_str() == "--help" => Ok(rt.println(USAGE)?),
        [skin] => run(rt, skin.as_str()),
        _ => {
            rt.eprintln(USAGE)?;
            bail!("wrong use")
        }
    }
}

fn run(rt: &HostRuntime, name: &str) -> anyhow::Result<()> {
    match contents(rt, name) {
        Ok(bytes) => report(rt, bytes.as_slice(), name),
        Err(e) => {
            eprintln!(rt; "check: {name}: {e}")?;
            bail!("not read")
        }
    }
}

// The bytes of a file, which are read at once, as its length is known, or of standard input.
fn contents(rt: &HostRuntime, name: &str) -> io::Result<Vec<u8>> {
    if name != "-" {
        return fs::read(rt, name);
    }
    let mut bytes = Vec::new(rt.alloc());
    rt.stdin().read_to_end(&mut bytes)?;
    Ok(bytes)
}

fn report(rt: &HostRuntime, bytes: &[u8], name: &str) -> anyhow::Result<()> {
    match verdict(rt.alloc(), bytes) {
        Ok(()) => Ok(rt.println("closed")?),
        Err(Fault::Refused(refusal)) => {
            rt.println(refusal)?;
            bail!("refused")
        }
        Err(fault) => {
            eprintln!(rt; "check: {name}: {fault}")?;
            bail!("not checked")
        }
    }
}

// The checker in memory of its own. Bytes that are fewer than their header says are refused before anything is allocated for them.
fn verdict(heap: Global, bytes: &[u8]) -> Result<(), Fault> {
    let header = Header::read(bytes)?;
    let mut work = vec![in heap; 0u32; work_needed(header.corners, header.triangles)]?;
    Ok(check(bytes, work.as_mut_slice())?)
}
