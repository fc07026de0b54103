// skin BLOCK [OUT]: builds the skin of a scan, says what it has, and writes its bytes to OUT if that is named.
#![tactic(auto)]

mod input;
mod output;

use anyhow::{anyhow, bail};
use input::contents;
use output::save;
use skins::{Skin, Trouble};
use std::env;
use std::fmt::Display;
use std::process::ExitCode;
use whole::Made;

const USAGE: &str = "usage: skin BLOCK [OUT]
BLOCK is a file of a block's bytes, or - for standard input. The skin's bytes are written to OUT, if it is named.
A block that is refused is answered by 'refused N at P', and status 1.";

// What went wrong was said where it could be, and whole, which an error keeps only in part: here only the status is left.
// `check_skin` has the same lines: a library for them would hold nothing else.
fn main(rt: HostRuntime) -> ExitCode {
    match answer(&rt) {
        Ok(()) => ExitCode::SUCCESS,
        Err(_) => ExitCode::FAILURE,
    }
}

fn answer(rt: &HostRuntime) -> anyhow::Result<()> {
    let args: Vec<String> = env::args(rt)?.skip(1).collect(rt.alloc())?;
    match args.as_slice() {
        [help] if help.as_str() == "--help" => Ok(rt.println(USAGE)?),
        [block] => run(rt, block.as_str(), None),
        // An empty word names no file.
        [block, out] => run(
            rt,
            block.as_str(),
            Some(out.as_str()).filter(|out| !out.is_empty()),
        ),
        _ => {
            rt.eprintln(USAGE)?;
            bail!("wrong use")
        }
    }
}

fn run(rt: &HostRuntime, name: &str, out: Option<&str>) -> anyhow::Result<()> {
    let bytes = said(rt, name, contents(rt, name))?;
    match Skin::of(rt.alloc(), bytes.as_slice()) {
        Err(Trouble::Refused(refusal)) => {
            rt.println(refusal)?;
            bail!("refused")
        }
        answer => report(rt, &said(rt, name, answer)?, out),
    }
}

// The file first: what is printed is then true of it.
fn report(rt: &HostRuntime, skin: &Skin, out: Option<&str>) -> anyhow::Result<()> {
    if let Some(out) = out {
        said(rt, out, save(rt, skin, out))?;
    }
    let Made {
        corners,
        triangles,
        parts,
    } = skin.made;
    println!(rt; "corners {corners} triangles {triangles} parts {parts}")?;
    for (i, part) in skin.parts.iter().enumerate() {
        println!(rt; "part {i} {part}")?;
    }
    Ok(())
}

// What was had of a file; or what went wrong with it, said.
fn said<T, E: Display + Drop>(
    rt: &HostRuntime,
    file: &str,
    outcome: Result<T, E>,
) -> anyhow::Result<T> {
    match outcome {
        Ok(value) => Ok(value),
        Err(e) => {
            eprintln!(rt; "skin: {file}: {e}")?;
            Err(anyhow!("said"))
        }
    }
}
