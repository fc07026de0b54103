// bench BLOCK..: how long each stage of the work on a block takes.
#![tactic(auto)]

mod rounds;

use rounds::{Buffers, Outcome, sorted};
use std::{env, fs, io};
use whole::Made;

const USAGE: &str = "usage: bench BLOCK..
For each block seven rounds over the same buffers, after one that is not counted: the best and the median of each stage.
'making' is building, parts and volumes by the one call that skin makes, 'streaming' writes the bytes as skin does, to nowhere; 'whole' is
what skin does but for files: counting, making and streaming.";

const ROUNDS: usize = 7;

fn main(rt: HostRuntime) -> anyhow::Result<()> {
    let args: Vec<String> = env::args(&rt)?.skip(1).collect(rt.alloc())?;
    if args.is_empty() {
        rt.println(USAGE)?;
    }
    for name in args.iter() {
        bench(&rt, name.as_str())?;
    }
    Ok(())
}

fn bench(rt: &HostRuntime, name: &str) -> anyhow::Result<()> {
    let bytes = fs::read(rt, name)?;
    let mut buffers = Buffers::new(rt.alloc(), bytes.as_slice())?;
    let first = buffers.round(rt, bytes.as_slice())?;
    let mut rounds = Vec::new(rt.alloc());
    for _ in 0..ROUNDS {
        rounds.push(buffers.round(rt, bytes.as_slice())?)?;
    }
    Ok(show(rt, name, &first, rounds.as_slice())?)
}

fn show(rt: &HostRuntime, name: &str, first: &Outcome, rounds: &[Outcome]) -> io::Result<()> {
    let Made {
        corners,
        triangles,
        parts,
    } = first.made;
    println!(rt; "{name} corners {corners} triangles {triangles} parts {parts}")?;
    for (stage, (label, _)) in first.spans.iter().enumerate() {
        let nanos = sorted(rt.alloc(), rounds, stage)?;
        show_stage(rt, label, nanos.as_slice(), u64::from(triangles))?;
    }
    Ok(())
}

fn show_stage(rt: &HostRuntime, label: &str, nanos: &[u64], triangles: u64) -> io::Result<()> {
    let [best, ..] = nanos else { return Ok(()) };
    let median = nanos[nanos.len() / 2];
    let tenths = median.saturating_mul(10) / triangles.max(1);
    let (best, median, each, tenth) = (*best / 1000, median / 1000, tenths / 10, tenths % 10);
    println!(rt; "  {label} best {best} us median {median} us, {each}.{tenth} ns a triangle")
}
