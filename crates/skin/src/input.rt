// The bytes of a block, from a file or from standard input.
use std::io::Read;
use std::{fs, io};

// The longest block, and one byte more: what follows cannot change the answer.
const MOST_BYTES: u64 = 4 + 96 * 96 * 96 + 1;

pub fn contents(rt: &HostRuntime, name: &str) -> io::Result<Vec<u8>> {
    match name {
        "-" => beginning(rt, rt.stdin()),
        _ => beginning(rt, fs::open(rt, name)?),
    }
}

// At most as many bytes as can matter.
fn beginning<R: Read + Drop>(rt: &HostRuntime, from: R) -> io::Result<Vec<u8>> {
    let mut bytes = Vec::new(rt.alloc());
    from.take(MOST_BYTES).read_to_end(&mut bytes)?;
    Ok(bytes)
}
