// The printer's bytes, written beside their place and then put there: the file is whole, or it is not there.
use skins::Skin;
use std::io::{BufWriter, Write};
use std::{fs, io};

pub fn save(rt: &HostRuntime, skin: &Skin, path: &str) -> io::Result<()> {
    let beside = format!(in rt.alloc(); "{path}.part")?;
    write_file(rt, skin, beside.as_str()).inspect_err(|_| {
        let _ = fs::remove_file(rt, beside.as_str());
    })?;
    fs::rename(rt, beside.as_str(), path)
}

fn write_file(rt: &HostRuntime, skin: &Skin, path: &str) -> io::Result<()> {
    let mut to = BufWriter::new(rt.alloc(), fs::create(rt, path)?)?;
    skin.write_to(&mut to)?;
    to.flush()
}
