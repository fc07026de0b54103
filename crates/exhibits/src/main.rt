// The sample blocks: the skin of each is made, and its bytes are checked; what it has is printed. Status 1 if one is not closed.
#![tactic(auto)]

use anyhow::anyhow;
use checker::{check, work_needed};
use skins::Skin;
use std::fs;

const SAMPLES: [&str; 4] = ["point", "noise", "flute", "shell"];

fn main(rt: HostRuntime) -> anyhow::Result<()> {
    for name in &SAMPLES {
        let bytes = fs::read(&rt, format!(in rt.alloc(); "{name}.block")?.as_str())?;
        show(&rt, name, bytes.as_slice())?;
    }
    Ok(())
}

// The checker in memory of its own is four lines, here as in `trials`.
fn show(rt: &HostRuntime, name: &str, bytes: &[u8]) -> anyhow::Result<()> {
    let skin = Skin::of(rt.alloc(), bytes).map_err(|trouble| anyhow!("{name}: {trouble}"))?;
    let made = skin.made;
    println!(rt;
        "{name} corners {} triangles {} parts {}",
        made.corners, made.triangles, made.parts
    )?;
    let mut written = Vec::new(rt.alloc());
    skin.write_to(&mut written)?;
    let mut work = vec![in rt.alloc(); 0u32; work_needed(made.corners, made.triangles)]?;
    check(written.as_slice(), work.as_mut_slice()).map_err(|refusal| anyhow!("{name}: {refusal}"))?;
    println!(rt; "  closed")?;
    Ok(())
}
