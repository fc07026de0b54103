// Trials of what is also proved: random blocks beside a slow, plain search, and damaged skins. Status 1 if anything is not as expected.
#![tactic(auto)]

use anyhow::ensure;

mod at_random;
mod blocks;
mod by_hand;
mod damage;
mod expected;
mod made;
mod random;
mod scan;
mod skin;
mod survey;

fn main(rt: HostRuntime) -> anyhow::Result<()> {
    let blocks = blocks::run(&rt)?;
    let by_hand = by_hand::run(&rt)?;
    let at_random = at_random::run(&rt)?;
    let differences = blocks.saturating_add(by_hand).saturating_add(at_random);
    println!(rt; "differences {differences}")?;
    ensure!(differences == 0, "the trials differ");
    Ok(())
}
