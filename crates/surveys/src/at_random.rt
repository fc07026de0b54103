// Random skins with random damage: what the checker says beside what the slow survey says.
use crate::damage::Damage;
use crate::made::{Made, checked};
use crate::random::{Kind, Pattern, Random, Spread};
use crate::skin::{Fault, Skin};
use crate::survey::{Said, surveyed};
use block::Refusal;
use std::alloc::{AllocError, Global};

const SEED: u64 = 0xd1b5_4a32_d192_ed03;

// How many blocks, with at most so many points along each axis, and how often each skin that is not empty is damaged.
const BLOCKS: u32 = 500;

const MOST: u8 = 6;

const TIMES: u32 = 10;

// Runs both kinds of damage, prints a line for each, and says how many answers differ.
pub fn run(rt: &HostRuntime) -> anyhow::Result<u32> {
    let heap = rt.alloc();
    let mut random = Random(SEED);
    let mut bytes_changed = Tally::default();
    let mut skins_changed = Tally::default();
    for n in 0..BLOCKS {
        let made = random_skin(heap, &mut random, n)?;
        if made.parts.is_empty() {
            continue;
        }
        let bytes = made.bytes(heap)?;
        for _ in 0..TIMES {
            let changed = change_byte(heap, &mut random, bytes.as_slice())?;
            bytes_changed.add(rt, changed.as_slice())?;
            let damaged = damage_skin(heap, &mut random, bytes.as_slice())?;
            skins_changed.add(rt, damaged.as_slice())?;
        }
    }
    bytes_changed.show(rt, "one byte changed")?;
    skins_changed.show(rt, "skins damaged")?;
    Ok(
        bytes_changed
            .differences
            .saturating_add(skins_changed.differences),
    )
}

// The skin of a block with few points inside, or with most, in turn.
fn random_skin(heap: Global, random: &mut Random, n: u32) -> anyhow::Result<Made> {
    let kind = Kind {
        pattern: if n % 2 == 0 {
            Pattern::Few
        } else {
            Pattern::Most
        },
        spread: Spread::Any,
        most: MOST,
    };
    let block = kind.scan(heap, random, n / 2)?.bytes(heap)?;
    Made::of(heap, block.as_slice())
}

fn change_byte(heap: Global, random: &mut Random, bytes: &[u8]) -> Result<Vec<u8>, AllocError> {
    let mut changed = bytes.to_vec(heap)?;
    let i = random.below(bytes.len());
    let change = random.byte_below(255).saturating_add(1);
    if let Some(byte) = changed.get_mut(i) {
        *byte ^= change;
    }
    Ok(changed)
}

fn damage_skin(heap: Global, random: &mut Random, bytes: &[u8]) -> Result<Vec<u8>, Fault> {
    let mut skin = Skin::read(heap, bytes)?;
    Damage::any(random, &skin).apply(&mut skin)?;
    Ok(skin.bytes(heap)?)
}

// How often each answer was given, and how often survey and checker differ.
#[derive(Clone, Copy, Default)]
struct Tally {
    closed: u32,
    length: u32,
    triangle: u32,
    side: u32,
    ring: u32,
    part: u32,
    other: u32,
    differences: u32,
}

impl Tally {
    fn add(&mut self, rt: &HostRuntime, bytes: &[u8]) -> anyhow::Result<()> {
        let said = checked(rt.alloc(), bytes)?;
        let found = surveyed(rt.alloc(), bytes)?;
        if said != found {
            self.differences = self.differences.saturating_add(1);
            println!(rt;
                "the checker says {}, the survey says {}",
                Said(said),
                Said(found)
            )?;
        }
        let times = match said {
            Ok(()) => &mut self.closed,
            Err(Refusal::WrongLength(_)) => &mut self.length,
            Err(Refusal::BadTriangle(_)) => &mut self.triangle,
            Err(Refusal::BadSide(_)) => &mut self.side,
            Err(Refusal::BadRing(_)) => &mut self.ring,
            Err(Refusal::BadPart(_)) => &mut self.part,
            Err(_) => &mut self.other,
        };
        *times = times.saturating_add(1);
        Ok(())
    }

    fn show(self, rt: &HostRuntime, name: &str) -> anyhow::Result<()> {
        let Tally {
            closed,
            length,
            triangle,
            side,
            ring,
            part,
            differences,
            ..
        } = self;
        println!(rt;
            "{name}: closed {closed}, refused 1 {length}, 5 {triangle}, 6 {side}, 7 {ring}, 8 {part}, {differences} differences"
        )?;
        Ok(())
    }
}
