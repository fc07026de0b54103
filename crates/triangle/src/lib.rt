// From a block's bytes to its corners and triangles, in a fixed order, in buffers of the caller's.
#![tactic(auto)]

ghost use Rattle.std.specs.Prelude.{◌≡◌, ◌<◌, ◌≤◌, Some, MatchResult};
ghost use Rattle.block.specs.Scan.{refusal_of};
ghost use Rattle.block.specs.declared.refusal.Refusal.TheVariants.{ShortBuffer};
ghost use Rattle.triangle.specs.Built.{Built, Needed, Refused};

mod cases;
mod count;
mod cube;
mod few;
mod scan;
mod walk;
mod write;

use block::Refusal;
use scan::Scan;

// How many corners and how many triangles a skin has.
#[derive(Clone, Copy, PartialEq, Eq, Default, Debug)]
pub struct Counts {
    pub corners: u32,
    pub triangles: u32,
}

// Builds the skin of a block: three coordinates for each corner, four numbers for each triangle (its corners' numbers, and 0 for its part).
// `work` holds six numbers for each point of the block. Two passes over the cubes, each in time linear in their number; the first
// one counts, so that a block or a buffer that is refused leaves every buffer as it was.
pub fn build(
    bytes: &[u8],
    corners: &mut [u32],
    triangles: &mut [u32],
    work: &mut [u32],
) -> Result<Counts, Refusal>
    ensures cases { MatchResult result (Built bytes.now corners.old triangles.old work.old corners.new triangles.new) (Refused bytes.now corners.old triangles.old work.old corners.new triangles.new work.new) }
{
    let scan = Scan::read(bytes)?;
    let counts = scan.count();
    fits(counts.corners, corners.len() / 3)?;
    fits(counts.triangles, triangles.len() / 4)?;
    if work.len() < 6 * scan.block.points() {
        return Err(Refusal::ShortBuffer(0));
    }
    scan.write(corners, triangles, work);
    Ok(counts)
}

// How many corners and triangles the skin of a block has: buffers that hold as many are long enough for them. One pass over the cubes.
pub fn needed(bytes: &[u8]) -> Result<Counts, Refusal>
    ensures cases { MatchResult result (Needed bytes.now) (λ e. refusal_of bytes.now ≡ Some e) }
{
    Ok(Scan::read(bytes)?.count())
}

// Whether so many have room in a buffer that holds `most`.
fn fits(count: u32, most: usize) -> Result<(), Refusal>
    ensures cases { MatchResult result (λ _. count ≤ most) (λ e. (most < count) × (e ≡ ShortBuffer most)) }
{
    if most < count as usize {
        return Err(Refusal::ShortBuffer(most));
    }
    Ok(())
}
