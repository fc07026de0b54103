// From a block's bytes to its finished skin: corners, triangles, parts and volumes, in buffers of the caller's.
#![tactic(auto)]

ghost use Rattle.std.specs.Result.{MatchResult};
ghost use Rattle.whole.specs.Finished.{Finished, Refused};

use block::Refusal;
use part::number_skin;
use triangle::build;
use volume::{Part, measure_skin};

// How many corners, triangles and parts a skin has: what was made, where a `mesh::Header` is only what some bytes say.
#[derive(Clone, Copy, PartialEq, Eq, Debug)]
pub struct Made {
    pub corners: u32,
    pub triangles: u32,
    pub parts: u32,
}

// Builds the skin of a block, numbers its parts and measures them: three coordinates for each corner, four numbers for each triangle (its
// corners' numbers and its part's), and for each part, as far as `parts` has room, whether it is seen from outside, how many triangles it
// has and what it encloses. `work` holds six numbers for each point of the block. A block or a buffer that is refused leaves every buffer as
// it was. In time linear in the number of points, times the logarithm of the number of corners at worst; without a heap. Each buffer is
// lent on its own: callers have them apart, and a struct of them would only be taken apart again.
pub fn make_skin(
    bytes: &[u8],
    corners: &mut [u32],
    triangles: &mut [u32],
    work: &mut [u32],
    parts: &mut [Part],
) -> Result<Made, Refusal>
    ensures cases { MatchResult result (Finished bytes.now corners.old triangles.old work.old parts.old corners.new triangles.new parts.new) (Refused bytes.now corners.old triangles.old work.old parts.old corners.new triangles.new work.new parts.new) }
{
    let counts = build(bytes, corners, triangles, work)?;
    let corners = &corners[0..3 * counts.corners as usize];
    let triangles = &mut triangles[0..4 * counts.triangles as usize];
    let count = number_skin(triangles, counts.corners, work);
    let room = parts.len().min(count as usize);
    measure_skin(corners, triangles, &mut parts[0..room]);
    Ok(Made {
        corners: counts.corners,
        triangles: counts.triangles,
        parts: count,
    })
}
