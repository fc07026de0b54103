// The parts of a skin: which triangles hang together, numbered by their first triangle, in flat buffers of the caller's, without a heap.
#![tactic(auto)]

ghost use Rattle.std.specs.Prelude.{◌≡◌, ℕ, ◌%◌, ◌^◌, ◌<◌, true, ◌↔◌, length, Some, MatchOption, slice_index};
ghost use Rattle.theory_parts.specs.Parts.{InTurn};
ghost use Rattle.part.specs.Forest.{Forest, Link, Alike};
ghost use Rattle.theory_parts.specs.Buffer.{count_in, parts_in};
ghost use Rattle.part.specs.Taking.{InRange, Takes};
ghost use Rattle.part.specs.Links.{OnlyByLinks, LinksNumberParts, SkinsNumbered, Refused, Written};
ghost use Rattle.part.specs.Passes.{Told, SameCorners, HoldsNumbers, PartsBelow, SameParts, given_at};

mod forest;

use forest::Trees;

// Stands for the new number of a number that has none yet. There are no more parts than corners, so no part has it for its number.
// It is no Option, since new numbers stand in the caller's flat `u32` work.
const UNNUMBERED: u32 = u32::MAX;

// Writes the number of each triangle's part, and says how many parts there are. A triangle is four numbers: its three corners' and its
// part's. Corners that a triangle has are in one part, and parts are numbered by their first triangle. Nothing is written, and None
// returned, if the last triangle is not whole, a corner's number is not below `corners`, or `work` has not a number for each corner.
// In time linear in triangles and corners, times the logarithm of corners at worst; without a heap.
pub fn number_parts(triangles: &mut [u32], corners: u32, work: &mut [u32]) -> Option<u32>
    ensures cases { MatchOption result (Refused triangles.old corners work.old triangles.new work.new) (Written triangles.old corners work.old triangles.new) }
{
    if !takes(triangles, corners, work) {
        return None;
    }
    Some(number_skin(triangles, corners, work))
}

// The same for triangles that are known to be taken, which are not looked at first.
pub fn number_skin(triangles: &mut [u32], corners: u32, work: &mut [u32]) -> u32
    requires { Takes triangles.old corners work.old }
    ensures written { Written triangles.old corners work.old triangles.new result }
{
    let numbers = &mut work[0..corners as usize];
    number_corners(triangles, numbers);
    match write_numbers(triangles, numbers) {
        Some(count) => count,
        None => give_numbers(triangles, numbers),
    }
}

// Whatever numbers the parts by linked corners numbers them as any other does; where there is one ring around each corner it numbers them by
// common sides, and so it does in every skin.
pub fn links_number_parts() -> u8
    ensures only { OnlyByLinks }
    ensures parts { LinksNumberParts }
    ensures skins { SkinsNumbered }
{
    0
}

fn takes(triangles: &[u32], corners: u32, work: &[u32]) -> bool
    ensures value { (result ≡ true) ↔ Takes triangles.now corners work.now }
{
    triangles.len() % 4 == 0 && corners as usize <= work.len() && in_range(triangles, corners)
}

fn in_range(triangles: &[u32], corners: u32) -> bool
    requires { length triangles.now % 4 ≡ 0 }
    ensures value { (result ≡ true) ↔ InRange triangles.now corners }
{
    triangles
        .as_chunks::<4>()
        .0
        .iter()
        .all(|&[a, b, c, _]| a < corners && b < corners && c < corners)
}

// Numbers the corners, so that linked ones, and no others, have one number. That a `u32` counts them is said of each slice of numbers: a
// struct of `&mut` slices would have to say instead that it keeps the same ones, which is no shorter.
fn number_corners(triangles: &[u32], numbers: &mut [u32])
    requires { (InRange triangles.now (length numbers.old)) × (length numbers.old < 2 ^ 32) }
    ensures told { Told triangles.now numbers.new }
{
    let mut trees = Trees::alone(numbers);
    for &[a, b, c, _] in triangles.as_chunks::<4>().0 {
        trees.unite_three(a, b, c);
    }
    trees.number();
}

// Writes the number of its first corner into each triangle. Says how many numbers there are if they come in turn, as they do where corners
// are numbered as triangles meet them.
fn write_numbers(triangles: &mut [u32], numbers: &[u32]) -> Option<u32>
    requires { (InRange triangles.old (length numbers.now)) × ((Told triangles.old numbers.now) × (length numbers.now < 2 ^ 32)) }
    ensures same { SameCorners triangles.old triangles.new }
    ensures written { HoldsNumbers numbers.now triangles.old triangles.new }
    ensures turn { (n : ℕ) → result ≡ Some n → InTurn 0 (parts_in triangles.new) n }
{
    let mut count = Some(0);
    // By index: nothing is known of what was written to the chunks of `as_chunks_mut`.
    for i in 0..triangles.len() / 4 {
        let number = numbers[triangles[4 * i] as usize];
        triangles[4 * i + 3] = number;
        count = match count {
            Some(n) if number < n => Some(n),
            Some(n) if number == n => Some(n + 1),
            _ => None,
        };
    }
    count
}

// Puts numbers in turn in the place of others, and says how many it gave. What `numbers` held before does not matter.
fn give_numbers(triangles: &mut [u32], numbers: &mut [u32]) -> u32
    requires { (PartsBelow triangles.old (length numbers.old)) × (length numbers.old < 2 ^ 32) }
    ensures same { SameCorners triangles.old triangles.new }
    ensures alike { SameParts triangles.old triangles.new }
    ensures turn { InTurn 0 (parts_in triangles.new) result }
{
    numbers.fill(UNNUMBERED);
    let mut count = 0;
    // By index, as above: nothing is known of what was written to chunks.
    for i in 0..triangles.len() / 4 {
        let at = 4 * i + 3;
        let number = number_of(numbers, triangles[at], count);
        if number == count {
            count += 1;
        }
        triangles[at] = number;
    }
    count
}

// The new number of a number, which is the next one if it has none.
fn number_of(numbers: &mut [u32], old: u32, next: u32) -> u32
    requires { old < length numbers.old }
    ensures given { numbers.new ≡ given_at numbers.old old next }
    ensures value { result ≡ slice_index numbers.new old }
{
    if numbers[old as usize] == UNNUMBERED {
        numbers[old as usize] = next;
    }
    numbers[old as usize]
}

#[cfg(test)]
mod tests {
    use super::*;

    // Two tetrahedra in turns, the one with the greater corners first.
    #[test]
    fn parts_by_first_triangle(rt: HostRuntime) {
        let mut triangles = [
            4, 5, 6, 9, 0, 1, 2, 9, 4, 6, 7, 9, 0, 2, 3, 9, 4, 7, 5, 9, 0, 3, 1, 9, 5, 7, 6, 9, 1,
            3, 2, 9,
        ];
        assert_eq!(rt; number_parts(&mut triangles, 8, &mut [9; 8]), Some(2));
        assert_eq!(rt;
            triangles,
            [
                4, 5, 6, 0, 0, 1, 2, 1, 4, 6, 7, 0, 0, 2, 3, 1, 4, 7, 5, 0, 0, 3, 1, 1, 5, 7, 6, 0,
                1, 3, 2, 1,
            ]
        );
        assert_eq!(rt; number_parts(&mut [], 0, &mut []), Some(0));
    }
}
