// Where a corner of the skin lies on its edge, and how its coordinates are written into a buffer of the caller's.
#![tactic(auto)]

ghost use Rattle.std.specs.Prelude.{◌≡◌, ◌+◌, ◌*◌, ◌<◌, ◌≤◌, length};
ghost use Rattle.theory.specs.Places.{between};
ghost use Rattle.corner.specs.Fraction.{fraction_of, FractionsInRange};
ghost use Rattle.corner.specs.Buffer.{place_between, coordinates, put_corner, FilledInOrder};

use grid::Point;

// The number of a corner, from 0, in the order in which triangles meet the corners.
#[derive(Clone, Copy, PartialEq, Eq, Debug)]
pub struct CornerNumber(pub u32);

// How far a corner lies from its inside point to its outside point, in 256ths of the way, by the values of the two and the threshold.
// It is never 0 or 256: a corner is at no point of the grid.
pub fn fraction(inside: u8, outside: u8, threshold: u8) -> u32
    requires { (outside < threshold) × (threshold ≤ inside) }
    ensures value { result ≡ fraction_of inside outside threshold }
    ensures bound { (1 ≤ result) × (result ≤ 254) }
{
    let above = (inside - threshold) as u32;
    let across = (inside - outside) as u32;
    1 + 254 * (2 * above + 1) / (2 * across)
}

// Writes the corner that lies k 256ths of the way from `inside` to `outside` as number n of a buffer of corners. `k` is a number and no type
// of its own, which would ask callers for more.
pub fn write_corner(corners: &mut [u32], n: CornerNumber, inside: Point, outside: Point, k: u32)
    requires { (3 * n.0 + 3 ≤ length corners.old) × (k ≤ 256) }
    ensures written { corners.new ≡ put_corner corners.old n.0 (place_between k inside outside) }
{
    let first = 3 * n.0 as usize;
    write_place(&mut corners[first..first + 3], inside, outside, k);
}

// Writes the three coordinates of the corner that lies k 256ths of the way from `inside` to `outside` over the three numbers of `place`.
pub fn write_place(place: &mut [u32], inside: Point, outside: Point, k: u32)
    requires { (length place.old ≡ 3) × (k ≤ 256) }
    ensures written { place.new ≡ coordinates (place_between k inside outside) }
{
    place.copy_from_slice(&[
        between(inside.x, outside.x, k),
        between(inside.y, outside.y, k),
        between(inside.z, outside.z, k),
    ]);
}

fn between(from: u8, to: u8, k: u32) -> u32
    requires { k ≤ 256 }
    ensures value { result ≡ between k from to }
{
    256 * from as u32 + k * to as u32 - k * from as u32
}

// In a block that was taken, the fraction of every edge from a point inside to one outside is 1 to 254.
pub fn fractions_in_range() -> u8
    ensures { FractionsInRange }
{
    0
}

// Corners that are written under the numbers 0, 1, … stand one after the other, and what follows them is as it was.
pub fn corners_stand_in_order() -> u8
    ensures { FilledInOrder }
{
    0
}

#[cfg(test)]
mod tests {
    use super::*;

    #[test]
    fn fractions_by_hand(rt: HostRuntime) {
        assert_eq!(rt; fraction(128, 0, 128), 1);
        assert_eq!(rt; fraction(255, 127, 128), 254);
        assert_eq!(rt; fraction(1, 0, 1), 128);
        assert_eq!(rt; fraction(255, 0, 1), 254);
        assert_eq!(rt; fraction(255, 254, 255), 128);
        assert_eq!(rt; fraction(255, 0, 255), 1);
    }

    #[test]
    fn one_corner_is_written(rt: HostRuntime) {
        let mut corners = [7u32; 9];
        let inside = Point { x: 1, y: 1, z: 1 };
        let outside = Point { x: 2, y: 1, z: 0 };
        write_corner(&mut corners, CornerNumber(1), inside, outside, 100);
        assert_eq!(rt; corners, [7, 7, 7, 356, 256, 156, 7, 7, 7]);
    }
}
