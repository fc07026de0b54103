// A scan as a block of values on a grid: read from its bytes, or refused by a number and a place.
#![tactic(auto)]

ghost use Rattle.std.specs.Prelude.{◌≡◌, ℕ, ◌*◌, ◌^◌, ◌<◌, List, [], ◌∷◌, length, Some, None, MatchResult, slice_index, position, not};
ghost use Rattle.std.specs.Result.{result_err};
ghost use Rattle.theory.specs.Grid.{pt};
ghost use Rattle.grid.specs.Places.{at};
ghost use Rattle.block.specs.Scan.{bytes_in, in_range, at_end, size_x, size_y, size_z, threshold, byte_of, value_of, within, inside, on_border, row, layer, points, fault_at, faults, header_fault, excess, refusal_of, Taken, TakenIfGood};

mod refusal;

// Callers name the points of a block by it.
pub use grid::Point;
pub use refusal::Refusal;

// How few and how many points there may be along an axis.
const LEAST: u8 = 2;

const MOST: u8 = 96;

// The bytes of a block that was read: sizes, threshold, and a value for each point. It borrows them, and copies nothing.
#[derive(Clone, Copy)]
pub struct Block<'a> {
    pub bytes: &'a [u8],
}

impl<'a> Block<'a> {
    // The block in these bytes, or the first thing that is wrong with them. One pass, in time linear in the number of points.
    #[tactic(auto, using(crate::proofs::Goodness::taken))]
    pub fn read(bytes: &'a [u8]) -> Result<Block<'a>, Refusal>
        ensures cases { MatchResult result (λ k. (k.bytes.now ≡ bytes.now) × Taken bytes.now) (λ e. refusal_of bytes.now ≡ Some e) }
    {
        let block = Block { bytes };
        block.check()?;
        Ok(block)
    }

    // How many points there are along x.
    pub fn size_x(&self) -> u8
        ensures value { result ≡ size_x (bytes_in self.entry) }
    {
        self.byte(0)
    }

    // How many points there are along y.
    pub fn size_y(&self) -> u8
        ensures value { result ≡ size_y (bytes_in self.entry) }
    {
        self.byte(1)
    }

    // How many points there are along z.
    pub fn size_z(&self) -> u8
        ensures value { result ≡ size_z (bytes_in self.entry) }
    {
        self.byte(2)
    }

    // How many points there are.
    pub fn points(&self) -> usize
        ensures value { result ≡ size_x (bytes_in self.entry) * (size_y (bytes_in self.entry) * size_z (bytes_in self.entry)) }
        ensures bound { result < 2 ^ 24 }
    {
        self.size_x() as usize * (self.size_y() as usize * self.size_z() as usize)
    }

    // The value from which on a point is inside.
    pub fn threshold(&self) -> u8
        ensures value { result ≡ threshold (bytes_in self.entry) }
    {
        self.byte(3)
    }

    // The value of a point; 0 where there is no byte for it.
    pub fn value(&self, p: Point) -> u8
        ensures value { result ≡ value_of (bytes_in self.entry) (at p) }
    {
        self.byte(self.place(p))
    }

    // Whether a point is inside: it lies in the block, and its value is the threshold or more.
    #[tactic(auto, unfolding(crate::specs::Scan::inside))]
    pub fn inside(&self, p: Point) -> bool
        ensures value { result ≡ inside (bytes_in self.entry) (at p) }
    {
        self.within(p) && self.value(p) >= self.threshold()
    }

    fn within(&self, p: Point) -> bool
        ensures value { result ≡ within (bytes_in self.entry) (at p) }
    {
        p.x < self.size_x() && p.y < self.size_y() && p.z < self.size_z()
    }

    fn byte(&self, i: usize) -> u8
        ensures value { result ≡ slice_index (bytes_in self.entry) i }
    {
        self.bytes.get(i).copied().unwrap_or(0)
    }

    fn place(&self, p: Point) -> usize
        ensures value { result ≡ byte_of (bytes_in self.entry) (at p) }
        ensures bound { result < 2 ^ 32 }
    {
        let a = self.size_x() as usize;
        let b = self.size_y() as usize;
        4 + (p.x as usize + a * (p.y as usize + b * p.z as usize))
    }

    #[tactic(auto, unfolding(crate::specs::Scan::refusal_of))]
    fn check(&self) -> Result<(), Refusal>
        ensures value { result_err result ≡ refusal_of (bytes_in self.entry) }
    {
        self.check_header()?;
        self.check_values()?;
        self.check_end()
    }

    fn check_header(&self) -> Result<(), Refusal>
        ensures value { result_err result ≡ header_fault (bytes_in self.entry) }
    {
        if self.bytes.len() < 4 {
            return Err(Refusal::WrongLength(self.bytes.len()));
        }
        if let Some(axis) = self.wrong_axis() {
            return Err(Refusal::WrongSize(axis));
        }
        if self.threshold() == 0 {
            return Err(Refusal::WrongSize(3));
        }
        Ok(())
    }

    // The first axis along which there are too few points or too many.
    fn wrong_axis(&self) -> Option<usize>
        ensures value { let bs = bytes_in self.entry in result ≡ position (λ n. not (in_range n)) (size_x bs ∷ size_y bs ∷ size_z bs ∷ []) }
    {
        let sizes = [self.size_x(), self.size_y(), self.size_z()];
        sizes.iter().position(|&size| !in_range(size))
    }

    fn check_values(&self) -> Result<(), Refusal>
        ensures value { let bs = bytes_in self.entry in result_err result ≡ faults bs (points bs) 4 }
    {
        for z in 0..self.size_z() {
            self.check_layer(z)?;
        }
        Ok(())
    }

    fn check_layer(&self, z: u8) -> Result<(), Refusal>
        ensures value { let bs = bytes_in self.entry in result_err result ≡ faults bs (layer (size_x bs) (size_y bs) z) (byte_of bs (pt 0 0 z)) }
    {
        for y in 0..self.size_y() {
            self.check_row(y, z)?;
        }
        Ok(())
    }

    fn check_row(&self, y: u8, z: u8) -> Result<(), Refusal>
        ensures value { let bs = bytes_in self.entry in result_err result ≡ faults bs (row (size_x bs) y z) (byte_of bs (pt 0 y z)) }
    {
        let first = self.place(Point { x: 0, y, z });
        for x in 0..self.size_x() {
            self.check_point(Point { x, y, z }, first + x as usize)?;
        }
        Ok(())
    }

    fn check_point(&self, p: Point, place: usize) -> Result<(), Refusal>
        ensures value { result_err result ≡ fault_at (bytes_in self.entry) (at p) place }
    {
        let Some(&value) = self.bytes.get(place) else {
            return Err(Refusal::WrongLength(place));
        };
        if self.on_border(p) && value >= self.threshold() {
            return Err(Refusal::OpenBorder(place));
        }
        Ok(())
    }

    fn on_border(&self, p: Point) -> bool
        ensures value { result ≡ on_border (bytes_in self.entry) (at p) }
    {
        at_end(p.x, self.size_x()) || at_end(p.y, self.size_y()) || at_end(p.z, self.size_z())
    }

    fn check_end(&self) -> Result<(), Refusal>
        ensures value { result_err result ≡ excess (bytes_in self.entry) }
    {
        let end = 4 + self.points();
        if end < self.bytes.len() {
            return Err(Refusal::WrongLength(end));
        }
        Ok(())
    }
}

fn in_range(size: u8) -> bool
    ensures value { result ≡ in_range size }
{
    (LEAST..=MOST).contains(&size)
}

// The first or the last of so many points.
fn at_end(i: u8, size: u8) -> bool
    ensures value { result ≡ at_end i size }
{
    i == 0 || i as usize + 1 == size as usize
}

// A block is taken exactly if it is good.
pub fn taken_exactly_if_good() -> u8
    ensures { TakenIfGood }
{
    0
}

#[cfg(test)]
mod tests {
    use super::*;
    use std::test::Fail;

    fn refused(bytes: &[u8]) -> Option<Refusal> {
        Block::read(bytes).err()
    }

    #[test]
    fn short_files(rt: HostRuntime) {
        let bytes = [2, 2, 2, 1];
        assert_eq!(rt; refused(&bytes[0..0]), Some(Refusal::WrongLength(0)));
        assert_eq!(rt; refused(&bytes[0..1]), Some(Refusal::WrongLength(1)));
        assert_eq!(rt; refused(&bytes[0..2]), Some(Refusal::WrongLength(2)));
        assert_eq!(rt; refused(&bytes[0..3]), Some(Refusal::WrongLength(3)));
        assert_eq!(rt; refused(&bytes), Some(Refusal::WrongLength(4)));
    }

    #[test]
    fn sizes_and_threshold(rt: HostRuntime) {
        assert_eq!(rt; refused(&[1, 1, 1, 0]), Some(Refusal::WrongSize(0)));
        assert_eq!(rt; refused(&[97, 2, 2, 1]), Some(Refusal::WrongSize(0)));
        assert_eq!(rt; refused(&[96, 1, 2, 1]), Some(Refusal::WrongSize(1)));
        assert_eq!(rt; refused(&[2, 97, 2, 1]), Some(Refusal::WrongSize(1)));
        assert_eq!(rt; refused(&[2, 96, 1, 1]), Some(Refusal::WrongSize(2)));
        assert_eq!(rt; refused(&[2, 2, 255, 1]), Some(Refusal::WrongSize(2)));
        assert_eq!(rt; refused(&[2, 2, 96, 0]), Some(Refusal::WrongSize(3)));
    }

    #[test]
    fn borders_and_ends(rt: HostRuntime) {
        assert_eq!(rt; refused(&[2, 2, 2, 9, 8, 8, 8, 8, 8, 8, 8, 8]), None);
        assert_eq!(rt;
            refused(&[2, 2, 2, 9, 9, 8, 8, 8, 8, 8, 8, 8]),
            Some(Refusal::OpenBorder(4))
        );
        assert_eq!(rt;
            refused(&[2, 2, 2, 9, 8, 8, 8, 8, 8, 8, 8, 9]),
            Some(Refusal::OpenBorder(11))
        );
        assert_eq!(rt;
            refused(&[2, 2, 2, 9, 8, 8, 8, 8, 8, 8, 8]),
            Some(Refusal::WrongLength(11))
        );
        assert_eq!(rt;
            refused(&[2, 2, 2, 9, 8, 8, 8, 8, 8, 8, 8, 8, 8]),
            Some(Refusal::WrongLength(12))
        );
        assert_eq!(rt;
            refused(&[2, 2, 2, 9, 8, 255]),
            Some(Refusal::OpenBorder(5))
        );
    }

    #[test]
    fn the_largest_block(rt: HostRuntime) -> Result<(), Fail> {
        let mut bytes = vec![in rt.alloc(); 0u8; 884740]?;
        assert!(rt; bytes.len() == 884740);
        bytes[0] = 96;
        bytes[1] = 96;
        bytes[2] = 96;
        bytes[3] = 1;
        bytes[4 + 1 + 96 + 96 * 96] = 1;
        assert_eq!(rt; refused(bytes.as_slice()), None);
        let block = Block {
            bytes: bytes.as_slice(),
        };
        assert!(rt; block.inside(Point { x: 1, y: 1, z: 1 }));
        assert!(rt; !block.inside(Point { x: 1, y: 1, z: 2 }));
        bytes.push(0)?;
        assert_eq!(rt;
            refused(bytes.as_slice()),
            Some(Refusal::WrongLength(884740))
        );
        Ok(())
    }

    #[test]
    fn printed(rt: HostRuntime) -> Result<(), Fail> {
        let text = Refusal::OpenBorder(11).to_string(rt.alloc())?;
        assert_eq!(rt; text.as_str(), "refused 3 at 11");
        Ok(())
    }
}
