// A block that was taken, and a row of its cubes: who of their points is inside, for all of them at once.
ghost use Rattle.std.specs.Prelude.{◌≡◌, suc, ◌<◌, ◌≤◌, Some, None, MatchResult, ◌==◌, bit_or};
ghost use Rattle.std.specs.List.{fold};
ghost use Rattle.block.specs.Scan.{size_x, size_y, size_z, refusal_of, Taken};
ghost use Rattle.triangle.specs.Rows.{Line, Faces, RowOf};

use super::cases::Cases;
use block::{Block, Refusal};

// A block that was taken, and what its cubes add to a skin.
#[derive(Drop)]
pub struct Scan<'a> {
    pub block: Block<'a>,
    pub cases: Cases,
    ghost accepted: { refusal_of block.bytes.now ≡ None },
    ghost along_x: { (2 ≤ size_x block.bytes.now) × (size_x block.bytes.now ≤ 96) },
    ghost along_y: { (2 ≤ size_y block.bytes.now) × (size_y block.bytes.now ≤ 96) },
    ghost along_z: { (2 ≤ size_z block.bytes.now) × (size_z block.bytes.now ≤ 96) },
}

impl<'a> Scan<'a> {
    ghost use Rattle.triangle.specs.Passes.{bytes_of};

    pub fn read(bytes: &'a [u8]) -> Result<Self, Refusal>
        ensures cases { MatchResult result (λ s. (s.block.bytes.now ≡ bytes.now) × Taken bytes.now) (λ e. refusal_of bytes.now ≡ Some e) }
    {
        let block = Block::read(bytes)?;
        Ok(Scan {
            block,
            cases: Cases::new(),
        })
    }

    // The bits of the cubes of a row, by their places along x; None where no point of the row is inside, so that all its cubes are plain.
    // An array and no `Few`, which takes its items one at a time: here the bits of all cubes are worked out at once.
    pub fn row(&self, y: u8, z: u8) -> Option<[u8; 96]>
        requires { (suc y < size_y (bytes_of self)) × (suc z < size_z (bytes_of self)) }
        ensures row { RowOf (bytes_of self.entry) y z result }
    {
        let faces = self.faces(y, z);
        if all_zero(&faces) {
            return None;
        }
        let count = self.block.size_x() as usize - 1;
        let mut bits = [0; 96];
        for (x, cube) in bits[..count].iter_mut().enumerate() {
            *cube = faces[x] / 2 + faces[x + 1];
        }
        Some(bits)
    }

    // Four points of the grid for each x: bits 1, 3, 5 and 7 say who of them is inside, in the order of their numbers in the cube on their
    // left. The cube between two such faces has the bits `near / 2 + far`.
    fn faces(&self, y: u8, z: u8) -> [u8; 96]
        requires { (suc y < size_y (bytes_of self)) × (suc z < size_z (bytes_of self)) }
        ensures faces { Faces (bytes_of self.entry) y z result }
    {
        let t = self.block.threshold();
        let a = self.line(y, z);
        let b = self.line(y + 1, z);
        let c = self.line(y, z + 1);
        let d = self.line(y + 1, z + 1);
        let count = self.block.size_x() as usize;
        let mut faces = [0; 96];
        for (x, face) in faces[..count].iter_mut().enumerate() {
            *face = 2 * (a[x] >= t) as u8
                + 8 * (b[x] >= t) as u8
                + 32 * (c[x] >= t) as u8
                + 128 * (d[x] >= t) as u8;
        }
        faces
    }

    // The values of the points at one y and z.
    fn line(&self, y: u8, z: u8) -> &'a [u8]
        requires { (y < size_y (bytes_of self)) × (z < size_z (bytes_of self)) }
        ensures line { Line (bytes_of self.entry) y z result.now }
    {
        let count = self.block.size_x() as usize;
        let first = 4 + count * (y as usize + self.block.size_y() as usize * z as usize);
        &self.block.bytes[first..first + count]
    }
}

// It has no branch at each face, since every row goes through it.
fn all_zero(faces: &[u8; 96]) -> bool
    ensures value { result ≡ (fold bit_or 0 faces.now == 0) }
{
    faces.iter().fold(0, |any, face| any | *face) == 0
}
