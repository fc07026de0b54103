// One cube: its eight points, and which of them are inside.
ghost use Rattle.std.specs.Prelude.{◌≡◌, ◌<◌};
ghost use Rattle.grid.specs.Places.{at};
ghost use Rattle.triangle.specs.Cubes.{point_in, plain};

use grid::Point;

// A cube by its lowest point. Bit o of `bits` says that point o is inside; the points of a cube are numbered as in crate `piece`.
#[derive(Clone, Copy)]
pub struct Cube {
    pub lowest: Point,
    pub bits: u8,
}

impl Cube {
    // Its eight points are all inside, or all outside.
    pub fn is_plain(self) -> bool
        ensures value { result ≡ plain self.bits }
    {
        self.bits == 0 || self.bits == 255
    }

    // A point of the cube by its number of 0 to 7.
    pub fn point(self, number: u8) -> Point
        requires { (self.lowest.x < 255) × ((self.lowest.y < 255) × (self.lowest.z < 255)) }
        ensures value { at result ≡ point_in self number }
    {
        Point {
            x: self.lowest.x + number % 2,
            y: self.lowest.y + number / 2 % 2,
            z: self.lowest.z + number / 4 % 2,
        }
    }
}
