// The way over all cubes of a block, for whoever has something to do at each of them.
ghost use Rattle.std.specs.Prelude.{ℕ, suc, ◌<◌, List, []};
ghost use Rattle.std.proofs.Props.{props};
ghost use Rattle.theory.specs.Grid.{pt};
ghost use Rattle.theory.specs.Skin.{Triangle};
ghost use Rattle.block.specs.Scan.{size_y, size_z};
ghost use Rattle.triangle.specs.Cubes.{lowest_of, OfBlock, amid_prop};
ghost use Rattle.triangle.specs.Progress.{skin_of};
ghost use Rattle.triangle.specs.Passes.{bytes_of, ReadyAt, GoesOn};

use super::cube::Cube;
use super::scan::Scan;
use grid::Point;

// A cube of a block, while a pass is at it.
#[derive(Clone, Copy)]
pub struct Visit<'a> {
    pub scan: &'a Scan<'a>,
    pub cube: Cube,
    ghost of_block: { OfBlock (bytes_of scan) cube } by { Prim.hlevel (amid_prop, props) },
}

// What is done at each cube, one after the other.
pub trait Pass {
    // Begun as the first, it is now as the second, and the cubes it went over have these triangles.
    ghost has: { List ℕ → Self → Self → List Triangle → Type 0 };

    fn visit(&mut self, at: Visit)
        requires ready { ReadyAt has (bytes_of at.scan) (lowest_of at.cube) self.old }
        ensures goes { GoesOn has (bytes_of at.entry.scan) (lowest_of at.entry.cube) (pt (suc at.entry.cube.lowest.x) at.entry.cube.lowest.y at.entry.cube.lowest.z) self.old self.new };
}

// Cubes of which no point is inside are passed by in rows.
impl Scan<'_> {
    pub fn walk<P: Pass>(&self, pass: &mut P)
        requires begun { P.has (bytes_of self) pass.old pass.old [] }
        ensures done { P.has (bytes_of self.entry) pass.old pass.new (skin_of (bytes_of self.entry)) }
    {
        for z in 0..self.block.size_z() - 1 {
            self.walk_layer(z, pass);
        }
    }

    fn walk_layer<P: Pass>(&self, z: u8, pass: &mut P)
        requires within { suc z < size_z (bytes_of self) }
        requires ready { ReadyAt P.has (bytes_of self) (pt 0 0 z) pass.old }
        ensures goes { GoesOn P.has (bytes_of self.entry) (pt 0 0 z) (pt 0 0 (suc z)) pass.old pass.new }
    {
        for y in 0..self.block.size_y() - 1 {
            self.walk_row(y, z, pass);
        }
    }

    // y and z stay two numbers: they go from here down to `line`, and no further.
    fn walk_row<P: Pass>(&self, y: u8, z: u8, pass: &mut P)
        requires within { (suc y < size_y (bytes_of self)) × (suc z < size_z (bytes_of self)) }
        requires ready { ReadyAt P.has (bytes_of self) (pt 0 y z) pass.old }
        ensures goes { GoesOn P.has (bytes_of self.entry) (pt 0 y z) (pt 0 (suc y) z) pass.old pass.new }
    {
        let Some(row) = self.row(y, z) else {
            return;
        };
        let count = self.block.size_x() as usize - 1;
        for (x, &bits) in row[..count].iter().enumerate() {
            let lowest = Point { x: x as u8, y, z };
            let cube = Cube { lowest, bits };
            pass.visit(Visit { scan: &*self, cube });
        }
    }
}
