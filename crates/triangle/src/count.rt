// How many corners and triangles a block has, without writing any.
ghost use Rattle.triangle.specs.Counting.{Counted};
ghost use Rattle.triangle.specs.Progress.{skin_of};
ghost use Rattle.triangle.specs.Passes.{bytes_of};

use super::Counts;
use super::scan::Scan;
use super::walk::{Pass, Visit};

impl Scan<'_> {
    pub fn count(&self) -> Counts
        ensures counted { Counted (bytes_of self.entry) result result (skin_of (bytes_of self.entry)) }
    {
        let mut counts = Counts::default();
        self.walk(&mut counts);
        counts
    }
}

impl Pass for Counts {
    ghost has = { Counted };

    fn visit(&mut self, at: Visit) {
        let Visit { scan, cube, .. } = at;
        self.corners += scan.cases.steps(cube.bits).len() as u32;
        self.triangles += scan.cases.triangles(cube.bits).len() as u32;
    }
}
