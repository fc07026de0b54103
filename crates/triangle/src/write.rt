// Writes the corners and the triangles of a block, cube by cube, piece by piece, in the table's order.
ghost use Rattle.std.specs.Prelude.{◌≡◌, ◌+◌, ◌-◌, ◌*◌, ◌<◌, map, length, slice_set};
ghost use Rattle.theory.specs.Triangle.{tri};
ghost use Rattle.theory.specs.Places.{place};
ghost use Rattle.block.specs.Scan.{size_x, size_y};
ghost use Rattle.grid.specs.Numbers.{number_of};
ghost use Rattle.corner.specs.Fraction.{fraction_in};
ghost use Rattle.triangle.specs.Cubes.{point_in, corner_at, Crosses};
ghost use Rattle.triangle.specs.Cases.{new_steps, code_triangles};
ghost use Rattle.triangle.specs.Output.{put_triangle, with_triangle, with_triangles, with_place, with_numbers, with_corner_met, new_corner, met_by, NewIn, KnownIn, numbered_by};
ghost use Rattle.triangle.specs.Progress.{Room, Written, SkinWritten};
ghost use Rattle.triangle.specs.Passes.{bytes_of};

use super::scan::Scan;
use super::walk::{Pass, Visit};
use corner::{CornerNumber, fraction, write_corner};
use grid::Grid;

// The buffers, and how many corners and triangles stand in them. A corner on an edge that ends at the highest point of a cube is first met
// in that cube. Any other was met in an earlier one, and its number stands in `work` at its edge's slot; so nothing in `work` is
// cleared or looked for. `numbers` has the numbers of a cube's corners by their codes, while that cube is written; what is left of earlier
// cubes is not looked at.
#[derive(Drop)]
struct Out<'a> {
    corners: &'a mut [u32],
    triangles: &'a mut [u32],
    work: &'a mut [u32],
    numbers: [u32; 64],
    met: u32,
    made: u32,
}

impl Scan<'_> {
    // Writes the skin of a block, for which the buffers have room.
    pub fn write(&self, corners: &mut [u32], triangles: &mut [u32], work: &mut [u32])
        requires room { Room (bytes_of self) (length corners.old) (length triangles.old) (length work.old) }
        ensures written { SkinWritten (bytes_of self.entry) corners.old triangles.old corners.new triangles.new }
    {
        let mut out = Out {
            corners,
            triangles,
            work,
            numbers: [0; 64],
            met: 0,
            made: 0,
        };
        self.walk(&mut out);
    }
}

impl Visit<'_> {
    // Where `work` keeps the number of the corner on the edge that ends at this point of the cube, by its step there.
    fn slot(self, upper: u8, step: u8) -> usize
        requires { 0 < step }
        ensures value { result ≡ 6 * number_of (size_x (bytes_of self.entry.scan)) (size_y (bytes_of self.entry.scan)) (point_in self.entry.cube upper) + (step - 1) }
    {
        let block = &self.scan.block;
        let grid = Grid {
            a: block.size_x(),
            b: block.size_y(),
            c: block.size_z(),
        };
        6 * grid.point_number(self.cube.point(upper)).0 as usize + step as usize - 1
    }
}

impl Pass for Out<'_> {
    ghost has = { Written };

    fn visit(&mut self, at: Visit) {
        if at.cube.is_plain() {
            return;
        }
        self.take_known(at);
        self.meet_new(at);
        self.write_triangles(at.scan, at.cube.bits);
    }
}

impl Out<'_> {
    // The numbers that `work` keeps for the edges of a cube that end at another point than its highest: those that lead there from a point
    // of the cube, so along no axis along which the cube ends below.
    fn take_known(&mut self, at: Visit)
        ensures known { KnownIn (bytes_of at.entry.scan) at.entry.cube self.old.work.now self.new.numbers }
        ensures long { length self.new.numbers ≡ 64 }
        ensures after { self.new ≡ with_numbers self.old self.new.numbers }
    {
        let row = 6 * at.scan.block.size_x() as usize;
        let layer = row * at.scan.block.size_y() as usize;
        let lowest = at.slot(0, 1);
        for upper in 1..7usize {
            let first = lowest + 6 * (upper % 2) + row * (upper / 2 % 2) + layer * (upper / 4);
            if first + 6 <= self.work.len() {
                // by number: a step is three bits, and only some of them lead there
                for step in 1..7usize {
                    if upper & step == step {
                        self.numbers[8 * upper + step] = self.work[first + step - 1];
                    }
                }
            }
        }
    }

    // Writes the corners that are first met in a cube, in the order in which its triangles meet them.
    fn meet_new(&mut self, at: Visit)
        ensures met { self.new ≡ met_by (bytes_of at.entry.scan) at.entry.cube (new_steps at.entry.cube.bits) self.old }
    {
        for step in at.scan.cases.steps(at.cube.bits) {
            self.numbers[56 + *step as usize] = self.met;
            self.meet(at, *step);
        }
    }

    // Writes the corner on the edge that leads by a step to the highest point of a cube, and keeps its number for later cubes. No other cube
    // has the long diagonal, whose step is 7.
    fn meet(&mut self, at: Visit, step: u8)
        requires { NewIn (bytes_of at.scan) at.cube step }
        ensures after { self.new ≡ with_corner_met (bytes_of at.entry.scan) self.old (new_corner at.entry.cube step) }
    {
        let number = self.met;
        self.put_new(at, step);
        if step < 7 {
            keep(self.work, at.slot(7, step), number);
        }
    }

    fn put_new(&mut self, at: Visit, step: u8)
        requires { NewIn (bytes_of at.scan) at.cube step }
        ensures after { self.new ≡ with_place self.old (place (fraction_in (bytes_of at.entry.scan)) (new_corner at.entry.cube step)) }
    {
        if at.cube.bits < 128 {
            self.put_corner(at, 7 - step, 7);
        } else {
            self.put_corner(at, 7, 7 - step);
        }
    }

    // Writes the next corner. There is always room: the lengths were compared before.
    fn put_corner(&mut self, at: Visit, inside: u8, outside: u8)
        requires { Crosses (bytes_of at.scan) at.cube inside outside }
        ensures after { self.new ≡ with_place self.old (place (fraction_in (bytes_of at.entry.scan)) (corner_at at.entry.cube inside outside)) }
    {
        let p = at.cube.point(inside);
        let q = at.cube.point(outside);
        let k = fraction(
            at.scan.block.value(p),
            at.scan.block.value(q),
            at.scan.block.threshold(),
        );
        let number = self.met;
        if 3 * number as usize + 3 <= self.corners.len() {
            write_corner(self.corners, CornerNumber(number), p, q, k);
        }
        self.met = number.wrapping_add(1);
    }

    // Writes the triangles of a cube, by the numbers of their corners.
    fn write_triangles(&mut self, scan: &Scan, bits: u8)
        ensures after { self.new ≡ with_triangles self.old (map (numbered_by self.old.numbers) (code_triangles bits)) }
    {
        for [a, b, c] in scan.cases.triangles(bits) {
            let a = self.numbers[*a as usize];
            let b = self.numbers[*b as usize];
            let c = self.numbers[*c as usize];
            self.put_triangle(a, b, c);
        }
    }

    // Writes the next triangle. There is always room.
    fn put_triangle(&mut self, a: u32, b: u32, c: u32)
        ensures after { self.new ≡ with_triangle self.old (tri a b c) }
    {
        let number = self.made;
        put_numbers(self.triangles, number, a, b, c);
        self.made = number.wrapping_add(1);
    }
}

fn put_numbers(triangles: &mut [u32], number: u32, a: u32, b: u32, c: u32)
    ensures after { triangles.new ≡ put_triangle triangles.old number (tri a b c) }
{
    let first = 4 * number as usize;
    if first + 4 <= triangles.len() {
        // one by one: a copy of four at once goes by memory, and a skin takes a tenth longer
        triangles[first] = a;
        triangles[first + 1] = b;
        triangles[first + 2] = c;
        triangles[first + 3] = 0;
    }
}

fn keep(work: &mut [u32], slot: usize, number: u32)
    ensures after { work.new ≡ slice_set work.old slot number }
{
    if slot < work.len() {
        work[slot] = number;
    }
}
