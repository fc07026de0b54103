// What a cube adds to a skin, by who of its eight points is inside: worked out for all six pieces together from what crate `piece` says of
// each.
ghost use Rattle.std.specs.Prelude.{◌≡◌, ◌<◌, map};
ghost use Rattle.theory.specs.Triangle.{corners, one_if};
ghost use Rattle.piece.specs.Table.{bit, as_edge};
ghost use Rattle.triangle.specs.Cubes.{case_in};
ghost use Rattle.triangle.specs.Cases.{code_triangles, new_steps, case_at, AllCases};
ghost use Rattle.triangle.specs.Adding.{code_in};

use super::few::Few;
use piece::{Pair, corner_of, point_of, triangle_count};
use std::array;

// The triangles, by the codes of their corners, and the corners that are first met in the cube, a step for each. A corner's code is 8 times
// the point where its edge ends, and the step that leads there. Those first met are on the edges that end at the cube's highest point, which
// is point 7; they stand in the order in which the triangles meet them.
#[derive(Drop)]
pub struct Case {
    triangles: Few<[u8; 3], 12>,
    steps: Few<u8, 7>,
}

// The cases by the cubes' bits, worked out once for a block: each of its cubes then only reads them.
#[derive(Drop)]
pub struct Cases {
    cases: [Case; 256],
    ghost all: { AllCases cases },
}

impl Cases {
    pub fn new() -> Self {
        Cases {
            cases: array::from_fn(|bits| Case::of(bits as u8)),
        }
    }

    pub fn triangles(&self, bits: u8) -> &[[u8; 3]]
        ensures value { result.now ≡ map corners (code_triangles bits) }
    {
        self.at(bits).triangles.as_slice()
    }

    // The steps of the corners that are first met in the cube.
    pub fn steps(&self, bits: u8) -> &[u8]
        ensures value { result.now ≡ new_steps bits }
    {
        self.at(bits).steps.as_slice()
    }

    fn at(&self, bits: u8) -> &Case
        ensures value { result.now ≡ case_at bits }
    {
        &self.cases[bits as usize]
    }
}

impl Case {
    ghost use Rattle.theory.specs.Triangle.{tri};
    ghost use Rattle.triangle.specs.Adding.{piece_codes, with_met, with_triangle, with_triangles};

    fn of(bits: u8) -> Self
        ensures value { result ≡ case_at bits }
    {
        let mut case = Case {
            triangles: Few::new([0; 3]),
            steps: Few::new(0),
        };
        for piece in 0..6 {
            case.add_piece(piece, names_inside(bits, piece));
        }
        case
    }

    fn add_piece(&mut self, piece: usize, inside: u8)
        requires { inside < 16 }
        ensures after { self.new ≡ with_triangles self.old (piece_codes piece inside) }
    {
        // by number, as crate `piece` tells them
        for t in 0..triangle_count(inside) {
            let a = code_of(piece, corner_of(inside, t, 0));
            let b = code_of(piece, corner_of(inside, t, 1));
            let c = code_of(piece, corner_of(inside, t, 2));
            self.add_triangle(a, b, c);
        }
    }

    // There is always room: no cube has more than twelve triangles.
    fn add_triangle(&mut self, a: u8, b: u8, c: u8)
        ensures after { self.new ≡ with_triangle self.old (tri a b c) }
    {
        self.triangles.push([a, b, c]);
        self.meet(a);
        self.meet(b);
        self.meet(c);
    }

    // Notes the step of a corner whose edge ends at point 7, where it is met first. There is always room: seven edges end there.
    fn meet(&mut self, code: u8)
        ensures after { self.new ≡ with_met self.old code }
    {
        if code < 56 {
            return;
        }
        let step = code - 56;
        if !self.steps.as_slice().contains(&step) {
            self.steps.push(step);
        }
    }
}

// Who of the points of a piece is inside, by their names.
fn names_inside(bits: u8, piece: usize) -> u8
    ensures value { result ≡ case_in bits piece }
{
    inside_bit(bits, point_of(piece, 0))
        + 2 * inside_bit(bits, point_of(piece, 1))
        + 4 * inside_bit(bits, point_of(piece, 2))
        + 8 * inside_bit(bits, point_of(piece, 3))
}

// 1 if the point is inside, else 0.
fn inside_bit(bits: u8, point: u8) -> u8
    requires { point < 8 }
    ensures value { result ≡ one_if (bit bits point) }
{
    (bits >> point) % 2
}

fn code_of(piece: usize, pair: Pair) -> u8
    ensures value { result ≡ code_in piece (as_edge pair) }
{
    let p = point_of(piece, pair.inside as usize);
    let q = point_of(piece, pair.outside as usize);
    8 * (p | q) + (p ^ q)
}
