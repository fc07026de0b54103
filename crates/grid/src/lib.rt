// The points and the edges of a grid, and their numbers: found by a sum, and undone by division.
#![tactic(auto)]

ghost use Rattle.std.specs.Prelude.{◌≡◌, ◌*◌, ◌^◌, ◌<◌};
ghost use Rattle.std.specs.Option.{option_map};
ghost use Rattle.grid.specs.Places.{at, rise, EndsJoined};
ghost use Rattle.grid.specs.Numbers.{sized, number_of, point_in, edge_number, edge_in, PointsNumbered, EdgesNumbered};

mod edge;

pub use edge::{Edge, Point, Step, UnknownStep};

// The number of a point, and the number of an edge: two sorts of number, which cannot be taken for one another.
#[derive(Clone, Copy, PartialEq, Eq, Debug)]
pub struct PointNumber(pub u32);

#[derive(Clone, Copy, PartialEq, Eq, Debug)]
pub struct EdgeNumber(pub u32);

// How many points there are along x, y and z: one at least.
#[derive(Clone, Copy, PartialEq, Eq, Debug)]
pub struct Grid {
    pub a: u8,
    pub b: u8,
    pub c: u8,
    ghost along_x: { 0 < a },
    ghost along_y: { 0 < b },
    ghost along_z: { 0 < c },
}

impl Grid {
    // A grid of these sizes; None if one of them is 0.
    pub fn new(a: u8, b: u8, c: u8) -> Option<Grid>
        ensures value { option_map (λ g. (g.a, g.b, g.c)) result ≡ sized a b c }
    {
        if [a, b, c].contains(&0) {
            return None;
        }
        Some(Grid { a, b, c })
    }

    // The number of a point: along x first, then y, then z. Points past the grid have one too, which another point may have.
    pub fn point_number(&self, p: Point) -> PointNumber
        ensures value { result.0 ≡ number_of self.now.a self.now.b (at p) }
        ensures bound { result.0 < 2 ^ 24 }
    {
        let a = self.a as u32;
        let b = self.b as u32;
        PointNumber(p.x as u32 + a * (p.y as u32 + b * p.z as u32))
    }

    // The point of the grid that has this number; None from the number of points on.
    pub fn point(&self, n: PointNumber) -> Option<Point>
        ensures value { option_map at result ≡ point_in self.now.a self.now.b self.now.c n.0 }
    {
        let a = self.a as u32;
        let b = self.b as u32;
        let c = self.c as u32;
        if n.0 >= a * (b * c) {
            return None;
        }
        let row = n.0 / a;
        Some(Point {
            x: (n.0 % a) as u8,
            y: (row % b) as u8,
            z: (row / b) as u8,
        })
    }

    // The number of an edge: seven edges end at each point from below.
    pub fn edge_number(&self, e: Edge) -> EdgeNumber
        ensures value { result.0 ≡ edge_number self.now.a self.now.b (rise e) }
        ensures bound { result.0 < 2 ^ 27 }
    {
        EdgeNumber(7 * self.point_number(e.upper).0 + u32::from(u8::from(e.step)))
    }

    // The edge that has this number; None from seven times the number of points on.
    pub fn edge(&self, n: EdgeNumber) -> Option<Edge>
        ensures value { option_map rise result ≡ edge_in self.now.a self.now.b self.now.c n.0 }
    {
        let upper = self.point(PointNumber(n.0 / 7))?;
        let step = Step::try_from((n.0 % 7) as u8).ok()?;
        Some(Edge { upper, step })
    }
}

// Different points have different numbers, which are undone.
pub fn points_have_numbers() -> u8
    ensures { PointsNumbered }
{
    0
}

// Different edges have different numbers, which are undone.
pub fn edges_have_numbers() -> u8
    ensures { EdgesNumbered }
{
    0
}

// The step of an edge leads from its lower end to its upper one.
pub fn edges_have_ends() -> u8
    ensures { EndsJoined }
{
    0
}
