// Points, the seven steps from a point to a higher one beside it, and edges, each by its upper end and the step that leads there.
ghost use Rattle.std.specs.Prelude.{◌≡◌, ◌++◌, Some, codes, decimal};
ghost use Rattle.std.specs.Option.{option_map, ok_or};
ghost use Rattle.theory.specs.Grid.{off};
ghost use Rattle.grid.specs.Places.{at, step_number, step_in, offset_of, lower_of};

use std::error::Error;
use std::fmt;

// A point of the grid, by its places along x, y and z.
#[derive(Clone, Copy, PartialEq, Eq, Debug)]
pub struct Point {
    pub x: u8,
    pub y: u8,
    pub z: u8,
}

// One step up along one, two or three axes at a time. The step along all three, the long diagonal of a cube, comes last: it belongs to that
// cube alone, so nothing about it has to be kept for another.
#[derive(Clone, Copy, PartialEq, Eq, Debug)]
pub enum Step {
    X = 0,
    Y = 1,
    Z = 2,
    Xy = 3,
    Xz = 4,
    Yz = 5,
    Xyz = 6,
}

// A number that no step has.
#[derive(Clone, Copy, PartialEq, Eq, Debug)]
pub struct UnknownStep(pub u8);

// An edge of the grid. It goes by its upper end, since the cube whose highest point that is comes first of all the cubes that have the edge.
#[derive(Clone, Copy, PartialEq, Eq, Debug)]
pub struct Edge {
    pub upper: Point,
    pub step: Step,
}

// Along which axes a step goes.
#[derive(Clone, Copy)]
struct Axes {
    x: bool,
    y: bool,
    z: bool,
}

impl Edge {
    // The lower end; None where the upper end has the coordinate 0 along an axis of the step.
    pub fn lower(self) -> Option<Point>
        ensures value { option_map at result ≡ lower_of (at self.upper) (offset_of self.step) }
    {
        let along = self.step.axes();
        Some(Point {
            x: self.upper.x.checked_sub(along.x as u8)?,
            y: self.upper.y.checked_sub(along.y as u8)?,
            z: self.upper.z.checked_sub(along.z as u8)?,
        })
    }
}

// The number of a step, of 0 to 6.
impl From<Step> for u8 {
    ghost from_gives = { λ step number. number ≡ step_number step };

    fn from(step: Step) -> u8 {
        step as u8
    }
}

// The step of a number; an error from 7 on.
impl TryFrom<u8> for Step {
    type Error = UnknownStep;

    ghost try_from_gives = { λ number step. step ≡ ok_or (step_in number) (record { 0 = number }) };

    // By a match: no cast leads from a number to a variant.
    fn try_from(number: u8) -> Result<Step, UnknownStep> {
        match number {
            0 => Ok(Step::X),
            1 => Ok(Step::Y),
            2 => Ok(Step::Z),
            3 => Ok(Step::Xy),
            4 => Ok(Step::Xz),
            5 => Ok(Step::Yz),
            6 => Ok(Step::Xyz),
            _ => Err(UnknownStep(number)),
        }
    }
}

impl Step {
    fn axes(self) -> Axes
        ensures value { off result.x result.y result.z ≡ offset_of self }
    {
        let (x, y, z) = match self {
            Step::X => (true, false, false),
            Step::Y => (false, true, false),
            Step::Z => (false, false, true),
            Step::Xy => (true, true, false),
            Step::Xz => (true, false, true),
            Step::Yz => (false, true, true),
            Step::Xyz => (true, true, true),
        };
        Axes { x, y, z }
    }
}

impl fmt::Display for UnknownStep {
    ghost output = { λ e. Some (codes "no step has the number " ++ decimal e.0) };

    fn fmt<W: fmt::Write>(&self, f: &mut fmt::Formatter<W>) -> fmt::Result {
        let number = self.0;
        write!(f, "no step has the number {number}")
    }
}

impl Error for UnknownStep {}
