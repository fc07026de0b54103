// Everything that this project refuses: one enum, with a number for what is wrong and a place for where.
ghost use Rattle.std.specs.Prelude.{◌≡◌, Some};
ghost use Rattle.block.specs.Refusals.{number_of, place_of, text_of};

use std::fmt;

// A refusal holds its place: a byte, a triangle, a corner, or how much a buffer holds.
#[derive(Clone, Copy, PartialEq, Eq, Debug)]
pub enum Refusal {
    WrongLength(usize),
    WrongSize(usize),
    OpenBorder(usize),
    ShortBuffer(usize),
    BadTriangle(usize),
    BadSide(usize),
    BadRing(usize),
    BadPart(usize),
}

impl Refusal {
    // What is wrong, as a number of 1 to 8; by a match, since variants that hold a place are not cast to their numbers.
    pub fn number(self) -> u8
        ensures value { result ≡ number_of self }
    {
        match self {
            Refusal::WrongLength(_) => 1,
            Refusal::WrongSize(_) => 2,
            Refusal::OpenBorder(_) => 3,
            Refusal::ShortBuffer(_) => 4,
            Refusal::BadTriangle(_) => 5,
            Refusal::BadSide(_) => 6,
            Refusal::BadRing(_) => 7,
            Refusal::BadPart(_) => 8,
        }
    }

    // Where it is wrong.
    pub fn place(self) -> usize
        ensures value { result ≡ place_of self }
    {
        match self {
            Refusal::WrongLength(at)
            | Refusal::WrongSize(at)
            | Refusal::OpenBorder(at)
            | Refusal::ShortBuffer(at)
            | Refusal::BadTriangle(at)
            | Refusal::BadSide(at)
            | Refusal::BadRing(at)
            | Refusal::BadPart(at) => at,
        }
    }
}

impl fmt::Display for Refusal {
    ghost output = { λ r. Some (text_of r) };

    fn fmt<W: fmt::Write>(&self, f: &mut fmt::Formatter<W>) -> fmt::Result {
        let number = self.number();
        let place = self.place();
        write!(f, "refused {number} at {place}")
    }
}
