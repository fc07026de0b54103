// Random numbers and random blocks: a small generator with a seed, so that every run has the same ones.
use crate::scan::{Scan, Size};
use std::alloc::{AllocError, Global};
use std::fmt;

// A generator: three shifts of 64 bits that are not all 0, so that they never are.
#[derive(Drop)]
pub struct Random(pub u64);

impl Random {
    pub fn number(&mut self) -> u64 {
        let mut x = self.0;
        x ^= x << 13;
        x ^= x >> 7;
        x ^= x << 17;
        self.0 = x;
        x
    }

    // A number below n; 0 if n is 0.
    pub fn below(&mut self, n: usize) -> usize {
        let x = (self.number() >> 20) as usize;
        x.checked_rem(n).unwrap_or(0)
    }

    // A byte below n; 0 if n is 0.
    pub fn byte_below(&mut self, n: u8) -> u8 {
        self.byte().checked_rem(n).unwrap_or(0)
    }

    pub fn byte(&mut self) -> u8 {
        (self.number() >> 20 & 0xff) as u8
    }

    fn one_in(&mut self, n: usize) -> bool {
        self.below(n) == 0
    }
}

// Which points are inside: each second, each eighth, all but each eighth, or shells around shells with a point changed here and there.
#[derive(Clone, Copy)]
pub enum Pattern {
    Half,
    Few,
    Most,
    Shells,
}

impl fmt::Display for Pattern {
    fn fmt<W: fmt::Write>(&self, f: &mut fmt::Formatter<W>) -> fmt::Result {
        f.write_str(match self {
            Pattern::Half => "half the points inside",
            Pattern::Few => "few points inside",
            Pattern::Most => "most points inside",
            Pattern::Shells => "shells in shells",
        })
    }
}

// How far values lie from the threshold: anywhere, or at it, just above and just below.
#[derive(Clone, Copy)]
pub enum Spread {
    Any,
    Near,
}

impl fmt::Display for Spread {
    fn fmt<W: fmt::Write>(&self, f: &mut fmt::Formatter<W>) -> fmt::Result {
        f.write_str(match self {
            Spread::Any => "any values",
            Spread::Near => "values near the threshold",
        })
    }
}

// A kind of random block, of 2 to `most` points along each axis.
#[derive(Clone, Copy)]
pub struct Kind {
    pub pattern: Pattern,
    pub spread: Spread,
    pub most: u8,
}

impl fmt::Display for Kind {
    fn fmt<W: fmt::Write>(&self, f: &mut fmt::Formatter<W>) -> fmt::Result {
        let Kind {
            pattern,
            spread,
            ..
        } = *self;
        write!(f, "{pattern}, {spread}")
    }
}

impl Kind {
    // The n-th block of the kind, with the thresholds 1, 255, 128 and any other in turn.
    pub fn scan(self, heap: Global, random: &mut Random, n: u32) -> Result<Scan, AllocError> {
        let threshold = match n % 4 {
            0 => 1,
            1 => 255,
            2 => 128,
            _ => random.byte().max(1),
        };
        let size = Size {
            x: self.along_axis(random),
            y: self.along_axis(random),
            z: self.along_axis(random),
        };
        let mut values = Vec::new(heap);
        for p in size.points() {
            let depth = size.depth(p);
            let inside = depth > 0 && self.pattern.holds(random, depth);
            values.push(self.spread.value(random, threshold, inside))?;
        }
        Ok(Scan {
            size,
            threshold,
            values,
        })
    }

    // How many points there are along an axis.
    fn along_axis(self, random: &mut Random) -> u8 {
        random
            .byte_below(self.most.saturating_sub(1))
            .saturating_add(2)
    }
}

impl Pattern {
    // Whether a point so many steps from the border is inside.
    fn holds(self, random: &mut Random, depth: u8) -> bool {
        match self {
            Pattern::Half => random.one_in(2),
            Pattern::Few => random.one_in(8),
            Pattern::Most => !random.one_in(8),
            Pattern::Shells => (depth % 2 == 1) != random.one_in(64),
        }
    }
}

impl Spread {
    // The value of a point; `inside` says on which side it lies, not what to do.
    fn value(self, random: &mut Random, threshold: u8, inside: bool) -> u8 {
        match (self, inside) {
            (Spread::Any, true) => {
                threshold.saturating_add(random.byte_below((255 - threshold).saturating_add(1)))
            }
            (Spread::Any, false) => random.byte_below(threshold),
            (Spread::Near, true) => threshold.saturating_add(random.byte_below(2)),
            (Spread::Near, false) => threshold
                .saturating_sub(1)
                .saturating_sub(random.byte_below(2)),
        }
    }
}
