// A slow survey for the first rule that a skin's bytes break: each triangle is held against every other. It calls none of the libraries,
// whose refusals name the rules.
use crate::skin::{Fault, Side, Skin, Triangle, count};
use block::Refusal;
use std::alloc::{AllocError, Global};
use std::fmt;

// What is said of a skin's bytes: closed, or the first rule in fault.
pub type Verdict = Result<(), Refusal>;

// A verdict as it is printed.
#[derive(Clone, Copy)]
pub struct Said(pub Verdict);

impl fmt::Display for Said {
    fn fmt<W: fmt::Write>(&self, f: &mut fmt::Formatter<W>) -> fmt::Result {
        match self.0 {
            Ok(()) => write!(f, "closed"),
            Err(refusal) => write!(f, "{refusal}"),
        }
    }
}

// The first rule in fault: the length, then the others, each over the whole skin.
pub fn surveyed(heap: Global, bytes: &[u8]) -> Result<Verdict, AllocError> {
    match Skin::read(heap, bytes).and_then(|skin| skin.keeps_rules(heap)) {
        Ok(()) => Ok(Ok(())),
        Err(Fault::Refused(refusal)) => Ok(Err(refusal)),
        Err(Fault::NoMemory(e)) => Err(e),
    }
}

// Which part each triangle is in, by flooding, and how many parts there are.
#[derive(Drop)]
pub struct Flooded {
    pub numbers: Vec<Option<u32>>,
    pub count: u32,
}

impl Skin {
    fn keeps_rules(&self, heap: Global) -> Result<(), Fault> {
        self.has_triangles()?;
        self.has_matched_sides()?;
        self.has_rings(heap)?;
        self.has_parts(heap)
    }

    // No triangle has a corner out of range, or a corner twice.
    fn has_triangles(&self) -> Verdict {
        let there = 0..count(self.corners.len());
        let bad = self.triangles.iter().position(|t| {
            let [a, b, c] = t.corners;
            a == b || b == c || c == a || !t.corners.iter().all(|n| there.contains(n))
        });
        fault_at(bad, Refusal::BadTriangle)
    }

    // Each side of a triangle runs exactly once each way.
    fn has_matched_sides(&self) -> Verdict {
        let bad = self
            .triangles
            .iter()
            .position(|t| !t.sides().iter().all(|side| self.is_matched(*side)));
        fault_at(bad, Refusal::BadSide)
    }

    fn is_matched(&self, side: Side) -> bool {
        self.count_runs(side) == 1 && self.count_runs(side.turned()) == 1
    }

    fn count_runs(&self, side: Side) -> usize {
        self.triangles.iter().filter(|t| t.runs(side)).count()
    }

    // Each corner has one ring of triangles around it. In a skin with matched sides, each triangle at a corner is followed there by one
    // other.
    fn has_rings(&self, heap: Global) -> Result<(), Fault> {
        for corner in 0..count(self.corners.len()) {
            let around: Vec<Side> = self
                .triangles
                .iter()
                .filter_map(|t| t.across(corner))
                .collect(heap)?;
            if !is_ring(around.as_slice()) {
                return Err(Refusal::BadRing(corner as usize).into());
            }
        }
        Ok(())
    }

    // Each triangle's part has the number that it has by flooding, and the header counts as many.
    fn has_parts(&self, heap: Global) -> Result<(), Fault> {
        let flooded = self.flood(heap)?;
        let bad = self
            .triangles
            .iter()
            .zip(flooded.numbers.iter())
            .position(|(t, number)| *number != Some(t.part));
        fault_at(bad, Refusal::BadPart)?;
        if flooded.count != self.parts {
            return Err(Refusal::BadPart(self.triangles.len()).into());
        }
        Ok(())
    }

    // The parts by common sides, numbered by their first triangles.
    pub fn flood(&self, heap: Global) -> Result<Flooded, AllocError> {
        let mut flooded = Flooded {
            numbers: vec![in heap; None; self.triangles.len()]?,
            count: 0,
        };
        for (i, t) in self.triangles.iter().enumerate() {
            if flooded.takes(i) {
                self.flood_from(heap, *t, &mut flooded)?;
                flooded.count = flooded.count.saturating_add(1);
            }
        }
        Ok(flooded)
    }

    fn flood_from(
        &self,
        heap: Global,
        first: Triangle,
        flooded: &mut Flooded,
    ) -> Result<(), AllocError> {
        let mut waiting = vec![in heap; first]?;
        // As often as there are triangles, since each waits once: a `while let` shows no end.
        for _ in self.triangles.iter() {
            let Some(here) = waiting.pop() else { break };
            for (number, t) in flooded.numbers.iter_mut().zip(self.triangles.iter()) {
                if number.is_none() && here.meets(*t) {
                    *number = Some(flooded.count);
                    waiting.push(*t)?;
                }
            }
        }
        Ok(())
    }
}

impl Flooded {
    // Takes a triangle into the part that is being flooded, if it is in none yet.
    fn takes(&mut self, triangle: usize) -> bool {
        match self.numbers.get_mut(triangle) {
            Some(number) if number.is_none() => {
                *number = Some(self.count);
                true
            }
            _ => false,
        }
    }
}

// The fault at a place, if there is one.
fn fault_at<F: FnOnce(usize) -> Refusal>(place: Option<usize>, fault: F) -> Verdict
    requires { F.IsAlwaysCallable fault }
{
    place.map_or(Ok(()), |place| Err(fault(place)))
}

// Whether the sides around a corner lead from one to the next and, having come by all of them, back to the first.
fn is_ring(around: &[Side]) -> bool {
    let Some((first, others)) = around.split_first() else {
        return false
    };
    let end = others.iter().try_fold(first.to, |here, _| {
        if here == first.from {
            None
        } else {
            following(around, here)
        }
    });
    end == Some(first.from)
}

// Where the side from a corner leads.
fn following(around: &[Side], from: u32) -> Option<u32> {
    around
        .iter()
        .find(|side| side.from == from)
        .map(|side| side.to)
}
