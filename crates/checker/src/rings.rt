// Whether there is one ring of triangles around each corner.
ghost use Rattle.std.specs.Prelude.{◌≡◌, ◌^◌, ◌<◌, true, ◌↔◌, length, None, MatchOption, nat_eq};
ghost use Rattle.std.specs.Result.{result_err};
ghost use Rattle.block.specs.declared.refusal.Refusal.TheVariants.{BadRing};
ghost use Rattle.theory.specs.Closed.{EachSideOnce};
ghost use Rattle.theory_parts.specs.Buffer.{triangles_in};
ghost use Rattle.checker.specs.Verdict.{RingedOnce};
ghost use Rattle.checker.specs.Passes.{Checked, numbers_of, heads_of, Blank, Within, AllJoined, Round, Cleared, Returned};

use super::chains::Chains;
use block::Refusal;

// Stands for the neighbour that follows where none does, in the caller's flat numbers. There are fewer corners than that, so no corner
// has it for its number.
const NOBODY: u32 = u32::MAX;

// The first corner that no triangle has, or that has not one ring around it. From neighbour to neighbour, each is left once: there is one
// ring exactly if as many steps as there are triangles at the corner lead back to the start. Then every neighbour has been left, so
// that the buffer is as it was, and every side into the corner has its reverse.
pub fn check_rings(chains: &Chains, follow: &mut [u32]) -> Result<(), Refusal>
    requires room { length follow.old ≡ length (heads_of chains) }
    ensures closed { result_err result ≡ None → EachSideOnce nat_eq (triangles_in (numbers_of chains.entry)) }
    ensures found { EachSideOnce nat_eq (triangles_in (numbers_of chains.entry)) → Checked (RingedOnce (triangles_in (numbers_of chains.entry))) (length (heads_of chains.entry)) BadRing (result_err result) }
{
    follow.fill(NOBODY);
    let mut rings = Rings {
        chains: &*chains,
        follow,
    };
    for corner in 0..chains.corners() as u32 {
        if !rings.is_ringed(corner) {
            return Err(Refusal::BadRing(corner as usize));
        }
    }
    Ok(())
}

// For each neighbour of a corner, the one that follows it around the corner.
// That a corner is in range is asked at each method: it is a fact about a corner and these chains, which neither holds alone.
#[derive(Drop)]
struct Rings<'a> {
    chains: &'a Chains<'a>,
    follow: &'a mut [u32],
    ghost fit: { length follow.now ≡ length chains.now.heads.now },
}

impl Rings<'_> {
    fn is_ringed(&mut self, corner: u32) -> bool
        requires corner { corner < length self.old.chains.now.heads.now }
        requires blank { Blank self.old.follow.now }
        ensures chains { self.new.chains.now ≡ self.old.chains.now }
        ensures value { EachSideOnce nat_eq (triangles_in self.old.chains.now.numbers.now) → (result ≡ true) ↔ RingedOnce (triangles_in self.old.chains.now.numbers.now) corner }
        ensures returned { result ≡ true → Returned (triangles_in self.old.chains.now.numbers.now) (length self.old.chains.now.heads.now) corner }
        ensures blank { result ≡ true → Blank self.new.follow.now }
    {
        let Some(first) = self.chains.around(corner).next() else {
            return false;
        };
        match self.join_neighbours(corner) {
            Some(around) => self.goes_round(first.second, around),
            None => false,
        }
    }

    // Has each neighbour of the corner followed by the next, and says how many triangles there are at the corner; None where two of them
    // run from the corner to one neighbour.
    fn join_neighbours(&mut self, corner: u32) -> Option<usize>
        requires corner { corner < length self.old.chains.now.heads.now }
        requires blank { Blank self.old.follow.now }
        ensures chains { self.new.chains.now ≡ self.old.chains.now }
        ensures cases { MatchOption result (EachSideOnce nat_eq (triangles_in self.old.chains.now.numbers.now) → ⊥) (AllJoined self.old.chains.now.numbers.now corner self.new.follow.now) }
    {
        let mut around = 0;
        for step in self.chains.around(corner) {
            if self.follow[step.second as usize] != NOBODY {
                return None;
            }
            self.follow[step.second as usize] = step.third;
            around += 1;
        }
        Some(around)
    }

    // Whether so many steps lead back to the start, each from a neighbour that was not left before. Who was left is followed by nobody
    // then.
    fn goes_round(&mut self, start: u32, around: usize) -> bool
        requires within { (Within self.old.follow.now) × (start < length self.old.follow.now) }
        ensures chains { self.new.chains.now ≡ self.old.chains.now }
        ensures value { (result ≡ true) ↔ Round self.old.follow.now start around }
        ensures cleared { result ≡ true → Cleared self.old.follow.now start around self.new.follow.now }
    {
        let mut here = start;
        for _ in 0..around {
            let next = self.follow[here as usize];
            if next == NOBODY {
                return false;
            }
            self.follow[here as usize] = NOBODY;
            here = next;
        }
        here == start
    }
}
