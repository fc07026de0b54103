// Whether each side is run once, and once the other way.
ghost use Rattle.std.specs.Prelude.{◌≡◌, ◌^◌, ◌<◌, ◌≤◌, length};
ghost use Rattle.std.specs.Result.{result_err};
ghost use Rattle.block.specs.declared.refusal.Refusal.TheVariants.{BadSide};
ghost use Rattle.theory_parts.specs.Buffer.{triangle_at, count_in, triangles_in};
ghost use Rattle.checker.specs.Verdict.{Matched};
ghost use Rattle.checker.specs.Passes.{Checked, numbers_of, heads_of, Clear, Counts, Narrowed};

use super::chains::Chains;
use block::Refusal;

// The first triangle with a side in fault: not exactly one triangle runs it, or not exactly one runs its reverse. For each corner, the
// sides out of it and into it are counted along its chain, looked at, and the counts cleared along the chain again: every triangle at a
// corner has one side out of it and one into it, so this takes time linear in the triangles.
pub fn check_sides(chains: &Chains, outs: &mut [u32], ins: &mut [u32]) -> Result<(), Refusal>
    requires room { (length outs.old ≡ length (heads_of chains)) × (length ins.old ≡ length (heads_of chains)) }
    ensures found { Checked (λ i. Matched (triangles_in (numbers_of chains.entry)) (triangle_at (numbers_of chains.entry) i)) (count_in (numbers_of chains.entry)) BadSide (result_err result) }
{
    outs.fill(0);
    ins.fill(0);
    let mut tally = Tally {
        chains: &*chains,
        outs,
        ins,
    };
    let mut worst = chains.count();
    for corner in 0..chains.corners() as u32 {
        tally.count(corner);
        worst = tally.fault_from(corner, worst);
        tally.clear(corner);
    }
    if worst < chains.count() {
        return Err(Refusal::BadSide(worst));
    }
    Ok(())
}

// For each corner, how many sides run to it from one corner, and how many from it to that one.
// That a corner is in range is asked at each method: it is a fact about a corner and these chains, which neither holds alone.
#[derive(Drop)]
struct Tally<'a> {
    chains: &'a Chains<'a>,
    outs: &'a mut [u32],
    ins: &'a mut [u32],
    ghost fit: { (length outs.now ≡ length chains.now.heads.now) × (length ins.now ≡ length chains.now.heads.now) },
}

impl Tally<'_> {
    fn count(&mut self, corner: u32)
        requires corner { corner < length self.old.chains.now.heads.now }
        requires clear { (Clear self.old.outs.now) × (Clear self.old.ins.now) }
        ensures chains { self.new.chains.now ≡ self.old.chains.now }
        ensures counts { Counts self.old.chains.now.numbers.now corner self.new.outs.now self.new.ins.now }
    {
        for step in self.chains.around(corner) {
            self.outs[step.second as usize] += 1;
            self.ins[step.third as usize] += 1;
        }
    }

    // The first triangle before `worst` that has a side from the corner in fault, or else `worst`: a bound on the triangles to look at as
    // much as a fault, which an Option would not be.
    fn fault_from(&self, corner: u32, worst: usize) -> usize
        requires corner { corner < length self.now.chains.now.heads.now }
        requires counts { Counts self.now.chains.now.numbers.now corner self.now.outs.now self.now.ins.now }
        requires most { worst ≤ count_in self.now.chains.now.numbers.now }
        ensures narrowed { Narrowed self.now.chains.now.numbers.now corner worst result }
    {
        for step in self.chains.around(corner) {
            if step.at >= worst {
                break;
            }
            if self.outs[step.second as usize] != 1 || self.ins[step.second as usize] != 1 {
                return step.at;
            }
        }
        worst
    }

    // Goes the way of `count`, with other facts: there the counts must be shown to fit, here none to be left.
    fn clear(&mut self, corner: u32)
        requires corner { corner < length self.old.chains.now.heads.now }
        requires counts { Counts self.old.chains.now.numbers.now corner self.old.outs.now self.old.ins.now }
        ensures chains { self.new.chains.now ≡ self.old.chains.now }
        ensures clear { (Clear self.new.outs.now) × (Clear self.new.ins.now) }
    {
        for step in self.chains.around(corner) {
            self.outs[step.second as usize] = 0;
            self.ins[step.third as usize] = 0;
        }
    }
}
