// A checker for skins from anywhere: the verdict on a skin's bytes, whatever they hold, in a flat buffer of the caller's, without a heap.
#![tactic(auto)]

ghost use Rattle.std.specs.Prelude.{◌≡◌, ◌^◌, ◌<◌, ◌≤◌, length, Some, None, MatchResult};
ghost use Rattle.std.specs.Result.{result_err};
ghost use Rattle.mesh.specs.Bytes.{bytes_in};
ghost use Rattle.checker.specs.Verdict.{Good, RulesVerdict, work_for, Enough, Answer, OneVerdict, OneAnswer, AcceptedIfGood};
ghost use Rattle.checker.specs.Passes.{Cut, numbers_of, heads_of, ClosedVerdict};

mod chains;
mod parts;
mod rings;
mod sides;
mod triangles;

use block::Refusal;
use chains::Chains;
use mesh::Skin;
use parts::check_parts;
use rings::check_rings;
use sides::check_sides;
use triangles::check_triangles;

// How many numbers of work a check needs: for each triangle its four numbers, and its place in three chains; for each corner the first
// triangle of its chain, and two numbers, which serve for rings, for counts of sides and for parts.
pub fn work_needed(corners: u32, triangles: u32) -> usize
    ensures value { result ≡ work_for corners triangles }
{
    3 * corners as usize + 7 * triangles as usize
}

// Checks the bytes of a skin from anywhere: the first rule in fault is named, with its place, or the skin is accepted. Work that is too
// short is refused once the length of the bytes is right. What `work` holds afterwards is not said. In time linear in the bytes, but for
// the parts, whose numbering takes a logarithm of the corners more at worst; without a heap.
pub fn check(bytes: &[u8], work: &mut [u32]) -> Result<(), Refusal>
    ensures answer { MatchResult result (λ _. Answer bytes.now (length work.old) None) (λ e. Answer bytes.now (length work.old) (Some e)) }
    ensures good { MatchResult result (λ _. Good bytes.now) (λ e. Good bytes.now → Enough bytes.now (length work.old) → ⊥) }
{
    let skin = Skin::read(bytes)?;
    if work.len() < work_needed(skin.corners(), skin.triangles()) {
        return Err(Refusal::ShortBuffer(0));
    }
    check_rules(&skin, work)
}

// There is at most one verdict on any bytes, and so at most one answer.
pub fn verdict_is_one() -> u8
    ensures verdicts { OneVerdict }
    ensures answers { OneAnswer }
{
    0
}

// A skin is accepted exactly if it is good.
pub fn accepted_exactly_if_good() -> u8
    ensures { AcceptedIfGood }
{
    0
}

// The work on a skin, cut into its parts: the triangles' numbers, their chains, and two numbers for each corner.
struct Work<'a> {
    numbers: &'a mut [u32],
    nexts: &'a mut [u32],
    heads: &'a mut [u32],
    outs: &'a mut [u32],
    ins: &'a mut [u32],
}

impl<'a> Work<'a> {
    fn cut(work: &'a mut [u32], corners: u32, triangles: u32) -> Work<'a>
        requires { work_for corners triangles ≤ length work.old }
        ensures { Cut corners triangles (length result.numbers.now) (length result.nexts.now) (length result.heads.now) (length result.outs.now) (length result.ins.now) }
    {
        let (corners, triangles) = (corners as usize, triangles as usize);
        let (numbers, rest) = work.split_at_mut(4 * triangles);
        let (nexts, rest) = rest.split_at_mut(3 * triangles);
        let (heads, rest) = rest.split_at_mut(corners);
        let (outs, ins) = rest.split_at_mut(corners);
        Work {
            numbers,
            nexts,
            heads,
            outs,
            ins: &mut ins[0..corners],
        }
    }
}

// Checks rule after rule, but for the length of the bytes.
fn check_rules(skin: &Skin, work: &mut [u32]) -> Result<(), Refusal>
    requires enough { Enough (bytes_in skin) (length work.old) }
    ensures verdict { RulesVerdict (bytes_in skin.entry) (result_err result) }
{
    let corners = skin.corners();
    let Work {
        numbers,
        nexts,
        heads,
        outs,
        ins,
    } = Work::cut(work, corners, skin.triangles());
    skin.copy_numbers(numbers);
    check_triangles(numbers, corners)?;
    check_closed(&Chains::new(numbers, heads, nexts), outs, ins)?;
    check_parts(skin, numbers, corners, outs)
}

// Checks the rules on sides and rings. Where there is one ring around each corner no side is in fault, so sides are counted only where
// some ring is missing.
fn check_closed(chains: &Chains, outs: &mut [u32], ins: &mut [u32]) -> Result<(), Refusal>
    requires room { (length outs.old ≡ length (heads_of chains)) × (length ins.old ≡ length (heads_of chains)) }
    ensures verdict { ClosedVerdict (numbers_of chains.entry) (length (heads_of chains.entry)) (result_err result) }
{
    let Err(no_ring) = check_rings(chains, outs) else {
        return Ok(());
    };
    check_sides(chains, outs, ins)?;
    Err(no_ring)
}
