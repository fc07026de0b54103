// The triangles at a corner, one after the other: each corner has a chain of them.
ghost use Rattle.std.specs.Prelude.{◌≡◌, ◌-◌, ◌*◌, ◌^◌, ◌<◌, ◌≤◌, length, MatchOption};
ghost use Rattle.std.specs.Iterator.{at_most};
ghost use Rattle.theory.specs.Triangle.{corners};
ghost use Rattle.theory_parts.specs.Buffer.{triangle_at, count_in};
ghost use Rattle.checker.specs.Verdict.{Sound};
ghost use Rattle.checker.specs.Chained.{AllSound, seen_from, Next, Chained, Ready, Stepped, heads_before, nexts_before};

// The triangles of a skin, four numbers for each, chained by their corners: for each corner the first triangle that has it, and for each
// of a triangle's three corners the next one. A number that is no triangle's ends a chain: chains lie in the caller's flat numbers, without
// a heap.
#[derive(Clone, Copy)]
pub struct Chains<'a> {
    numbers: &'a [u32],
    heads: &'a [u32],
    nexts: &'a [u32],
    ghost ready: { Ready numbers.now heads.now nexts.now },
}

// A triangle at a corner: its place, the two corners that follow this one there, and the next triangle on the corner's chain.
#[derive(Clone, Copy)]
pub struct Step {
    pub at: usize,
    pub second: u32,
    pub third: u32,
    next: usize,
}

impl<'a> Chains<'a> {
    // The chains of these triangles, laid out in two buffers. Linear time. What is asked of the buffers holds of the chains from then on.
    pub fn new(numbers: &'a [u32], heads: &'a mut [u32], nexts: &'a mut [u32]) -> Chains<'a>
        requires sound { AllSound numbers.now (length heads.old) }
        requires room { length nexts.old ≡ 3 * count_in numbers.now }
        requires few { (count_in numbers.now < 2 ^ 32) × (length heads.old < 2 ^ 32) }
        ensures numbers { result.numbers.now ≡ numbers.now }
        ensures corners { length result.heads.now ≡ length heads.old }
    {
        link(numbers, heads, nexts);
        Chains {
            numbers,
            heads,
            nexts,
        }
    }

    // How many triangles there are.
    pub fn count(&self) -> usize
        ensures value { result ≡ count_in self.now.numbers.now }
    {
        self.numbers.len() / 4
    }

    // How many corners there are.
    pub fn corners(&self) -> usize
        ensures value { result ≡ length self.now.heads.now }
    {
        self.heads.len()
    }

    // Goes along the chain of a corner. That it is in range is asked here: it is a fact about a corner and these chains.
    pub fn around(&self, corner: u32) -> Around<'a>
        requires { corner < length self.now.heads.now }
        ensures chains { result.chains ≡ self.now }
        ensures corner { result.corner ≡ corner }
        ensures first { Next self.now.numbers.now corner 0 result.at }
    {
        Around {
            chains: *self,
            corner,
            at: self.heads[corner as usize] as usize,
        }
    }

    fn step(&self, corner: u32, i: usize) -> Step
        requires { (i < count_in self.now.numbers.now) × (Next self.now.numbers.now corner i i) }
        ensures stepped { Stepped self.now.numbers.now (length self.now.heads.now) corner i result }
    {
        let seen = seen_from(self.numbers, i, corner);
        // Field by field: what is seen from a corner is read of one triangle, and leads to no next.
        Step {
            at: i,
            second: seen.second,
            third: seen.third,
            next: self.nexts.as_chunks::<3>().0[i][seen.place] as usize,
        }
    }
}

// The triangles at a corner that are still to come on its chain.
#[derive(Drop)]
pub struct Around<'a> {
    chains: Chains<'a>,
    corner: u32,
    at: usize,
    ghost here: { Next chains.numbers.now corner at at },
}

impl Iterator for Around<'_> {
    type Item = Step;

    ghost next_gives = { λ s r t. MatchOption r (count_in s.chains.numbers.now ≤ s.at) (λ step. (s.at < count_in s.chains.numbers.now) × Stepped s.chains.numbers.now (length s.chains.heads.now) s.corner s.at step × (t.chains ≡ s.chains) × (t.corner ≡ s.corner) × (t.at ≡ step.next)) };

    ghost remaining = { λ s. at_most (count_in s.chains.numbers.now - s.at) };

    fn next(&mut self) -> Option<Step> {
        if self.at >= self.chains.count() {
            return None;
        }
        let step = self.chains.step(self.corner, self.at);
        self.at = step.next;
        Some(step)
    }
}

// Chains the triangles that have a corner, for each corner, in their order: from the last triangle to the first, each is put before the
// chains of its three corners. Numbers, heads and nexts come apart, since this lays out what `Chains` then holds.
fn link(numbers: &[u32], heads: &mut [u32], nexts: &mut [u32])
    requires sound { AllSound numbers.now (length heads.old) }
    requires room { length nexts.old ≡ 3 * count_in numbers.now }
    requires few { count_in numbers.now < 2 ^ 32 }
    ensures chained { Chained numbers.now heads.new nexts.new 0 }
{
    let count = numbers.len() / 4;
    heads.fill(count as u32);
    // By number, since the number is what is written.
    for i in (0..count).rev() {
        link_triangle(numbers, i, heads, nexts);
    }
}

// Puts one triangle before the chains of its corners.
fn link_triangle(numbers: &[u32], i: usize, heads: &mut [u32], nexts: &mut [u32])
    requires at { (i < count_in numbers.now) × (i < 2 ^ 32) }
    requires sound { Sound (length heads.old) (triangle_at numbers.now i) }
    requires room { length nexts.old ≡ 3 * count_in numbers.now }
    ensures heads { heads.new ≡ heads_before numbers.now i heads.old }
    ensures nexts { nexts.new ≡ nexts_before numbers.now i heads.old nexts.old }
{
    let [a, b, c] = corners_at(numbers, i);
    let (a, b, c) = (a as usize, b as usize, c as usize);
    nexts[3 * i..3 * i + 3].copy_from_slice(&[heads[a], heads[b], heads[c]]);
    heads[a] = i as u32;
    heads[b] = i as u32;
    heads[c] = i as u32;
}

// A triangle read from one of its corners: which of the three that is, and the two that follow.
#[derive(Clone, Copy)]
struct Seen {
    place: usize,
    second: u32,
    third: u32,
}

fn seen_from(numbers: &[u32], i: usize, corner: u32) -> Seen
    requires { i < count_in numbers.now }
    ensures value { result ≡ seen_from corner (triangle_at numbers.now i) }
    ensures near { result.place < 3 }
{
    let [a, b, c] = corners_at(numbers, i);
    if a == corner {
        Seen {
            place: 0,
            second: b,
            third: c,
        }
    } else if b == corner {
        Seen {
            place: 1,
            second: c,
            third: a,
        }
    } else {
        Seen {
            place: 2,
            second: a,
            third: b,
        }
    }
}

// The corners of the triangle at a place. Here, and in what asks for this, the place is a number: it is what chains are made of.
pub fn corners_at(numbers: &[u32], i: usize) -> [u32; 3]
    requires { i < count_in numbers.now }
    ensures { result ≡ corners (triangle_at numbers.now i) }
{
    let [a, b, c, _] = numbers.as_chunks::<4>().0[i];
    [a, b, c]
}
