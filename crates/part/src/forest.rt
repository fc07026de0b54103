// Which corners hang together: a forest of parents in a slice (union-find), in which the root of a tree is its smallest corner.
ghost use Rattle.std.specs.Prelude.{◌≡◌, ◌^◌, ◌<◌, ◌≤◌, ◌⊎◌, length};
ghost use Rattle.part.specs.Forest.{Forest, Alone, Link, Plus, Alike, Tells, LeastParent};

// The parents of corners: none is above its child, and there are no more than a `u32` counts.
// That a corner is below their number is asked at each method: it is a fact about a corner and these trees, which neither holds alone.
#[derive(Drop)]
pub struct Trees<'a> {
    parents: &'a mut [u32],
    ghost forest: { Forest parents.now },
    ghost few: { length parents.now < 2 ^ 32 },
}

impl<'a> Trees<'a> {
    // Makes each corner a tree of its own.
    pub fn alone(parents: &'a mut [u32]) -> Self
        requires { length parents.old < 2 ^ 32 }
        ensures same_reference { result.parents.ghost_name ≡ parents.entry.ghost_name }
        ensures long { length result.parents.now ≡ length parents.old }
        ensures alone { Alone result.parents.now }
    {
        for (c, parent) in parents.iter_mut().enumerate() {
            *parent = c as u32;
        }
        Trees { parents }
    }

    // Puts three corners, and all that hang on them, into one tree: hangs them to the least of their parents. Most often each hung there
    // before or was a root, and nothing is left to unite.
    pub fn unite_three(&mut self, a: u32, b: u32, c: u32)
        requires { (a < length self.old.parents.now) × ((b < length self.old.parents.now) × (c < length self.old.parents.now)) }
        ensures same_reference { self.new.parents.ghost_name ≡ self.old.parents.ghost_name }
        ensures long { length self.new.parents.now ≡ length self.old.parents.now }
        ensures alike { Alike (Link self.new.parents.now) (Plus (Plus (Link self.old.parents.now) a b) a c) }
    {
        let least = self.least_parent(a, b, c);
        let x = self.hang(a, least);
        let y = self.hang(b, least);
        let z = self.hang(c, least);
        if (x == least) & (y == least) & (z == least) {
            return;
        }
        self.unite(z, least);
        self.unite(y, least);
        self.unite(x, least);
    }

    // Puts the number of its tree in the place of each corner's parent. A parent comes before its children, so that number stands in its
    // place by then.
    pub fn number(self)
        ensures tells { Tells self.entry.parents.now self.exit.0.now }
    {
        let Trees { parents } = self;
        let mut count = 0;
        // By index: what stands at another index is read on the way.
        for c in 0..parents.len() {
            let parent = parents[c] as usize;
            if parent == c {
                parents[c] = count;
                count += 1;
            } else {
                parents[c] = parents[parent];
            }
        }
    }

    // Puts two corners, and all that hang on them, into one tree. Of two ways up, the one with the greater parent hangs its corner to the
    // lesser and goes on from the greater, so that no root is looked for, and later ways are shorter.
    fn unite(&mut self, a: u32, b: u32)
        requires { (a < length self.old.parents.now) × (b < length self.old.parents.now) }
        ensures same_reference { self.new.parents.ghost_name ≡ self.old.parents.ghost_name }
        ensures long { length self.new.parents.now ≡ length self.old.parents.now }
        ensures alike { Alike (Link self.new.parents.now) (Plus (Link self.old.parents.now) a b) }
    {
        let mut x = a;
        let mut y = b;
        // A `while`: nothing counts how long the two ways are. The branches mirror each other: each is written for the way that it moves.
        while self.parents[x as usize] != self.parents[y as usize] {
            if self.parents[x as usize] > self.parents[y as usize] {
                let up = self.parents[x as usize];
                self.parents[x as usize] = self.parents[y as usize];
                x = up;
            } else {
                let up = self.parents[y as usize];
                self.parents[y as usize] = self.parents[x as usize];
                y = up;
            }
        }
    }

    fn least_parent(&self, a: u32, b: u32, c: u32) -> u32
        requires { (a < length self.now.parents.now) × ((b < length self.now.parents.now) × (c < length self.now.parents.now)) }
        ensures least { LeastParent self.now.parents.now a b c result }
    {
        self.parents[a as usize]
            .min(self.parents[b as usize])
            .min(self.parents[c as usize])
    }

    // Hangs a corner to another. Answers what is left to unite with that: the former parent, or only itself where the corner was a root.
    fn hang(&mut self, corner: u32, to: u32) -> u32
        requires { (corner < length self.old.parents.now) × (to ≤ corner) }
        ensures same_reference { self.new.parents.ghost_name ≡ self.old.parents.ghost_name }
        ensures long { length self.new.parents.now ≡ length self.old.parents.now }
        ensures alike { Alike (Plus (Link self.new.parents.now) result to) (Plus (Link self.old.parents.now) corner to) }
        ensures below { result ≤ corner }
    {
        let parent = self.parents[corner as usize];
        self.parents[corner as usize] = to;
        if parent == corner { to } else { parent }
    }
}
