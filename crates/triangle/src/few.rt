// A short list of items that stands on the stack.
ghost use Rattle.std.specs.Prelude.{◌≡◌, ◌<◌, ◌≤◌, List, [], take};
ghost use Rattle.triangle.specs.Few.{pushed};

use std::marker::Model;

// At most N items, in order.
#[derive(Drop)]
pub struct Few<T, const N: usize> {
    items: [T; N],
    count: u8,
}

// Clauses see the items.
impl<T, const N: usize> Model for Few<T, N> {
    ghost Value = { List T };

    ghost view = { λ f. take f.count f.items };

    ghost invariant = { λ f. (f.count ≤ N) × (N < 256) };
}

impl<T: Copy, const N: usize> Few<T, N> {
    // No items; `blank` stands where they will.
    pub fn new(blank: T) -> Self
        requires { N < 256 }
        ensures empty { result ≡ [] }
    {
        Few {
            items: [blank; N],
            count: 0,
        }
    }

    // Puts an item behind the others, if there is room.
    pub fn push(&mut self, item: T)
        ensures after { self.new ≡ pushed N self.old item }
    {
        let end = self.count as usize;
        if end < N {
            self.items[end] = item;
            self.count += 1;
        }
    }

    pub fn as_slice(&self) -> &[T]
        ensures items { result.now ≡ self.now }
    {
        &self.items[..self.count as usize]
    }
}
