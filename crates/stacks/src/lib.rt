//! Stacks in fixed memory.
#![tactic(auto)]

ghost use Rattle.std.specs.Prelude.{◌≡◌, [], ◌∷◌, length, drop, ◌==◌, is_ok, nat_lt, OnOk, OnErr};
ghost use Rattle.std.specs.List.{slice_get};
ghost use Rattle.stacks.specs.Views.{items_of};

mod stack;

pub use stack::{Full, Stack};

impl<T: Copy, const N: usize> Stack<T, N> {
    /// No item; the memory holds `filler`.
    pub fn new(filler: T) -> Stack<T, N>
        ensures { items_of result ≡ [] }
    {
        Stack {
            items: [filler; N],
            len: 0,
        }
    }

    pub fn len(&self) -> usize
        ensures { result ≡ length (items_of self.now) }
    {
        self.len
    }

    pub fn is_empty(&self) -> bool
        ensures { result ≡ (length (items_of self.now) == 0) }
    {
        self.len == 0
    }

    /// The item that was pushed last.
    pub fn top(&self) -> Option<T>
        ensures { result ≡ slice_get (items_of self.now) 0 }
    {
        self.items[..self.len].last().copied()
    }

    /// Takes off the item that was pushed last.
    pub fn pop(&mut self) -> Option<T>
        ensures value { result ≡ slice_get (items_of self.old) 0 }
        ensures after { items_of self.new ≡ drop 1 (items_of self.old) }
    {
        let item = self.top();
        self.cut(1);
        item
    }

    /// One item more, where there is room.
    pub fn push(&mut self, item: T) -> Result<(), Full>
        ensures room { is_ok result ≡ nat_lt (length (items_of self.old)) N }
        ensures ok { OnOk result (items_of self.new ≡ item ∷ items_of self.old) }
        ensures err { OnErr result (self.new ≡ self.old) }
    {
        if self.len >= N {
            return Err(Full);
        }
        self.items[self.len] = item;
        self.len += 1;
        Ok(())
    }

    /// Drops the `count` items that were pushed last, or all where there are fewer.
    #[tactic(auto, using(crate::proofs::Stacks::stacked_behind))]
    pub fn cut(&mut self, count: usize)
        ensures { items_of self.new ≡ drop count (items_of self.old) }
    {
        self.len = self.len.saturating_sub(count);
    }
}
