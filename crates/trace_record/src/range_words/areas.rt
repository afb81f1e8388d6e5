ghost use Rattle.std.specs.Prelude.{◌≡◌, ◌+◌, ℕ, List, [], ◌∷◌, ◌++◌, nat_lt, false, true, OnOk, OnErr};
ghost use Rattle.std.specs.List.{list_any};
ghost use Rattle.segments.specs.Places.{overlap};

use std::alloc::{AllocError, Global};

/// Areas of memory of one length: finds in a time that hardly grows with their number whether one of them has a word. Contracts
/// compare them with the list of the addresses at which they start.
#[derive(Drop)]
pub struct Areas {
    /// Their first addresses, rising.
    starts: Vec<u64>,
    /// How many bytes each has.
    bytes: u64,
}

impl Areas {
    ghost use Rattle.trace_record.specs.RangeWords.Holding.{HoldsAreas};

    /// No areas, of so many bytes each.
    pub fn new(alloc: Global, bytes: u64) -> Areas
        ensures { HoldsAreas bytes [] result }
    {
        Areas {
            starts: Vec::new(alloc),
            bytes,
        }
    }

    /// There are none any more.
    pub fn clear(&mut self)
        ensures { (n : ℕ) (starts : List ℕ) → HoldsAreas n starts self.old → HoldsAreas n [] self.new }
    {
        self.starts.clear();
    }

    /// There are none.
    pub fn is_empty(&self) -> bool
        ensures { result ≡ true → (n : ℕ) (starts : List ℕ) → HoldsAreas n starts self.now → starts ≡ [] }
    {
        self.starts.is_empty()
    }

    /// One of the areas has one of these bytes, some of which may lie beyond the address space.
    #[inline(always)]
    pub fn touches(&self, from: u64, len: u64) -> bool
        ensures { (n : ℕ) (starts : List ℕ) → HoldsAreas n starts self.now → result ≡ list_any (λ a. overlap from len a n) starts }
    {
        if self.lie_beside(from, len) {
            return false;
        }
        let starts = self.starts.as_slice();
        let after = starts.partition_point(|start| is_before_end(*start, from, len));
        if after == 0 {
            return false;
        }
        is_before_end(from, starts[after - 1], self.bytes)
    }

    /// All areas lie before these bytes, or all behind them: mostly so, and told without a search.
    fn lie_beside(&self, from: u64, len: u64) -> bool
        ensures { result ≡ true → (n : ℕ) (starts : List ℕ) → HoldsAreas n starts self.now → list_any (λ a. overlap from len a n) starts ≡ false }
    {
        let starts = self.starts.as_slice();
        if starts.is_empty() {
            return true;
        }
        let last = starts[starts.len() - 1];
        !is_before_end(starts[0], from, len) || !is_before_end(from, last, self.bytes)
    }

    /// One area more. Want of memory changes nothing.
    pub fn add(&mut self, start: u64) -> Result<(), AllocError>
        ensures ok { OnOk result ((n : ℕ) (xs ys : List ℕ) → HoldsAreas n (xs ++ ys) self.old → HoldsAreas n (xs ++ start ∷ ys) self.new) }
        ensures err { OnErr result ((n : ℕ) (starts : List ℕ) → HoldsAreas n starts self.old → HoldsAreas n starts self.new) }
    {
        let after = self
            .starts
            .as_slice()
            .partition_point(|other| *other <= start);
        self.starts.insert(after, start)?;
        Ok(())
    }

    /// One area less: one of those that start here.
    pub fn remove(&mut self, start: u64)
        ensures { (n : ℕ) (xs ys : List ℕ) → HoldsAreas n (xs ++ start ∷ ys) self.old → HoldsAreas n (xs ++ ys) self.new }
    {
        if let Ok(number) = self.starts.as_slice().binary_search(&start) {
            self.starts.remove(number);
        }
    }
}

/// The address lies before the end of so many bytes from here on, an end that may lie beyond the address space.
fn is_before_end(address: u64, from: u64, len: u64) -> bool
    ensures { result ≡ nat_lt address (from + len) }
{
    address < from || address - from < len
}
