//! Which rings endpoints have.
ghost use Rattle.std.specs.Prelude.{◌≡◌, ◌+◌, ◌<◌, ◌≤◌, ℕ, IfOk, length, nat_lt, replicate};

use std::alloc::{AllocError, Global};

/// By ring ID: which endpoints have the ring. Most often it is one at most.
#[derive(Drop)]
pub(crate) struct Holders {
    /// How many endpoints have it.
    counts: Vec<usize>,
    /// The sum of their numbers: where one has it, its number.
    sums: Vec<usize>,
    ghost many: { length counts.items ≡ 256 },
    ghost sums_many: { length sums.items ≡ 256 },
}

impl Holders {
    ghost use Rattle.trace_record.specs.DeviceSlots.Holders.{HasRoom, HasSumRoom, IsCounted, IsSummed, count_of, one_of, place_of, sum_of};

    /// No ring has an endpoint.
    pub(crate) fn new(alloc: Global) -> Result<Holders, AllocError>
        ensures counts { IfOk result (λ holders. holders.counts.items ≡ replicate 256 0) }
        ensures sums { IfOk result (λ holders. holders.sums.items ≡ replicate 256 0) }
    {
        Ok(Holders {
            counts: vec![in alloc; 0; 256]?,
            sums: vec![in alloc; 0; 256]?,
        })
    }

    /// No ring has an endpoint any more.
    pub(crate) fn clear(&mut self)
        ensures counts { self.new.counts.items ≡ replicate 256 0 }
        ensures sums { self.new.sums.items ≡ replicate 256 0 }
    {
        self.counts.fill(0);
        self.sums.fill(0);
    }

    /// Whether an endpoint has the ring.
    pub(crate) fn has(&self, ring: u8) -> bool
        ensures { result ≡ nat_lt 0 (count_of self.now ring) }
    {
        self.counts[usize::from(ring)] > 0
    }

    /// The number of the endpoint that has the ring, where one alone has it.
    pub(crate) fn number(&self, ring: u8) -> usize
        ensures { result ≡ sum_of self.now ring }
    {
        self.sums[usize::from(ring)]
    }

    /// The endpoint with a number has another ring from now on, or none. Mostly it keeps its own.
    #[inline(always)]
    pub(crate) fn pass_on(&mut self, before: Option<u8>, ring: Option<u8>, number: usize)
        requires counted { IsCounted self.now before }
        requires summed { IsSummed self.now before number }
        requires room { HasRoom self.now ring }
        requires sum_room { HasSumRoom self.now ring number }
        ensures counts { (r : ℕ) → count_of self.new r + one_of r before ≡ count_of self.old r + one_of r ring }
        ensures sums { (r : ℕ) → sum_of self.new r + place_of r before number ≡ sum_of self.old r + place_of r ring number }
    {
        if before == ring {
            return;
        }
        self.leave(before, number);
        self.take(ring, number);
    }

    /// The endpoint with a number lets go of a ring, if it had one.
    fn leave(&mut self, ring: Option<u8>, number: usize)
        requires counted { IsCounted self.now ring }
        requires summed { IsSummed self.now ring number }
        ensures counts { (r : ℕ) → count_of self.new r + one_of r ring ≡ count_of self.old r }
        ensures sums { (r : ℕ) → sum_of self.new r + place_of r ring number ≡ sum_of self.old r }
    {
        match ring {
            None => {}
            Some(ring) => {
                self.counts[usize::from(ring)] -= 1;
                self.sums[usize::from(ring)] -= number;
            }
        }
    }

    /// The endpoint with a number gets a ring, if it gets one.
    fn take(&mut self, ring: Option<u8>, number: usize)
        requires room { HasRoom self.now ring }
        requires sum_room { HasSumRoom self.now ring number }
        ensures counts { (r : ℕ) → count_of self.new r ≡ count_of self.old r + one_of r ring }
        ensures sums { (r : ℕ) → sum_of self.new r ≡ sum_of self.old r + place_of r ring number }
    {
        match ring {
            None => {}
            Some(ring) => {
                self.counts[usize::from(ring)] += 1;
                self.sums[usize::from(ring)] += number;
            }
        }
    }
}
