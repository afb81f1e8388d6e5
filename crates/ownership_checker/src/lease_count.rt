ghost use Rattle.std.specs.Prelude.{◌≡◌, ◌+◌, ℕ, [], length, IfOk, OnOk};
ghost use Rattle.leases.specs.LeaseBooks.Lents.{lents};

use leases::{LeaseLog, opening_leases};
use std::alloc::{AllocError, Global};
use traces::{Header, Ring};

/// How many leases have begun with the rows so far. Nothing else of them is kept.
#[derive(Drop)]
pub struct LeaseCount {
    count: usize,
}

impl LeaseCount {
    /// The count before the first row: the leases of the event ring's segments have begun.
    pub fn new(alloc: Global, header: &Header) -> Result<LeaseCount, AllocError>
        ensures { IfOk result (λ log. (first : ℕ) → log.count ≡ length (lents header.now first [])) }
    {
        let opening = opening_leases(alloc, header)?;
        Ok(LeaseCount {
            count: opening.len(),
        })
    }

    /// One lease more. There is no room for more than can be counted.
    fn add_one(&mut self) -> Result<(), AllocError>
        ensures { OnOk result (self.new.count ≡ self.old.count + 1) }
    {
        self.count = self.count.checked_add(1).ok_or(AllocError)?;
        Ok(())
    }
}

impl LeaseLog for LeaseCount {
    ghost holds = { λ list h ts log. log.count ≡ length ts };

    ghost other_rings = { λ list h g ts log same held. held };

    fn begin_block(&mut self, _row: u32, _ring: &Ring, _position: u64) -> Result<(), AllocError> {
        self.add_one()
    }

    fn begin_link(&mut self, _row: u32, _ring: &Ring, _crossing: u64) -> Result<(), AllocError> {
        self.add_one()
    }

    fn begin_range(&mut self, _row: u32, _bytes: u32, _address: u64) -> Result<(), AllocError> {
        self.add_one()
    }

    fn end_block(&mut self, _row: u32, _ring: &Ring, _position: u64) {}

    fn end_passed(&mut self, _row: u32, _ring: &Ring, _from: u64, _to: u64) {}

    fn end_range(&mut self, _index: usize, _row: u32, _bytes: u32, _address: u64) {}

    fn count(&self) -> usize {
        self.count
    }
}
