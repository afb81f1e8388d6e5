//! A log that keeps no leases: notes ask for none.
use leases::LeaseLog;
use std::alloc::AllocError;
use traces::Ring;

/// Keeps nothing, so nothing is held of it.
#[derive(Drop)]
pub(crate) struct NoLog;

impl LeaseLog for NoLog {
    ghost holds = { λ list h ts log. ⊥ };

    ghost other_rings = { λ list h g ts log alike none. none };

    fn begin_block(&mut self, _row: u32, _ring: &Ring, _position: u64) -> Result<(), AllocError> {
        Ok(())
    }

    fn begin_link(&mut self, _row: u32, _ring: &Ring, _crossing: u64) -> Result<(), AllocError> {
        Ok(())
    }

    fn begin_range(&mut self, _row: u32, _bytes: u32, _address: u64) -> Result<(), AllocError> {
        Ok(())
    }

    fn end_block(&mut self, _row: u32, _ring: &Ring, _position: u64) {}

    fn end_passed(&mut self, _row: u32, _ring: &Ring, _from: u64, _to: u64) {}

    fn end_range(&mut self, _index: usize, _row: u32, _bytes: u32, _address: u64) {}

    fn count(&self) -> usize {
        0
    }
}
