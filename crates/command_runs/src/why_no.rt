//! Why leases aren't those of a trace, which is judged once more for that.
use guest_memory::SparseMemory;
use ownership_checker::{StreamCheckFault, check_stream};
use ownership_rules::Refusal;
use ring_knowledge::Lease;
use std::alloc::{AllocError, Global};
use trace_reader::{Counted, StreamFault};

/// Why leases aren't those of a trace.
#[derive(Drop)]
pub enum WhyNo {
    /// The first row that breaks a rule, by its line from 1.
    Row { row: u32, refusal: Refusal },
    /// The trace's own leases, which are others.
    Leases(Vec<Lease>),
    /// They are those of the trace, or the text holds none.
    Nothing,
}

/// Why leases aren't those of the trace that a text holds.
pub fn why_no(alloc: Global, leases: &[Lease], text: &[u8]) -> Result<WhyNo, AllocError> {
    let mut source = Counted::new(text);
    match check_stream(alloc, false, &mut source, SparseMemory::new(alloc)) {
        Ok(own) if own.leases.as_slice() == leases => Ok(WhyNo::Nothing),
        Ok(own) => Ok(WhyNo::Leases(own.leases)),
        Err(StreamCheckFault::Refused { row, refusal }) => Ok(WhyNo::Row { row, refusal }),
        Err(StreamCheckFault::Unread(StreamFault::Memory)) => Err(AllocError),
        Err(StreamCheckFault::Unread(_)) => Ok(WhyNo::Nothing),
    }
}
