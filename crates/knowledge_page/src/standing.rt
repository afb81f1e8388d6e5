//! What is known, and what is lent, behind rows.
ghost use Rattle.traces.specs.AllowedHeaders.{IsHeader};

use guest_memory::SparseMemory;
use ring_knowledge::Lease;
use trace_record::TraceRecord;
use traces::Header;

/// What is known, and what is lent, behind rows that break no rule.
#[derive(Drop)]
pub struct Standing {
    /// The rings that are there.
    pub header: Header,
    /// Rings, registers, slots and endpoints, unfinished commands.
    pub kept: TraceRecord,
    pub memory: SparseMemory,
    /// The leases of the rows, in their order, those that are over too.
    pub leases: Vec<Lease>,
    pub ghost headed: { IsHeader header },
}
