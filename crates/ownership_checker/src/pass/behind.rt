use trace_record::TraceRecord;
use traces::Header;

/// What is known behind rows, and the log of their leases.
#[derive(Drop)]
pub struct Behind<B, M> {
    /// The rings that are there.
    pub header: Header,
    /// Rings, registers, slots and endpoints, unfinished commands.
    pub kept: TraceRecord,
    pub memory: M,
    pub log: B,
}
