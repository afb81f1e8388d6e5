use ring_knowledge::Lease;

/// What is answered to a trace that breaks no rule.
#[derive(Debug, Drop, PartialEq, Eq)]
pub struct Certificate {
    /// The leases of the trace: by the first row, then by kind, ring and position.
    pub leases: Vec<Lease>,
}
