//! The verifier of a certificate beside a trace that is kept.
ghost use Rattle.std.specs.Prelude.{IfOk};
ghost use Rattle.trace_reader.specs.Entries.{text_of};
ghost use Rattle.ownership_checker.specs.RingPasses.Accepted.{IsVerified};

use guest_memory::SparseMemory;
use leases::CertificateLog;
use ownership_checker::{Passed, pass_kept};
use ring_knowledge::Lease;
use std::alloc::{AllocError, Global};
use traces::Trace;

/// Verifies a certificate in one pass over the rows: whether the trace breaks no rule, and these are its leases, in their order: each
/// lease that begins must be the next one, and each that ends must end there at this row. A trace of which that is true is harmless: in
/// each run of the controller's model beside its rows every world is safe. Want of memory is answered only where a growth was refused.
pub fn verify(alloc: Global, trace: &Trace, leases: &[Lease]) -> Result<bool, AllocError>
    ensures verdict { IfOk result (λ yes. IsVerified (text_of trace.now) leases.now yes) }
{
    let header = trace.header.copy(alloc)?;
    let log = CertificateLog::new(alloc, &header, leases)?;
    let rows = trace.rows.as_slice();
    let memory = SparseMemory::new(alloc);
    match pass_kept(alloc, header, trace.first, rows, log, memory)? {
        Passed::Whole(pass) => Ok(pass.into_log().is_whole()),
        Passed::Refused { .. } => Ok(false),
    }
}
