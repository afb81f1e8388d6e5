//! The verifier of a certificate beside a trace whose rows are read one by one.
ghost use Rattle.std.specs.Prelude.{◌≡◌, false, ℕ, IfErr, IfOk};
ghost use Rattle.trace_reader.specs.Streaming.Answers.{told_failures};
ghost use Rattle.trace_reader.specs.Streaming.Streams.{IfBadLine, IsBadLine};
ghost use Rattle.ownership_checker.specs.RingPasses.Accepted.{IsVerified};
ghost use Rattle.ownership_checker.specs.RingPasses.Reading.{OfTrace};

use guest_memory::WordMemory;
use leases::CertificateLog;
use ownership_checker::{Passed, pass_rows};
use ring_knowledge::Lease;
use std::alloc::Global;
use trace_reader::{RowReader, Source, StreamFault};

/// Verifies a certificate beside a trace as it is read, in one pass that keeps no row: whether the trace breaks no rule, and these are its
/// leases, in their order. A trace of which that is true is harmless. Where a line is bad, the first such line is told. A failure of the
/// device is told, and nothing else is told as one. The memory is all zero.
pub fn verify_stream<S: Source, M: WordMemory + Drop>(
    alloc: Global,
    source: &mut S,
    memory: M,
    leases: &[Lease],
) -> Result<bool, StreamFault>
    requires zero { (a : ℕ) → M.words memory a ≡ 0 }
    ensures verdict { IfOk result (λ yes. OfTrace false (S.held source.old) (S.held source.new) (λ trace. IsVerified trace leases.now yes)) }
    ensures line { IfErr result (λ e. IfBadLine e (IsBadLine false (S.held source.old) (S.held source.new))) }
    ensures failures { S.failed source.new ≡ told_failures (S.failed source.old) result }
{
    let reader = RowReader::open(alloc, false, source)?;
    let log = CertificateLog::new(alloc, reader.header(), leases)?;
    match pass_rows(alloc, reader, source, log, memory)? {
        Passed::Whole(log) => Ok(log.is_whole()),
        Passed::Refused { .. } => Ok(false),
    }
}
