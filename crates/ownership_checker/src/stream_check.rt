//! The check of a trace whose rows are read one by one.
ghost use Rattle.std.specs.Prelude.{◌≡◌, false, ℕ, List, Some, Ok, length, IfErr, IfOk};
ghost use Rattle.trace_reader.specs.Streaming.Streams.{IsBadLine};
ghost use Rattle.ring_knowledge.specs.declared.lease.Lease.{Lease};
ghost use Rattle.ownership_checker.specs.RingPasses.Accepted.{IsSound};
ghost use Rattle.ownership_checker.specs.RingPasses.Reading.{OfTrace};
ghost use Rattle.ownership_rules.specs.Rules.{trace_verdict};
ghost use Rattle.ownership_checker.specs.Following.{IsToldBad, IsToldSoFar};
ghost use Rattle.ownership_checker.specs.Streams.{IfBadLineIn, IfRefusedIn, told_in_check};

use crate::certificate::Certificate;
use crate::fault::StreamCheckFault;
use crate::lease_count::LeaseCount;
use crate::pass::{Passed, pass_followed, pass_rows};
use guest_memory::WordMemory;
use leases::{LeaseBook, LeaseLog};
use std::alloc::Global;
use trace_reader::{RowReader, Source};

/// Checks a trace as it is read, in one pass that keeps no row: its leases, or the first row that breaks a rule and the least of the rules
/// that it breaks. Behind that row it reads on: where a later line is bad, the first such line is answered in place of the refusal. Where the
/// caller `keeps` all rows himself, the trace may have no more lines than one that is kept. A trace that is accepted is harmless. A failure of the device is told, and nothing else is told as one. The memory is all zero.
pub fn check_stream<S: Source, M: WordMemory + Drop>(
    alloc: Global,
    keeps: bool,
    source: &mut S,
    memory: M,
) -> Result<Certificate, StreamCheckFault>
    requires zero { (a : ℕ) → M.words memory a ≡ 0 }
    ensures accepted { IfOk result (λ certificate. OfTrace keeps (S.held source.old) (S.held source.new) (λ trace. IsSound trace certificate.leases.items)) }
    ensures refused { IfErr result (λ e. IfRefusedIn e (λ row c. OfTrace keeps (S.held source.old) (S.held source.new) (λ trace.
        trace_verdict trace.header trace.first trace.rows ≡ Some (row, c)))) }
    ensures line { IfErr result (λ e. IfBadLineIn e (IsBadLine keeps (S.held source.old) (S.held source.new))) }
    ensures failures { S.failed source.new ≡ told_in_check (S.failed source.old) result }
{
    let reader = RowReader::open(alloc, keeps, source)?;
    let book = LeaseBook::new(alloc, reader.header())?;
    match pass_rows(alloc, reader, source, book, memory)? {
        Passed::Whole(book) => Ok(Certificate {
            leases: book.into_leases(),
        }),
        Passed::Refused { row, refusal } => Err(StreamCheckFault::Refused { row, refusal }),
    }
}

/// The same check, but nothing is kept of leases that are over: how many leases the trace has.
pub fn count_stream<S: Source, M: WordMemory + Drop>(
    alloc: Global,
    source: &mut S,
    memory: M,
) -> Result<usize, StreamCheckFault>
    requires zero { (a : ℕ) → M.words memory a ≡ 0 }
    ensures accepted { IfOk result (λ count. OfTrace false (S.held source.old) (S.held source.new) (λ trace. (leases : List Lease) × IsSound trace leases × (count ≡ length leases))) }
    ensures refused { IfErr result (λ e. IfRefusedIn e (λ row c. OfTrace false (S.held source.old) (S.held source.new) (λ trace.
        trace_verdict trace.header trace.first trace.rows ≡ Some (row, c)))) }
    ensures line { IfErr result (λ e. IfBadLineIn e (IsBadLine false (S.held source.old) (S.held source.new))) }
    ensures failures { S.failed source.new ≡ told_in_check (S.failed source.old) result }
{
    let reader = RowReader::open(alloc, false, source)?;
    let log = LeaseCount::new(alloc, reader.header())?;
    match pass_rows(alloc, reader, source, log, memory)? {
        Passed::Whole(log) => Ok(log.count()),
        Passed::Refused { row, refusal } => Err(StreamCheckFault::Refused { row, refusal }),
    }
}

/// Counts the leases of a trace as it comes, and reads nothing behind the first row that breaks a rule: that row and the least of the rules
/// that it breaks are answered as soon as its line came, whatever comes behind it. A bad line is answered where no row before it breaks a
/// rule. What is said of an accepted trace is the same.
pub fn follow_stream<S: Source, M: WordMemory + Drop>(
    alloc: Global,
    source: &mut S,
    memory: M,
) -> Result<usize, StreamCheckFault>
    requires zero { (a : ℕ) → M.words memory a ≡ 0 }
    ensures accepted { IfOk result (λ count. OfTrace false (S.held source.old) (S.held source.new) (λ trace. (leases : List Lease) × IsSound trace leases × (count ≡ length leases))) }
    ensures refused { IfErr result (λ e. IfRefusedIn e (λ row c. IsToldSoFar false (S.held source.old) (S.held source.new) (Ok (Some (row, c))))) }
    ensures line { IfErr result (λ e. IfBadLineIn e (IsBadLine false (S.held source.old) (S.held source.new))) }
    ensures before { IfErr result (λ e. IfBadLineIn e (IsToldBad false (S.held source.old) (S.held source.new))) }
    ensures failures { S.failed source.new ≡ told_in_check (S.failed source.old) result }
{
    let mut reader = RowReader::open(alloc, false, source)?;
    let log = LeaseCount::new(alloc, reader.header())?;
    match pass_followed(alloc, &mut reader, source, log, memory)? {
        Passed::Whole(counted) => Ok(counted.count()),
        Passed::Refused { row, refusal } => Err(StreamCheckFault::Refused { row, refusal }),
    }
}
