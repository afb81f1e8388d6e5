//! Answers to a trace that is judged as a device gives it.
ghost use Rattle.std.specs.Prelude.{◌≡◌, false};
ghost use Rattle.command_runs.specs.CheckAnswers.{IsVerdictAlone, answer_of_check_fault};
ghost use Rattle.command_runs.specs.FollowAnswers.{IsFollowAnswer};
ghost use Rattle.command_runs.specs.TraceTexts.{IsTraceAnswer};
ghost use Rattle.command_runs.specs.VerifyAnswers.{IsVerdictBeside};

use answers::Answer;
use guest_memory::SparseMemory;
use ownership_checker::{StreamCheckFault, count_stream, follow_stream};
use ring_knowledge::Lease;
use std::alloc::Global;
use trace_reader::Source;
use verifier::verify_stream;

/// The answer to a trace of which no certificate is asked for: its leases are counted.
pub fn counted_answer<S: Source>(alloc: Global, source: &mut S) -> Answer
    ensures { IsTraceAnswer false IsVerdictAlone (S.held source.old) result }
{
    match count_stream(alloc, source, SparseMemory::new(alloc)) {
        Ok(leases) => Answer::Accepted {
            leases: leases as u64,
        },
        Err(fault) => unaccepted(fault),
    }
}

/// The same of a trace that is judged as it comes: the first row that breaks a rule is the answer, and nothing is read behind it.
pub fn followed_answer<S: Source>(alloc: Global, source: &mut S) -> Answer
    ensures { IsFollowAnswer (S.held source.old) result }
{
    match follow_stream(alloc, source, SparseMemory::new(alloc)) {
        Ok(count) => Answer::Accepted {
            leases: count as u64,
        },
        Err(fault) => unaccepted(fault),
    }
}

/// The answer where a trace isn't accepted, or none is read.
pub fn unaccepted(fault: StreamCheckFault) -> Answer
    ensures { result ≡ answer_of_check_fault fault }
{
    match fault {
        StreamCheckFault::Refused { row, refusal } => Answer::Refused { row, refusal },
        StreamCheckFault::Unread(fault) => Answer::from(fault),
    }
}

/// The answer to leases beside a trace.
pub fn verified_answer<S: Source>(alloc: Global, leases: &[Lease], source: &mut S) -> Answer
    ensures { IsVerdictBeside leases.now (S.held source.old) result }
{
    match verify_stream(alloc, source, SparseMemory::new(alloc), leases) {
        Ok(holds) => Answer::Verified { holds },
        Err(fault) => Answer::from(fault),
    }
}
