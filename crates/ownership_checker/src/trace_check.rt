//! The check of a trace that is kept in memory.
ghost use Rattle.std.specs.Prelude.{◌≡◌, ℕ, Some, IfErr, IfOk};
ghost use Rattle.trace_reader.specs.Entries.{text_of};
ghost use Rattle.ownership_checker.specs.RingPasses.Accepted.{IsSound};
ghost use Rattle.ownership_rules.specs.Rules.{trace_verdict};
ghost use Rattle.ownership_checker.specs.Verdicts.{IfRefusedAt};

use crate::certificate::Certificate;
use crate::fault::CheckFault;
use crate::pass::{Passed, pass_kept};
use guest_memory::{SparseMemory, WordMemory};
use leases::LeaseBook;
use std::alloc::Global;
use traces::Trace;

/// Checks a trace in one pass: its leases, or the first row that breaks a rule and the least of the rules that it breaks. Between its rows
/// rings may come and go, descriptors be withdrawn, and the controller halt, be reset and run again. A trace that is accepted is harmless: in
/// each run of the controller's model beside its rows every world is safe. `Memory` is answered only where a growth was refused.
pub fn check(alloc: Global, trace: &Trace) -> Result<Certificate, CheckFault>
    ensures accepted { IfOk result (λ certificate. IsSound (text_of trace.now) certificate.leases.items) }
    ensures refused { IfErr result (λ e. IfRefusedAt e (λ row c. trace_verdict trace.now.header trace.now.first trace.now.rows ≡ Some (row, c))) }
{
    check_in(alloc, trace, SparseMemory::new(alloc))
}

/// Checks a trace in one pass; its leases. The memory is all zero.
pub fn check_in<M: WordMemory + Drop>(
    alloc: Global,
    trace: &Trace,
    memory: M,
) -> Result<Certificate, CheckFault>
    requires zero { (a : ℕ) → M.words memory a ≡ 0 }
    ensures accepted { IfOk result (λ certificate. IsSound (text_of trace.now) certificate.leases.items) }
    ensures refused { IfErr result (λ e. IfRefusedAt e (λ row c. trace_verdict trace.now.header trace.now.first trace.now.rows ≡ Some (row, c))) }
{
    let header = trace.header.copy(alloc)?;
    let book = LeaseBook::new(alloc, &header)?;
    let rows = trace.rows.as_slice();
    match pass_kept(alloc, header, trace.first, rows, book, memory)? {
        Passed::Whole(pass) => Ok(Certificate {
            leases: pass.into_log().into_leases(),
        }),
        Passed::Refused { row, refusal } => Err(CheckFault::Refused { row, refusal }),
    }
}
