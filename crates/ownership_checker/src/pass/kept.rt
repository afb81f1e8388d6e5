//! The pass over rows that are kept in memory.
ghost use Rattle.std.specs.Prelude.{◌≡◌, ◌+◌, ◌≤◌, ℕ, All, Some, length, IfOk};
ghost use Rattle.traces.specs.AllowedHeaders.{AreUnmoved, IsHeader};
ghost use Rattle.traces.specs.Limits.{most_streamed_lines};
ghost use Rattle.traces.specs.TraceRows.{IsTraceRow};
ghost use Rattle.ownership_checker.specs.RingPasses.KeptRows.{IsBehindAll};
ghost use Rattle.ownership_checker.specs.RingPasses.Reading.{IfRefusedRow, IfWhole};
ghost use Rattle.ownership_rules.specs.Rules.{trace_verdict};

use crate::pass::reading::Passed;
use crate::pass::ring_pass::RingPass;
use guest_memory::WordMemory;
use leases::LeaseLog;
use std::alloc::{AllocError, Global};
use trace_record::StepFault;
use traces::{Header, Row};

/// Checks rows in one pass that are kept in memory, `first` the number of the first; rings may come and go between them, and descriptors be
/// withdrawn. The memory is all zero.
pub fn pass_kept<B: LeaseLog + Drop, M: WordMemory + Drop>(
    alloc: Global,
    header: Header,
    first: u32,
    rows: &[Row],
    log: B,
    memory: M,
) -> Result<Passed<RingPass<B, M>>, AllocError>
    requires headed { IsHeader header }
    requires unmoved { AreUnmoved header.rings }
    requires fitting { All IsTraceRow rows.now }
    requires within { first + length rows.now ≤ most_streamed_lines + 1 }
    requires zero { (a : ℕ) → M.words memory a ≡ 0 }
    ensures whole { IfOk result (λ passed. IfWhole passed (IsBehindAll M.words B.holds header first rows.now log)) }
    ensures refused { IfOk result (λ passed. IfRefusedRow passed (λ row c. trace_verdict header first rows.now ≡ Some (row, c))) }
{
    let mut pass = RingPass::new(alloc, header, log, memory)?;
    let mut number = first;
    for row in rows {
        match pass.row(number, row) {
            Ok(()) => {}
            Err(StepFault::Refused(refusal)) => {
                return Ok(Passed::Refused {
                    row: number,
                    refusal,
                });
            }
            Err(StepFault::Memory) => return Err(AllocError),
        }
        number += 1;
    }
    Ok(Passed::Whole(pass))
}
