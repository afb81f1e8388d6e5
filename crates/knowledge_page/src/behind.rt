//! A pass over rows none of which breaks a rule: what is known behind them, and what is lent.
ghost use Rattle.std.specs.Prelude.{◌≡◌, ◌+◌, ◌≤◌, All, Some, length, IfOk, IfErr};
ghost use Rattle.traces.specs.AllowedHeaders.{AreUnmoved, IsHeader};
ghost use Rattle.traces.specs.Limits.{most_streamed_lines};
ghost use Rattle.traces.specs.TraceRows.{IsTraceRow};
ghost use Rattle.ownership_rules.specs.Rules.{trace_verdict};
ghost use Rattle.ownership_checker.specs.Verdicts.{IfRefusedAt};
ghost use Rattle.knowledge_page.specs.Standing.{IsStanding};

use crate::standing::Standing;
use guest_memory::SparseMemory;
use leases::LeaseBook;
use ownership_checker::{Behind, CheckFault, Passed, pass_kept};
use std::alloc::Global;
use traces::{Header, Row};

/// What is known, and what is lent, behind rows, `first` the line of the first; or the first of them that breaks a rule, and the least
/// rule that it breaks. `Memory` is answered only where a growth was refused.
pub(crate) fn standing_behind(
    alloc: Global,
    header: &Header,
    first: u32,
    rows: &[Row],
) -> Result<Standing, CheckFault>
    requires headed { IsHeader header.now }
    requires unmoved { AreUnmoved header.now.rings }
    requires fitting { All IsTraceRow rows.now }
    requires within { first + length rows.now ≤ most_streamed_lines + 1 }
    ensures standing { IfOk result (IsStanding header.now first rows.now) }
    ensures refused { IfErr result (λ e. IfRefusedAt e (λ row c. trace_verdict header.now first rows.now ≡ Some (row, c))) }
{
    let own = header.copy(alloc)?;
    let book = LeaseBook::new(alloc, &own)?;
    match pass_kept(alloc, own, first, rows, book, SparseMemory::new(alloc))? {
        Passed::Whole(pass) => {
            let Behind {
                header,
                kept,
                memory,
                log,
            } = pass.into_behind();
            Ok(Standing {
                header,
                kept,
                memory,
                leases: log.into_leases(),
            })
        }
        Passed::Refused { row, refusal } => Err(CheckFault::Refused { row, refusal }),
    }
}
