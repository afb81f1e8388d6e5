ghost use Rattle.std.specs.Prelude.{◌≡◌, ◌≤◌, ◌+◌, ◌*◌, ℕ, All, Some, length, reverse, IfErr, IfOk, OnOk};
ghost use Rattle.traces.specs.AllowedHeaders.{AreUnmoved, IsHeader};
ghost use Rattle.traces.specs.Limits.{most_lines};
ghost use Rattle.traces.specs.TraceRows.{IsTraceRow};
ghost use Rattle.world_state.specs.Replays.{NoHarm};
ghost use Rattle.controller_model.specs.Showing.{scene_replayed};
ghost use Rattle.ownership_checker.specs.RingPasses.Clean.{AreClean};
ghost use Rattle.ownership_rules.specs.Rules.{trace_verdict};
ghost use Rattle.safety.specs.LazyRuns.LateEvents.{IsTimely};
ghost use Rattle.safety.specs.LazyRuns.Law.{ContainsAll};
ghost use Rattle.safety.specs.LazyRuns.Lazy.{lazy_steps};
ghost use Rattle.replayer.specs.Schedules.Floors.{StandsAtFloors};
ghost use Rattle.replayer.specs.Schedules.Verdicts.{IfRefusedAt};

use crate::lazy_steps::steps_of_notes;
use crate::scheduler::fault::ScheduleFault;
use crate::scheduler::notes::notes_of;
use guest_memory::{SparseMemory, WordMemory};
use std::alloc::Global;
use traces::{Header, Row, Schedule, Step, Steps, Trace};

/// Checks a trace in one pass, and makes its lazy schedule: all rows in their order, directly before each event that is read the steps of
/// the controller that it needs, and before the row that first shows a halt (HCHalted, xHCI 5.4.2) that the controller halts; a ring that comes
/// or goes, a descriptor that is withdrawn and a reset need none. Where no event is read once the halt was seen, and no success while its
/// ring is held, it is a run of the controller's model that contains all rows, its replay does no harm, and behind each row the dequeue
/// pointer of each ring that an endpoint has is that ring's floor. A schedule has room for it: a trace of at most 2^20 lines has not so
/// many rows that it would not. Where a row breaks a rule, the first such row is told, and the least of the rules that it breaks.
pub fn lazy_schedule(alloc: Global, trace: &Trace) -> Result<Schedule, ScheduleFault>
    requires { trace.now.first + length trace.now.rows ≤ most_lines + 1 }
    ensures clean { OnOk result (AreClean trace.now.header (reverse trace.now.rows)) }
    ensures steps { IfOk result (λ schedule. schedule.steps ≡ lazy_steps trace.now.header trace.now.rows) }
    ensures runs { IfOk result (λ schedule. IsTimely trace.now.header (reverse trace.now.rows) →
        ContainsAll trace.now.header trace.now.rows (reverse schedule.steps)) }
    ensures replays { IfOk result (λ schedule. IsTimely trace.now.header (reverse trace.now.rows) →
        (scene_replayed trace.now.header trace.now.rows schedule.steps).ending ≡ NoHarm) }
    ensures floors { IfOk result (λ schedule. IsTimely trace.now.header (reverse trace.now.rows) →
        StandsAtFloors trace.now.header trace.now.rows schedule.steps) }
    ensures few { IfOk result (λ schedule. length schedule.steps ≤ 3 * length trace.now.rows + 3) }
    ensures refused { IfErr result (λ e. IfRefusedAt e (λ row c.
        trace_verdict trace.now.header trace.now.first trace.now.rows ≡ Some (row, c))) }
{
    let steps = steps_of(
        alloc,
        &trace.header,
        trace.first,
        trace.rows.as_slice(),
        SparseMemory::new(alloc),
    )?;
    Ok(Schedule {
        steps: Steps::new(steps),
    })
}

/// Checks rows, `first` the number of the first; the steps of their lazy schedule.
pub(crate) fn steps_of<M: WordMemory + Drop>(
    alloc: Global,
    header: &Header,
    first: u32,
    rows: &[Row],
    memory: M,
) -> Result<Vec<Step>, ScheduleFault>
    requires headed { IsHeader header.now }
    requires unmoved { AreUnmoved header.now.rings }
    requires fits { All IsTraceRow rows.now }
    requires within { first + length rows.now ≤ most_lines + 1 }
    requires zero { (a : ℕ) → M.words memory a ≡ 0 }
    ensures clean { OnOk result (AreClean header.now (reverse rows.now)) }
    ensures steps { IfOk result (λ steps. steps.items ≡ lazy_steps header.now rows.now) }
    ensures refused { IfErr result (λ e. IfRefusedAt e (λ row c. trace_verdict header.now first rows.now ≡ Some (row, c))) }
{
    let rings = header.copy(alloc)?;
    let notes = notes_of(alloc, rings, first, rows, memory)?;
    let first_rings = header.copy(alloc)?;
    Ok(steps_of_notes(alloc, first_rings, rows, notes)?)
}
