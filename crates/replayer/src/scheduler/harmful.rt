//! A schedule that does harm, beside a trace with a row that breaks a rule.
ghost use Rattle.std.specs.Prelude.{◌≡◌, ◌≢◌, ◌+◌, ◌-◌, ◌*◌, ◌<◌, ◌≤◌, ℕ, All, List, Option, length, option_map, reverse, slice_get, take, IfErr, IfNone, IfOk, IfSome};
ghost use Rattle.traces.specs.Limits.{most_lines, most_schedule_lines};
ghost use Rattle.traces.specs.declared.step.Step.{Step as StepValue};
ghost use Rattle.ownership_checker.specs.RingPasses.Clean.{AreClean};
ghost use Rattle.replayer.specs.declared.scheduler.attempt.Unmade.TheVariants.{Dropped};
ghost use Rattle.replayer.specs.declared.scheduler.harmful.Search.TheVariants.{Brief};
ghost use Rattle.traces.specs.declared.header.Header.{Header as HeaderValue};
ghost use Rattle.replayer.specs.Schedules.Making.{IsMade, Making, rings_at};
ghost use Rattle.replayer.specs.Schedules.Attempts.{HasMade};
ghost use Rattle.replayer.specs.Schedules.Eager.{eager_row, eager_schedule, late_schedules};
ghost use Rattle.replayer.specs.Schedules.Tried.{IsNoRead, IsTame, NoneDoesHarm, lazy_behind};
ghost use Rattle.traces.specs.TraceRows.{IsTraceRow};
ghost use Rattle.world_state.specs.declared.harm.Harm.{Harm as HarmValue};
ghost use Rattle.world_state.specs.Replays.{Harmful};
ghost use Rattle.controller_model.specs.Showing.{scene_replayed};
ghost use Rattle.replayer.specs.Schedules.Harmful.{DoesHarm, rows_made};

use crate::scheduler::attempt::{Attempt, Unmade};
use crate::scheduler::fault::ScheduleFault;
use crate::scheduler::lazy::steps_of;
use crate::scheduler::rings::{add_ring, follow_rings, looked_rings, prompt_rings, rings_behind};
use crate::{ReplayFault, replay};
use guest_memory::SparseMemory;
use std::alloc::{AllocError, Global};
use traces::{Header, Ring, Row, Schedule, Step, Steps, Trace};
use trb::RingKind;
use world_state::Harm;

/// How many times as many lines as the eager schedule has all schedules of a wide search may have together.
const MOST_TIMES: usize = 10;

/// How far a run that does harm is looked for.
#[derive(Clone, Copy, PartialEq, Eq, Debug)]
pub enum Search {
    /// By the eager and the lazy schedule.
    Brief,
    /// Besides, ring by ring in the order of declaration, by the eager schedule in which this ring is late: it is looked at only
    /// before an event that isn't possible else, and behind the last row. Rings are tried until these schedules have ten times as many
    /// lines as the eager one.
    Wide,
}

/// A run of the controller's model beside a trace that does harm with its last step, and which.
#[derive(Debug, Drop)]
pub struct HarmfulRun {
    pub schedule: Schedule,
    pub harm: Harm,
}

/// A schedule that does harm beside a trace, as a brief `harmful_run` makes it.
pub fn harmful_schedule(
    alloc: Global,
    trace: &Trace,
    row: u32,
) -> Result<Option<Schedule>, AllocError>
    requires few { trace.now.first + length trace.now.rows ≤ most_lines + 1 }
    ensures harm { IfOk result (λ found. IfSome found (λ schedule.
        (harm : HarmValue) × DoesHarm trace.now.header trace.now.rows (row - trace.now.first + 1) schedule.steps harm)) }
    ensures none { IfOk result (λ found. IfNone found ((refused : ℕ) → row ≡ trace.now.first + refused →
        IfSome (slice_get trace.now.rows refused) (λ r. IsNoRead r → NoneDoesHarm trace.now.header trace.now.rows refused Brief))) }
{
    match harmful_run(alloc, trace, row, Search::Brief)? {
        Some(run) => Ok(Some(run.schedule)),
        None => Ok(None),
    }
}

/// A run that does harm beside a trace, of which `check` tells that the row with this line number is the first that breaks a rule: the
/// eager schedule of the rows up to that one, or else the lazy one, with looks at each ring behind it, up to the first step after which
/// the world isn't safe. That is told by the replay of what was made. A wide search tries more, where neither does harm. None where no
/// schedule that was tried does, which doesn't say that no run does, and where the trace has no such row, or it reads an event.
pub fn harmful_run(
    alloc: Global,
    trace: &Trace,
    row: u32,
    search: Search,
) -> Result<Option<HarmfulRun>, AllocError>
    requires few { trace.now.first + length trace.now.rows ≤ most_lines + 1 }
    ensures harm { IfOk result (λ found. IfSome found (λ run.
        DoesHarm trace.now.header trace.now.rows (row - trace.now.first + 1) run.schedule.steps run.harm)) }
    ensures none { IfOk result (λ found. IfNone found ((refused : ℕ) → row ≡ trace.now.first + refused →
        IfSome (slice_get trace.now.rows refused) (λ r. IsNoRead r → NoneDoesHarm trace.now.header trace.now.rows refused search))) }
{
    if row < trace.first || (row - trace.first) as usize >= trace.rows.as_slice().len() {
        return Ok(None);
    }
    let refused = (row - trace.first) as usize;
    // no run beside the rows before it does harm
    if let Row::Read { .. } = trace.rows.as_slice()[refused] {
        return Ok(None);
    }
    let first = &trace.rows.as_slice()[..refused + 1];
    let eager = eager_schedule(alloc, trace, first, None);
    let lines = lines_of(&eager, first.len());
    if let Some(run) = harm_of(alloc, trace, refused + 1, eager)? {
        return Ok(Some(run));
    }
    let found = lazy_run(alloc, trace, refused)?;
    if found.is_some() || search == Search::Brief {
        return Ok(found);
    }
    harm_with_a_late_ring(alloc, trace, first, lines)
}

/// How many lines a schedule has; where none was made, as many as is said.
fn lines_of(made: &Result<Schedule, Unmade>, otherwise: usize) -> usize
    ensures made { IfOk made.now (λ schedule. result ≡ length schedule.steps) }
    ensures dropped { IfErr made.now (λ why. result ≡ otherwise) }
{
    match made {
        Ok(schedule) => schedule.steps.as_slice().len(),
        Err(_) => otherwise,
    }
}

/// A run that does harm, in which one of the first rings is late; the eager schedule has `lines` lines.
fn harm_with_a_late_ring(
    alloc: Global,
    trace: &Trace,
    first: &[Row],
    lines: usize,
) -> Result<Option<HarmfulRun>, AllocError>
    requires fitting { All IsTraceRow first.now }
    requires few { lines ≤ most_schedule_lines }
    ensures harm { IfOk result (λ found. IfSome found (λ run. DoesHarm trace.now.header trace.now.rows (length first.now) run.schedule.steps run.harm)) }
    ensures none { IfOk result (λ found. IfNone found (All (IsTame trace.now.header trace.now.rows (length first.now))
        (late_schedules trace.now.header trace.now.rows first.now lines (10 * lines) trace.now.header.rings))) }
{
    let mut left = lines.saturating_mul(MOST_TIMES);
    for ring in trace.header.rings.as_slice() {
        if ring.shape.kind() == RingKind::Evt {
            continue;
        }
        let late = eager_schedule(alloc, trace, first, Some(ring));
        let made = lines_of(&late, lines);
        if let Some(run) = harm_of(alloc, trace, first.len(), late)? {
            return Ok(Some(run));
        }
        if made >= left {
            return Ok(None);
        }
        left -= made;
    }
    Ok(None)
}

/// The eager schedule of the first rows, the last of which breaks a rule: directly before each event that is read its post, before each row
/// that shows HCHalted (xHCI 5.4.2) the halt, if it is possible, and after each row looks at each active ring until it waits, at one that just
/// went too; at the end once more. One ring may be late: it is looked at only before an event that isn't possible else, and at the end.
fn eager_schedule(
    alloc: Global,
    trace: &Trace,
    first: &[Row],
    late: Option<&Ring>,
) -> Result<Schedule, Unmade>
    requires { All IsTraceRow first.now }
    ensures { IsMade result (eager_schedule trace.now.header trace.now.rows first.now (option_map (λ ring. ring.now) late.entry)) (λ schedule steps. schedule.steps ≡ steps) }
{
    let mut attempt = Attempt::new(alloc, trace)?;
    let mut prompt = prompt_rings(alloc, &trace.header, late)?;
    let mut active = Vec::new(alloc);
    for row in first {
        active = eager_row(alloc, &mut attempt, &prompt, &active, row, late)?;
        follow_rings(&mut prompt, row)?;
    }
    if let Some(ring) = late {
        add_ring(&mut prompt, ring)?;
    }
    attempt.look_at_each(alloc, &prompt)?;
    Ok(attempt.into_schedule())
}

/// The eager steps of a row: the post of the event that it reads, or the halt that it shows, the row, and looks; the rings that may be active
/// then.
fn eager_row<'r>(
    alloc: Global,
    attempt: &mut Attempt,
    prompt: &[&'r Ring],
    active: &[&'r Ring],
    row: &Row,
    late: Option<&Ring>,
) -> Result<Vec<&'r Ring>, Unmade>
    requires { IsTraceRow row.now }
    ensures { (g : HeaderValue) (m : Making) → rings_at prompt.now ≡ g.rings → HasMade attempt.old m →
        IsMade result (eager_row (option_map (λ ring. ring.now) late.entry) g (rings_at active.now) row.now m) (λ rings p. (rings_at rings.items ≡ p.0) × HasMade attempt.new p.1) }
{
    attempt.make_before(row, late)?;
    attempt.make(Step::NextRow)?;
    attempt.look_at_each(alloc, looked_rings(prompt, active, row))
}

/// A run that does harm by the lazy schedule of the rows before the refused one.
fn lazy_run(alloc: Global, trace: &Trace, refused: usize) -> Result<Option<HarmfulRun>, AllocError>
    requires few { length trace.now.rows ≤ most_lines }
    requires inside { refused < length trace.now.rows }
    ensures harm { IfOk result (λ found. IfSome found (λ run. DoesHarm trace.now.header trace.now.rows (refused + 1) run.schedule.steps run.harm)) }
    ensures none { IfOk result (λ found. IfNone found (AreClean trace.now.header (reverse (take refused trace.now.rows)) →
        IfSome (lazy_behind trace.now.header trace.now.rows (take refused trace.now.rows)) (IsTame trace.now.header trace.now.rows (refused + 1)))) }
{
    let lazy = lazy_schedule_behind(alloc, trace, &trace.rows.as_slice()[..refused]);
    harm_of(alloc, trace, refused + 1, lazy)
}

/// The lazy schedule of rows, if none of them breaks a rule, then the next row, and looks at each active ring until it waits, at one that
/// just went too.
fn lazy_schedule_behind(alloc: Global, trace: &Trace, before: &[Row]) -> Result<Schedule, Unmade>
    requires few { length before.now ≤ most_lines }
    requires fitting { All IsTraceRow before.now }
    ensures { AreClean trace.now.header (reverse before.now) →
        IsMade result (lazy_behind trace.now.header trace.now.rows before.now) (λ schedule steps. schedule.steps ≡ steps) }
{
    let memory = SparseMemory::new(alloc);
    let steps = match steps_of(alloc, &trace.header, 1, before, memory) {
        Ok(steps) => steps,
        Err(ScheduleFault::Refused { .. }) => return Err(Unmade::Dropped),
        Err(ScheduleFault::Memory) => return Err(Unmade::Memory),
    };
    let mut attempt = Attempt::new(alloc, trace)?;
    attempt.make_all(&steps)?;
    attempt.make(Step::NextRow)?;
    let rings = rings_behind(alloc, &trace.header, before)?;
    attempt.look_at_each(alloc, &rings)?;
    Ok(attempt.into_schedule())
}

/// A schedule that was made up to the first step after which the world isn't safe; none where none was made, or that does no harm.
fn harm_of(
    alloc: Global,
    trace: &Trace,
    most_rows: usize,
    made: Result<Schedule, Unmade>,
) -> Result<Option<HarmfulRun>, AllocError>
    ensures harm { IfOk result (λ found. IfSome found (λ run. DoesHarm trace.now.header trace.now.rows most_rows run.schedule.steps run.harm)) }
    ensures none { IfOk result (λ found. IfNone found ((o : Option (List StepValue)) → IsMade made o (λ schedule steps. schedule.steps ≡ steps) →
        IfSome o (IsTame trace.now.header trace.now.rows most_rows))) }
    ensures made { IfOk result (λ found. IfErr made (λ why. why ≡ Dropped)) }
{
    match made {
        Ok(schedule) => up_to_harm(alloc, trace, most_rows, &schedule),
        Err(Unmade::Dropped) => Ok(None),
        Err(Unmade::Memory) => Err(AllocError),
    }
}

/// A schedule up to the first step after which the world isn't safe, as the replay tells; none where it does no harm, or makes more
/// rows up to there.
fn up_to_harm(
    alloc: Global,
    trace: &Trace,
    most_rows: usize,
    schedule: &Schedule,
) -> Result<Option<HarmfulRun>, AllocError>
    ensures harm { IfOk result (λ found. IfSome found (λ run. DoesHarm trace.now.header trace.now.rows most_rows run.schedule.steps run.harm)) }
    ensures none { IfOk result (λ found. IfNone found (IsTame trace.now.header trace.now.rows most_rows schedule.now.steps)) }
{
    let Some(found) = first_harm(alloc, trace, schedule)? else {
        return Ok(None);
    };
    let done = &schedule.steps.as_slice()[..found.step];
    if rows_made(done) > most_rows {
        return Ok(None);
    }
    let steps = Steps::new(Vec::from_slice(alloc, done)?);
    Ok(Some(HarmfulRun {
        schedule: Schedule { steps },
        harm: found.harm,
    }))
}

/// The first step after which the world isn't safe, from 1, and the least harm there.
#[derive(Clone, Copy)]
struct FirstHarm {
    step: usize,
    harm: Harm,
}

/// The first harm that a schedule does, if its replay does any.
fn first_harm(
    alloc: Global,
    trace: &Trace,
    schedule: &Schedule,
) -> Result<Option<FirstHarm>, AllocError>
    ensures harm { IfOk result (λ found. IfSome found (λ first. (scene_replayed trace.now.header trace.now.rows schedule.now.steps).ending ≡ Harmful first.step first.harm)) }
    ensures none { IfOk result (λ found. IfNone found ((step : ℕ) (harm : HarmValue) → (scene_replayed trace.now.header trace.now.rows schedule.now.steps).ending ≢ Harmful step harm)) }
{
    match replay(alloc, trace, schedule) {
        Ok(_) | Err(ReplayFault::NotPossible { .. }) => Ok(None),
        Err(ReplayFault::Harmful { step, harm, .. }) => Ok(Some(FirstHarm {
            step: step as usize,
            harm,
        })),
        Err(ReplayFault::Memory) => Err(AllocError),
    }
}

/// How many rows of the trace steps make.
fn rows_made(steps: &[Step]) -> usize
    ensures { result ≡ rows_made steps.now }
{
    steps
        .iter()
        .filter(|step| matches!(step, Step::NextRow))
        .count()
}
