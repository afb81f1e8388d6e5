ghost use Rattle.std.specs.Prelude.{◌≡◌, ◌≢◌, ℕ, ◌+◌, ◌&&◌, ◌||◌, Err, OnOk, Option, option_map};
ghost use Rattle.traces.specs.declared.step.Step.TheVariants.{NextRow};
ghost use Rattle.traces.specs.declared.header.Header.{Header as HeaderValue};
ghost use Rattle.world_state.specs.World.{World};
ghost use Rattle.controller_model.specs.Showing.{shows};
ghost use Rattle.world_state.specs.Steps.{counted, halts, made, noting_post};
ghost use Rattle.world_state.specs.Replays.{stepped};
ghost use Rattle.controller_model.specs.Following.{Follows, IsStep, Lists, acts};
ghost use Rattle.controller_model.specs.declared.seen.Seen.TheVariants.{Halted};
ghost use Rattle.controller_model.specs.RingHarms.{FollowsScene};
ghost use Rattle.world_state.specs.Scenes.{Scene, step_made};

use crate::fault::StepFault;
use crate::finishes::finish;
use crate::kept::Kept;
use crate::life::Rings;
use crate::looks::look;
use crate::next_row::next_row;
use crate::posts::{event_ring, post_other};
use crate::reports::report;
use crate::rows_left::RowsLeft;
use crate::scribbles::scribble;
use crate::seen::Seen;
use guest_memory::WordMemory;
use std::alloc::AllocError;
use traces::{Header, Step};

/// One more step was made.
pub(crate) fn count(kept: &mut Kept) -> Result<(), AllocError>
    ensures { OnOk result ((h : HeaderValue) (words : ℕ → ℕ) (w : World) → Follows h words kept.old w →
        Follows h words kept.new (counted h w)) }
{
    let steps = kept.progress.steps.checked_add(1);
    kept.progress.steps = steps.ok_or(AllocError)?;
    Ok(())
}

/// Whether a step is a look or a post: a controller that has halted makes none.
fn acts(step: &Step) -> bool
    ensures { result ≡ acts step.now }
{
    match step {
        Step::Look { .. } | Step::Report { .. } | Step::Finish { .. } | Step::Other { .. } => true,
        Step::NextRow | Step::Scribble { .. } | Step::Halt => false,
    }
}

/// Whether the controller makes no such step now: none after the stop, and no look or post once it has halted.
fn is_idle(kept: &Kept, step: &Step) -> bool
    ensures { (h : HeaderValue) (words : ℕ → ℕ) (w : World) → Follows h words kept.now w →
        result ≡ (w.stopped || (w.halted && acts step.now)) }
{
    let acts = acts(step);
    kept.progress.stopped | kept.progress.halted & acts
}

/// The controller halts, where R/S is 0 (xHCI 5.4.1.1).
#[tactic(auto, unfolding(world_state::specs::Steps::halts))]
fn halt(kept: &mut Kept) -> Result<Seen, StepFault>
    ensures step { (h : HeaderValue) (words : ℕ → ℕ) (w : World) → Follows h words kept.old w →
        IsStep result (halts h w) Halted (Follows h words kept.new) }
    ensures refused { result ≡ Err StepFault.NotPossible → kept.new ≡ kept.old }
{
    if !kept.progress.halting || kept.progress.halted {
        return Err(StepFault::NotPossible);
    }
    kept.progress.halted = true;
    Ok(Seen::Halted)
}

/// It is noted where no event ring is there, and rings of that kind come and go.
fn note_post(live: &Header, kept: &mut Kept)
    ensures { (h : HeaderValue) (words : ℕ → ℕ) (w : World) → Follows h words kept.old w →
        Follows h words kept.new (noting_post live.now w) }
{
    if live.version.has_runs() {
        match event_ring(live) {
            None => kept.posted_nowhere = true,
            Some(_) => {}
        }
    }
}

/// An event was posted, where that was possible.
fn posted(live: &Header, kept: &mut Kept, made: Result<Seen, StepFault>) -> Result<Seen, StepFault>
    ensures step { (h : HeaderValue) (words : ℕ → ℕ) (o : Option World) (shown : Seen) → IsStep made o shown (Follows h words kept.old) →
        IsStep result (option_map (noting_post live.now) o) shown (Follows h words kept.new) }
    ensures refused { result ≡ Err StepFault.NotPossible → kept.new ≡ kept.old }
    ensures same { result ≡ made }
{
    let seen = made?;
    note_post(live, kept);
    Ok(seen)
}

/// A step of the controller that isn't counted yet. After the stop none is possible.
fn make<M: WordMemory>(
    rings: &Rings,
    memory: &mut M,
    kept: &mut Kept,
    step: &Step,
    number: u64,
) -> Result<Seen, StepFault>
    requires { number ≡ kept.old.progress.steps + 1 }
    ensures step { (w : World) → step.now ≢ NextRow → Lists rings.now.declared rings.now.live →
        Follows rings.now.declared (M.words memory.old) kept.old w →
        IsStep result (made rings.now.declared rings.now.live w step.now) (shows rings.now.declared w step.now) (Follows rings.now.declared (M.words memory.new) kept.new) }
    ensures refused { result ≡ Err StepFault.NotPossible → kept.new ≡ kept.old }
    ensures memory { result ≡ Err StepFault.NotPossible → M.words memory.new ≡ M.words memory.old }
{
    if is_idle(kept, step) {
        return Err(StepFault::NotPossible);
    }
    let header = &rings.declared;
    let live = &rings.live;
    match step {
        Step::NextRow => Err(StepFault::NotPossible),
        Step::Look { ring } => look(header, live, memory, kept, *ring),
        Step::Report { event } => {
            let made = report(header, memory, kept, event, number);
            posted(live, kept, made)
        }
        Step::Finish { event } => {
            let made = finish(header, live, memory, kept, event, number);
            posted(live, kept, made)
        }
        Step::Other { event } => {
            let made = post_other(header, memory, kept, event, number);
            posted(live, kept, made)
        }
        Step::Scribble { at, word } => scribble(header, memory, kept, *at, *word, number),
        Step::Halt => halt(kept),
    }
}

/// A step of the controller.
fn make_counted<M: WordMemory>(
    rings: &Rings,
    memory: &mut M,
    kept: &mut Kept,
    step: &Step,
    number: u64,
) -> Result<Seen, StepFault>
    requires { number ≡ kept.old.progress.steps + 1 }
    ensures step { (w : World) → step.now ≢ NextRow → Lists rings.now.declared rings.now.live →
        Follows rings.now.declared (M.words memory.old) kept.old w →
        IsStep result (stepped rings.now.declared rings.now.live w step.now) (shows rings.now.declared w step.now) (Follows rings.now.declared (M.words memory.new) kept.new) }
    ensures refused { result ≡ Err StepFault.NotPossible → kept.new ≡ kept.old }
    ensures memory { result ≡ Err StepFault.NotPossible → M.words memory.new ≡ M.words memory.old }
{
    let seen = make(rings, memory, kept, step, number)?;
    count(kept)?;
    Ok(seen)
}

/// Makes one step.
pub(crate) fn make_step<M: WordMemory>(
    rings: &mut Rings,
    left: &mut RowsLeft,
    memory: &mut M,
    kept: &mut Kept,
    step: &Step,
) -> Result<Seen, StepFault>
    ensures step { (x : Scene) → FollowsScene rings.old left.old (M.words memory.old) kept.old x →
        IsStep result (step_made x step.now) (shows x.header x.world step.now) (FollowsScene rings.new left.new (M.words memory.new) kept.new) }
    ensures refused { result ≡ Err StepFault.NotPossible → kept.new ≡ kept.old }
    ensures memory { result ≡ Err StepFault.NotPossible → M.words memory.new ≡ M.words memory.old }
    ensures rings { result ≡ Err StepFault.NotPossible → rings.new ≡ rings.old }
    ensures left { result ≡ Err StepFault.NotPossible → left.new ≡ left.old }
{
    let number = kept.progress.steps.checked_add(1).ok_or(AllocError)?;
    match step {
        Step::NextRow => next_row(rings, left, memory, kept, number),
        _ => make_counted(rings, memory, kept, step, number),
    }
}
