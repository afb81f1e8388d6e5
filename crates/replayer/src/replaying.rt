ghost use Rattle.std.specs.Prelude.{◌≡◌, ◌+◌, ◌≤◌, ◌++◌, ◌∷◌, [], ℕ, length, OnOk};
ghost use Rattle.traces.specs.Limits.{most_schedule_lines};
ghost use Rattle.controller_model.specs.Showing.{scene_replayed};
ghost use Rattle.replayer.specs.Replays.{IsReplay};

use crate::fault::ReplayFault;
use controller_model::{Seen, StepFault, World};
use guest_memory::{SparseMemory, WordMemory};
use std::alloc::{AllocError, Global};
use traces::{Schedule, Step, Trace};

/// Notes what one more step showed.
fn note(seen: &mut Vec<Seen>, shown: Seen) -> Result<(), AllocError>
    ensures { OnOk result (seen.new.items ≡ seen.old.items ++ shown ∷ []) }
{
    seen.push(shown)?;
    Ok(())
}

/// Replays steps beside the rows of a trace, in memory in which no word was written.
fn replay_in<M: WordMemory + Drop>(
    alloc: Global,
    trace: &Trace,
    steps: &[Step],
    memory: M,
) -> Result<Vec<Seen>, ReplayFault>
    requires zero { (a : ℕ) → M.words memory a ≡ 0 }
    requires within { length steps.now + 1 ≤ most_schedule_lines }
    ensures { IsReplay (scene_replayed trace.now.header trace.now.rows steps.now) result }
{
    let mut world = World::new(alloc, trace, memory)?;
    let mut seen = Vec::new(alloc);
    let mut number = 0;
    for step in steps {
        if let Err(harm) = world.safe() {
            return Err(ReplayFault::Harmful {
                step: number,
                harm,
                seen,
            });
        }
        number += 1;
        match world.step(step) {
            Ok(shown) => note(&mut seen, shown)?,
            Err(StepFault::NotPossible) => return Err(ReplayFault::NotPossible {
                step: number,
                seen,
            }),
            Err(_) => return Err(ReplayFault::Memory),
        }
    }
    match world.safe() {
        Ok(()) => Ok(seen),
        Err(harm) => Err(ReplayFault::Harmful {
            step: number,
            harm,
            seen,
        }),
    }
}

/// Replays a schedule beside a trace: what all its steps show, where there is no harm after any, nor before the first. Rows
/// declare rings and end the lives of others; harm is asked of each that was declared, whether it lives or went. Each fault has what the
/// steps done showed. `Memory` is answered only where a growth was refused or a count would pass 2^64.
pub fn replay(alloc: Global, trace: &Trace, schedule: &Schedule) -> Result<Vec<Seen>, ReplayFault>
    ensures { IsReplay (scene_replayed trace.now.header trace.now.rows schedule.now.steps) result }
{
    replay_in(
        alloc,
        trace,
        schedule.steps.as_slice(),
        SparseMemory::new(alloc),
    )
}
