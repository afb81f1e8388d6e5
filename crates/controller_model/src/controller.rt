ghost use Rattle.std.specs.Prelude.{◌≡◌, ℕ, Err, [], ◌∷◌, List, IfOk};
ghost use Rattle.std.specs.Result.{result_err};
ghost use Rattle.traces.specs.declared.row.Row.{Row as RowValue};
ghost use Rattle.traces.specs.TraceRows.{IsTraceRow};
ghost use Rattle.world_state.specs.Harms.{harm_of};
ghost use Rattle.world_state.specs.Scenes.{Scene, scene_before, step_made};
ghost use Rattle.traces.specs.declared.step.Step.TheVariants.{NextRow};
ghost use Rattle.controller_model.specs.declared.seen.Seen.TheVariants.{Row as RowSeen};
ghost use Rattle.controller_model.specs.Following.{IsStep};
ghost use Rattle.controller_model.specs.RingHarms.{IsFollowed};
ghost use Rattle.controller_model.specs.Showing.{shows};
ghost use Rattle.controller_model.specs.Controllers.{IsBeside, IsOver};

use crate::fault::StepFault;
use crate::kept::Kept;
use crate::life::Rings;
use crate::opening::opening;
use crate::rows_left::RowsLeft;
use crate::safety::{RingHarms, brings_ring, harm_of, harms_after, ring_harms};
use crate::seen::Seen;
use crate::steps::make_step;
use guest_memory::WordMemory;
use std::alloc::{AllocError, Global};
use std::slice::from_ref;
use traces::{Header, Row, Step};
use world_state::Harm;

/// A run of the controller's model beside rows that come one by one: how the rows and steps so far left the rings, memory and the
/// controller. Contracts say which scene of the definitions it stands for, whatever rows are still to come there.
#[derive(Drop)]
pub struct Controller<M: WordMemory> {
    pub(crate) lists: Rings,
    pub(crate) memory: M,
    pub(crate) kept: Kept,
    /// The harms of the rings, as the steps so far left them.
    rings: RingHarms,
    is_spent: bool,
}

/// Makes one step, and follows the harms of the rings.
fn make_followed<M: WordMemory>(
    lists: &mut Rings,
    left: &mut RowsLeft,
    memory: &mut M,
    kept: &mut Kept,
    rings: &mut RingHarms,
    step: &Step,
) -> Result<Seen, StepFault>
    ensures step { (x : Scene) → IsFollowed lists.old left.old (M.words memory.old) kept.old rings.old x →
        IsStep result (step_made x step.now) (shows x.header x.world step.now)
        (IsFollowed lists.new left.new (M.words memory.new) kept.new rings.new) }
    ensures refused { result ≡ Err StepFault.NotPossible → kept.new ≡ kept.old }
    ensures memory { result ≡ Err StepFault.NotPossible → M.words memory.new ≡ M.words memory.old }
    ensures lists { result ≡ Err StepFault.NotPossible → lists.new ≡ lists.old }
    ensures left { result ≡ Err StepFault.NotPossible → left.new ≡ left.old }
    ensures rings { result ≡ Err StepFault.NotPossible → rings.new ≡ rings.old }
{
    let comes = brings_ring(left, step);
    let seen = make_step(lists, left, memory, kept, step)?;
    *rings = harms_after(lists, memory, kept, *rings, step, comes);
    Ok(seen)
}

impl<M: WordMemory + Drop> Controller<M> {
    /// The controller before the first row, in memory in which no word was written. The header is copied: rows add rings to it, and
    /// end the lives of others.
    pub fn new(alloc: Global, header: &Header, memory: M) -> Result<Controller<M>, AllocError>
        requires zero { (a : ℕ) → M.words memory a ≡ 0 }
        ensures { IfOk result (λ c. (rows : List RowValue) → IsBeside M.words c (scene_before header.now rows)) }
    {
        let declared = header.copy(alloc)?;
        let live = header.copy(alloc)?;
        let kept = opening(alloc)?;
        let rings = ring_harms(&declared, &memory, &kept);
        Ok(Controller {
            lists: Rings { declared, live },
            memory,
            kept,
            rings,
            is_spent: false,
        })
    }

    /// Makes one step beside these rows, where a controller may make it; what it shows. A step that isn't possible changes nothing; after
    /// want of memory, and after a count that would pass 2^64, no step is made any more.
    pub(crate) fn make(&mut self, left: &mut RowsLeft, step: &Step) -> Result<Seen, StepFault>
        ensures step { (x : Scene) → IsBeside M.words self.old x → left.old ≡ x.rows →
            IsStep result (step_made x step.now) (shows x.header x.world step.now) (λ y. IsBeside M.words self.new y × (left.new ≡ y.rows)) }
        ensures refused { (x : Scene) → IsBeside M.words self.old x → result ≡ Err StepFault.NotPossible → IsBeside M.words self.new x }
        ensures left { result ≡ Err StepFault.NotPossible → left.new ≡ left.old }
        ensures memory { result ≡ Err StepFault.Memory → IsOver self.new }
        ensures spent { IsOver self.old → result ≡ Err StepFault.Spent }
        ensures stays { IsOver self.old → IsOver self.new }
    {
        if self.is_spent {
            return Err(StepFault::Spent);
        }
        match make_followed(
            &mut self.lists,
            left,
            &mut self.memory,
            &mut self.kept,
            &mut self.rings,
            step,
        ) {
            Ok(seen) => Ok(seen),
            Err(StepFault::Memory) => {
                self.is_spent = true;
                Err(StepFault::Memory)
            }
            Err(fault) => Err(fault),
        }
    }

    /// Makes a row, where it is possible: one that reads an event is where the event was posted, and one that reads USBSTS where HCHalted is as
    /// it says.
    #[tactic(auto, unfolding(crate::specs::Showing::shows))]
    pub fn row(&mut self, row: &Row) -> Result<Seen, StepFault>
        requires { IsTraceRow row.now }
        ensures row { (x : Scene) → IsBeside M.words self.old x → x.rows ≡ row.now ∷ [] →
            IsStep result (step_made x NextRow) RowSeen (IsBeside M.words self.new) }
        ensures refused { (x : Scene) → IsBeside M.words self.old x → result ≡ Err StepFault.NotPossible → IsBeside M.words self.new x }
        ensures memory { result ≡ Err StepFault.Memory → IsOver self.new }
        ensures spent { IsOver self.old → result ≡ Err StepFault.Spent }
    {
        let mut left = RowsLeft::new(from_ref(row));
        self.make(&mut left, &Step::NextRow)
    }

    /// Makes a step of the controller, where it may make it; what it shows. The next row is none.
    pub fn step(&mut self, step: &Step) -> Result<Seen, StepFault>
        ensures step { (x : Scene) → IsBeside M.words self.old x → x.rows ≡ [] →
            IsStep result (step_made x step.now) (shows x.header x.world step.now) (IsBeside M.words self.new) }
        ensures refused { (x : Scene) → IsBeside M.words self.old x → result ≡ Err StepFault.NotPossible → IsBeside M.words self.new x }
        ensures memory { result ≡ Err StepFault.Memory → IsOver self.new }
        ensures spent { IsOver self.old → result ≡ Err StepFault.Spent }
    {
        let mut left = RowsLeft::new(&[]);
        self.make(&mut left, step)
    }

    /// The least harm, where there is any: of each ring that was declared, whether it lives or went.
    pub fn safe(&self) -> Result<(), Harm>
        ensures { (x : Scene) → IsBeside M.words self.now x → result_err result ≡ harm_of x.header x.world }
    {
        match harm_of(&self.lists.declared, &self.kept, self.rings) {
            None => Ok(()),
            Some(harm) => Err(harm),
        }
    }
}
