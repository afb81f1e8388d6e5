use crate::controller::Controller;
use crate::fault::StepFault;
use crate::rows_left::RowsLeft;
use crate::seen::Seen;
use guest_memory::WordMemory;
use std::alloc::{AllocError, Global};
use traces::{Step, Trace};
use world_state::Harm;

/// A run of the controller's model beside the rows of a trace: how the steps so far left the rings, memory and the controller. Contracts say which scene of the definitions it stands for.
#[derive(Drop)]
pub struct World<'t, M: WordMemory> {
    left: RowsLeft<'t>,
    controller: Controller<M>,
}

impl<'t, M: WordMemory + Drop> World<'t, M> {
    ghost use Rattle.std.specs.Prelude.{◌≡◌, ℕ, Err, IfOk};
    ghost use Rattle.std.specs.Result.{result_err};
    ghost use Rattle.world_state.specs.Harms.{harm_of};
    ghost use Rattle.world_state.specs.Scenes.{Scene, scene_before, step_made};
    ghost use Rattle.controller_model.specs.Showing.{shows};
    ghost use Rattle.controller_model.specs.Following.{IsStep};
    ghost use Rattle.controller_model.specs.Worlds.{IsSpent, StandsFor};

    /// The world before the first row of the trace, in memory in which no word was written.
    pub fn new(alloc: Global, trace: &'t Trace, memory: M) -> Result<World<'t, M>, AllocError>
        requires zero { (a : ℕ) → M.words memory a ≡ 0 }
        ensures { IfOk result (λ v. StandsFor M.words v (scene_before trace.now.header trace.now.rows)) }
    {
        let controller = Controller::new(alloc, &trace.header, memory)?;
        Ok(World {
            left: RowsLeft::new(trace.rows.as_slice()),
            controller,
        })
    }

    /// Makes one step, where a controller may make it; what it shows. A step that isn't possible changes nothing; after want
    /// of memory, and after a count that would pass 2^64, the world is spent, and makes no step any more.
    pub fn step(&mut self, step: &Step) -> Result<Seen, StepFault>
        ensures step { (x : Scene) → StandsFor M.words self.old x →
            IsStep result (step_made x step.now) (shows x.header x.world step.now) (StandsFor M.words self.new) }
        ensures refused { (x : Scene) → StandsFor M.words self.old x → result ≡ Err StepFault.NotPossible → StandsFor M.words self.new x }
        ensures memory { result ≡ Err StepFault.Memory → IsSpent self.new }
        ensures spent { IsSpent self.old → result ≡ Err StepFault.Spent }
        ensures stays { IsSpent self.old → IsSpent self.new }
    {
        self.controller.make(&mut self.left, step)
    }

    /// The least harm, where the world has any: of each ring that was declared, whether it lives or went.
    pub fn safe(&self) -> Result<(), Harm>
        ensures { (x : Scene) → StandsFor M.words self.now x → result_err result ≡ harm_of x.header x.world }
    {
        self.controller.safe()
    }
}
