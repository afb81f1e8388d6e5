//! Schedules that are made step by step, as the controller's model shows what each step does.
ghost use Rattle.std.specs.Prelude.{◌≡◌, ◌+◌, ◌≤◌, ◌++◌, ◌∷◌, [], length, OnOk};
ghost use Rattle.traces.specs.Limits.{most_schedule_lines};
ghost use Rattle.traces.specs.Rows.{AreSteps, IsRow, steps_are_fact};
ghost use Rattle.traces.specs.Steps.{IsStep};
ghost use Rattle.traces.specs.TraceRows.{IsTraceRow};
ghost use Rattle.trb.specs.Block.{IsBlock, kind};
ghost use Rattle.replayer.specs.Schedules.Making.{is_waited, post_by_kind, rings_at, tells_halt};
ghost use Rattle.traces.specs.Header.{is_command_kind};

use crate::scheduler::rings::add_ring;
use controller_model::{Seen, StepFault, World};
use guest_memory::SparseMemory;
use std::alloc::{AllocError, Global};
use traces::{Register, Ring, Row, Schedule, Step, Steps, Trace};
use trb::{Block, BlockKind, RingKind};

/// The most steps that a schedule has.
const MOST_STEPS: usize = 4_194_303;

/// Why no schedule is made.
#[derive(Clone, Copy, PartialEq, Eq)]
pub(crate) enum Unmade {
    /// A step of it isn't possible, or it would be longer than a schedule may be.
    Dropped,
    /// A growth of memory was refused.
    Memory,
}

impl From<AllocError> for Unmade {
    ghost use Rattle.replayer.specs.declared.scheduler.attempt.Unmade.TheVariants.{Memory};

    ghost from_gives = { λ _ e. e ≡ Memory };

    fn from(_error: AllocError) -> Unmade {
        Unmade::Memory
    }
}

/// The steps so far, and the world after them.
#[derive(Drop)]
pub(crate) struct Attempt<'t> {
    world: World<'t, SparseMemory>,
    steps: Vec<Step>,
    ghost fitting: { AreSteps steps.items } by { steps_are_fact steps.items },
    ghost within: { length steps.items + 1 ≤ most_schedule_lines },
}

impl<'t> Attempt<'t> {
    ghost use Rattle.std.specs.Prelude.{IfOk, List, Some, if◌then◌else◌, option_map};
    ghost use Rattle.traces.specs.declared.row.Row.TheVariants.{Read};
    ghost use Rattle.traces.specs.declared.step.Step.TheVariants.{Look as LookAt};
    ghost use Rattle.replayer.specs.Schedules.Making.{IsMade, Making, blocks_of_ring, looked_at, looked_at_each, made_before, made_behind_looks, made_halt, made_step, made_steps, tried_step};
    ghost use Rattle.replayer.specs.Schedules.Eager.{nothing_made};
    ghost use Rattle.replayer.specs.Schedules.Attempts.{HasMade};

    /// No steps yet.
    pub(crate) fn new(alloc: Global, trace: &'t Trace) -> Result<Attempt<'t>, AllocError>
        ensures { IfOk result (λ attempt. HasMade attempt (nothing_made trace.now.header trace.now.rows)) }
    {
        let world = World::new(alloc, trace, SparseMemory::new(alloc))?;
        Ok(Attempt {
            world,
            steps: Vec::new(alloc),
        })
    }

    /// The schedule of the steps so far.
    pub(crate) fn into_schedule(self) -> Schedule
        ensures { result.steps ≡ self.entry.steps.items }
    {
        Schedule {
            steps: Steps::new(self.steps),
        }
    }

    /// Makes one more step, if it is possible; what it shows.
    fn attempt(&mut self, step: Step) -> Result<Option<Seen>, Unmade>
        requires { IsStep step }
        ensures { (m : Making) → HasMade self.old m → IsMade result (tried_step m step) (λ seen p. (seen ≡ p.0) × HasMade self.new p.1) }
    {
        if self.steps.len() >= MOST_STEPS {
            return Err(Unmade::Dropped);
        }
        match self.world.step(&step) {
            Ok(seen) => {
                self.steps.push(step).map_err(AllocError::from)?;
                Ok(Some(seen))
            }
            Err(StepFault::NotPossible) => Ok(None),
            Err(_) => Err(Unmade::Memory),
        }
    }

    /// Makes one more step.
    pub(crate) fn make(&mut self, step: Step) -> Result<(), Unmade>
        requires { IsStep step }
        ensures { (m : Making) → HasMade self.old m → IsMade result (made_step m step) (λ done n. HasMade self.new n) }
    {
        match self.attempt(step)? {
            Some(_) => Ok(()),
            None => Err(Unmade::Dropped),
        }
    }

    /// Makes these steps.
    pub(crate) fn make_all(&mut self, steps: &[Step]) -> Result<(), Unmade>
        requires { AreSteps steps.now }
        ensures { (m : Making) → HasMade self.old m → IsMade result (made_steps m steps.now) (λ done n. HasMade self.new n) }
    {
        for step in steps {
            self.make(*step)?;
        }
        Ok(())
    }

    /// Posts the event that a row reads, if it reads one, and halts where a row tells of that. Where a ring is late, it is looked at until
    /// the event is possible.
    pub(crate) fn make_before(&mut self, row: &Row, late: Option<&Ring>) -> Result<(), Unmade>
        requires { IsTraceRow row.now }
        ensures { (m : Making) → HasMade self.old m →
            IsMade result (made_before m row.now (option_map (λ ring. ring.now) late.entry)) (λ done n. HasMade self.new n) }
    {
        match (row, late) {
            (Row::Read { event }, Some(ring)) => self.make_behind_looks(post_of(event), ring),
            (Row::Read { event }, None) => self.make(post_of(event)),
            _ => self.halt_before(row),
        }
    }

    /// The controller halts, if it may, where a row tells of that.
    fn halt_before(&mut self, row: &Row) -> Result<(), Unmade>
        ensures { (m : Making) → HasMade self.old m → IsMade result (if tells_halt row.now then made_halt m else Some m) (λ done n. HasMade self.new n) }
    {
        if !tells_halt(row) {
            return Ok(());
        }
        self.attempt(Step::Halt)?;
        Ok(())
    }

    /// Makes one more step, as soon as looks at a ring make it possible.
    fn make_behind_looks(&mut self, step: Step, ring: &Ring) -> Result<(), Unmade>
        requires { IsStep step }
        ensures { (m : Making) → HasMade self.old m →
            IsMade result (made_behind_looks (blocks_of_ring ring.now) m step ring.now.id) (λ done n. HasMade self.new n) }
    {
        for _looks in 0..ring.shape.places() + ring.shape.links() {
            if self.attempt(step)?.is_some() {
                return Ok(());
            }
            if self.look(ring.id)?.is_none() {
                return Err(Unmade::Dropped);
            }
        }
        self.make(step)
    }

    /// Looks at a ring, if that is possible; what the look shows.
    fn look(&mut self, ring: u8) -> Result<Option<Seen>, Unmade>
        ensures { (m : Making) → HasMade self.old m → IsMade result (tried_step m (LookAt ring)) (λ seen p. (seen ≡ p.0) × HasMade self.new p.1) }
    {
        self.attempt(Step::Look { ring })
    }

    /// Looks at a ring until it waits or a look isn't possible, at most so often as it has blocks; whether the ring may be active.
    fn look_at(&mut self, ring: &Ring) -> Result<bool, Unmade>
        ensures { (m : Making) → HasMade self.old m → IsMade result (looked_at m ring.now) (λ active p. (active ≡ p.0) × HasMade self.new p.1) }
    {
        for looks in 0..ring.shape.places() + ring.shape.links() {
            match self.look(ring.id)? {
                None => return Ok(looks > 0 || is_command(ring.shape.kind())),
                Some(seen) => {
                    if has_waited(seen) {
                        return Ok(true);
                    }
                }
            }
        }
        Ok(true)
    }

    /// Looks at each of these rings; those that may be active.
    pub(crate) fn look_at_each<'r>(
        &mut self,
        alloc: Global,
        rings: &[&'r Ring],
    ) -> Result<Vec<&'r Ring>, Unmade>
        ensures { (m : Making) → HasMade self.old m →
            IsMade result (looked_at_each [] m (rings_at rings.now)) (λ active p. (rings_at active.items ≡ p.0) × HasMade self.new p.1) }
    {
        let mut active = Vec::new(alloc);
        for ring in rings {
            if self.look_at(ring)? {
                add_ring(&mut active, ring)?;
            }
        }
        Ok(active)
    }
}

/// Whether it is the Command Ring's kind.
fn is_command(kind: RingKind) -> bool
    ensures { result ≡ is_command_kind kind }
{
    matches!(kind, RingKind::Cmd)
}

/// Whether a look showed that the controller waits.
fn has_waited(seen: Seen) -> bool
    ensures { result ≡ is_waited seen }
{
    matches!(seen, Seen::Waited)
}

/// Whether a row tells that the controller has halted, or wasn't started (xHCI 5.4.2, HCH).
fn tells_halt(row: &Row) -> bool
    ensures { result ≡ tells_halt row.now }
{
    match row {
        Row::RegRead {
            register: Register::Usbsts,
            value,
        } => value % 2 == 1,
        _ => false,
    }
}

/// How an event is posted, by its type (xHCI 6.4.2).
fn post_of(event: &Block) -> Step
    requires { IsBlock event.now }
    ensures fits { IsStep result }
    ensures step { result ≡ post_by_kind (kind event.now) event.now }
{
    match event.kind() {
        BlockKind::TransferEvent => Step::Report { event: *event },
        BlockKind::CommandCompletion => Step::Finish { event: *event },
        _ => Step::Other { event: *event },
    }
}
