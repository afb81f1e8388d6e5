ghost use Rattle.std.specs.Prelude.{◌≡◌, ◌≤◌, ℕ, Bool, [], ◌∷◌, ◌++◌, true, false, List, Option, Some, None, Ok, Err, IfOk, IfSome, OnOk, length, nat_lt, reverse, ◌≢◌};
ghost use Rattle.std.specs.Result.{result_err};
ghost use Rattle.traces.specs.AllowedHeaders.{AreUnmoved, IsHeader};
ghost use Rattle.traces.specs.Limits.{most_streamed_lines};
ghost use Rattle.traces.specs.Rows.{IsRow};
ghost use Rattle.traces.specs.TraceRows.{IsTraceRow};
ghost use Rattle.traces.specs.declared.header.Header.{Header as HeaderValue};
ghost use Rattle.traces.specs.declared.row.Row.{Row as RowValue};
ghost use Rattle.traces.specs.declared.step.Step.{Step as StepValue};
ghost use Rattle.traces.specs.declared.step.Step.TheVariants.{NextRow};
ghost use Rattle.world_state.specs.Harms.{harm_of};
ghost use Rattle.world_state.specs.Scenes.{Scene, scene_before, step_made};
ghost use Rattle.ownership_rules.specs.declared.refusal.Refusal.{Refusal as RefusalValue};
ghost use Rattle.ownership_checker.specs.RingPasses.Passing.{IsRingPassed};
ghost use Rattle.controller_model.specs.Controllers.{IsBeside};
ghost use Rattle.controller_model.specs.Showing.{shows};
ghost use Rattle.controller_model.specs.declared.seen.Seen.TheVariants.{Posted};
ghost use Rattle.bench.specs.Benches.{HasBench, IsBench, IsJudging, IsRowJudged, with_row, words_at, words_told};
ghost use Rattle.bench.specs.declared.written.Written.{Written as WrittenValue};

use crate::fault::BenchFault;
use crate::stepped::schedule_of;
use crate::written::Written;
use controller_model::{Controller, Seen, StepFault};
use guest_memory::WordMemory;
use ownership_checker::{LeaseCount, RingPass};
use ownership_rules::Refusal;
use std::alloc::{AllocError, Global};
use trace_reader::MOST_STREAMED_LINES;
use trace_record::StepFault as RowFault;
use traces::{Header, Row, Schedule, Step};
use trb::Block;
use world_state::Harm;

/// A driver's rows and a controller's steps beside them, as they come. Each row is judged until one breaks a rule; each step is one that a
/// controller may make. Contracts say which rows, steps and scene it stands for.
#[derive(Drop)]
pub struct Bench<M: WordMemory> {
    alloc: Global,
    controller: Controller<M>,
    judge: RingPass<LeaseCount, M>,
    /// The rows so far broke no rule.
    is_judging: bool,
    /// How many rows were made.
    rows: u32,
    steps: Vec<Step>,
    /// What the controller wrote since it was told last.
    written: Vec<Written>,
}

/// The least rule that a row breaks, where the rows before it broke none; from one that does on no row is judged.
fn judge_row<M: WordMemory + Drop>(
    judge: &mut RingPass<LeaseCount, M>,
    is_judging: &mut bool,
    number: u32,
    row: &Row,
) -> Result<Option<Refusal>, AllocError>
    requires so_far { is_judging.old ≡ true → (h : HeaderValue) × (past : List RowValue) × IsRingPassed M.words h past judge.old × (length past ≤ most_streamed_lines) }
    requires fits { IsRow row.now }
    ensures judged { is_judging.old ≡ true → IfOk result (λ refusal. (h : HeaderValue) (past : List RowValue) → IsRingPassed M.words h past judge.old → IsRowJudged h past row.now refusal) }
    ensures passed { OnOk result ((h : HeaderValue) (past : List RowValue) → (is_judging.old ≡ true → IsRingPassed M.words h past judge.old) → is_judging.new ≡ true →
        IsRingPassed M.words h (row.now ∷ past) judge.new) }
    ensures judging { is_judging.old ≡ true → result ≡ Ok None → is_judging.new ≡ true }
{
    if !*is_judging {
        return Ok(None);
    }
    match judge.row(number, row) {
        Ok(()) => Ok(None),
        Err(RowFault::Refused(refusal)) => {
            *is_judging = false;
            Ok(Some(refusal))
        }
        Err(RowFault::Memory) => Err(AllocError),
    }
}

/// Adds the four words of an event at an address.
fn add_event(written: &mut Vec<Written>, at: u64, event: &Block) -> Result<(), AllocError>
    ensures { OnOk result (written.new.items ≡ written.old.items ++ words_at at event.now) }
{
    let [first, second, third, fourth] = event.w;
    written.push(Written { at, word: first })?;
    written.push(Written {
        at: at.wrapping_add(4),
        word: second,
    })?;
    written.push(Written {
        at: at.wrapping_add(8),
        word: third,
    })?;
    written.push(Written {
        at: at.wrapping_add(12),
        word: fourth,
    })?;
    Ok(())
}

/// Adds the words of an event, where a step shows that it was posted.
fn add_posted(written: &mut Vec<Written>, seen: Seen, event: &Block) -> Result<(), AllocError>
    ensures { OnOk result ((at : ℕ) → seen ≡ Posted at → written.new.items ≡ written.old.items ++ words_at at event.now) }
{
    match seen {
        Seen::Posted { at } => add_event(written, at, event),
        _ => Ok(()),
    }
}

/// Adds the words that a step wrote which shows this.
#[tactic(auto, unfolding(controller_model::specs::Showing::shows))]
fn add_words(written: &mut Vec<Written>, step: &Step, seen: Seen) -> Result<(), AllocError>
    ensures { OnOk result ((x : Scene) → seen ≡ shows x.header x.world step.now → written.new.items ≡ written.old.items ++ words_told x step.now) }
{
    match step {
        Step::Report { event } => add_posted(written, seen, event),
        Step::Finish { event } => add_posted(written, seen, event),
        Step::Other { event } => add_posted(written, seen, event),
        Step::Scribble { at, word } => {
            written.push(Written {
                at: at.get(),
                word: *word,
            })?;
            Ok(())
        }
        Step::NextRow | Step::Look { .. } | Step::Halt => Ok(()),
    }
}

/// Adds a step.
fn add_step(steps: &mut Vec<Step>, step: Step) -> Result<(), AllocError>
    ensures { OnOk result (steps.new.items ≡ steps.old.items ++ step ∷ []) }
{
    steps.push(step)?;
    Ok(())
}

impl<M: WordMemory + Drop> Bench<M> {
    /// Before the first row, with two memories in which no word was written: the controller's, and what is known of it to the judge.
    pub fn new(alloc: Global, header: &Header, memory: M, known: M) -> Result<Bench<M>, AllocError>
        requires headed { IsHeader header.now }
        requires unmoved { AreUnmoved header.now.rings }
        requires zero { (a : ℕ) → M.words memory a ≡ 0 }
        requires unknown { (a : ℕ) → M.words known a ≡ 0 }
        ensures bench { IfOk result (IsBench M.words header.now [] [] [] (scene_before header.now [])) }
        ensures judging { IfOk result IsJudging }
    {
        let controller = Controller::new(alloc, header, memory)?;
        let log = LeaseCount::new(alloc, header)?;
        let judge = RingPass::new(alloc, header.copy(alloc)?, log, known)?;
        Ok(Bench {
            alloc,
            controller,
            judge,
            is_judging: true,
            rows: 0,
            steps: Vec::new(alloc),
            written: Vec::new(alloc),
        })
    }

    /// Makes the driver's next row: where no row before it broke a rule, the least rule that it breaks. From then on no row is judged. Behind
    /// a fault other than `NotPossible` the bench is of no use.
    pub fn row(&mut self, row: &Row) -> Result<Option<Refusal>, BenchFault>
        requires so_far { HasBench M.words self.old }
        requires fits { IsTraceRow row.now }
        ensures made { (h : HeaderValue) (past : List RowValue) (steps : List StepValue) (told : List WrittenValue) (x : Scene) → IsBench M.words h past steps told x self.old →
            IfOk result (λ refusal. (y : Scene) × (step_made (with_row x row.now) NextRow ≡ Some y) × IsBench M.words h (row.now ∷ past) (NextRow ∷ steps) told y self.new) }
        ensures judged { (h : HeaderValue) (past : List RowValue) (steps : List StepValue) (told : List WrittenValue) (x : Scene) → IsBench M.words h past steps told x self.old →
            IsJudging self.old → IfOk result (IsRowJudged h past row.now) }
        ensures judging { IsJudging self.old → result ≡ Ok None → IsJudging self.new }
        ensures impossible { (refusal : Option RefusalValue) (h : HeaderValue) (past : List RowValue) (steps : List StepValue) (told : List WrittenValue) (x : Scene) →
            result ≡ Err (BenchFault.NotPossible refusal) → IsBench M.words h past steps told x self.old →
            (step_made (with_row x row.now) NextRow ≡ None) × IsBench M.words h past steps told x self.new }
    {
        if self.rows >= MOST_STREAMED_LINES {
            return Err(BenchFault::Limit);
        }
        let refusal = judge_row(&mut self.judge, &mut self.is_judging, self.rows, row)?;
        match self.controller.row(row) {
            Ok(_) => {
                add_step(&mut self.steps, Step::NextRow)?;
                self.rows += 1;
                Ok(refusal)
            }
            Err(StepFault::NotPossible) => {
                self.is_judging = false;
                Err(BenchFault::NotPossible { refusal })
            }
            Err(_) => Err(BenchFault::Memory),
        }
    }

    /// Makes a step of the controller, where it may make it; what it shows. The next row is none. Behind a fault other than `NotPossible` the
    /// bench is of no use.
    pub fn step(&mut self, step: &Step) -> Result<Seen, BenchFault>
        ensures made { (h : HeaderValue) (past : List RowValue) (steps : List StepValue) (told : List WrittenValue) (x : Scene) → IsBench M.words h past steps told x self.old →
            IfOk result (λ seen. (y : Scene) × (step_made x step.now ≡ Some y) × (seen ≡ shows x.header x.world step.now) ×
            IsBench M.words h past (step.now ∷ steps) (told ++ words_told x step.now) y self.new) }
        ensures judging { IsJudging self.old → IsJudging self.new }
        ensures impossible { (refusal : Option RefusalValue) (h : HeaderValue) (past : List RowValue) (steps : List StepValue) (told : List WrittenValue) (x : Scene) →
            result ≡ Err (BenchFault.NotPossible refusal) → IsBench M.words h past steps told x self.old →
            (step_made x step.now ≡ None) × IsBench M.words h past steps told x self.new }
    {
        match self.controller.step(step) {
            Ok(seen) => {
                add_words(&mut self.written, step, seen)?;
                add_step(&mut self.steps, *step)?;
                Ok(seen)
            }
            Err(StepFault::NotPossible) => Err(BenchFault::NotPossible { refusal: None }),
            Err(_) => Err(BenchFault::Memory),
        }
    }

    /// Takes the words that the controller wrote since this was asked last, in the order of the writes.
    pub fn drain(&mut self) -> Vec<Written>
        ensures told { (h : HeaderValue) (past : List RowValue) (steps : List StepValue) (told : List WrittenValue) (x : Scene) → IsBench M.words h past steps told x self.old →
            (result.items ≡ told) × IsBench M.words h past steps [] x self.new }
        ensures judging { IsJudging self.old → IsJudging self.new }
    {
        let alloc = self.alloc;
        std::mem::replace(&mut self.written, Vec::new(alloc))
    }

    /// The controller wrote words that it wasn't asked for yet.
    pub fn has_written(&self) -> bool
        ensures { (h : HeaderValue) (past : List RowValue) (steps : List StepValue) (told : List WrittenValue) (x : Scene) → IsBench M.words h past steps told x self.now →
            result ≡ nat_lt 0 (length told) }
    {
        !self.written.is_empty()
    }

    /// The least harm that the steps so far did, if they did any.
    pub fn safe(&self) -> Result<(), Harm>
        ensures { (h : HeaderValue) (past : List RowValue) (steps : List StepValue) (told : List WrittenValue) (x : Scene) → IsBench M.words h past steps told x self.now →
            result_err result ≡ harm_of x.header x.world }
    {
        self.controller.safe()
    }

    /// All steps so far, the rows among them: a run of the model beside the rows that were made.
    pub fn schedule(&self) -> &[Step]
        ensures { (h : HeaderValue) (past : List RowValue) (steps : List StepValue) (told : List WrittenValue) (x : Scene) → IsBench M.words h past steps told x self.now →
            result.now ≡ reverse steps }
    {
        self.steps.as_slice()
    }

    /// The schedule of all steps so far; none where it would have more lines than a schedule has.
    pub fn into_schedule(self) -> Option<Schedule>
        ensures { (h : HeaderValue) (past : List RowValue) (steps : List StepValue) (told : List WrittenValue) (x : Scene) → IsBench M.words h past steps told x self →
            IfSome result (λ schedule. schedule.steps ≡ reverse steps) }
    {
        schedule_of(self.steps)
    }

    /// The controller, as the rows and steps so far left it.
    pub fn controller(&self) -> &Controller<M>
        ensures { (h : HeaderValue) (past : List RowValue) (steps : List StepValue) (told : List WrittenValue) (x : Scene) → IsBench M.words h past steps told x self.now →
            IsBeside M.words result.now x }
    {
        &self.controller
    }
}
