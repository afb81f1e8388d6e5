//! A driver that speaks and a controller that answers, line by line.
use crate::adversary::{Adversary, Moment};
use crate::bench::Bench;
use crate::fault::BenchFault;
use crate::going::go_on;
use crate::written::Written;
use guest_memory::WordMemory;
use ownership_rules::Refusal;
use std::alloc::{AllocError, Global};
use trace_reader::{Counted, LineFault, RowReader, StreamFault};
use traces::Schedule;
use world_state::Harm;

/// Why the bench can't go on behind a line.
#[derive(Clone, Copy, Debug, PartialEq, Eq)]
pub enum LiveFault {
    /// The line, by its number from 1, says no row.
    Line { line: u32, fault: LineFault },
    /// The row reads an event that the controller hasn't posted, or a value that the register hasn't; where the rows before it broke no rule,
    /// the one that it breaks.
    NotPossible { row: u32, refusal: Option<Refusal> },
    /// Memory is wanted.
    Memory,
}

impl From<StreamFault> for LiveFault {
    fn from(fault: StreamFault) -> LiveFault {
        match fault {
            StreamFault::Line { line, fault } => LiveFault::Line { line, fault },
            StreamFault::Device | StreamFault::Memory => LiveFault::Memory,
        }
    }
}

/// A run of a driver on the bench.
#[derive(Drop)]
pub struct Live<M: WordMemory> {
    bench: Bench<M>,
    adversary: Adversary,
    reader: RowReader,
    /// How many events were there when the driver looked or waited last.
    told: u64,
}

impl<M: WordMemory + Drop> Live<M> {
    ghost use Rattle.std.specs.Prelude.{◌≡◌, ◌≢◌, ◌&&◌, ℕ, List, [], None, IfErr, IfOk, IfSome, OnOk, length, not, reverse};
    ghost use Rattle.std.specs.Result.{result_err};
    ghost use Rattle.traces.specs.declared.header.Header.{Header as HeaderValue};
    ghost use Rattle.traces.specs.declared.row.Row.{Row as RowValue};
    ghost use Rattle.traces.specs.declared.step.Step.{Step as StepValue};
    ghost use Rattle.world_state.specs.Harms.{harm_of};
    ghost use Rattle.world_state.specs.Scenes.{Scene};
    ghost use Rattle.bench.specs.Benches.{IsBench};
    ghost use Rattle.bench.specs.declared.written.Written.{Written as WrittenValue};
    ghost use Rattle.bench.specs.Lives.{IsLive, IsLiveOf, IsRowSaid, JudgesNext};

    /// Behind the header of a trace, which a reader has read.
    pub fn new(
        alloc: Global,
        reader: RowReader,
        adversary: Adversary,
        memory: M,
        known: M,
    ) -> Result<Live<M>, AllocError>
        requires zero { (a : ℕ) → M.words memory a ≡ 0 }
        requires unknown { (a : ℕ) → M.words known a ≡ 0 }
        ensures begins { IfOk result (λ live. (h : HeaderValue) × IsLiveOf M.words h [] live) }
        ensures judging { IfOk result JudgesNext }
    {
        let bench = Bench::new(alloc, reader.header(), memory, known)?;
        Ok(Live {
            bench,
            adversary,
            reader,
            told: 0,
        })
    }

    /// The driver says a row, in a line with its line feed: it is made, and the controller goes on as it likes. The row's line, from 1, and the
    /// least rule that it breaks, where those before it broke none.
    pub fn row(&mut self, line: &[u8]) -> Result<(u32, Option<Refusal>), LiveFault>
        requires so_far { IsLive M.words self.old }
        ensures said { (h : HeaderValue) (past : List RowValue) → IsLiveOf M.words h past self.old → IfOk result (λ told. IsRowSaid M.words h past self.old told.1 self.new) }
        ensures judging { JudgesNext self.old → IfOk result (λ told. told.1 ≡ None → JudgesNext self.new) }
        ensures kept { (h : HeaderValue) (past : List RowValue) (steps : List StepValue) (told : List WrittenValue) (x : Scene) → IsBench M.words h past steps told x self.old.bench →
            IfErr result (λ fault. fault ≢ LiveFault.Memory → IsBench M.words h past steps told x self.new.bench) }
    {
        let mut source = Counted::new(line);
        let Some((number, row)) = self.reader.next_row(&mut source)? else {
            return Err(LiveFault::Line {
                line: self.reader.lines().saturating_add(1),
                fault: LineFault::Row,
            });
        };
        match self.bench.row(&row) {
            Ok(refusal) => {
                self.adversary.hear(&row, self.bench.controller());
                match self.let_go_on(Moment::BehindRow) {
                    Ok(()) => Ok((number, refusal)),
                    Err(_) => Err(LiveFault::Memory),
                }
            }
            Err(BenchFault::NotPossible { refusal }) => Err(LiveFault::NotPossible {
                row: number,
                refusal,
            }),
            Err(_) => Err(LiveFault::Memory),
        }
    }

    /// The driver looks at memory, waits for an event or reads USBSTS: what the controller wrote since it was told last, and whether an event
    /// has come since the driver looked or waited last.
    pub fn words(&mut self, moment: Moment) -> Result<(Vec<Written>, bool), LiveFault>
        requires so_far { IsLive M.words self.old }
        ensures rows { (h : HeaderValue) (past : List RowValue) → IsLiveOf M.words h past self.old → OnOk result (IsLiveOf M.words h past self.new) }
        ensures judging { JudgesNext self.old → OnOk result (JudgesNext self.new) }
    {
        self.let_go_on(moment)?;
        let posted = self.adversary.posted();
        let has_event = posted != self.told;
        self.told = match moment {
            Moment::Status => self.told,
            _ => posted,
        };
        Ok((self.bench.drain(), has_event))
    }

    /// HCHalted of USBSTS: the controller wasn't started, or has halted (xHCI 5.4.2).
    pub fn is_halted(&self) -> bool
        ensures { (h : HeaderValue) (past : List RowValue) (steps : List StepValue) (told : List WrittenValue) (x : Scene) → IsBench M.words h past steps told x self.now.bench →
            result ≡ not (x.world.started && not x.world.stopped && not x.world.halted) }
    {
        !self.bench.controller().is_running()
    }

    /// The controller does what its adversary chooses.
    fn let_go_on(&mut self, moment: Moment) -> Result<(), LiveFault>
        requires so_far { IsLive M.words self.old }
        ensures rows { (h : HeaderValue) (past : List RowValue) → IsLiveOf M.words h past self.old → OnOk result (IsLiveOf M.words h past self.new) }
        ensures judging { JudgesNext self.old → OnOk result (JudgesNext self.new) }
    {
        match go_on(&mut self.bench, &mut self.adversary, moment) {
            Ok(()) => Ok(()),
            Err(_) => Err(LiveFault::Memory),
        }
    }

    /// The least harm so far.
    pub fn safe(&self) -> Result<(), Harm>
        ensures { (h : HeaderValue) (past : List RowValue) (steps : List StepValue) (told : List WrittenValue) (x : Scene) → IsBench M.words h past steps told x self.now.bench →
            result_err result ≡ harm_of x.header x.world }
    {
        self.bench.safe()
    }

    /// How many steps were made, the rows among them.
    pub fn steps(&self) -> usize
        ensures { (h : HeaderValue) (past : List RowValue) (steps : List StepValue) (told : List WrittenValue) (x : Scene) → IsBench M.words h past steps told x self.now.bench →
            result ≡ length steps }
    {
        self.bench.schedule().len()
    }

    /// The schedule of all steps, the rows among them; none where it would have more lines than a schedule has.
    pub fn into_schedule(self) -> Option<Schedule>
        ensures { (h : HeaderValue) (past : List RowValue) (steps : List StepValue) (told : List WrittenValue) (x : Scene) → IsBench M.words h past steps told x self.bench →
            IfSome result (λ schedule. schedule.steps ≡ reverse steps) }
    {
        self.bench.into_schedule()
    }
}
