//! What a driver says on the bench, line by line, and what it is answered.
ghost use Rattle.std.specs.Prelude.{◌≡◌, ◌≢◌, List, [], None, OnOk, is_some, length};
ghost use Rattle.traces.specs.declared.header.Header.{Header as HeaderValue};
ghost use Rattle.traces.specs.declared.row.Row.{Row as RowValue};
ghost use Rattle.traces.specs.declared.step.Step.{Step as StepValue};
ghost use Rattle.world_state.specs.Harms.{harm_of};
ghost use Rattle.world_state.specs.Scenes.{Scene};
ghost use Rattle.bench.specs.Benches.{IsBench};
ghost use Rattle.bench.specs.Lives.{IsLiveOf, JudgesNext};
ghost use Rattle.bench.specs.declared.written.Written.{Written as WrittenValue};
ghost use Rattle.bench_runs.specs.Runs.{IsCourse, IsOver, IsRun, end_of, ended_with, noted_with};

use crate::end::{Ended, RefusedRow, refused_line};
use crate::lines::say;
use crate::question::Question;
use crate::run::Left;
use bench::{Live, LiveFault, Written};
use guest_memory::WordMemory;
use ownership_rules::Refusal;
use std::alloc::Global;
use std::io::{self, ErrorKind, Write};

/// Where a run stands: what the driver said of its trace, and how the run ends.
#[derive(Drop)]
pub struct Course {
    alloc: Global,
    /// The trace so far.
    said: Vec<u8>,
    /// The first row that broke a rule.
    refused: Option<RefusedRow>,
    ended: Option<Ended>,
}

impl Course {
    /// Behind a header.
    pub fn new<M: WordMemory + Drop>(alloc: Global, said: Vec<u8>, live: &Live<M>) -> Course
        requires begins { (h : HeaderValue) × IsLiveOf M.words h [] live.now }
        requires judging { JudgesNext live.now }
        ensures course { IsCourse M.words result live.now }
    {
        let mut course = Course {
            alloc,
            said,
            refused: None,
            ended: None,
        };
        course.note_harm(live);
        course
    }

    /// The run is over.
    pub fn is_over(&self) -> bool
        ensures { result ≡ is_some self.now.ended }
    {
        self.ended.is_some()
    }

    /// The driver says a line: a row, or what it asks.
    pub fn hear<M: WordMemory + Drop, O: Write, E: Write>(
        &mut self,
        live: &mut Live<M>,
        line: &[u8],
        out: &mut O,
        err: &mut E,
    ) -> io::Result<()>
        requires so_far { IsCourse M.words self.old live.old }
        ensures so_far { OnOk result (IsCourse M.words self.new live.new) }
    {
        if self.is_over() {
            return Ok(());
        }
        if let Some(question) = Question::of(line) {
            return self.answer(live, question, out);
        }
        self.said.extend_from_slice(line)?;
        self.hear_row(live, line, err)
    }

    /// The driver says a row.
    pub fn hear_row<M: WordMemory + Drop, E: Write>(
        &mut self,
        live: &mut Live<M>,
        line: &[u8],
        err: &mut E,
    ) -> io::Result<()>
        requires so_far { IsCourse M.words self.old live.old }
        ensures so_far { OnOk result (IsCourse M.words self.new live.new) }
    {
        if self.is_over() {
            return Ok(());
        }
        match live.row(line) {
            Ok((row, refusal)) => {
                self.note_refusal(row, refusal, err)?;
                self.note_harm(live);
                Ok(())
            }
            Err(fault) => self.end(live.steps(), fault, err),
        }
    }

    /// The words that the controller wrote since it was told last; `.` ends them, `idle` where the driver waits for an event and none comes, or
    /// `halted` where it reads USBSTS and HCHalted is 1.
    fn answer<M: WordMemory + Drop, O: Write>(
        &mut self,
        live: &mut Live<M>,
        question: Question,
        out: &mut O,
    ) -> io::Result<()>
        requires so_far { IsCourse M.words self.old live.old }
        requires going { self.old.ended ≡ None }
        ensures so_far { OnOk result (IsCourse M.words self.new live.new) }
    {
        match live.words(question.moment()) {
            Ok((words, has_event)) => {
                self.note_harm(live);
                self.tell(&words, question.end(has_event, live.is_halted()), out)
            }
            Err(_) => Err(ErrorKind::OutOfMemory.into()),
        }
    }

    /// Tells words that the controller wrote, and how the answer ends, unless the run is over.
    fn tell<O: Write>(&self, words: &[Written], end: &str, out: &mut O) -> io::Result<()> {
        let mut text = self.told(words)?;
        if !self.is_over() {
            text.push_str(end)?;
        }
        say(&text, out)
    }

    /// The lines of words that the controller wrote.
    fn told(&self, words: &[Written]) -> io::Result<String> {
        let mut text = String::new(self.alloc);
        for word in words {
            let line = format!(in self.alloc; "w {:016x} {:08x}\n", word.at, word.word)?;
            text.push_str(&line)?;
        }
        Ok(text)
    }

    /// Notes the first row that breaks a rule, and tells it at once.
    fn note_refusal<E: Write>(
        &mut self,
        row: u32,
        refusal: Option<Refusal>,
        err: &mut E,
    ) -> io::Result<()>
        ensures ended { OnOk result (self.new.ended ≡ self.old.ended) }
        ensures noted { OnOk result (self.new.refused ≡ noted_with self.old.refused row refusal) }
    {
        match (self.refused, refusal) {
            (None, Some(refusal)) => {
                self.refused = Some(RefusedRow { row, refusal });
                tell_refusal(self.alloc, row, refusal, err)
            }
            _ => Ok(()),
        }
    }

    /// Ends the run where there is harm.
    fn note_harm<M: WordMemory + Drop>(&mut self, live: &Live<M>)
        ensures ended { (h : HeaderValue) (past : List RowValue) (steps : List StepValue) (told : List WrittenValue) (x : Scene) → IsBench M.words h past steps told x live.now.bench →
            self.new.ended ≡ ended_with self.old.ended (harm_of x.header x.world) (length steps) }
        ensures noted { self.new.refused ≡ self.old.refused }
    {
        if let Err(harm) = live.safe() {
            self.ended = Some(Ended::Harm {
                harm,
                step: live.steps(),
            });
        }
    }

    /// Ends the run at a line that can't be followed.
    fn end<E: Write>(&mut self, steps: usize, fault: LiveFault, err: &mut E) -> io::Result<()>
        ensures ended { OnOk result (IsOver self.new.ended) }
        ensures memory { OnOk result (fault ≢ LiveFault.Memory) }
    {
        let ended = match fault {
            LiveFault::Line { line, fault } => Ended::BadLine { line, fault },
            LiveFault::NotPossible { row, refusal } => {
                self.note_refusal(row, refusal, err)?;
                Ended::NotPossible {
                    step: steps.saturating_add(1),
                }
            }
            LiveFault::Memory => return Err(ErrorKind::OutOfMemory.into()),
        };
        self.ended = Some(ended);
        Ok(())
    }

    /// What is left of the run.
    pub fn into_left<M: WordMemory + Drop>(self, live: Live<M>) -> Left
        requires so_far { IsCourse M.words self live }
        ensures run { IsRun result }
    {
        Left {
            ended: ended_as(self.ended, self.refused),
            trace: self.said,
            schedule: live.into_schedule(),
        }
    }
}

/// How a run ends that ended so, or in which this row alone is to be told.
fn ended_as(ended: Option<Ended>, refused: Option<RefusedRow>) -> Ended
    ensures { result ≡ end_of ended refused }
{
    match (ended, refused) {
        (Some(ended), _) => ended,
        (None, Some(row)) => Ended::Refused(row),
        (None, None) => Ended::NoHarm,
    }
}

/// Tells a row that breaks a rule.
fn tell_refusal<E: Write>(
    alloc: Global,
    row: u32,
    refusal: Refusal,
    err: &mut E,
) -> io::Result<()> {
    let line = refused_line(alloc, row, refusal)?;
    err.write_all(line.as_bytes())?;
    err.flush()
}
