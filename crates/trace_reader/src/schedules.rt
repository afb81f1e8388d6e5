ghost use Rattle.std.specs.Prelude.{List, ◌≡◌, ◌++◌, false, Ok, Err, map, IsTrue, OnOk, IfOk, IfErr};
ghost use Rattle.std.specs.List.{flat_map};
ghost use Rattle.line_text.specs.Lines.{lines_of};
ghost use Rattle.traces.specs.declared.step.Step.{Step};
ghost use Rattle.trace_reader.specs.Entries.{IfBadLine};
ghost use Rattle.trace_reader.specs.LineByLine.{lines_say};
ghost use Rattle.trace_reader.specs.Printing.{in_a_row};
ghost use Rattle.trace_reader.specs.Schedules.{is_schedule_version, schedule_of, step_line};
ghost use Rattle.trace_reader.specs.ScheduleSpelling.{IsSchedule, printed_schedule, spells_schedule, step_fields};
ghost use Rattle.trace_reader.specs.Spelling.{printed_line};

use crate::fault::{LineFault, ReadFault};
use crate::print::push_block;
use crate::read::at_line;
use crate::step_line::step_line;
use line_text::{Line, first_line, push_u8, push_u32, push_u64};
use std::alloc::{AllocError, Global};
use traces::{Schedule, Step, Steps};

/// Reads the text of a schedule: `xsched 1`, then its steps, one a line. Every byte sequence is answered, by its schedule
/// or by the first bad line and the least of its faults; `Memory` is answered only where a growth was refused.
pub fn read_schedule(alloc: Global, text: &[u8]) -> Result<Schedule, ReadFault>
    ensures read { IfOk result (λ schedule. schedule_of text.now ≡ Ok schedule.steps) }
    ensures refused { IfErr result (λ e. IfBadLine e (λ line code. schedule_of text.now ≡ Err (line, code))) }

    // The text spells the schedule, and no other.
    ensures spelled { IfOk result (λ schedule. IsTrue (spells_schedule schedule.steps text.now)) }
    ensures alone { IfOk result (λ schedule. (other : List Step) → IsSchedule other → IsTrue (spells_schedule other text.now) → other ≡ schedule.steps) }

    // A refused text spells no schedule.
    ensures unspelled { IfErr result (λ e. IfBadLine e (λ line code. (steps : List Step) → IsSchedule steps → spells_schedule steps text.now ≡ false)) }
{
    match steps_in(alloc, text) {
        Ok(steps) => Ok(Schedule {
            steps: Steps::new(steps),
        }),
        Err(fault) => Err(fault),
    }
}

fn steps_in(alloc: Global, text: &[u8]) -> Result<Vec<Step>, ReadFault>
    ensures ok { IfOk result (λ steps. schedule_of text.now ≡ Ok steps.items) }
    ensures err { IfErr result (λ e. IfBadLine e (λ line code. schedule_of text.now ≡ Err (line, code))) }
{
    let behind_version = skip_version(text)?;
    read_steps(alloc, behind_version)
}

/// The text behind the first line.
fn skip_version(text: &[u8]) -> Result<&[u8], ReadFault>
    ensures ok { IfOk result (λ rest. schedule_of text.now ≡ lines_say step_line 2 (lines_of rest.now)) }
    ensures err { IfErr result (λ e. IfBadLine e (λ line code. schedule_of text.now ≡ Err (line, code))) }
{
    if text.is_empty() {
        return Err(at_line(1, LineFault::Header.into()));
    }
    let (line, rest) = first_line(text);
    if !is_version(&line) {
        return Err(at_line(1, LineFault::Header.into()));
    }
    Ok(rest)
}

/// The first line of a schedule.
#[tactic(auto, unfolding(crate::specs::Schedules::is_schedule_version))]
fn is_version(line: &Line) -> bool
    ensures { result ≡ is_schedule_version line.now }
{
    line.is_ended() && line.content() == b"xsched 1".as_slice()
}

/// The steps of the lines from the second on.
fn read_steps(alloc: Global, text: &[u8]) -> Result<Vec<Step>, ReadFault>
    ensures ok { IfOk result (λ steps. lines_say step_line 2 (lines_of text.now) ≡ Ok steps.items) }
    ensures err { IfErr result (λ e. IfBadLine e (λ line code. lines_say step_line 2 (lines_of text.now) ≡ Err (line, code))) }
{
    let mut steps = Vec::new(alloc);
    let mut number = 2;
    let mut rest = text;
    while !rest.is_empty() {
        let (line, after) = first_line(rest);
        match step_line(number, &line) {
            Ok(step) => steps.push(step)?,
            Err(error) => return Err(at_line(number, error)),
        }
        number += 1;
        rest = after;
    }
    Ok(steps)
}

/// The text of a schedule, with its numbers in lower case.
pub fn print_schedule(alloc: Global, schedule: &Schedule) -> Result<Vec<u8>, AllocError>
    ensures printed { IfOk result (λ out. out.items ≡ printed_schedule schedule.now.steps) }
    // What is printed is read as the same schedule.
    ensures reread { IfOk result (λ out. schedule_of out.items ≡ Ok schedule.now.steps) }
{
    let mut out = Vec::new(alloc);
    out.extend_from_slice(b"xsched 1\n")?;
    push_steps(&mut out, schedule.steps.as_slice())?;
    Ok(out)
}

fn push_steps(out: &mut Vec<u8>, steps: &[Step]) -> Result<(), AllocError>
    ensures { OnOk result (out.new.items ≡ out.old.items ++ flat_map printed_line (map step_fields steps.now)) }
{
    for step in steps {
        push_step(out, step)?;
    }
    Ok(())
}

/// Appends the line of a step.
#[tactic(auto, using(crate::proofs::LinePieces::line_of))]
fn push_step(out: &mut Vec<u8>, step: &Step) -> Result<(), AllocError>
    ensures { OnOk result (out.new.items ≡ out.old.items ++ printed_line (step_fields step.now)) }
{
    push_fields(out, step)?;
    out.extend_from_slice(b"\n")?;
    Ok(())
}

/// Appends the fields of a step, with a space between each two.
#[tactic(auto, unfolding(crate::specs::ScheduleSpelling::step_fields))]
fn push_fields(out: &mut Vec<u8>, step: &Step) -> Result<(), AllocError>
    ensures { OnOk result (out.new.items ≡ out.old.items ++ in_a_row (step_fields step.now)) }
{
    match step {
        Step::NextRow => out.extend_from_slice(b"row"),
        Step::Look { ring } => {
            out.extend_from_slice(b"look ")?;
            push_u8(out, *ring)
        }
        Step::Report { event } => {
            out.extend_from_slice(b"report")?;
            push_block(out, event)
        }
        Step::Finish { event } => {
            out.extend_from_slice(b"finish")?;
            push_block(out, event)
        }
        Step::Other { event } => {
            out.extend_from_slice(b"other")?;
            push_block(out, event)
        }
        Step::Scribble { at, word } => {
            out.extend_from_slice(b"scrib ")?;
            push_u64(out, at.get())?;
            out.extend_from_slice(b" ")?;
            push_u32(out, *word)
        }
        Step::Halt => out.extend_from_slice(b"halt"),
    }
}
