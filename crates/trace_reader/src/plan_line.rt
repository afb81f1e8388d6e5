ghost use Rattle.std.specs.Prelude.{◌≡◌, ◌≤◌, length, OnOk};
ghost use Rattle.trace_reader.specs.Entries.{ring_of};
ghost use Rattle.traces.specs.Limits.{most_lines};
ghost use Rattle.trace_reader.specs.Grammar.{form_as, value_in};
ghost use Rattle.trace_reader.specs.LineAnswers.{AnswersBy, valued_by};
ghost use Rattle.trace_reader.specs.LineByLine.{unless_fault};
ghost use Rattle.trace_reader.specs.Plans.{plans_too_much, is_past_plan_limit, plan_form_of, plan_line, plan_ring, plan_ring_fault, plan_value, ret_line, ring_line_form, ring_value, plan_sub_line};

use crate::entry::{RingEntry, blocks_of, ring_behind};
use crate::fault::{LineError, LineFault};
use crate::line::{MOST_BYTES, MOST_LINES, content_of};
use line_text::{Fields, Line, Survey, u8_of, u64_of};
use segments::RingShape;
use std::alloc::Global;
use traces::{MOST_DECLARED, PlanLine, Ring};
use trb::{Blocks, RingKind};

/// The ring of a plan's second line.
pub fn plan_ring(alloc: Global, line: &Line) -> Result<Ring, LineError>
    ensures { AnswersBy (λ ring. ring) result (plan_ring line.now) }
{
    let content = content_of(MOST_BYTES, line)?;
    let entry = ring_in(alloc, Survey::of(content).count, Fields::of(content))?;
    made_ring(alloc, entry)
}

/// The ring that these fields say, of which there are `count`.
#[tactic(auto, unfolding(crate::specs::Plans::ring_line_form, crate::specs::Plans::ring_value))]
fn ring_in(alloc: Global, count: usize, mut fields: Fields) -> Result<RingEntry, LineError>
    requires { count ≡ length fields }
    ensures { AnswersBy ring_of result (valued_by ring_value (ring_line_form fields.entry)) }
{
    let Some(word) = fields.next() else {
        return Err(LineFault::Row.into());
    };
    if word != b"ring".as_slice() {
        return Err(LineFault::Row.into());
    }
    ring_behind(alloc, true, count - 1, fields)
}

/// The ring, where it is a command or transfer ring and its segments make one.
fn made_ring(alloc: Global, entry: RingEntry) -> Result<Ring, LineError>
    ensures { AnswersBy (λ ring. ring) result (unless_fault plan_ring_fault (ring_of entry)) }
{
    let RingEntry { id, kind, segments } = entry;
    if matches!(kind, RingKind::Evt) {
        return Err(LineFault::Shape.into());
    }
    let shape = RingShape::new(alloc, kind, segments.as_slice())?;
    Ok(Ring { id, shape })
}

/// What a line of a plan behind that of its ring says; it is the line with this number.
pub fn plan_line(alloc: Global, number: u32, line: &Line) -> Result<PlanLine, LineError>
    ensures answer { AnswersBy (λ said. said) result (plan_line number line.now) }
    ensures within { OnOk result (number ≤ most_lines) }
{
    let content = content_of(MOST_BYTES, line)?;
    let said = said_by(alloc, Survey::of(content).count, Fields::of(content))?;
    if is_past_limit(number, &said) {
        return Err(LineFault::Limit.into());
    }
    Ok(said)
}

/// What these fields say, of which there are `count`.
#[tactic(auto, unfolding(crate::specs::Plans::plan_form_of, crate::specs::Plans::plan_value))]
fn said_by(alloc: Global, count: usize, mut fields: Fields) -> Result<PlanLine, LineError>
    requires { count ≡ length fields }
    ensures { AnswersBy (λ said. said) result (valued_by plan_value (plan_form_of fields.entry)) }
{
    let Some(word) = fields.next() else {
        return Err(LineFault::Row.into());
    };
    if word == b"sub".as_slice() {
        sub_line(alloc, count - 1, fields)
    } else if word == b"ret".as_slice() {
        ret_line(fields)
    } else {
        Err(LineFault::Row.into())
    }
}

fn sub_line(alloc: Global, count: usize, mut fields: Fields) -> Result<PlanLine, LineError>
    requires { count ≡ length fields }
    ensures { AnswersBy (λ said. said) result (valued_by value_in (form_as plan_sub_line fields.entry)) }
{
    let Some(ring) = fields.next() else {
        return Err(LineFault::Row.into());
    };
    if count == 1 || count % 4 != 1 {
        return Err(LineFault::Row.into());
    }
    let ring = u8_of(ring).ok_or(LineFault::Number)?;
    let blocks = blocks_of(alloc, fields)?;
    Ok(PlanLine::Sub {
        ring,
        blocks: Blocks::new(blocks),
    })
}

fn ret_line(mut fields: Fields) -> Result<PlanLine, LineError>
    ensures { AnswersBy (λ said. said) result (valued_by value_in (form_as ret_line fields.entry)) }
{
    let (Some(upto), None) = (fields.next(), fields.next()) else {
        return Err(LineFault::Row.into());
    };
    let upto = u64_of(upto).ok_or(LineFault::Number)?;
    Ok(PlanLine::Ret { upto })
}

/// It is a line past the limit, or it declares too many blocks.
fn is_past_limit(number: u32, said: &PlanLine) -> bool
    ensures { result ≡ is_past_plan_limit number said.now }
{
    number > MOST_LINES || plans_too_much(said)
}

fn plans_too_much(said: &PlanLine) -> bool
    ensures { result ≡ plans_too_much said.now }
{
    match said {
        PlanLine::Sub { blocks, .. } => blocks.as_slice().len() > MOST_DECLARED,
        PlanLine::Ret { .. } => false,
    }
}
