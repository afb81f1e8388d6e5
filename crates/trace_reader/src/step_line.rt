ghost use Rattle.std.specs.Prelude.{◌≡◌, ◌≤◌, OnOk};
ghost use Rattle.traces.specs.Limits.{most_schedule_lines};
ghost use Rattle.trace_reader.specs.LineAnswers.{AnswersBy, valued_by};
ghost use Rattle.trace_reader.specs.Grammar.{form_as, value_in};
ghost use Rattle.trace_reader.specs.Schedules.{finish_line, halt_line, look_line, other_line, report_line, row_line, scrib_line, step_form_of, step_line, step_value};

use crate::entry::{event_behind, word_address_of};
use crate::fault::{LineError, LineFault};
use crate::line::{MOST_BYTES, MOST_SCHEDULE_LINES, content_of};
use line_text::{Fields, Line, u8_of, u32_of};
use traces::Step;

/// The step that a line of a schedule says; it is the line with this number.
pub fn step_line(number: u32, line: &Line) -> Result<Step, LineError>
    ensures answer { AnswersBy (λ step. step) result (step_line number line.now) }
    ensures within { OnOk result (number ≤ most_schedule_lines) }
{
    let content = content_of(MOST_BYTES, line)?;
    let step = step_of(Fields::of(content))?;
    if number > MOST_SCHEDULE_LINES {
        return Err(LineFault::Limit.into());
    }
    Ok(step)
}

/// The step that these fields say.
#[tactic(auto, unfolding(crate::specs::Schedules::step_form_of, crate::specs::Schedules::step_value))]
fn step_of(mut fields: Fields) -> Result<Step, LineError>
    ensures { AnswersBy (λ step. step) result (valued_by step_value (step_form_of fields.entry)) }
{
    let Some(word) = fields.next() else {
        return Err(LineFault::Row.into());
    };
    if word == b"row".as_slice() {
        next_row(fields)
    } else if word == b"look".as_slice() {
        look(fields)
    } else if word == b"report".as_slice() {
        report(fields)
    } else if word == b"finish".as_slice() {
        finish(fields)
    } else if word == b"other".as_slice() {
        other(fields)
    } else if word == b"scrib".as_slice() {
        scribble(fields)
    } else if word == b"halt".as_slice() {
        halt(fields)
    } else {
        Err(LineFault::Row.into())
    }
}

fn next_row(mut fields: Fields) -> Result<Step, LineError>
    ensures { AnswersBy (λ step. step) result (valued_by value_in (form_as row_line fields.entry)) }
{
    if fields.next().is_some() {
        return Err(LineFault::Row.into());
    }
    Ok(Step::NextRow)
}

fn look(mut fields: Fields) -> Result<Step, LineError>
    ensures { AnswersBy (λ step. step) result (valued_by value_in (form_as look_line fields.entry)) }
{
    let (Some(ring), None) = (fields.next(), fields.next()) else {
        return Err(LineFault::Row.into());
    };
    let ring = u8_of(ring).ok_or(LineFault::Number)?;
    Ok(Step::Look { ring })
}

fn report(fields: Fields) -> Result<Step, LineError>
    ensures { AnswersBy (λ step. step) result (valued_by value_in (form_as report_line fields.entry)) }
{
    let event = event_behind(fields)?;
    Ok(Step::Report { event })
}

fn finish(fields: Fields) -> Result<Step, LineError>
    ensures { AnswersBy (λ step. step) result (valued_by value_in (form_as finish_line fields.entry)) }
{
    let event = event_behind(fields)?;
    Ok(Step::Finish { event })
}

fn other(fields: Fields) -> Result<Step, LineError>
    ensures { AnswersBy (λ step. step) result (valued_by value_in (form_as other_line fields.entry)) }
{
    let event = event_behind(fields)?;
    Ok(Step::Other { event })
}

fn scribble(mut fields: Fields) -> Result<Step, LineError>
    ensures { AnswersBy (λ step. step) result (valued_by value_in (form_as scrib_line fields.entry)) }
{
    let (Some(address), Some(word), None) = (fields.next(), fields.next(), fields.next()) else {
        return Err(LineFault::Row.into());
    };
    let at = word_address_of(address).ok_or(LineFault::Number)?;
    let word = u32_of(word).ok_or(LineFault::Number)?;
    Ok(Step::Scribble { at, word })
}

fn halt(mut fields: Fields) -> Result<Step, LineError>
    ensures { AnswersBy (λ step. step) result (valued_by value_in (form_as halt_line fields.entry)) }
{
    if fields.next().is_some() {
        return Err(LineFault::Row.into());
    }
    Ok(Step::Halt)
}
