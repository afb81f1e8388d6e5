ghost use Rattle.std.specs.Prelude.{◌≡◌, false, Ok, Err, IsTrue, IfOk, IfErr};
ghost use Rattle.line_text.specs.Lines.{lines_of};
ghost use Rattle.trace_reader.specs.Entries.{IfBadLine};
ghost use Rattle.trace_reader.specs.LineByLine.{lines_say};
ghost use Rattle.trace_reader.specs.Plans.{PlanText, is_plan_version, plan_behind, plan_line, plan_of, with_ring};
ghost use Rattle.trace_reader.specs.PlanSpelling.{IsPlan, spells_plan};
ghost use Rattle.trace_reader.specs.PlanValues.{plan_text};

use crate::fault::{LineFault, ReadFault};
use crate::plan_line::{plan_line, plan_ring};
use crate::read::at_line;
use line_text::{Line, first_line};
use std::alloc::Global;
use traces::{Plan, PlanLine, PlanLines, Ring};

/// Reads the text of a plan: `xplan 1`, the line of a command or transfer ring, then `sub` and `ret` lines. Every byte
/// sequence is answered, by its plan or by the first bad line and the least of its faults; `Memory` is answered only where
/// a growth was refused.
pub fn read_plan(alloc: Global, text: &[u8]) -> Result<Plan, ReadFault>
    ensures read { IfOk result (λ plan. plan_of text.now ≡ Ok (plan_text plan)) }
    ensures refused { IfErr result (λ e. IfBadLine e (λ line code. plan_of text.now ≡ Err (line, code))) }

    // The text spells the plan, and no other.
    ensures spelled { IfOk result (λ plan. IsTrue (spells_plan (plan_text plan) text.now)) }
    ensures alone { IfOk result (λ plan. (other : PlanText) → IsPlan other → IsTrue (spells_plan other text.now) → other ≡ plan_text plan) }

    // A refused text spells no plan.
    ensures unspelled { IfErr result (λ e. IfBadLine e (λ line code. (plan : PlanText) → IsPlan plan → spells_plan plan text.now ≡ false)) }
{
    match ring_and_lines(alloc, text) {
        Ok((ring, lines)) => Ok(Plan {
            ring,
            lines: PlanLines::new(lines),
        }),
        Err(fault) => Err(fault),
    }
}

fn ring_and_lines(alloc: Global, text: &[u8]) -> Result<(Ring, Vec<PlanLine>), ReadFault>
    ensures ok { IfOk result (λ said. plan_of text.now ≡ Ok (record { ring = said.0; lines = said.1.items })) }
    ensures err { IfErr result (λ e. IfBadLine e (λ line code. plan_of text.now ≡ Err (line, code))) }
{
    let behind_version = skip_version(text)?;
    let (ring, behind_ring) = take_ring(alloc, behind_version)?;
    let lines = read_lines(alloc, behind_ring)?;
    Ok((ring, lines))
}

/// The text behind the first line.
fn skip_version(text: &[u8]) -> Result<&[u8], ReadFault>
    ensures ok { IfOk result (λ rest. plan_of text.now ≡ plan_behind (lines_of rest.now)) }
    ensures err { IfErr result (λ e. IfBadLine e (λ line code. plan_of text.now ≡ Err (line, code))) }
{
    if text.is_empty() {
        return Err(at_line(1, LineFault::Header.into()));
    }
    let (line, rest) = first_line(text);
    if !is_version(&line) {
        return Err(at_line(1, LineFault::Header.into()));
    }
    Ok(rest)
}

/// The first line of a plan.
#[tactic(auto, unfolding(crate::specs::Plans::is_plan_version))]
fn is_version(line: &Line) -> bool
    ensures { result ≡ is_plan_version line.now }
{
    line.is_ended() && line.content() == b"xplan 1".as_slice()
}

/// The ring of the second line, and the text behind it.
fn take_ring(alloc: Global, text: &[u8]) -> Result<(Ring, &[u8]), ReadFault>
    ensures ok { IfOk result (λ taken. plan_behind (lines_of text.now) ≡ with_ring (Ok taken.0) (lines_say plan_line 3 (lines_of taken.1.now))) }
    ensures err { IfErr result (λ e. IfBadLine e (λ line code. plan_behind (lines_of text.now) ≡ Err (line, code))) }
{
    if text.is_empty() {
        return Err(at_line(2, LineFault::Row.into()));
    }
    let (line, rest) = first_line(text);
    match plan_ring(alloc, &line) {
        Ok(ring) => Ok((ring, rest)),
        Err(error) => Err(at_line(2, error)),
    }
}

/// The lines from the third on.
fn read_lines(alloc: Global, text: &[u8]) -> Result<Vec<PlanLine>, ReadFault>
    ensures ok { IfOk result (λ lines. lines_say plan_line 3 (lines_of text.now) ≡ Ok lines.items) }
    ensures err { IfErr result (λ e. IfBadLine e (λ line code. lines_say plan_line 3 (lines_of text.now) ≡ Err (line, code))) }
{
    let mut lines = Vec::new(alloc);
    let mut number = 3;
    let mut rest = text;
    while !rest.is_empty() {
        let (line, after) = first_line(rest);
        match plan_line(alloc, number, &line) {
            Ok(said) => lines.push(said)?,
            Err(error) => return Err(at_line(number, error)),
        }
        number += 1;
        rest = after;
    }
    Ok(lines)
}
