//! The diagnostic of a refused row, by the rule that it breaks.
ghost use Rattle.std.specs.Prelude.{◌≡◌, IfOk, string_bytes};
ghost use Rattle.diagnostics.specs.Layout.{IsToldOf};

use crate::reading::trace_in;
use command_findings::{
    after_stop, bad_command, bad_doorbell, bad_erdp, bad_register, busy, impossible_read,
    not_in_profile,
};
use commands::Command;
use controller_findings::impossible_event;
use diagnostics::{Diagnostic, Explanation, Matter, View, lines_to, quote};
use guest_memory::Addr;
use move_findings::bad_move;
use ownership_rules::Refusal;
use ring_findings::{
    GoingOn, bad_descriptor, bad_free, bad_ring, bad_withdraw, link_fault, never_submitted,
    not_as_submitted, not_declared, not_restored, not_whole, ring_full, write_to_owned,
};
use row_history::{Case, Finding, command_at, general_head, known_after, line_of, why_refused};
use std::alloc::{AllocError, Global};
use traces::{Row, Trace};

/// What is told of a refused row of a text, of which the lines up to that row are read again.
pub fn explain_refused(
    alloc: Global,
    view: &View,
    text: &[u8],
    row: u32,
    refusal: Refusal,
) -> Result<Explanation, AllocError>
    ensures { IfOk result (λ told. IsToldOf view.now (Matter.Rule refusal) row (string_bytes told.text)) }
{
    let diagnostic = diagnostic_of_refused(alloc, text, row, refusal)?;
    diagnostic.explained(alloc, view)
}

/// The diagnostic of a refused row of a text, of which the lines up to that row are read again.
pub fn diagnostic_of_refused(
    alloc: Global,
    text: &[u8],
    row: u32,
    refusal: Refusal,
) -> Result<Diagnostic, AllocError>
    ensures rule { IfOk result (λ diagnostic. diagnostic.matter ≡ Matter.Rule refusal) }
    ensures row { IfOk result (λ diagnostic. diagnostic.refused.line ≡ row) }
{
    match trace_in(alloc, lines_to(text, row))? {
        Some(trace) => diagnostic_of(alloc, text, &trace, row, refusal),
        None => diagnostic_alone(alloc, text, row, refusal),
    }
}

/// The diagnostic of a row of which nothing but its rule is told.
fn diagnostic_alone(
    alloc: Global,
    text: &[u8],
    row: u32,
    refusal: Refusal,
) -> Result<Diagnostic, AllocError>
    ensures rule { IfOk result (λ diagnostic. diagnostic.matter ≡ Matter.Rule refusal) }
    ensures row { IfOk result (λ diagnostic. diagnostic.refused.line ≡ row) }
{
    let mut notes = Vec::new(alloc);
    notes.push(String::from_str(alloc, why_refused(refusal))?)?;
    Ok(Diagnostic {
        matter: Matter::Rule(refusal),
        head: String::from_str(alloc, general_head(refusal))?,
        refused: quote(alloc, text, row, String::from_str(alloc, "refused")?)?,
        earlier: None,
        notes,
        help: None,
        unjudged: refusal == Refusal::NotInProfile,
    })
}

/// The diagnostic of a row of a trace that breaks a rule.
pub fn diagnostic_of(
    alloc: Global,
    text: &[u8],
    trace: &Trace,
    row: u32,
    refusal: Refusal,
) -> Result<Diagnostic, AllocError>
    ensures rule { IfOk result (λ diagnostic. diagnostic.matter ≡ Matter.Rule refusal) }
    ensures row { IfOk result (λ diagnostic. diagnostic.refused.line ≡ row) }
{
    let rows = trace.rows.as_slice();
    let index = (row.saturating_sub(trace.first) as usize).min(rows.len());
    let behind = known_after(alloc, &trace.header, &rows[..index])?;
    let mut case = Case::new(alloc, trace.first, &rows[..index], &behind);
    match rows.get(index) {
        Some(refused) => tell(&mut case, refused, refusal),
        None => tell_rule(&mut case, refusal),
    }
    let matter = Matter::Rule(refusal);
    diagnosed(alloc, text, trace.first, row, matter, case.finding()?)
}

/// The diagnostic of a line of which this was found, in a text whose first row stands at `first`.
pub(crate) fn diagnosed(
    alloc: Global,
    text: &[u8],
    first: u32,
    line: u32,
    matter: Matter,
    finding: Finding,
) -> Result<Diagnostic, AllocError>
    ensures matter { IfOk result (λ diagnostic. diagnostic.matter ≡ matter) }
    ensures line { IfOk result (λ diagnostic. diagnostic.refused.line ≡ line) }
{
    let Finding {
        head,
        here,
        earlier,
        notes,
        help,
        unjudged,
    } = finding;
    let earlier = match earlier {
        Some(mark) => Some(quote(alloc, text, line_of(first, mark.index), mark.label)?),
        None => None,
    };
    Ok(Diagnostic {
        matter,
        head,
        refused: quote(alloc, text, line, here)?,
        earlier,
        notes,
        help,
        unjudged,
    })
}

/// Says what is found of a row that breaks a rule.
fn tell(case: &mut Case, row: &Row, refusal: Refusal) {
    match (refusal, row) {
        (Refusal::AfterStop, _) => after_stop(case),
        (Refusal::NotInProfile, _) => not_in_profile(case, row),
        (Refusal::BadRing, Row::Ring { ring }) => bad_ring(case, ring.as_ring()),
        (Refusal::BadFree, Row::Free { ring }) => bad_free(case, *ring),
        (Refusal::BadWithdraw, Row::Nop { ring, position }) => {
            bad_withdraw(case, *ring, *position);
        }
        _ => tell_driver(case, row, refusal),
    }
}

/// Says what is found of what the driver did, or of an event that it read, where that breaks a rule.
fn tell_driver(case: &mut Case, row: &Row, refusal: Refusal) {
    match (refusal, row) {
        (Refusal::NotDeclared, Row::Sub { ring, .. }) => not_declared(case, *ring),
        (Refusal::RingFull, Row::Sub { ring, blocks }) => {
            ring_full(case, *ring, blocks.as_slice().len());
        }
        (Refusal::BadDescriptor, Row::Sub { ring, blocks }) => {
            bad_descriptor(case, *ring, blocks.as_slice());
        }
        (Refusal::BadRegister, Row::Reg { register, value }) => {
            bad_register(case, *register, *value);
        }
        (Refusal::BadErdp, Row::Reg { value, .. }) => bad_erdp(case, *value),
        (Refusal::ImpossibleRead, Row::RegRead { register, value }) => {
            impossible_read(case, *register, *value);
        }
        (Refusal::BadDoorbell, Row::Bell { slot, target }) => bad_doorbell(case, *slot, *target),
        (Refusal::ImpossibleEvent, Row::Read { event }) => impossible_event(case, *event),
        (Refusal::NotRestored, Row::Bell { slot, target }) => {
            let (slot, target) = (*slot, *target);
            if !tell_unrestored(case, slot, target, GoingOn::Bell { slot, target }) {
                tell_rule(case, refusal);
            }
        }
        (_, Row::Write { at, word }) => {
            if !tell_write(case, *at, *word, refusal) {
                tell_rule(case, refusal);
            }
        }
        _ => tell_rule(case, refusal),
    }
}

/// Says what is found of a write, by which memory, rings and commands are looked at. Whether something is found.
fn tell_write(case: &mut Case, at: Addr, word: u32, refusal: Refusal) -> bool {
    match refusal {
        Refusal::WriteToOwned => {
            write_to_owned(case, at.get(), word);
            true
        }
        Refusal::LinkFault => {
            link_fault(case, at.get(), word);
            true
        }
        Refusal::BadMove => bad_move(case, at.get(), word),
        Refusal::NotAsSubmitted => not_as_submitted(case, at, word),
        Refusal::NotDeclared => never_submitted(case, at, word),
        Refusal::NotWhole => not_whole(case, at, word),
        Refusal::BadCommand => bad_command(case, at.get(), word),
        Refusal::Busy => busy(case, at, word),
        Refusal::NotRestored => match command_at(case, at.get(), word) {
            Some(Command::SetTrDequeue { slot, endpoint, .. }) => {
                tell_unrestored(case, slot, endpoint, GoingOn::Move)
            }
            _ => false,
        },
        _ => false,
    }
}

/// Says that the ring of an endpoint goes on before its withdrawn TDs are No Ops. Whether it is so.
fn tell_unrestored(case: &mut Case, slot: u8, endpoint: u8, how: GoingOn) -> bool {
    match case.known.devices.ring_of(slot, endpoint) {
        Some(id) => not_restored(case, id, how),
        None => false,
    }
}

/// Says what is said of every row that breaks a rule.
fn tell_rule(case: &mut Case, refusal: Refusal) {
    case.head(general_head(refusal), &[]);
    case.here("refused", &[]);
    if refusal == Refusal::NotInProfile {
        case.not_judged();
    } else {
        case.say(why_refused(refusal));
    }
}
