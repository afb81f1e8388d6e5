//! What is told of a step of a schedule that does harm, or that no controller makes.
ghost use Rattle.std.specs.Prelude.{◌≡◌, ◌+◌, ◌-◌, ◌^◌, IfOk, min};
ghost use Rattle.diagnostics.specs.Layout.{step_matter};

use crate::diagnostic::{Diagnostic, Matter};
use crate::source::{line_at, quote};
use std::alloc::{AllocError, Global};
use std::str::from_utf8;
use world_state::Harm;

/// The diagnostic of a step of a schedule's text, from 1: it does harm, of which `found` are notes, or no controller makes it.
pub fn diagnostic_of_step(
    alloc: Global,
    text: &[u8],
    step: u32,
    harm: Option<Harm>,
    found: Vec<String>,
) -> Result<Diagnostic, AllocError>
    ensures matter { IfOk result (λ diagnostic. diagnostic.matter ≡ step_matter harm) }
    ensures line { IfOk result (λ diagnostic. diagnostic.refused.line ≡ min (step + 1) (2 ^ 32 - 1)) }
{
    let line = step.saturating_add(1);
    let (head, here) = match harm {
        Some(harm) => (harm_head(harm), "behind this step there is harm"),
        None => (step_head(line_at(text, line)), ""),
    };
    let mut notes = Vec::new(alloc);
    let rows = rows_before(text, line);
    let note = format!(in alloc; "the driver has made {rows} rows of the trace before it")?;
    notes.push(note)?;
    for note in found {
        notes.push(note)?;
    }
    if let Some(harm) = harm {
        notes.push(String::from_str(alloc, harm_note(harm))?)?;
    }
    let help = match harm {
        Some(_) => "`xhcitrace check --explain` with the trace names the row that allows it",
        None => step_help(line_at(text, line)),
    };
    Ok(Diagnostic {
        matter: matter_of(harm),
        head: String::from_str(alloc, head)?,
        refused: quote(alloc, text, line, String::from_str(alloc, here)?)?,
        earlier: None,
        notes,
        help: Some(String::from_str(alloc, help)?),
        unjudged: false,
    })
}

/// What a step is told for.
fn matter_of(harm: Option<Harm>) -> Matter
    ensures { result ≡ step_matter harm }
{
    match harm {
        Some(harm) => Matter::Harm(harm),
        None => Matter::NotPossible,
    }
}

/// How many rows the driver makes before a line of a schedule.
fn rows_before(text: &[u8], line: u32) -> usize {
    text.split(|b| *b == b'\n')
        .take((line as usize).saturating_sub(1))
        .filter(|step| *step == b"row".as_slice())
        .count()
}

/// What a controller does.
fn harm_head(harm: Harm) -> &'static str {
    match harm {
        Harm::TakenOutOfOrder =>
            "the controller takes a TRB that was never submitted, or not the next one",
        Harm::TakenOtherWords => "the controller takes other words than were submitted",
        Harm::WaitsInsideDescriptor => "the controller waits inside a TD",
        Harm::LooksOutside => "the controller looks outside the ring's segments",
        Harm::PostsOverUnread => "the controller posts an event over one that wasn't read",
        Harm::InputContextChanged =>
            "the Input Context of the command that the controller works on was changed",
    }
}

/// What that means.
fn harm_note(harm: Harm) -> &'static str {
    match harm {
        Harm::TakenOutOfOrder =>
            "a TRB with the controller's Cycle bit stands where it fetches, and no `sub` row has it there (xHCI 4.9.2)",
        Harm::TakenOtherWords =>
            "the TRB that it took, in the last `took` line, isn't that of the `sub` row (xHCI 4.9.2)",
        Harm::WaitsInsideDescriptor =>
            "a TRB of a TD was taken, and the next one doesn't have the controller's Cycle bit (xHCI 4.11)",
        Harm::LooksOutside =>
            "a Link TRB, or a TR Dequeue Pointer, led there, or the ring was taken away (xHCI 4.9.2.1)",
        Harm::PostsOverUnread =>
            "ERDP let it go on over events that the driver has not read, or no Event Ring was there (xHCI 4.9.4)",
        Harm::InputContextChanged =>
            "it was written before the Command Completion Event, by the driver or by the controller as a Device Context (xHCI 4.6, 6.2.5)",
    }
}

/// What is wrong with a step that isn't possible.
fn step_head(step: &[u8]) -> &'static str {
    if step == b"row".as_slice() {
        "the driver can't make its next row here"
    } else {
        "no controller makes this step here"
    }
}

/// When such a step is possible.
fn step_help(step: &[u8]) -> &'static str {
    let word = step.split(|b| *b == b' ').next().unwrap_or(&[]);
    match from_utf8(word).unwrap_or("") {
        "row" =>
            "an `ev` row reads the oldest event that is posted and unread, word for word, and an `rd usbsts` row HCHalted as it is: put the controller's step before it; behind the trace's last row there is none",
        "look" =>
            "a controller that runs fetches from a ring whose doorbell rang since it was bound, moved, stopped or halted, and takes no command while one is under way",
        "report" =>
            "a Transfer Event names a TRB that was taken and isn't reported (a Stopped event also the one that is fetched next; in `xtrace 4` one with code 14, 15 or 23 anything), with a code that its endpoint's state and type allow and the Cycle bit of its place, where the Event Ring has room",
        "finish" =>
            "a Command Completion Event names the command that was taken and isn't completed, with a code and a slot that it allows and the Cycle bit of its place, where the Event Ring has room",
        "other" =>
            "an event that is neither Transfer Event nor Command Completion Event is posted where the controller runs and the Event Ring has room, with the Cycle bit of its place",
        "halt" =>
            "a controller halts where Run/Stop is 0 behind its start, and it hasn't halted since; in `xtrace 1` to `3` never",
        _ =>
            "a controller changes words of the Device Contexts alone that it has, from its fetch of Address Device on to the success of Disable Slot",
    }
}
