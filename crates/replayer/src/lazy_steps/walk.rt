ghost use Rattle.std.specs.Prelude.{◌≡◌, ◌++◌, ◌∷◌, [], IfOk, OnOk, drop, length, replicate};
ghost use Rattle.std.specs.List.{flat_map};
ghost use Rattle.segments.specs.declared.spot.Spot.TheVariants.{Data};
ghost use Rattle.traces.specs.AllowedHeaders.{IsHeader};
ghost use Rattle.trace_record.specs.RingFinder.Finding.{IsFinder};
ghost use Rattle.safety.specs.LazyRuns.Lazy.{brought, looks_to};
ghost use Rattle.replayer.specs.LazySteps.Goals.{place_of};
ghost use Rattle.replayer.specs.LazySteps.Headers.{KeepHeaders};
ghost use Rattle.replayer.specs.LazySteps.Passes.{filled, header_behind, note_steps, pointers_behind, rows_behind, steps_of};
ghost use Rattle.replayer.specs.LazySteps.Tables.{spot_in};

use crate::lazy_steps::goal::{Goal, stop_goal, taken_up_to};
use crate::lazy_steps::needs::fill_needs;
use crate::lazy_steps::note::Note;
use crate::lazy_steps::pointers::{look_towards, move_on, place};
use crate::lazy_steps::there::follow_row;
use segments::Spot;
use std::alloc::{AllocError, Global};
use trace_record::Finder;
use traces::{Header, Row, Step};

/// The steps of a schedule from the notes on its rows, beside which the rings are these at first: needs are filled from the last note to the
/// first, and then the rings are looked at from the first to the last. Notes of a ring that isn't there are those of a ring without Links.
pub fn steps_of_notes(
    alloc: Global,
    header: Header,
    rows: &[Row],
    mut notes: Vec<Note>,
) -> Result<Vec<Step>, AllocError>
    requires headed { IsHeader header }
    requires then_headed { KeepHeaders header rows.now }
    ensures { IfOk result (λ steps. steps.items ≡ steps_of header rows.now (λ r. Data 0) (filled notes.items)) }
{
    fill_needs(notes.as_mut_slice());
    walk_notes(alloc, header, rows, notes.as_slice())
}

/// The steps of notes, from the beginning of every ring.
fn walk_notes(
    alloc: Global,
    header: Header,
    rows: &[Row],
    notes: &[Note],
) -> Result<Vec<Step>, AllocError>
    requires headed { IsHeader header }
    requires then_headed { KeepHeaders header rows.now }
    ensures { IfOk result (λ steps. steps.items ≡ steps_of header rows.now (λ r. Data 0) notes.now) }
{
    let mut header = header;
    let mut finder = Finder::new(alloc, &header)?;
    let mut next = 0;
    let mut pointers = [Spot::Data(0); 256];
    let mut steps = Vec::new(alloc);
    for note in notes {
        walk_note(&header, &finder, note, &mut pointers, &mut steps)?;
        next = follow_note(alloc, &mut header, &mut finder, rows, next, note)?;
    }
    Ok(steps)
}

/// The rings that are there behind a note, and the number of the next row then.
fn follow_note(
    alloc: Global,
    header: &mut Header,
    finder: &mut Finder,
    rows: &[Row],
    next: usize,
    note: &Note,
) -> Result<usize, AllocError>
    requires found { IsFinder header.now.rings finder.now }
    requires then_headed { KeepHeaders header.now (drop next rows.now) }
    ensures header { OnOk result (header.new ≡ header_behind header.old (drop next rows.now) note.now) }
    ensures found { OnOk result (IsFinder header.new.rings finder.new) }
    ensures then_headed { IfOk result (λ after. KeepHeaders header.new (drop after rows.now)) }
    ensures next { IfOk result (λ after. drop after rows.now ≡ rows_behind (drop next rows.now) note.now) }
{
    let Note::Next = note else {
        return Ok(next);
    };
    match rows.get(next) {
        None => Ok(next),
        Some(row) => {
            follow_row(alloc, header, finder, row)?;
            Ok(next + 1)
        }
    }
}

/// Adds the steps of a note, and moves the pointers, which stand in a table by ring ID.
fn walk_note(
    header: &Header,
    finder: &Finder,
    note: &Note,
    pointers: &mut [Spot],
    steps: &mut Vec<Step>,
) -> Result<(), AllocError>
    requires found { IsFinder header.now.rings finder.now }
    requires size { length pointers.old ≡ 256 }
    ensures size { length pointers.new ≡ 256 }
    ensures steps { OnOk result (steps.new.items ≡ steps.old.items ++ note_steps header.now (spot_in pointers.old) note.now) }
    ensures pointers { OnOk result (spot_in pointers.new ≡ pointers_behind header.now (spot_in pointers.old) note.now) }
{
    match *note {
        Note::Begun { .. } | Note::Succeeded { .. } => Ok(()),
        Note::Taken { ring, behind } => {
            let goal = taken_up_to(header, finder, ring, behind);
            come_to(header, finder, goal, pointers, steps)
        }
        Note::StoppedAt {
            commands,
            behind,
            ring,
            spot,
            need,
        } => {
            let command = taken_up_to(header, finder, commands, behind);
            let stop = stop_goal(header, finder, Goal { ring, spot }, need);
            come_to_both(header, finder, command, stop, pointers, steps)
        }
        Note::StoppedOpen {
            commands,
            behind,
            ring,
            need,
        } => {
            let command = taken_up_to(header, finder, commands, behind);
            let stop = taken_up_to(header, finder, ring, need);
            come_to_both(header, finder, command, stop, pointers, steps)
        }
        Note::Made { step } => {
            steps.push(step)?;
            Ok(())
        }
        Note::Next => {
            steps.push(Step::NextRow)?;
            Ok(())
        }
        Note::Placed { ring, spot } => {
            place(pointers, ring, spot);
            Ok(())
        }
    }
}

/// Brings a ring to a goal.
fn come_to(
    header: &Header,
    finder: &Finder,
    goal: Goal,
    pointers: &mut [Spot],
    steps: &mut Vec<Step>,
) -> Result<(), AllocError>
    requires found { IsFinder header.now.rings finder.now }
    requires size { length pointers.old ≡ 256 }
    ensures size { length pointers.new ≡ 256 }
    ensures steps { OnOk result (steps.new.items ≡ steps.old.items ++ flat_map (looks_to header.now (spot_in pointers.old)) (place_of goal ∷ [])) }
    ensures pointers { OnOk result (spot_in pointers.new ≡ brought header.now (spot_in pointers.old) (place_of goal ∷ [])) }
{
    look_towards(header, finder, goal, pointers, steps)?;
    move_on(pointers, goal);
    Ok(())
}

/// Brings the rings of two goals to them. Both are looked at from where the pointers stand before.
fn come_to_both(
    header: &Header,
    finder: &Finder,
    first: Goal,
    second: Goal,
    pointers: &mut [Spot],
    steps: &mut Vec<Step>,
) -> Result<(), AllocError>
    requires found { IsFinder header.now.rings finder.now }
    requires size { length pointers.old ≡ 256 }
    ensures size { length pointers.new ≡ 256 }
    ensures steps { OnOk result (steps.new.items ≡ steps.old.items ++ flat_map (looks_to header.now (spot_in pointers.old)) (place_of first ∷ place_of second ∷ [])) }
    ensures pointers { OnOk result (spot_in pointers.new ≡ brought header.now (spot_in pointers.old) (place_of first ∷ place_of second ∷ [])) }
{
    look_towards(header, finder, first, pointers, steps)?;
    look_towards(header, finder, second, pointers, steps)?;
    move_on(pointers, first);
    move_on(pointers, second);
    Ok(())
}
