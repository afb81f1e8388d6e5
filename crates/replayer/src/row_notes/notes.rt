//! A note more.
ghost use Rattle.std.specs.Prelude.{◌≡◌, ◌++◌, ◌∷◌, [], OnOk};

use crate::lazy_steps::Note;
use std::alloc::AllocError;
use traces::Step;

/// Adds a note.
pub(crate) fn add_note(note: Note, notes: &mut Vec<Note>) -> Result<(), AllocError>
    ensures { OnOk result (notes.new.items ≡ notes.old.items ++ note ∷ []) }
{
    // The prover knows the type of a note's part where the function names it.
    let _none: Option<Step> = None;
    notes.push(note)?;
    Ok(())
}
