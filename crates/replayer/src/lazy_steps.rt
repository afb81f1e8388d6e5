//! The lazy schedule of a trace, made in three passes: what its rows ask for, how far the controller has to look, its steps.

mod goal;
mod looks;
mod needs;
mod note;
mod pointers;
mod there;
mod walk;

pub use note::Note;
pub use walk::steps_of_notes;
