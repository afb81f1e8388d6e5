//! What is wrong with what a controller is said to have done: an event that none can have posted, each cause in its own words, a TRB
//! that it took with harm, and a step that isn't possible.
#![tactic(auto)]

mod events;
mod harms;
mod steps;

pub use events::impossible_event;
pub use harms::notes_on_harm;
pub use steps::notes_on_stuck;
