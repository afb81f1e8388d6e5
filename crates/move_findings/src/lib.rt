//! What is wrong with a command that binds an endpoint to a ring, or moves its ring, each cause in its own words.
#![tactic(auto)]

mod moves;

pub use moves::bad_move;
