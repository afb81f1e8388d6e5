//! The controller model: which steps a controller may make beside the driver's rows (xHCI 4.5, 4.6, 4.8, 4.9, 4.11).
//!
//! `World` runs it beside a trace, `Controller` beside rows that come one by one: each step is possible exactly where the definitions allow
//! it, and the least harm is told.
#![tactic(auto)]

mod bells;
mod bindings;
mod command_rings;
mod controller;
mod declared;
mod disabling;
mod effects;
mod endpoints;
mod fault;
mod finishes;
mod history;
mod inputs;
mod kept;
mod life;
mod looks;
mod memory;
mod next_row;
mod opening;
mod posts;
mod registers;
mod reports;
mod resets;
mod ring_rows;
mod rings;
mod rows;
mod rows_left;
mod safety;
mod scribbles;
mod seen;
mod slots;
mod stamps;
mod steps;
mod successes;
mod takes;
mod trials;
mod types;
mod views;
mod watches;
mod world;

pub use controller::Controller;
pub use fault::StepFault;
pub use kept::Pending;
pub use seen::Seen;
pub use world::World;
