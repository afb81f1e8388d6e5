//! The replay of a schedule beside a trace: the first step after which there is harm, the first that isn't possible, or all that
//! the steps show. Schedules too: that of a controller that looks as late as it can, and one that ends in harm.
#![tactic(auto)]

mod fault;
mod lazy_steps;
mod replaying;
mod row_notes;
mod scheduler;

pub use fault::ReplayFault;
pub use lazy_steps::{Note, steps_of_notes};
pub use replaying::replay;
pub use scheduler::{
    HarmfulRun, ScheduleFault, Search, harmful_run, harmful_schedule, lazy_schedule,
};
