//! What is told of a refused row, and of a line of a plan that can't be followed, as a compiler tells of an error: the rule, the row,
//! the other row that matters, what was found and what was expected, and what helps.
#![tactic(auto)]

mod explain;
mod plans;
mod reading;

pub use explain::{diagnostic_of, diagnostic_of_refused, explain_refused};
pub use plans::{diagnostic_of_plan, explain_unfollowed};
