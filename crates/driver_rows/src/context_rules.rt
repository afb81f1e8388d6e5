//! The rules of the contexts that a command names: xHCI 4.6, 6.1, 6.2.

mod areas;
mod contents;
mod devices;
mod endpoints;
mod input;
mod leases;
mod rules;

pub use areas::{is_bad_area, is_soiled};
pub use endpoints::has_left_out_endpoint;
pub use leases::is_in_range_lease;
pub use rules::is_bad_command;
