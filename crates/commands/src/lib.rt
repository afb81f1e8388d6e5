//! Commands, and the states of device slots and endpoints: xHCI 4.5.3, 4.6, 4.8.3.
#![tactic(auto)]

mod command;
mod fields;
mod said_command;
mod side_by_side;
mod state;

pub use command::{Command, is_stop_of};
pub use said_command::SaidCommand;
pub use side_by_side::is_flagged;
pub use state::{EndpointState, SlotState, State, after, is_off};
