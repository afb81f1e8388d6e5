//! What one pass over a trace keeps of device slots, endpoints and the rings that they are bound to.

mod changes;
mod disabling;
mod holders;
mod kept;
mod questions;
mod transfers;
mod unfinished;

pub use disabling::Named;
pub use kept::DeviceRecord;
pub use unfinished::UnfinishedCommands;
