//! The rows of a trace, one call after another, from a device that gives the text in pieces.

mod ahead;
mod fault;
mod opening;
mod pieces;
mod reader;
mod rows;
mod source;

pub use fault::StreamFault;
pub use reader::RowReader;
pub use source::{Counted, Failed, Source};
