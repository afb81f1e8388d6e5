//! What one pass over a trace keeps of its rows so far, beside the words of memory.
#![tactic(auto)]

mod command_ring;
mod device_record;
mod fault;
mod fresh;
mod owned;
mod range_words;
mod resets;
mod ring_changes;
mod ring_commands;
mod ring_finder;
mod ring_set;
mod row_place;
mod runs;
mod trace_record;

pub use device_record::{DeviceRecord, Named, UnfinishedCommands};
pub use fault::StepFault;
pub use range_words::{Areas, SoiledWords};
pub use ring_commands::{command_said, declared_command};
pub use ring_finder::{Finder, is_command_ring, is_event_ring};
pub use ring_set::RingSet;
pub use row_place::RowPlace;
pub use trace_record::TraceRecord;
