//! The rules of rings that come and go between rows, and of descriptors that are withdrawn, and what these change in the record of a trace
//! (xHCI 4.6.9, 4.9).

mod coming;
mod first_lap;
mod freeing;
mod going;
mod new_rings;
mod restoring;
mod started;
mod stopped;
mod withdrawing;

pub use coming::check_coming;
pub use freeing::transfer_ring;
pub use going::check_going;
pub use restoring::{is_left, restore_ring};
pub use started::{ring_restored, some_flips};
pub use withdrawing::check_withdrawing;
