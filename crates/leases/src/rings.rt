//! The leases of a trace in which rings come and go between rows, and descriptors are withdrawn.

mod coming;
mod freeing;
mod going;

pub use coming::note_coming;
pub use freeing::{note_moving, note_restoring, note_withdrawing};
pub use going::note_going;
