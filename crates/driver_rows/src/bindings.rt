//! Judges where the ring of an endpoint may begin, and where its dequeue pointer may be set (xHCI 4.6.5, 4.6.6, 4.6.10).

mod binding;
mod bound;
mod context;
mod dropped;
mod moved;
mod moves;
mod placements;

pub use binding::{binds_again, forget_bound, note_bound};
pub use bound::{awaits_binding, is_bad_binding};
pub use moved::is_being_moved;
pub use moves::is_bad_move;
