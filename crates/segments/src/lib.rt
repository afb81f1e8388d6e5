//! Ring shapes: segments, places, positions, crossings and spots (xHCI 4.9.2, 4.11.5.1).
#![tactic(auto)]

mod fault;
mod index;
mod place;
mod rules;
mod segment;
mod shape;
mod spot;

pub use fault::ShapeFault;
pub use place::Place;
pub use segment::Segment;
pub use shape::RingShape;
pub use spot::Spot;
