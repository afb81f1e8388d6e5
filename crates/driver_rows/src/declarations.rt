//! The rules of a declaration of blocks on a ring, and what it adds to the record of a trace (xHCI 4.9.2, 4.11.2).

mod check;
mod one_ring;

pub use check::check_declaration;
