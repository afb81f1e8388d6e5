//! Who owns what before a row of a trace: what is known there, what is under lease, and what waits, as a page of text.
#![tactic(auto)]

mod behind;
mod controller;
mod devices;
mod leased;
mod page;
mod rings;
mod shown;
mod standing;
mod waiting;
mod waiting_rings;
mod waiting_words;
mod withdrawn;

pub use page::page_of;
pub use rings::{RingFacts, ring_facts};
pub use shown::{Place, ShowFault, Shown, shown_before};
pub use standing::Standing;
pub use waiting::{Due, Group, Kept, Taker, Waiting, left_waiting};
pub use waiting_rings::{Missing, missing_of};
pub use waiting_words::waiting_lines;
pub use withdrawn::{Withdrawn, withdrawn_of};
