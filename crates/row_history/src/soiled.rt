//! Words that were a Device Context's or the Event Ring's, and that the driver has not written since.
use crate::finding::{Case, Shown};
use crate::known::{Taker, Taking};

/// A word that the controller may have written last.
#[derive(Clone, Copy)]
pub struct SoiledWord {
    pub address: u64,
    /// What had it last.
    pub taken: Taking,
}

/// The first of some bytes from an address on that the controller may have written last: a Device Context or an Event Ring had its
/// word, and the driver has not written it since.
pub fn soiled_word(case: &Case, from: u64, bytes: u64) -> Option<SoiledWord> {
    for word in 0..bytes / 4 {
        let address = from.saturating_add(4 * word);
        if let Some(taken) = case.known.taken_over(address) {
            if is_before(case.known.last_writer(address), taken.row) {
                return Some(SoiledWord { address, taken });
            }
        }
    }
    None
}

/// Points at the row by which the controller got memory that it writes; of an Event Ring at the one that took it away.
pub fn mark_taken(case: &mut Case, taken: Taking) {
    match taken.by {
        Taker::Device(slot) => case.mark(
            Some(taken.row),
            "hands the Device Context of slot {} to the controller",
            &[Shown::Small(slot)],
        ),
        Taker::EventRing(id) => case.mark(
            Some(taken.row),
            "this row took ring {}, the Event Ring, away",
            &[Shown::Id(id)],
        ),
    }
}

/// What gives memory back that the controller had.
pub fn given_back_by(case: &Case, taken: Taking) -> &'static str {
    match taken.by {
        Taker::Device(_) if case.known.controller.reset > Some(taken.row) => "the reset",
        Taker::Device(_) => "Disable Slot",
        Taker::EventRing(_) => "the Event Ring's `free` row",
    }
}

/// Whether a word was last written before a row, or never.
fn is_before(written: Option<usize>, row: usize) -> bool {
    match written {
        Some(index) => index < row,
        None => true,
    }
}
