//! What the rows before a refused row say: what was known behind them, who wrote a word or a register, which commands are unfinished;
//! and what is found of the row, in words, before its lines are quoted.
#![tactic(auto)]

mod areas;
mod controller_past;
mod event_places;
mod finding;
mod known;
mod live_rings;
mod positions;
mod ring_past;
mod rings;
mod rows;
mod running;
mod soiled;
mod unfinished;
mod words;

pub use areas::{
    Area, AreaKind, Beside, NoArea, clash, is_in_area, note_area, note_unchanged, write_to_area,
};
pub use controller_past::ControllerPast;
pub use event_places::{events_read, given_back};
pub use finding::{
    Case, Finding, Mark, Shown, line_of, mark_adding, note_dropped, ring_at, ring_known, text_with,
};
pub use known::{
    Behind, Binding, Dropper, Dropping, Going, Known, Resting, Taker, Taking, is_isochronous,
    known_after,
};
pub use positions::{
    NO_OP, begun_with_0, declared_now, is_handed_over, past_of, position_at, position_given,
    reset_behind, submission, trb_named,
};
pub use ring_past::{FreeTrb, RingPast, Submitted};
pub use rings::{Endpoint, endpoint_with, shown_first_lap};
pub use rows::{
    coming, going, last_bell, last_event, last_read, last_register, last_write, stop, word_at,
};
pub use running::{mark_reset, mark_run, mark_stop, note_no_ring, note_running};
pub use soiled::{SoiledWord, given_back_by, mark_taken, soiled_word};
pub use unfinished::{
    Unfinished, binds_ring, command_at, exclude, has_block, name_two_endpoints, note_unfinished,
    trb_at, unfinished_beside, unfinished_binding, unfinished_on, unfinished_touching,
};
pub use words::{
    NOT_JUDGED, Ordinal, code_name, command_name, endpoint_state_name, general_head, register_name,
    ring_of_kind, ring_with, slot_state_name, type_name, why_refused,
};
