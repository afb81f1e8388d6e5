ghost use Rattle.std.specs.Prelude.{◌≡◌, ◌+◌, ◌<◌, ◌^◌, length, position, IfSome};
ghost use Rattle.trb.specs.Block.{has_value};
ghost use Rattle.world_state.specs.Takes.{names, names_last, take_of};

use std::collections::VecDeque;
use trb::Block;
use world_state::Take;

/// What an event may tell of a block that is taken.
#[tactic(auto, unfolding(world_state::specs::Takes::take_of))]
pub(crate) fn take_of(address: u64, block: &Block) -> Take
    ensures { result ≡ take_of address block.now }
{
    Take {
        address,
        value: block.data_value(),
    }
}

/// Whether a take's value is there, and this one.
fn has_value(value: u64, of_take: Option<u64>) -> bool
    ensures { result ≡ has_value value of_take }
{
    match of_take {
        None => false,
        Some(other) => other == value,
    }
}

/// Whether a Transfer Event names a take: by ED the value of its Event Data TRB, else its address (xHCI 4.11.5.2, 6.4.2.1).
#[tactic(auto, unfolding(world_state::specs::Takes::names))]
pub(crate) fn names(event: Block, take: &Take) -> bool
    ensures { result ≡ names event take.now }
{
    if event.has_event_data() {
        has_value(event.pointer(), take.value)
    } else {
        take.address == event.pointer()
    }
}

/// Which of the takes is the oldest that an event names.
pub(crate) fn oldest_named(event: Block, takes: &VecDeque<Take>) -> Option<usize>
    ensures value { result ≡ position (names event) takes.now.items }
    ensures below { IfSome result (λ n. n < length takes.now.items) }
    ensures end { IfSome result (λ n. n + 1 < 2 ^ 64) }
{
    takes.iter().position(|take| names(event, take))
}

/// Whether an event names the last of the takes. By ED it names the oldest with its value, so that has to be the last.
#[tactic(auto, using(crate::proofs::TakeLemmas::none_by_data, crate::proofs::TakeLemmas::last_by_data, crate::proofs::TakeLemmas::none_last, crate::proofs::TakeLemmas::last_by_address))]
pub(crate) fn names_last(event: Block, takes: &VecDeque<Take>) -> bool
    ensures { result ≡ names_last event takes.now.items }
{
    if event.has_event_data() {
        return match oldest_named(event, takes) {
            None => false,
            Some(place) => place + 1 == takes.len(),
        };
    }
    match takes.back() {
        None => false,
        Some(last) => names(event, last),
    }
}
