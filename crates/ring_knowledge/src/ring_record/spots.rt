ghost use Rattle.std.specs.Prelude.{◌≡◌, if◌then◌else◌, ℕ, ◌==◌, ◌+◌, ◌≤◌, ◌<◌, ◌^◌, IfSome, Some, find, length};
ghost use Rattle.trb.specs.Block.{has_value};
ghost use Rattle.segments.specs.Spots.{IsSpot, number, rank, spot_cycle};
ghost use Rattle.segments.specs.Places.{link_crossed, links, place_count};
ghost use Rattle.segments.specs.declared.spot.Spot.TheVariants.{Link};
ghost use Rattle.segments.specs.Shape.{IsShape};
ghost use Rattle.segments.specs.ShapeValue.{Shape};
ghost use Rattle.segments.specs.RingView.{RingView, floor_number};
ghost use Rattle.segments.specs.Ceiling.{data_at, named, named_by, named_data};
ghost use Rattle.segments.specs.Moves.{is_target, spots_between, target};
ghost use Rattle.ring_knowledge.specs.SpotsAt.{IsFrom};

use super::{RingRecord, number, place_before};
use segments::{Place, RingShape, Spot};
use trb::Block;

impl RingRecord {
    ghost use Rattle.ring_knowledge.specs.RingRecords.{FollowsRing};

    /// The spot that a Transfer Event names: with Event Data (ED) by the value that it tells, else by its address
    /// (xHCI 4.9.2, 4.11.5.2, 6.4.2.1).
    #[inline(always)]
    pub fn named_by(&self, shape: &RingShape, event: Block) -> Option<Spot>
        ensures value { (v : RingView) → FollowsRing shape.now v self.now → IsSpot shape.now v.floor → result ≡ named_by shape.now v event }
        ensures few { IfSome result (λ spot. number spot < 2 ^ 63) }
    {
        if event.has_event_data() {
            self.named_data(event.pointer())
        } else {
            self.named(shape, event.pointer())
        }
    }

    /// The spot that the pointer of a Transfer Event without Event Data names: the first one from the floor on at this address, up to what is
    /// declared (xHCI 4.9.2, 6.4.2.1).
    #[inline(always)]
    pub fn named(&self, shape: &RingShape, address: u64) -> Option<Spot>
        ensures value { (v : RingView) → FollowsRing shape.now v self.now → IsSpot shape.now v.floor → result ≡ named shape.now v address }
        ensures few { IfSome result (λ spot. number spot < 2 ^ 63) }
    {
        match spot_from(shape, self.floor, address) {
            None => None,
            Some(spot) => {
                if number(spot) <= self.end() as u64 {
                    Some(spot)
                } else {
                    None
                }
            }
        }
    }

    /// The spot that the value of a Transfer Event with Event Data names: the first Event Data block with this value from the
    /// floor on, up to what is declared (xHCI 4.11.5.2, 6.4.4.2). It goes over the blocks behind the floor, of which few were taken.
    #[inline(never)]
    pub fn named_data(&self, value: u64) -> Option<Spot>
        ensures value { (shape : Shape) (v : RingView) → FollowsRing shape v self.now → result ≡ named_data v value }
        ensures few { IfSome result (λ spot. number spot < 2 ^ 63) }
    {
        (number(self.floor)..self.end() as u64)
            .find(|position| self.has_data(*position, value))
            .map(Spot::Data)
    }

    /// Whether an Event Data block with this value is declared at a position from the floor on.
    fn has_data(&self, position: u64, value: u64) -> bool
        ensures { (shape : Shape) (v : RingView) → FollowsRing shape v self.now → floor_number v ≤ position → result ≡ has_value value (data_at v.queue position) }
    {
        self.data_at(position) == Some(value)
    }

    /// The value of the Event Data block that is declared at a position from the floor on, words 1 and 0; of any other block none
    /// (xHCI 6.4.4.2).
    #[tactic(auto, unfolding(segments::specs::Ceiling::data_at))]
    pub fn data_at(&self, position: u64) -> Option<u64>
        ensures { (shape : Shape) (v : RingView) → FollowsRing shape v self.now → floor_number v ≤ position → result ≡ data_at v.queue position }
    {
        let block = self.declared(position)?;
        block.data_value()
    }

    /// The spot, from the floor's number up to what is declared, at which a dequeue pointer and a cycle state stand
    /// (xHCI 4.6.10).
    pub fn target(&self, shape: &RingShape, pointer: u64, cycle: bool) -> Option<Spot>
        ensures value { (v : RingView) → FollowsRing shape.now v self.now → result ≡ target shape.now v pointer cycle }
        ensures few { IfSome result (λ spot. number spot < 2 ^ 63) }
    {
        spot_between(shape, pointer, cycle, number(self.floor), self.end() as u64)
    }
}

/// The spot with a number from least to most, which are less than a lap apart, at which a pointer and a cycle state stand.
pub(crate) fn spot_between(
    shape: &RingShape,
    pointer: u64,
    cycle: bool,
    least: u64,
    most: u64,
) -> Option<Spot>
    requires { least < 2 ^ 63 }
    ensures value { most < least + place_count shape.now → result ≡ find (is_target shape.now pointer cycle) (spots_between least most) }
    ensures from { IfSome result (λ spot. least ≤ number spot) }
    ensures within { IfSome result (λ spot. number spot ≤ most) }
{
    match spot_from(shape, Spot::Link(least), pointer) {
        None => None,
        Some(spot) => {
            if number(spot) > most {
                return None;
            }
            if has_cycle(shape, spot, cycle) {
                Some(spot)
            } else {
                None
            }
        }
    }
}

/// A controller stands at a spot with this Consumer Cycle State.
fn has_cycle(shape: &RingShape, spot: Spot, cycle: bool) -> bool
    ensures { result ≡ (spot_cycle shape.now spot == (if cycle then 1 else 0)) }
{
    if cycle {
        cycle_at(shape, spot)
    } else {
        !cycle_at(shape, spot)
    }
}

/// The first spot from another one on at an address; none where no spot lies there.
#[inline(always)]
fn spot_from(shape: &RingShape, from: Spot, address: u64) -> Option<Spot>
    requires { number from < 2 ^ 63 }
    ensures spot { IsFrom shape.now from address result }
    ensures allowed { IsShape shape.now }
{
    let _ = shape.places();
    if address % 16 != 0 {
        return None;
    }
    match shape.place_at(address) {
        None => None,
        Some(Place::Data { place, .. }) => {
            let position = shape.next_at(number(from), place);
            Some(Spot::Data(position))
        }
        Some(Place::Link { segment, .. }) => {
            let crossing = crossing_behind(shape, passed(from), segment);
            Some(Spot::Link(crossing))
        }
    }
}

/// The number behind which the crossings from a spot on lie.
fn passed(from: Spot) -> u64
    ensures behind { (q : ℕ) → 0 < q → rank from ≤ rank (Link q) → result < q }
    ensures ahead { (q : ℕ) → result < q → rank from ≤ rank (Link q) }
    ensures least { result ≤ number from }
{
    match from {
        Spot::Data(position) => position,
        Spot::Link(crossing) => crossing.saturating_sub(1),
    }
}

/// The first crossing of a segment's Link behind a number.
#[inline(never)]
#[tactic(auto, using(segments::proofs::DataPlaces::place_count_most))]
pub(super) fn crossing_behind(shape: &RingShape, passed: u64, segment: u32) -> u64
    requires allowed { IsShape shape.now }
    requires segment { segment < length (links shape.now) }
    requires fits { passed < 2 ^ 63 }
    ensures from { passed < result }
    ensures within { result ≤ passed + place_count shape.now }
    ensures over { link_crossed shape.now result ≡ Some segment }
{
    shape.next_at(passed, place_before(shape, segment)) + 1
}

/// The Consumer Cycle State with which a controller stands at a spot (xHCI 4.9.2).
fn cycle_at(shape: &RingShape, spot: Spot) -> bool
    ensures { result ≡ (spot_cycle shape.now spot == 1) }
{
    match spot {
        Spot::Data(position) => shape.cycle(position),
        Spot::Link(crossing) => shape.cycle(crossing.saturating_sub(1)),
    }
}
