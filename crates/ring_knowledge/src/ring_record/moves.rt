ghost use Rattle.std.specs.Prelude.{◌≡◌, ◌+◌, ◌<◌, ◌≤◌, ◌^◌};
ghost use Rattle.segments.specs.ShapeValue.{Shape};
ghost use Rattle.segments.specs.Places.{place_count};
ghost use Rattle.segments.specs.Spots.{number};
ghost use Rattle.segments.specs.RingView.{RingView, declared, floor_number};
ghost use Rattle.segments.specs.Ceiling.{ceiling, is_data_below, is_stop_spot, is_way_given, stopped_number};
ghost use Rattle.segments.specs.Descriptors.{is_border};
ghost use Rattle.segments.specs.Moves.{is_move, is_placement, is_reached, may_move_to};

use super::spots::spot_between;
use super::{RingRecord, is_noted, number};
use segments::{RingShape, Spot};

impl RingRecord {
    ghost use Rattle.ring_knowledge.specs.RingRecords.{FollowsMarks, FollowsRing};

    /// Whether a dequeue pointer may be set on from the ceiling (Set TR Dequeue Pointer, xHCI 4.6.10): the pointer and the
    /// cycle state stand at a border between descriptors, up to what is declared, before which all is given.
    pub fn may_move_on(&self, shape: &RingShape, pointer: u64, cycle: bool) -> bool
        ensures { (v : RingView) → FollowsRing shape.now v self.now → floor_number v ≤ ceiling shape.now v →
            result ≡ is_move shape.now v pointer cycle (ceiling shape.now v) (declared v) }
    {
        let least = self.ceiling();
        let most = self.end() as u64;
        if most < least {
            return false;
        }
        self.is_move(shape, pointer, cycle, least, most)
    }

    /// Whether a pointer and a cycle state stand at the end of what is declared, before which all is given: there a second
    /// Address Device leaves the dequeue pointer (xHCI 4.6.5).
    pub fn may_stay(&self, shape: &RingShape, pointer: u64, cycle: bool) -> bool
        ensures { (v : RingView) → FollowsRing shape.now v self.now → floor_number v ≤ declared v → result ≡ is_move shape.now v pointer cycle (declared v) (declared v) }
    {
        let end = self.end() as u64;
        self.is_move(shape, pointer, cycle, end, end)
    }

    /// Whether a pointer and a cycle state stand where the ring stands still, since its controller can't have gone on from the
    /// floor: at a border between descriptors before which all is given. There an endpoint may be bound to it (xHCI 4.6.5, 4.6.6).
    pub fn may_be_bound(&self, shape: &RingShape, pointer: u64, cycle: bool) -> bool
        ensures { (v : RingView) → FollowsRing shape.now v self.now → floor_number v ≤ ceiling shape.now v →
            result ≡ is_placement shape.now v pointer cycle }
    {
        let floor = number(self.floor);
        if self.ceiling() != floor {
            return false;
        }
        self.is_move(shape, pointer, cycle, floor, floor)
    }

    /// Whether a pointer and a cycle state stand at a spot, with a number from least to most, to which the ring may be moved.
    fn is_move(&self, shape: &RingShape, pointer: u64, cycle: bool, least: u64, most: u64) -> bool
        requires { least < 2 ^ 63 }
        ensures { (v : RingView) → FollowsRing shape.now v self.now → floor_number v ≤ least → most < least + place_count shape.now → result ≡ is_move shape.now v pointer cycle least most }
    {
        match spot_between(shape, pointer, cycle, least, most) {
            None => false,
            Some(spot) => self.may_move_to(shape, spot),
        }
    }

    /// Whether a spot from the floor on is a border between descriptors before which all is given.
    fn may_move_to(&self, shape: &RingShape, spot: Spot) -> bool
        ensures { (v : RingView) → FollowsRing shape.now v self.now → floor_number v ≤ number spot → result ≡ may_move_to shape.now v spot }
    {
        if self.is_border(number(spot)) {
            self.is_stop_spot(shape, spot)
        } else {
            false
        }
    }

    /// Whether a descriptor begins at a position that isn't forgotten, or ends right before it.
    pub(super) fn is_border(&self, position: u64) -> bool
        ensures { (shape : Shape) (v : RingView) → FollowsMarks shape v self.now → self.now.forgotten ≤ position → result ≡ is_border v.lengths 0 position }
    {
        if self.length_at(position) > 0 {
            return true;
        }
        position == self.end() as u64
    }

    /// Whether a controller may have stopped at a spot (xHCI 4.6.9): all before it is given, and for a block the crossing to it.
    pub fn is_stop_spot(&self, shape: &RingShape, spot: Spot) -> bool
        ensures stop { (v : RingView) → FollowsRing shape.now v self.now → result ≡ is_stop_spot shape.now v spot }
        ensures reached { (v : RingView) → FollowsRing shape.now v self.now → result ≡ is_reached shape.now v spot }
    {
        match spot {
            Spot::Data(position) => {
                if position == self.count {
                    return self.is_way_given(shape, position);
                }
                position < self.count
            }
            Spot::Link(crossing) => crossing <= self.count,
        }
    }

    /// The crossing to a position, if there is one, is given.
    fn is_way_given(&self, shape: &RingShape, q: u64) -> bool
        ensures { (v : RingView) → FollowsMarks shape.now v self.now → result ≡ is_way_given shape.now v q }
    {
        let places = u64::from(shape.places());
        let least = number(self.floor).max(1);
        match shape.crossing(q) {
            None => true,
            Some(segment) => is_noted(least, places, &self.crossed, segment as usize, q),
        }
    }

    /// Up to which number a controller that stopped at a spot may have gone: it may have begun the block there (xHCI 4.6.9).
    pub fn stopped_number(&self, spot: Spot) -> u64
        ensures { (shape : Shape) (v : RingView) → FollowsRing shape v self.now → result ≡ stopped_number shape v spot }
    {
        match spot {
            Spot::Data(position) => {
                if position < self.count {
                    position + 1
                } else {
                    self.count
                }
            }
            Spot::Link(crossing) => crossing,
        }
    }
}

/// Whether a spot is a block with a number below a ceiling: where a controller may report a success (xHCI 4.9.2).
#[tactic(auto, unfolding(segments::specs::Ceiling::is_data_below))]
pub fn is_data_below(ceiling: u64, spot: Spot) -> bool
    ensures { result ≡ is_data_below ceiling spot }
{
    match spot {
        Spot::Data(position) => position < ceiling,
        Spot::Link(_) => false,
    }
}
