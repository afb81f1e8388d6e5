ghost use Rattle.std.specs.Prelude.{◌≡◌, ◌-◌, ◌≤◌, ◌&&◌, nat_le};
ghost use Rattle.std.specs.List.{list_any};
ghost use Rattle.segments.specs.ShapeValue.{Shape};
ghost use Rattle.segments.specs.Spots.{number};
ghost use Rattle.segments.specs.RingView.{RingView, declared, due_positions};
ghost use Rattle.segments.specs.Ceiling.{ceiling, given_count};
ghost use Rattle.ring_knowledge.specs.Resets.{behind_blocks, first_free, given_up, held_at_given};

use super::changes::after;
use super::{RingRecord, is_noted, number};
use segments::{RingShape, Spot};

impl RingRecord {
    ghost use Rattle.ring_knowledge.specs.RingRecords.{FollowsRing};

    /// Notes that a reset lets what was given, all of which is declared, be over (xHCI 4.2): the controller has no pointer into
    /// the ring any more.
    pub fn give_up(&mut self, shape: &RingShape)
        ensures { (v : RingView) → FollowsRing shape.now v self.old → given_count shape.now v ≤ declared v → FollowsRing shape.now (given_up shape.now v) self.new }
    {
        let count = self.count;
        if count > self.end() as u64 {
            return;
        }
        let behind = behind_blocks(shape, count);
        self.reach(shape, behind);
        self.open();
    }

    /// Holds the ring as far as the controller may have come before a reset: at what is given, but behind nothing that is free.
    pub fn hold_at_given(&mut self)
        ensures { (shape : Shape) (v : RingView) → FollowsRing shape v self.old → FollowsRing shape (held_at_given shape v) self.new }
    {
        let end = self.first_free();
        self.hold(end);
    }

    /// The first free position from the ceiling on, or the number behind all that is given.
    fn first_free(&self) -> u64
        ensures { (shape : Shape) (v : RingView) → FollowsRing shape v self.now → result ≡ first_free v (given_count shape v - ceiling shape v) (ceiling shape v) }
    {
        let ceiling = self.ceiling();
        for position in ceiling..self.count {
            if self.free.contains(&position) {
                return position;
            }
        }
        ceiling.max(self.count)
    }

    /// Whether a position is given behind one that isn't, or to which a crossing isn't.
    pub fn has_gap(&self, shape: &RingShape) -> bool
        ensures { (v : RingView) → FollowsRing shape.now v self.now → result ≡ list_any (λ p. v.given p && nat_le (given_count shape.now v) p) (due_positions shape.now v) }
    {
        let places = u64::from(shape.places());
        let floor = number(self.floor);
        for position in self.count..floor + places {
            if is_noted(
                floor,
                places,
                &self.given,
                shape.place(position) as usize,
                position,
            ) {
                return true;
            }
        }
        false
    }
}

/// The spot behind the first so many blocks.
fn behind_blocks(shape: &RingShape, count: u64) -> Spot
    ensures behind { result ≡ behind_blocks shape.now count }
    ensures there { number result ≡ count }
{
    if count == 0 {
        return Spot::Data(0);
    }
    after(shape, count - 1)
}
