ghost use Rattle.std.specs.Prelude.{◌≡◌, ◌+◌, ◌<◌, ◌≤◌, ◌^◌, true};
ghost use Rattle.segments.specs.ShapeValue.{Shape};
ghost use Rattle.segments.specs.Spots.{after, number};
ghost use Rattle.segments.specs.RingView.{RingView, Holds, Reaches, changed, declared, floor_number};
ghost use Rattle.segments.specs.Ceiling.{ceiling, given_count, is_stop_spot, stopped_number};
ghost use Rattle.segments.specs.Moves.{is_reached};

use super::{RingRecord, number};
use segments::{RingShape, Spot};

impl RingRecord {
    ghost use Rattle.ring_knowledge.specs.RingRecords.{FollowsRing};

    /// Notes that the controller has finished the block at a spot from the floor on, which is declared and given: its dequeue
    /// pointer has reached the spot behind the block (xHCI 4.9.2, 4.10.2).
    pub fn pass(&mut self, shape: &RingShape, spot: Spot)
        ensures { (v : RingView) → FollowsRing shape.now v self.old → floor_number v ≤ number spot → number spot < given_count shape.now v → number spot < declared v →
            FollowsRing shape.now (changed shape.now v (Reaches (after shape.now (number spot)))) self.new }
    {
        let position = number(spot);
        if position >= self.end() as u64 {
            return;
        }
        let behind = after(shape, position);
        self.reach(shape, behind);
    }

    /// Notes that the controller stopped behind the block at a spot, which it has finished (xHCI 4.8.3, 4.10.2).
    pub fn break_off(&mut self, shape: &RingShape, spot: Spot)
        requires { number spot < 2 ^ 63 }
        ensures { (v : RingView) → FollowsRing shape.now v self.old → floor_number v ≤ number spot → number spot < given_count shape.now v → number spot < declared v →
            FollowsRing shape.now (changed shape.now (changed shape.now v (Reaches (after shape.now (number spot)))) (Holds (number spot + 1))) self.new }
    {
        self.pass(shape, spot);
        self.hold(number(spot) + 1);
    }

    /// Notes that the controller was stopped at a spot, whose block it may have begun (xHCI 4.6.9).
    pub fn stop_at(&mut self, shape: &RingShape, spot: Spot)
        requires { number spot < 2 ^ 63 }
        ensures { (v : RingView) → FollowsRing shape.now v self.old → floor_number v ≤ number spot → is_stop_spot shape.now v spot ≡ true →
            FollowsRing shape.now (changed shape.now (changed shape.now v (Holds (stopped_number shape.now v spot))) (Reaches spot)) self.new }
    {
        let end = self.stopped_number(spot);
        self.hold(end);
        self.reach(shape, spot);
    }

    /// Notes that the dequeue pointer was set to a spot: the ring is held there (xHCI 4.6.5, 4.6.10).
    pub fn set_to(&mut self, shape: &RingShape, spot: Spot)
        requires { number spot < 2 ^ 63 }
        ensures { (v : RingView) → FollowsRing shape.now v self.old → floor_number v ≤ number spot → is_reached shape.now v spot ≡ true →
            FollowsRing shape.now (changed shape.now (changed shape.now v (Reaches spot)) (Holds (number spot))) self.new }
    {
        self.reach(shape, spot);
        self.hold(number(spot));
    }

    /// Holds the ring at its ceiling, as a stopped endpoint does (xHCI 4.6.9).
    pub fn hold_at_ceiling(&mut self)
        ensures { (shape : Shape) (v : RingView) → FollowsRing shape v self.old → FollowsRing shape (changed shape v (Holds (ceiling shape v))) self.new }
    {
        let end = self.ceiling();
        self.hold(end);
    }
}

/// The spot behind the block of a position: the Link there, if there is one, else the next block.
pub(super) fn after(shape: &RingShape, position: u64) -> Spot
    requires { position + 1 < 2 ^ 64 }
    ensures behind { result ≡ after shape.now position }
    ensures next { number result ≡ position + 1 }
{
    let next = position + 1;
    match shape.crossing(next) {
        None => Spot::Data(next),
        Some(_) => Spot::Link(next),
    }
}
