ghost use Rattle.std.specs.Prelude.{◌≡◌, ◌<◌, ◌≤◌, ◌%◌, IfOk, OnOk, OnErr, is_ok};
ghost use Rattle.segments.specs.Places.{address_of};
ghost use Rattle.segments.specs.Shape.{IsShape};
ghost use Rattle.event_ring.specs.EventRing.{is_table_fault};
ghost use Rattle.event_ring.specs.EventPlaceValue.{IsInOrder, PostsOverNone, after_erdp, after_post, after_read, is_next_event, may_dequeue, may_post};

use crate::fault::{BadErdp, ImpossibleEvent, NoRoom};
use crate::table::lists;
use guest_memory::WordMemory;
use segments::{Place, RingShape};
use std::marker::Model;
use trb::{Block, RingKind};

/// An Event Ring with the positions that its producer, its consumer and ERDP are at (xHCI 4.9.4). The controller's side
/// posts to it, the driver's side reads from it. Contracts see an `EventState`.
#[derive(Debug, Drop)]
pub struct EventPlace {
    shape: RingShape,
    /// How many events were posted.
    posted: u64,
    /// How many events were read.
    reads: u64,
    /// The position that ERDP names.
    dequeue: u64,
}

impl Model for EventPlace {
    ghost use Rattle.std.specs.Prelude.{◌≡◌, ◌≤◌};
    ghost use Rattle.trb.specs.declared.ring_kind.RingKind.TheVariants.{Evt};
    ghost use Rattle.event_ring.specs.EventPlaceValue.{EventState};

    ghost Value = { EventState };

    ghost view = { λ e. record {
      shape = e.shape;
      counts = record { posted = e.posted; reads = e.reads; dequeue = e.dequeue };
    } };

    ghost invariant = { λ e. (e.shape.kind ≡ Evt) × (e.dequeue ≤ e.reads) };
}

impl EventPlace {
    /// The ring with nothing posted and nothing read.
    pub fn new(shape: RingShape) -> EventPlace
        requires { shape.kind ≡ RingKind.Evt }
        ensures shape { result.shape ≡ shape }
        ensures counts { result.counts ≡ record { posted = 0; reads = 0; dequeue = 0 } }
    {
        EventPlace {
            shape,
            posted: 0,
            reads: 0,
            dequeue: 0,
        }
    }

    /// The ring's shape.
    pub fn shape(&self) -> &RingShape
        ensures same { result.now ≡ self.now.shape }
        ensures event { self.now.shape.kind ≡ RingKind.Evt }
    {
        &self.shape
    }

    /// How many events were posted.
    pub fn posted(&self) -> u64
        ensures { result ≡ self.now.counts.posted }
    {
        self.posted
    }

    /// How many events were read.
    pub fn reads(&self) -> u64
        ensures same { result ≡ self.now.counts.reads }
        ensures from_dequeue { self.now.counts.dequeue ≤ result }
    {
        self.reads
    }

    /// The position that ERDP names.
    pub fn dequeue(&self) -> u64
        ensures { result ≡ self.now.counts.dequeue }
    {
        self.dequeue
    }

    /// Whether there is room for one more event.
    pub fn may_post(&self) -> bool
        ensures value { result ≡ may_post self.now }
        ensures allowed { IsShape self.now.shape }
    {
        let size = u64::from(self.shape.places());
        self.posted < u64::MAX && (self.posted + 1) % size != self.dequeue % size
    }

    /// Posts one more event, and says at which address.
    pub fn post(&mut self) -> Result<u64, NoRoom>
        ensures room { is_ok result ≡ may_post self.old }
        ensures place { IfOk result (λ address. address ≡ address_of self.old.shape self.old.counts.posted) }
        ensures ok { OnOk result (self.new ≡ after_post self.old) }
        ensures err { OnErr result (self.new ≡ self.old) }

        // The controller's side keeps its counts in order, and posts over no event from ERDP's position on.
        ensures in_order { IsInOrder self.old → IsInOrder self.new }
        ensures over_none { IsInOrder self.old → OnOk result (PostsOverNone self.old) }
    {
        if !self.may_post() {
            return Err(NoRoom);
        }
        let address = self.shape.address(self.posted);
        self.posted += 1;
        Ok(address)
    }

    /// Reads the next event. It is refused where its Cycle bit is not that of its position.
    pub fn read(&mut self, block: &Block) -> Result<(), ImpossibleEvent>
        ensures next { is_ok result ≡ is_next_event self.old block.now }
        ensures ok { OnOk result (self.new ≡ after_read self.old) }
        ensures err { OnErr result (self.new ≡ self.old) }

        // The controller's side keeps its counts in order while it reads what was posted.
        ensures in_order { self.old.counts.reads < self.old.counts.posted → IsInOrder self.old → IsInOrder self.new }
    {
        if block.cycle() != self.shape.cycle(self.reads) || self.reads == u64::MAX {
            return Err(ImpossibleEvent);
        }
        self.reads += 1;
        Ok(())
    }

    /// Takes a value that is written to ERDP: bits 63:4 name the event place that is read next (xHCI 5.5.2.3.3).
    pub fn set_dequeue(&mut self, value: u64) -> Result<(), BadErdp>
        ensures reached { is_ok result ≡ may_dequeue self.old value }
        ensures ok { OnOk result (self.new ≡ after_erdp self.old value) }
        ensures err { OnErr result (self.new ≡ self.old) }

        // The controller's side keeps its counts in order.
        ensures in_order { IsInOrder self.old → IsInOrder self.new }
    {
        let place = match self.shape.place_at(value / 16 * 16) {
            Some(Place::Data { place, .. }) => place,
            // An event ring has no Links.
            Some(Place::Link { .. }) => unreachable!(),
            None => return Err(BadErdp),
        };
        let ahead = u64::from(self.shape.ahead(self.dequeue, place));
        if ahead > self.reads - self.dequeue {
            return Err(BadErdp);
        }
        self.dequeue += ahead;
        Ok(())
    }

    /// Whether the Event Ring Segment Table of `size` entries of 16 bytes from `base` on, a multiple of 4, doesn't list the
    /// segments of this shape in order, or ends above 2^64 (xHCI 6.5). `size` is what ERSTSZ holds (xHCI 5.5.2.3.1).
    pub fn table_fault<M: WordMemory>(memory: &M, base: u64, size: u16, shape: &RingShape) -> bool
        requires aligned { base % 4 ≡ 0 }
        ensures exact { result ≡ is_table_fault (M.words memory.now) base size shape.now }
    {
        let segments = shape.segments();
        if usize::from(size) != segments.len() {
            return true;
        }
        let end = u128::from(base) + 16 * u128::from(size);
        end > 1 << 64 || !lists(memory, base, segments)
    }
}
