//! What a reset of the controller does to the record (xHCI 4.2, 5.4.1).
ghost use Rattle.std.specs.Prelude.{◌≡◌, ◌≤◌, ◌<◌, ℕ, false, true, if◌then◌else◌, length, OnOk, OnErr};
ghost use Rattle.segments.specs.RingView.{RingView, declared};
ghost use Rattle.segments.specs.Ceiling.{given_count};
ghost use Rattle.traces.specs.Header.{is_command_kind};
ghost use Rattle.traces.specs.AllowedHeaders.{IsHeader};
ghost use Rattle.ring_knowledge.specs.Known.{Known};
ghost use Rattle.ring_knowledge.specs.Resets.{given_up, held_at_given, reset};
ghost use Rattle.ring_knowledge.specs.RingRecords.{FollowsRing};
ghost use Rattle.ownership_rules.specs.Registers.{has_gap};
ghost use Rattle.trace_record.specs.FollowsTrace.{FollowsTrace};
ghost use Rattle.trace_record.specs.Fresh.{IsWithin};
ghost use Rattle.trace_record.specs.Premises.{CommandsDeclared};
ghost use Rattle.trace_record.specs.RingFinder.RecordsOfRings.{FollowsRings};

use crate::fresh::event_place;
use crate::ring_finder::is_command_ring;
use crate::trace_record::TraceRecord;
use ring_knowledge::RingRecord;
use std::alloc::AllocError;
use traces::{Header, Ring};

impl TraceRecord {
    /// Notes that the controller was reset, with no gap in what was given of the Command Ring: it forgets slots and endpoints, its
    /// registers, and the events that it has posted. Want of memory changes nothing.
    pub fn reset(&mut self, header: &Header) -> Result<(), AllocError>
        requires headed { IsHeader header.now }
        requires as_many { length self.now.rings.items ≡ length header.now.rings }
        ensures ok { OnOk result ((k : Known) (memory : ℕ → ℕ) → FollowsTrace header.now k self.old memory → k.stopped ≡ false → has_gap header.now k ≡ false → CommandsDeclared header.now k →
            FollowsTrace header.now (reset header.now k) self.new memory) }
        ensures unread { OnOk result (IsWithin self.new.events 0) }
        ensures err { OnErr result (self.new ≡ self.old) }
    {
        self.events = event_place(header)?;
        reset_rings(header, &mut self.rings);
        self.registers.reset();
        self.devices.clear();
        self.contexts.clear();
        self.forget_commands();
        Ok(())
    }
}

/// Notes the reset of each ring.
fn reset_rings(header: &Header, records: &mut Vec<RingRecord>)
    requires headed { IsHeader header.now }
    requires as_many { length records.now.items ≡ length header.now.rings }
    ensures { (k : Known) → FollowsRings header.now k records.old.items → CommandsDeclared header.now k → FollowsRings header.now (reset header.now k) records.new.items }
{
    let rings = header.rings.as_slice();
    for number in 0..rings.len() {
        let ring = &rings[number];
        reset_ring(ring, &mut records[number]);
    }
}

/// Of the Command Ring what was given is over; any other ring the controller may have read as far as it is given.
fn reset_ring(ring: &Ring, known: &mut RingRecord)
    ensures { (v : RingView) → FollowsRing ring.now.shape v known.old → (is_command_kind ring.now.shape.kind ≡ true → given_count ring.now.shape v ≤ declared v) →
        FollowsRing ring.now.shape (if is_command_kind ring.now.shape.kind then given_up ring.now.shape v else held_at_given ring.now.shape v) known.new }
{
    if is_command_ring(ring) {
        known.give_up(&ring.shape);
    } else {
        known.hold_at_given();
    }
}
