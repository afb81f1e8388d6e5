//! Rings that come and go (xHCI 4.9).
ghost use Rattle.std.specs.Prelude.{◌≡◌, ◌<◌, ℕ, length, slice_get, Some, OnOk};
ghost use Rattle.traces.specs.AllowedHeaders.{IsHeader};
ghost use Rattle.traces.specs.LivingRings.{with_ring, without_ring};
ghost use Rattle.traces.specs.declared.header.Header.{Header as HeaderValue};
ghost use Rattle.traces.specs.declared.ring.Ring.{Ring as RingValue};
ghost use Rattle.ring_knowledge.specs.Known.{Known};
ghost use Rattle.ring_knowledge.specs.Histories.{forgotten, gone};
ghost use Rattle.trace_record.specs.FollowsTrace.{FollowsTrace};
ghost use Rattle.trace_record.specs.Fresh.{IsWithin};
ghost use Rattle.trace_record.specs.RingChanges.{Comes, Goes, IsWithoutCommands};

use crate::ring_finder::{is_command_ring, is_event_ring};
use crate::ring_set::RingSet;
use crate::trace_record::TraceRecord;
use event_ring::EventPlace;
use ring_knowledge::RingRecord;
use std::alloc::{AllocError, Global};
use traces::{Header, Ring};
use trb::RingKind;

impl TraceRecord {
    /// Notes a ring that comes behind those of the header: of it nothing is known. After want of memory the record is of no use.
    pub fn add_ring(&mut self, alloc: Global, ring: &Ring) -> Result<(), AllocError>
        ensures ok { OnOk result ((h : HeaderValue) (k : Known) (memory : ℕ → ℕ) → FollowsTrace h k self.old memory → Comes h k ring.now → FollowsTrace (with_ring h ring.now) (forgotten k ring.now.id) self.new memory) }
        ensures reads { (n : ℕ) → IsWithin self.old.events n → IsWithin self.new.events n }
    {
        let known = RingRecord::new(alloc, &ring.shape)?;
        self.rings.push(known)?;
        if is_event_ring(ring) {
            self.events = Some(EventPlace::new(ring.shape.copy()?));
        }
        Ok(())
    }

    /// Notes that the ring with this number in the header goes. After want of memory the record is of no use.
    pub fn remove_ring(&mut self, header: &Header, number: usize) -> Result<(), AllocError>
        requires headed { IsHeader header.now }
        requires within { number < length header.now.rings }
        requires as_many { length self.now.rings.items ≡ length header.now.rings }
        ensures ok { OnOk result ((k : Known) (memory : ℕ → ℕ) (ring : RingValue) → slice_get header.now.rings number ≡ Some ring → FollowsTrace header.now k self.old memory → Goes header.now k ring →
            FollowsTrace (without_ring header.now ring.id) (gone header.now k ring.id) self.new memory) }
        ensures reads { (n : ℕ) → IsWithin self.old.events n → IsWithin self.new.events n }
    {
        let rings = header.rings.as_slice();
        let ring = &rings[number];
        self.rings.remove(number);
        self.registers.let_ring_go(is_command_ring(ring));
        match ring.shape.kind() {
            RingKind::Cmd => self.forget_commands(),
            RingKind::Evt => {
                self.soiled.soil_ring(&ring.shape)?;
                self.events = None;
            }
            RingKind::Xfer => {}
        }
        Ok(())
    }

    /// No command is unfinished any more.
    pub(crate) fn forget_commands(&mut self)
        ensures { IsWithoutCommands self.old self.new }
    {
        self.commands.clear();
        self.bound = RingSet::new();
        self.inputs.clear();
    }
}
