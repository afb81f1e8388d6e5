//! The rings of endpoints and their records.
ghost use Rattle.std.specs.Prelude.{◌≡◌, ◌<◌, ℕ, List, None, Some, length, slice_get, IfSome};
ghost use Rattle.segments.specs.RingView.{Opens};
ghost use Rattle.traces.specs.AllowedHeaders.{IsHeader};
ghost use Rattle.traces.specs.declared.header.Header.{Header as HeaderValue};
ghost use Rattle.traces.specs.declared.ring.Ring.{Ring as RingValue};
ghost use Rattle.ring_knowledge.specs.Known.{Known};
ghost use Rattle.ring_knowledge.specs.Rings.{on_ring};
ghost use Rattle.trace_record.specs.DeviceSlots.Devices.{FollowsDevices};
ghost use Rattle.trace_record.specs.RingFinder.Finding.{IsFinder};
ghost use Rattle.trace_record.specs.RingFinder.RecordsOfRings.{FollowsRings};
ghost use Rattle.driver_rows.specs.DoorbellRows.Numbers.{number_of};

use ring_knowledge::RingRecord;
use trace_record::{DeviceRecord, Finder};

/// The number of an endpoint's ring in the header.
#[inline(always)]
pub fn endpoint_ring(finder: &Finder, devices: &DeviceRecord, slot: u8, index: u8) -> Option<usize>
    ensures value { (rings : List RingValue) (k : Known) → IsFinder rings finder.now → FollowsDevices k devices.now → result ≡ number_of rings (k.ring_of slot index) }
    ensures below { (rings : List RingValue) → IsFinder rings finder.now → IfSome result (λ number. number < length rings) }
{
    match devices.ring_of(slot, index) {
        Some(id) => finder.ring_named(id),
        None => None,
    }
}

/// Opens the ring with this number, if there is one.
#[inline(always)]
pub fn open_ring(records: &mut Vec<RingRecord>, number: Option<usize>)
    ensures opened { (h : HeaderValue) (k : Known) (n : ℕ) (ring : RingValue) → IsHeader h → number ≡ Some n → slice_get h.rings n ≡ Some ring →
        FollowsRings h k records.old.items → FollowsRings h (on_ring h k ring.id Opens) records.new.items }
    ensures none { number ≡ None → records.new.items ≡ records.old.items }
{
    if let Some(number) = number {
        if let Some(record) = records.get_mut(number) {
            record.open();
        }
    }
}
