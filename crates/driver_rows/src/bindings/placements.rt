ghost use Rattle.std.specs.Prelude.{◌≡◌, ℕ, Some};
ghost use Rattle.traces.specs.Header.{ring_having};
ghost use Rattle.traces.specs.AllowedHeaders.{IsHeader};
ghost use Rattle.ring_knowledge.specs.Known.{Known};
ghost use Rattle.trace_record.specs.RingFinder.Finding.{IsFinder};
ghost use Rattle.ownership_rules.specs.Moves.{awaits_binding, is_placed};
ghost use Rattle.safety.specs.Keeps.{DriverKeeps};
ghost use Rattle.trace_record.specs.FollowsTrace.{FollowsTrace};
ghost use Rattle.driver_rows.specs.RingBindings.Bindings.{as_binding};

use crate::bindings::context::Dequeue;
use trace_record::{Finder, TraceRecord};
use traces::Header;

/// Whether the ring that has the block at a pointer stands still there, so that an endpoint may be bound to it (xHCI 4.6.5, 4.6.6).
pub(crate) fn may_be_bound(
    header: &Header,
    finder: &Finder,
    t: &TraceRecord,
    id: u8,
    dequeue: Dequeue,
) -> bool
    requires headed { IsHeader header.now }
    requires found { IsFinder header.now.rings finder.now }
    ensures { (k : Known) (memory : ℕ → ℕ) → FollowsTrace header.now k t.now memory → DriverKeeps header.now k → ring_having header.now dequeue.pointer ≡ Some id →
        result ≡ is_placed header.now k (Some id) (as_binding dequeue) }
{
    let Some(number) = finder.ring_named(id) else {
        return false;
    };
    let rings = header.rings.as_slice();
    let ring = &rings[number];
    match t.rings.get(number) {
        None => false,
        Some(known) => known.may_be_bound(&ring.shape, dequeue.pointer, dequeue.cycle),
    }
}
