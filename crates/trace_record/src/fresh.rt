ghost use Rattle.std.specs.Prelude.{◌≡◌, IfOk};
ghost use Rattle.traces.specs.AllowedHeaders.{IsHeader};
ghost use Rattle.ring_knowledge.specs.Known.{nothing};
ghost use Rattle.trace_record.specs.FollowsTrace.{FollowsEvents};
ghost use Rattle.trace_record.specs.Fresh.{AreFresh, IsWithin};

use crate::ring_finder::is_event_ring;
use event_ring::EventPlace;
use ring_knowledge::RingRecord;
use std::alloc::{AllocError, Global};
use traces::{Header, Ring};

/// The event ring with nothing read, where there is one.
pub(crate) fn event_place(header: &Header) -> Result<Option<EventPlace>, AllocError>
    requires { IsHeader header.now }
    ensures follows { IfOk result (FollowsEvents header.now nothing) }
    ensures unread { IfOk result (λ events. IsWithin events 0) }
{
    for ring in header.rings.as_slice() {
        if is_event_ring(ring) {
            return Ok(Some(EventPlace::new(ring.shape.copy()?)));
        }
    }
    Ok(None)
}

/// A record of each ring, of which nothing is known.
pub(crate) fn fresh_records(alloc: Global, rings: &[Ring]) -> Result<Vec<RingRecord>, AllocError>
    ensures { IfOk result (λ records. AreFresh rings.now records.items) }
{
    let mut records = Vec::new(alloc);
    for ring in rings {
        records.push(RingRecord::new(alloc, &ring.shape)?)?;
    }
    Ok(records)
}
