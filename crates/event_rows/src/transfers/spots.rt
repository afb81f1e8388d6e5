//! The spot of a ring that a Transfer Event names: xHCI 4.9.2, 4.11.5.2, 6.4.2.1.
ghost use Rattle.std.specs.Prelude.{◌≡◌, ◌<◌, ◌^◌, ℕ, length, IfSome};
ghost use Rattle.segments.specs.Spots.{number};
ghost use Rattle.traces.specs.AllowedHeaders.{IsHeader};
ghost use Rattle.ring_knowledge.specs.Known.{Known};
ghost use Rattle.safety.specs.Keeps.{DriverKeeps};
ghost use Rattle.trace_record.specs.RingFinder.Finding.{IsFinder};
ghost use Rattle.trace_record.specs.FollowsTrace.{FollowsTrace};
ghost use Rattle.event_rows.specs.TransferEvents.NamedSpots.{IsNamedBy};

use driver_rows::endpoint_ring;
use segments::Spot;
use trace_record::{Finder, TraceRecord};
use traces::Header;
use trb::{Block, is_of_service};

/// A spot and the number of its ring in the header.
#[derive(Clone, Copy)]
pub struct NamedSpot {
    pub number: usize,
    pub spot: Spot,
}

/// The spot that a Transfer Event names on the ring of its endpoint, by its value or its address. One that tells of the service of its
/// endpoint names none.
#[inline(always)]
pub fn named_spot(
    header: &Header,
    finder: &Finder,
    t: &TraceRecord,
    event: Block,
) -> Option<NamedSpot>
    requires headed { IsHeader header.now }
    requires found { IsFinder header.now.rings finder.now }
    ensures named { (k : Known) (m : ℕ → ℕ) → FollowsTrace header.now k t.now m → DriverKeeps header.now k → IsNamedBy header.now k event result }
    ensures below { IfSome result (λ at. at.number < length header.now.rings) }
    ensures few { IfSome result (λ at. number at.spot < 2 ^ 63) }
{
    if is_of_service(event.code()) {
        return None;
    }
    let rings = header.rings.as_slice();
    let Some(number) = endpoint_ring(finder, &t.devices, event.slot(), event.endpoint()) else {
        return None;
    };
    let Some(known) = t.rings.get(number) else {
        return None;
    };
    let Some(spot) = known.named_by(&rings[number].shape, event) else {
        return None;
    };
    Some(NamedSpot { number, spot })
}
