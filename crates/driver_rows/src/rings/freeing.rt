ghost use Rattle.std.specs.Prelude.{◌≡◌, ◌<◌, ◌&&◌, ◌||◌, ℕ, true, false, not, length, IfNone, IfSome};
ghost use Rattle.traces.specs.Header.{is_transfer_kind, ring_with};
ghost use Rattle.traces.specs.AllowedHeaders.{IsHeader};
ghost use Rattle.traces.specs.Versions.{has_runs};
ghost use Rattle.traces.specs.declared.header.Header.{Header as HeaderValue};
ghost use Rattle.trb.specs.declared.ring_kind.RingKind.TheVariants.{Xfer};
ghost use Rattle.ring_knowledge.specs.Known.{Known};
ghost use Rattle.trace_record.specs.RingFinder.Finding.{IsFinder};
ghost use Rattle.ownership_rules.specs.Rings.{is_in_use, is_transfer_ring};
ghost use Rattle.safety.specs.Keeps.{DriverKeeps};
ghost use Rattle.trace_record.specs.FollowsTrace.{FollowsTrace};
ghost use Rattle.driver_rows.specs.RingRows.RingSteps.{IsRingAt, IsTransferAt, frees_badly};

use trace_record::{Finder, TraceRecord};
use traces::Header;
use trb::RingKind;

/// The number of the ring with this ID, where it may go.
pub(crate) fn free_ring(
    header: &Header,
    finder: &Finder,
    kept: &TraceRecord,
    id: u8,
) -> Option<usize>
    requires headed { IsHeader header.now }
    requires found { IsFinder header.now.rings finder.now }
    ensures there { IfSome result (IsRingAt header.now id) }
    ensures free { IfSome result (λ n. (k : Known) (memory : ℕ → ℕ) → FollowsTrace header.now k kept.now memory → DriverKeeps header.now k → frees_badly header.now k id ≡ false) }
    ensures none { IfNone result ((k : Known) (memory : ℕ → ℕ) → FollowsTrace header.now k kept.now memory → DriverKeeps header.now k →
        frees_badly header.now k id ≡ true) }
{
    let Some(number) = finder.ring_named(id) else {
        return None;
    };
    let rings = header.rings.as_slice();
    if stays(header, finder, kept, id, rings[number].shape.kind()) {
        return None;
    }
    Some(number)
}

/// Whether a ring of this kind may not go: it is in use or, before version 4, no transfer ring (xHCI 4.9).
fn stays(header: &Header, finder: &Finder, kept: &TraceRecord, id: u8, kind: RingKind) -> bool
    requires headed { IsHeader header.now }
    requires found { IsFinder header.now.rings finder.now }
    ensures { (k : Known) (memory : ℕ → ℕ) → FollowsTrace header.now k kept.now memory → DriverKeeps header.now k →
        result ≡ ((not (is_transfer_kind kind) && not (has_runs header.now.version)) || is_in_use header.now k id kind) }
{
    match kind {
        RingKind::Xfer => is_had(kept, id),
        RingKind::Cmd => !header.version.has_runs() || kept.uses_command_ring(header, finder),
        RingKind::Evt => !header.version.has_runs() || kept.uses_event_ring(),
    }
}

/// Whether an endpoint has a transfer ring, or an unfinished command binds it.
fn is_had(kept: &TraceRecord, id: u8) -> bool
    ensures { (h : HeaderValue) (k : Known) (memory : ℕ → ℕ) → FollowsTrace h k kept.now memory → DriverKeeps h k → result ≡ is_in_use h k id Xfer }
{
    kept.devices.has_endpoint(id) || kept.bound.contains(id)
}

/// The number in the header of the transfer ring with this ID.
pub fn transfer_ring(header: &Header, finder: &Finder, id: u8) -> Option<usize>
    requires headed { IsHeader header.now }
    requires found { IsFinder header.now.rings finder.now }
    ensures within { IfSome result (λ n. n < length header.now.rings) }
    ensures there { IfSome result (IsTransferAt header.now id) }
    ensures none { IfNone result (is_transfer_ring (ring_with header.now id) ≡ false) }
{
    let Some(number) = finder.ring_named(id) else {
        return None;
    };
    let rings = header.rings.as_slice();
    match rings[number].shape.kind() {
        RingKind::Xfer => Some(number),
        _ => None,
    }
}
