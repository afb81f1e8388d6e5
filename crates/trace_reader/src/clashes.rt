ghost use Rattle.std.specs.Prelude.{◌≡◌, ◌||◌};
ghost use Rattle.std.specs.List.{list_any};
ghost use Rattle.traces.specs.Header.{is_command_kind, is_event_kind};
ghost use Rattle.traces.specs.AllowedHeaders.{clash};
ghost use Rattle.trace_reader.specs.SegmentsApart.{AreSegmentsOf, is_second};

use crate::segments_so_far::SegmentsSoFar;
use traces::Ring;
use trb::RingKind;

/// A ring can't stand beside one of these, whose segments are given.
pub fn clashes_with_one(ring: &Ring, others: &[Ring], segments: &SegmentsSoFar) -> bool
    requires { AreSegmentsOf others.now segments.now }
    ensures { result ≡ list_any (clash ring.now) others.now }
{
    segments.overlaps_any(ring.shape.segments()) || is_second_to_one(ring, others)
}

fn is_second_to_one(ring: &Ring, others: &[Ring]) -> bool
    ensures { result ≡ list_any (is_second ring.now) others.now }
{
    others.iter().any(|other| is_second(ring, other))
}

/// Both have the ID, or both are the command ring, or the event ring.
fn is_second(ring: &Ring, other: &Ring) -> bool
    ensures { result ≡ is_second ring.now other.now }
{
    ring.id == other.id
        || (is_command_kind(ring.shape.kind()) && is_command_kind(other.shape.kind()))
        || (is_event_kind(ring.shape.kind()) && is_event_kind(other.shape.kind()))
}

fn is_command_kind(kind: RingKind) -> bool
    ensures { result ≡ is_command_kind kind }
{
    matches!(kind, RingKind::Cmd)
}

fn is_event_kind(kind: RingKind) -> bool
    ensures { result ≡ is_event_kind kind }
{
    matches!(kind, RingKind::Evt)
}
