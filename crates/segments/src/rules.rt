//! Which segments make a ring (xHCI 4.9, 6.5, tables 6-1 and 6-91).

ghost use Rattle.std.specs.Prelude.{◌≡◌, ◌≤◌, length, map};
ghost use Rattle.std.specs.List.{list_all, list_any};
ghost use Rattle.segments.specs.Places.{data_count, place_count};
ghost use Rattle.segments.specs.Shape.{alignment, are_apart, is_segment, is_shape, least_count, segments_overlap};
ghost use Rattle.segments.specs.ShapeValue.{segment_of, shape_of};

use crate::segment::Segment;
use trb::RingKind;

pub(crate) const MOST_SEGMENTS: usize = 64;

const MOST_BLOCKS: u16 = 4096;
/// No segment crosses a multiple of this.
const PAGE: u64 = 1 << 16;

/// The boundary on which segments lie, in bytes (xHCI table 6-1).
fn alignment(kind: RingKind) -> u64
    ensures { result ≡ alignment kind }
{
    match kind {
        RingKind::Xfer => 16,
        RingKind::Cmd | RingKind::Evt => 64,
    }
}

fn least_count(kind: RingKind) -> u16
    ensures { result ≡ least_count kind }
{
    match kind {
        RingKind::Evt => 16,
        RingKind::Cmd | RingKind::Xfer => 2,
    }
}

/// How many blocks of a segment hold data: all but a Link.
pub(crate) fn data_blocks(kind: RingKind, segment: Segment) -> u16
    ensures { result ≡ data_count kind segment }
{
    match kind {
        RingKind::Evt => segment.count,
        RingKind::Cmd | RingKind::Xfer => segment.count.saturating_sub(1),
    }
}

fn is_segment(kind: RingKind, segment: Segment) -> bool
    ensures { result ≡ is_segment kind segment }
{
    segment.base % alignment(kind) == 0
        && segment.count >= least_count(kind)
        && segment.count <= MOST_BLOCKS
        && segment.base % PAGE + 16 * u64::from(segment.count) <= PAGE
}

fn overlaps_any(segment: Segment, others: &[(u64, u16)]) -> bool
    ensures { result ≡ list_any (λ t. segments_overlap segment (segment_of t)) others.now }
{
    others
        .iter()
        .any(|&(base, count)| segment.overlaps(Segment { base, count }))
}

/// Whether no two of these segments share a byte.
pub(crate) fn are_apart(segments: &[(u64, u16)]) -> bool
    ensures { result ≡ are_apart (map segment_of segments.now) }
{
    for (i, &(base, count)) in segments.iter().enumerate() {
        if overlaps_any(Segment { base, count }, &segments[i + 1..]) {
            return false;
        }
    }
    true
}

/// Whether each of these is one that a ring of this kind may have.
pub(crate) fn are_segments(kind: RingKind, segments: &[(u64, u16)]) -> bool
    ensures { result ≡ list_all (λ s. is_segment kind (segment_of s)) segments.now }
{
    segments
        .iter()
        .all(|&(base, count)| is_segment(kind, Segment { base, count }))
}

/// How many data places these segments have.
pub(crate) fn count_places(kind: RingKind, segments: &[(u64, u16)]) -> u32
    requires { length segments.now ≤ 64 }
    ensures { result ≡ place_count (shape_of kind segments.now) }
{
    let mut places = 0;
    for &(base, count) in segments {
        places += u32::from(data_blocks(kind, Segment { base, count }));
    }
    places
}

/// Whether a ring of this kind may have these segments, by their first addresses and numbers of blocks.
#[tactic(auto, using(crate::proofs::Pairs::is_shape_pairs))]
pub(crate) fn is_shape(kind: RingKind, segments: &[(u64, u16)]) -> bool
    ensures { result ≡ is_shape (shape_of kind segments.now) }
{
    if segments.len() > MOST_SEGMENTS || !are_segments(kind, segments) {
        return false;
    }
    count_places(kind, segments) >= 2 && are_apart(segments)
}
