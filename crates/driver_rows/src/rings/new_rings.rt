ghost use Rattle.std.specs.Prelude.{◌≡◌, ◌+◌, ◌*◌, ◌%◌, ◌^◌, ◌≤◌, false, is_some};
ghost use Rattle.segments.specs.Shape.{IsShape};
ghost use Rattle.traces.specs.Header.{ring_with, touches_ring};
ghost use Rattle.traces.specs.AllowedHeaders.{IsHeader};
ghost use Rattle.ring_knowledge.specs.Known.{Known};
ghost use Rattle.trace_record.specs.RingFinder.Finding.{IsFinder};
ghost use Rattle.trace_record.specs.FollowsTrace.{FollowsTrace};
ghost use Rattle.ownership_rules.specs.Rings.{is_bad_ring, is_bad_segment};
ghost use Rattle.driver_rows.specs.RingRows.RingSteps.{IsClear};

use crate::context_rules::{is_in_range_lease, is_soiled};
use crate::rings::first_lap::shows_first_lap;
use guest_memory::WordMemory;
use segments::Segment;
use trace_record::{Finder, TraceRecord};
use traces::{Header, Ring};

/// Whether a ring may not come: another has its ID, it can't come now, or one of its segments is not for it to have.
pub(crate) fn is_bad_ring<M: WordMemory>(
    header: &Header,
    finder: &Finder,
    kept: &TraceRecord,
    memory: &M,
    ring: &Ring,
) -> bool
    requires headed { IsHeader header.now }
    requires found { IsFinder header.now.rings finder.now }
    ensures rule { (k : Known) → FollowsTrace header.now k kept.now (M.words memory.now) → result ≡ is_bad_ring header.now k ring.now }
    ensures clear { result ≡ false → IsClear header.now ring.now }
    ensures allowed { IsShape ring.now.shape }
{
    let _places = ring.shape.places();
    if is_named(finder, header, ring.id) {
        return true;
    }
    if kept.is_bad_kind(header, finder, ring.shape.kind()) {
        return true;
    }
    for segment in ring.shape.segments() {
        if is_bad_segment(header, finder, kept, memory, *segment) {
            return true;
        }
    }
    false
}

/// Whether a ring has this ID.
fn is_named(finder: &Finder, header: &Header, id: u8) -> bool
    requires headed { IsHeader header.now }
    requires found { IsFinder header.now.rings finder.now }
    ensures { result ≡ is_some (ring_with header.now id) }
{
    finder.ring_named(id).is_some()
}

/// Whether a segment of a new ring touches a ring or a range under lease, has a soiled word, or shows the first lap's Cycle bit.
fn is_bad_segment<M: WordMemory>(
    header: &Header,
    finder: &Finder,
    kept: &TraceRecord,
    memory: &M,
    segment: Segment,
) -> bool
    requires headed { IsHeader header.now }
    requires found { IsFinder header.now.rings finder.now }
    requires aligned { segment.base % 16 ≡ 0 }
    requires inside { segment.base + 16 * segment.count ≤ 2 ^ 64 }
    ensures rule { (k : Known) → FollowsTrace header.now k kept.now (M.words memory.now) → result ≡ is_bad_segment header.now k segment }
    ensures clear { result ≡ false → touches_ring header.now segment.base (16 * segment.count) ≡ false }
{
    let bytes = 16 * u64::from(segment.count);
    if finder.touches(segment.base, bytes) {
        return true;
    }
    if is_in_range_lease(header, kept, segment.base, bytes) {
        return true;
    }
    is_soiled(kept, segment.base, bytes) || shows_first_lap(memory, segment)
}
