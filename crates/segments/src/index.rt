//! What finds a segment of a ring by a search.

ghost use Rattle.std.specs.Prelude.{◌≡◌, ◌<◌, ◌≤◌, ◌==◌, ℕ, List, length, slice_index, slice_index_or, IfOk, IfSome};
ghost use Rattle.std.specs.Bool.{OnTrue};
ghost use Rattle.trb.specs.declared.ring_kind.RingKind.{RingKind};
ghost use Rattle.segments.specs.declared.segment.Segment.{Segment};
ghost use Rattle.std.specs.List.{list_all};
ghost use Rattle.segments.specs.Places.{data_count};
ghost use Rattle.segments.specs.Index.{AreFirsts, AreMultiples, AreStarts, IsIndex, IsLastOf, IsLastStart, IsSegmentOf, before};

use crate::rules::data_blocks;
use crate::segment::Segment;
use std::alloc::{AllocError, Global};
use trb::RingKind;

/// Where a segment starts, and its number in the ring.
#[derive(Clone, Copy, Debug)]
pub(crate) struct Start {
    pub(crate) base: u64,
    pub(crate) segment: u32,
}

/// Finds a segment by its data places and by its addresses, in a time that hardly grows with their number.
#[derive(Debug, Drop)]
pub(crate) struct SegmentIndex {
    /// Of each segment, in order: how many data places lie before it.
    pub(crate) firsts: Vec<u32>,
    /// The segments by rising first address.
    pub(crate) starts: Vec<Start>,
    /// Each segment has a multiple of so many data places.
    pub(crate) step: u32,
}

impl SegmentIndex {
    /// The index of these segments.
    pub(crate) fn new(
        alloc: Global,
        kind: RingKind,
        segments: &[Segment],
    ) -> Result<SegmentIndex, AllocError>
        requires { length segments.now ≤ 64 }
        ensures { IfOk result (IsIndex kind segments.now) }
    {
        let firsts = first_places(alloc, kind, segments)?;
        let mut starts = starts_of(alloc, segments)?;
        starts.sort_unstable_by_key(|start| start.base);
        let step = common_step(kind, segments);
        Ok(SegmentIndex {
            firsts,
            starts,
            step,
        })
    }

    /// The number of the segment with a data place.
    #[inline(always)]
    pub(crate) fn segment_of(&self, place: u32) -> usize
        ensures { (kind : RingKind) (segments : List Segment) → IsIndex kind segments self.now → place < before kind segments (length segments) → IsSegmentOf kind segments place result }
    {
        // most rings have one segment alone
        if self.firsts.len() == 1 {
            return 0;
        }
        let even = self.even_segment(place);
        if self.has_place(even, place) {
            return even;
        }
        self.segment_by_search(place)
    }

    /// The same, by a search.
    #[inline(never)]
    fn segment_by_search(&self, place: u32) -> usize
        ensures { (kind : RingKind) (segments : List Segment) → IsIndex kind segments self.now → place < before kind segments (length segments) → IsSegmentOf kind segments place result }
    {
        let after = self.firsts.partition_point(|first| *first <= place);
        after.saturating_sub(1)
    }

    /// The segment with a data place, were all segments as long as the first.
    fn even_segment(&self, place: u32) -> usize {
        let long = self.firsts.get(1).copied().unwrap_or(0);
        place.checked_div(long).unwrap_or(0) as usize
    }

    /// Whether a segment has a data place.
    fn has_place(&self, number: usize, place: u32) -> bool
        ensures { OnTrue result ((kind : RingKind) (segments : List Segment) → IsIndex kind segments self.now → place < before kind segments (length segments) → IsSegmentOf kind segments place number) }
    {
        let firsts = self.firsts.as_slice();
        if number >= firsts.len() || place < firsts[number] {
            return false;
        }
        let next = number + 1;
        next == firsts.len() || place < firsts[next]
    }

    /// The number of the segment that is the last one to start at or before this address.
    #[inline(always)]
    pub(crate) fn last_start(&self, address: u64) -> Option<usize>
        ensures { (kind : RingKind) (segments : List Segment) → IsIndex kind segments self.now → IsLastStart segments address result }
    {
        if let Some(segment) = self.last_at(self.even_start(address), address) {
            return Some(segment);
        }
        self.last_by_search(address)
    }

    /// The same, by a search.
    #[inline(never)]
    fn last_by_search(&self, address: u64) -> Option<usize>
        ensures { (kind : RingKind) (segments : List Segment) → IsIndex kind segments self.now → IsLastStart segments address result }
    {
        let starts = self.starts.as_slice();
        let after = starts.partition_point(|start| start.base <= address);
        if after == 0 {
            return None;
        }
        Some(starts[after - 1].segment as usize)
    }

    /// Where the last start at or before an address stands, were all as far apart as the first two.
    fn even_start(&self, address: u64) -> usize {
        let starts = self.starts.as_slice();
        if starts.len() < 2 {
            return 0;
        }
        let apart = starts[1].base.saturating_sub(starts[0].base);
        let behind = address.saturating_sub(starts[0].base);
        behind.checked_div(apart).unwrap_or(0) as usize
    }

    /// The number of the segment whose start stands here, if it is the last one to start at or before this address.
    fn last_at(&self, at: usize, address: u64) -> Option<usize>
        ensures { IfSome result (λ j. (kind : RingKind) (segments : List Segment) → IsIndex kind segments self.now → IsLastOf segments address j) }
    {
        let starts = self.starts.as_slice();
        if at >= starts.len() || address < starts[at].base {
            return None;
        }
        let next = at + 1;
        if next < starts.len() && starts[next].base <= address {
            return None;
        }
        Some(starts[at].segment as usize)
    }

    /// An equal index in memory of its own.
    pub(crate) fn copy(&self) -> Result<SegmentIndex, AllocError>
        ensures { IfOk result (λ copy. (kind : RingKind) (segments : List Segment) → IsIndex kind segments self.now → IsIndex kind segments copy) }
    {
        Ok(SegmentIndex {
            firsts: self.firsts.clone()?,
            starts: self.starts.clone()?,
            step: self.step,
        })
    }
}

/// Of each segment: how many data places lie before it.
fn first_places(alloc: Global, kind: RingKind, segments: &[Segment]) -> Result<Vec<u32>, AllocError>
    requires { length segments.now ≤ 64 }
    ensures { IfOk result (λ firsts. AreFirsts kind segments.now (length segments.now) firsts.items) }
{
    let mut firsts = Vec::new(alloc);
    let mut places = 0;
    for segment in segments {
        firsts.push(places)?;
        places += u32::from(data_blocks(kind, *segment));
    }
    Ok(firsts)
}

/// A number of which each segment has a multiple of data places: what all have, if they have as many, else 1.
fn common_step(kind: RingKind, segments: &[Segment]) -> u32
    ensures { AreMultiples kind segments.now result }
{
    let first = match segments.first() {
        Some(segment) => data_blocks(kind, *segment),
        None => 1,
    };
    if first > 0 && are_of(kind, segments, first) {
        u32::from(first)
    } else {
        1
    }
}

/// Whether each segment has so many data places.
fn are_of(kind: RingKind, segments: &[Segment], places: u16) -> bool
    ensures { result ≡ list_all (λ s. data_count kind s == places) segments.now }
{
    segments
        .iter()
        .all(|segment| data_blocks(kind, *segment) == places)
}

/// Where each segment starts, in order.
fn starts_of(alloc: Global, segments: &[Segment]) -> Result<Vec<Start>, AllocError>
    requires { length segments.now ≤ 64 }
    ensures { IfOk result (λ starts. AreStarts segments.now (length segments.now) starts.items) }
{
    let mut starts = Vec::new(alloc);
    for (number, segment) in segments.iter().enumerate() {
        starts.push(Start {
            base: segment.base,
            segment: number as u32,
        })?;
    }
    Ok(starts)
}
