//! The segments of the rings so far, by where they start.

ghost use Rattle.std.specs.Prelude.{◌≡◌, ◌<◌, ◌||◌, Bool, true, false, [], nat_lt, OnOk};
ghost use Rattle.std.specs.List.{list_all, list_any};
ghost use Rattle.segments.specs.declared.segment.Segment.{Segment};
ghost use Rattle.segments.specs.Shape.{are_apart, segments_overlap};

use segments::Segment;
use std::alloc::{AllocError, Global};
use std::collections::BTreeMap;
use std::marker::Model;

/// Segments of which no two have a byte in common. Finds in a time that hardly grows with their number, and in any order of their
/// addresses, whether one of them overlaps another segment. Contracts see a list of them.
#[derive(Drop)]
pub struct SegmentsSoFar {
    /// How many blocks each has, by its first address.
    counts: BTreeMap<u64, u16>,
}

impl Model for SegmentsSoFar {
    ghost use Rattle.std.specs.Prelude.{List, map};
    ghost use Rattle.segments.specs.ShapeValue.{segment_of};
    ghost use Rattle.segments.specs.declared.segment.Segment.{Segment};
    ghost use Rattle.trace_reader.specs.SegmentsApart.{LieApart};

    ghost Value = { List Segment };

    ghost view = { λ s. map segment_of s.counts.entries };

    ghost invariant = { λ s. LieApart s.counts.entries };
}

impl SegmentsSoFar {
    /// There are none.
    pub fn new(alloc: Global) -> SegmentsSoFar
        ensures { result ≡ [] }
    {
        SegmentsSoFar {
            counts: BTreeMap::new(alloc),
        }
    }

    /// One of them has a byte of this segment. It is the last one to start before this one's end, if any is: those before it end where it
    /// starts, or earlier.
    pub fn overlaps(&self, segment: Segment) -> bool
        ensures { result ≡ list_any (segments_overlap segment) self.now }
    {
        let bytes = 16 * u64::from(segment.count);
        let last = segment.base.saturating_add(bytes.saturating_sub(1));
        let Some((&base, &count)) = self.counts.range(..=last).next_back() else {
            return false;
        };
        segment.overlaps(Segment { base, count })
    }

    /// One of them has a byte of one of these segments.
    pub fn overlaps_any(&self, segments: &[Segment]) -> bool
        ensures { result ≡ list_any (λ s. list_any (segments_overlap s) self.now) segments.now }
    {
        segments.iter().any(|segment| self.overlaps(*segment))
    }

    /// The segments of a ring more. At want of memory some of them may be there.
    pub fn add_all(&mut self, segments: &[Segment]) -> Result<(), AllocError>
        requires some { list_all (λ s. nat_lt 0 s.count) segments.now ≡ true }
        requires apart { are_apart segments.now ≡ true }
        requires free { list_any (λ s. list_any (segments_overlap s) self.old) segments.now ≡ false }
        ensures { OnOk result ((p : Segment → Bool) → list_any p self.new ≡ (list_any p segments.now || list_any p self.old)) }
    {
        for segment in segments {
            self.add(*segment)?;
        }
        Ok(())
    }

    /// One segment more. Want of memory changes nothing.
    fn add(&mut self, segment: Segment) -> Result<(), AllocError>
        requires some { 0 < segment.count }
        requires free { list_any (segments_overlap segment) self.old ≡ false }
        ensures { OnOk result ((p : Segment → Bool) → list_any p self.new ≡ (p segment || list_any p self.old)) }
    {
        self.counts.insert(segment.base, segment.count)?;
        Ok(())
    }
}
