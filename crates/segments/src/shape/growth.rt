//! Rings that grow in use: new segments are linked in behind one of theirs (xHCI 4.9.2.3).

ghost use Rattle.std.specs.Prelude.{◌≡◌, ◌+◌, ◌-◌, ◌*◌, ◌^◌, ◌<◌, ◌≤◌, ◌++◌, ◌↔◌, ℕ, false, length, map, take, drop, IfOk};
ghost use Rattle.std.specs.List.{list_any};
ghost use Rattle.std.specs.Option.{SomeIff};
ghost use Rattle.segments.specs.Growth.{grown};
ghost use Rattle.segments.specs.Places.{lap_of, touches};
ghost use Rattle.segments.specs.Shape.{IsShape, is_shape};
ghost use Rattle.segments.specs.ShapeValue.{segment_of};

use super::RingShape;
use crate::fault::ShapeFault;
use crate::index::SegmentIndex;
use crate::rules::{MOST_SEGMENTS, are_apart, are_segments, count_places};
use crate::segment::Segment;
use std::alloc::{AllocError, Global};

impl RingShape {
    /// The shape with new segments behind one, whose Link is crossed on the way to position `at`: the ring grows in use (xHCI 4.9.2.3).
    pub fn grown(
        &self,
        alloc: Global,
        behind: u32,
        segments: &[(u64, u16)],
        at: u64,
    ) -> Result<RingShape, ShapeFault>
        ensures value { IfOk result (λ shape. shape ≡ grown self.now behind (map segment_of segments.now) at) }
        ensures allowed { IfOk result IsShape }
        ensures refused { (result ≡ Err ShapeFault.Shape) ↔ (is_shape (grown self.now behind (map segment_of segments.now) at) ≡ false) }
    {
        if !self.may_have(segments) {
            return Err(ShapeFault::Shape);
        }
        Ok(self.with(alloc, behind, segments, at)?)
    }

    /// The same, where it may have these segments.
    fn with(
        &self,
        alloc: Global,
        behind: u32,
        segments: &[(u64, u16)],
        at: u64,
    ) -> Result<RingShape, AllocError>
        requires { IsShape (grown self.now behind (map segment_of segments.now) at) }
        ensures { IfOk result (λ shape. shape ≡ grown self.now behind (map segment_of segments.now) at) }
    {
        let more = count_places(self.kind, segments);
        let Some(offset) = self.moved_by(more, at) else {
            return Err(AllocError);
        };
        let split = (behind as usize + 1).min(self.segments.len());
        let segments = put_in(alloc, self.segments.as_slice(), split, segments)?;
        let index = SegmentIndex::new(alloc, self.kind, segments.as_slice())?;
        Ok(RingShape {
            kind: self.kind,
            segments,
            places: self.places + more,
            offset,
            index,
        })
    }

    /// Whether it may have these segments beside its own, behind whichever of these.
    #[tactic(auto, using(crate::proofs::Apart::is_shape_grown))]
    fn may_have(&self, segments: &[(u64, u16)]) -> bool
        ensures { (j q : ℕ) → result ≡ is_shape (grown self.now j (map segment_of segments.now) q) }
    {
        if segments.len() > MOST_SEGMENTS - self.segments.len()
            || !are_segments(self.kind, segments)
        {
            return false;
        }
        are_apart(segments) && !self.overlaps_any(segments)
    }

    /// Whether one of these segments has a byte of one of its own.
    fn overlaps_any(&self, segments: &[(u64, u16)]) -> bool
        ensures { result ≡ list_any (λ pair. touches self.now pair.0 (16 * pair.1)) segments.now }
    {
        segments.iter().any(|&(base, count)| self.overlaps(base, 16 * u64::from(count)))
    }

    /// The offset behind which so many more places a lap leave a position in its lap, if it fits.
    fn moved_by(&self, more: u32, at: u64) -> Option<u64>
        ensures { SomeIff result (self.now.offset + more * lap_of self.now (at - 1) < 2 ^ 64) (self.now.offset + more * lap_of self.now (at - 1)) }
    {
        let lap = self.lap(at.saturating_sub(1));
        u64::from(more).checked_mul(lap)?.checked_add(self.offset)
    }

    /// The lap of a position.
    #[tactic(auto, unfolding(crate::specs::Places::lap_of))]
    fn lap(&self, position: u64) -> u64
        ensures { result ≡ lap_of self.now position }
    {
        let ahead = u128::from(position) + u128::from(self.offset);
        (ahead / u128::from(self.places)) as u64
    }
}

/// The segments with others behind the first `split` of them.
fn put_in(
    alloc: Global,
    segments: &[Segment],
    split: usize,
    others: &[(u64, u16)],
) -> Result<Vec<Segment>, AllocError>
    requires { split ≤ length segments.now }
    ensures { IfOk result (λ all. all.items ≡ take split segments.now ++ map segment_of others.now ++ drop split segments.now) }
{
    let (first, rest) = segments.split_at(split);
    let others = others.iter().map(|&(base, count)| Segment { base, count });
    first
        .iter()
        .copied()
        .chain(others)
        .chain(rest.iter().copied())
        .collect(alloc)
}
