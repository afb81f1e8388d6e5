ghost use Rattle.std.specs.Prelude.{◌≡◌, ◌+◌, ◌<◌, ◌≤◌, ◌*◌, ◌^◌, ◌==◌, ◌↔◌, false, length, map, slice_index, IfOk, IfSome};
ghost use Rattle.segments.specs.PlaceAt.{place_at, IsLinkOf};
ghost use Rattle.std.specs.List.{list_any};
ghost use Rattle.segments.specs.Index.{IsNear};
ghost use Rattle.segments.specs.Places.{address_of, cycle_of, link_crossed, link_target, links, place_count, place_of, toggles, touches};
ghost use Rattle.segments.specs.Shape.{IsShape, is_shape, rings_overlap};
ghost use Rattle.segments.specs.ShapeValue.{segment_of, shape_of};

mod growth;

use crate::fault::ShapeFault;
use crate::index::SegmentIndex;
use crate::place::Place;
use crate::rules::{count_places, data_blocks, is_shape};
use crate::segment::Segment;
use std::alloc::{AllocError, Global};
use std::marker::Model;
use trb::RingKind;

/// The shape of a ring: what it carries, and its segments in order. Contracts see a `Shape`.
#[derive(Debug, Drop)]
pub struct RingShape {
    kind: RingKind,
    segments: Vec<Segment>,
    /// How many data places there are.
    places: u32,
    /// What is added to a position before its place and lap are counted: 0, until the ring has grown behind its first lap.
    offset: u64,
    /// Finds one of the segments.
    index: SegmentIndex,
}

impl Model for RingShape {
    ghost use Rattle.std.specs.Prelude.{◌≡◌};
    ghost use Rattle.segments.specs.Places.{place_count};
    ghost use Rattle.segments.specs.ShapeValue.{Shape};
    ghost use Rattle.segments.specs.Shape.{IsShape};
    ghost use Rattle.segments.specs.Index.{IsIndex};

    ghost Value = { Shape };

    ghost view = { λ s. record { kind = s.kind; segments = s.segments.items; offset = s.offset } };

    ghost invariant = { λ s.
        let shape : Shape = record { kind = s.kind; segments = s.segments.items; offset = s.offset } in
        record {
          allowed : IsShape shape;
          count : s.places ≡ place_count shape;
          found : IsIndex s.kind s.segments.items s.index;
        } };
}

fn segments_of(alloc: Global, pairs: &[(u64, u16)]) -> Result<Vec<Segment>, AllocError>
    ensures { IfOk result (λ segments. segments.items ≡ map segment_of pairs.now) }
{
    pairs
        .iter()
        .map(|&(base, count)| Segment { base, count })
        .collect(alloc)
}

/// The same segments in memory of their own.
fn copied(segments: &Vec<Segment>) -> Result<Vec<Segment>, AllocError>
    ensures { IfOk result (λ copy. copy.items ≡ segments.now.items) }
{
    segments.clone()
}

impl RingShape {
    /// The shape with these segments, each by its first address and its number of blocks.
    pub fn new(
        alloc: Global,
        kind: RingKind,
        segments: &[(u64, u16)],
    ) -> Result<RingShape, ShapeFault>
        ensures value { IfOk result (λ shape. shape ≡ shape_of kind segments.now) }
        ensures allowed { IfOk result IsShape }
        ensures refused { (result ≡ Err ShapeFault.Shape) ↔ (is_shape (shape_of kind segments.now) ≡ false) }
    {
        if !is_shape(kind, segments) {
            return Err(ShapeFault::Shape);
        }
        let places = count_places(kind, segments);
        let segments = segments_of(alloc, segments)?;
        let index = SegmentIndex::new(alloc, kind, segments.as_slice())?;
        Ok(RingShape {
            kind,
            segments,
            places,
            offset: 0,
            index,
        })
    }

    /// What the ring carries.
    pub fn kind(&self) -> RingKind
        ensures { result ≡ self.now.kind }
    {
        self.kind
    }

    /// The segments, in order.
    pub fn segments(&self) -> &[Segment]
        ensures { result.now ≡ self.now.segments }
    {
        self.segments.as_slice()
    }

    /// Places and laps are counted from position 0: it hasn't grown behind its first lap.
    pub fn is_unmoved(&self) -> bool
        ensures { result ≡ (self.now.offset == 0) }
    {
        self.offset == 0
    }

    /// How many data places there are.
    pub fn places(&self) -> u32
        ensures count { result ≡ place_count self.now }
        ensures least { 2 ≤ result }
        ensures most { result ≤ 64 * 4096 }
        ensures allowed { IsShape self.now }
    {
        self.places
    }

    /// The data place of a position, from 0 on (xHCI 4.9.2).
    #[inline(always)]
    pub fn place(&self, position: u64) -> u32
        ensures value { result ≡ place_of self.now position }
        ensures fits { result < place_count self.now }
    {
        if self.offset == 0 {
            return (position % u64::from(self.places)) as u32;
        }
        self.moved_place(position)
    }

    /// The same, where the ring has grown behind its first lap.
    #[inline(never)]
    fn moved_place(&self, position: u64) -> u32
        ensures value { result ≡ place_of self.now position }
        ensures fits { result < place_count self.now }
    {
        let places = u64::from(self.places);
        ((position % places + self.offset % places) % places) as u32
    }

    /// The least position from another one on at a data place.
    #[inline(always)]
    pub fn next_at(&self, from: u64, place: u32) -> u64
        requires place { place < place_count self.now }
        requires fits { from + place_count self.now < 2 ^ 64 }
        ensures from { from ≤ result }
        ensures within { result < from + place_count self.now }
        ensures place { place_of self.now result ≡ place }
        ensures allowed { IsShape self.now }
    {
        from + u64::from(self.ahead(from, place))
    }

    /// How far that position is ahead of the other one: less than a lap.
    #[inline(always)]
    pub fn ahead(&self, from: u64, place: u32) -> u32
        requires { place < place_count self.now }
        ensures within { result < place_count self.now }
        ensures place { place_of self.now (from + result) ≡ place }
        ensures allowed { IsShape self.now }
    {
        let reached = self.place(from);
        if place < reached {
            place + (self.places - reached)
        } else {
            place - reached
        }
    }

    /// The address at which a position lies.
    pub fn address(&self, position: u64) -> u64
        ensures { result ≡ address_of self.now position }
    {
        let place = self.place(position);
        let number = self.index.segment_of(place);
        let block = place - self.index.firsts[number];
        self.segments[number].base + 16 * u64::from(block)
    }

    /// The Cycle bit of a position (xHCI 4.9.2).
    pub fn cycle(&self, position: u64) -> bool
        ensures { result ≡ (cycle_of self.now position == 1) }
    {
        if self.offset == 0 {
            return position / u64::from(self.places) % 2 == 0;
        }
        self.moved_cycle(position)
    }

    /// The same, where the ring has grown behind its first lap.
    #[inline(never)]
    fn moved_cycle(&self, position: u64) -> bool
        ensures { result ≡ (cycle_of self.now position == 1) }
    {
        let places = u64::from(self.places);
        let offset = self.offset;
        let laps = position / places + offset / places;
        let more = (position % places + offset % places) / places;
        (laps + more) % 2 == 0
    }

    /// The word with this address, where it is one of the ring's blocks.
    #[inline(always)]
    pub fn place_at(&self, address: u64) -> Option<Place>
        ensures value { result ≡ place_at self.now address }
        ensures link { IfSome result (IsLinkOf self.now) }
        ensures allowed { IsShape self.now }
    {
        let kind = self.kind;
        if address % 4 != 0 {
            return None;
        }
        let number = self.segment_near(address)?;
        let segment = self.segments[number];
        let block = segment.block_at(address)?;
        let word = (address % 16 / 4) as u8;
        Some(if block < data_blocks(kind, segment) {
            Place::Data {
                place: self.index.firsts[number] + u32::from(block),
                word,
            }
        } else {
            Place::Link {
                segment: number as u32,
                word,
            }
        })
    }

    /// The number of the one segment that may have a byte; none where none may.
    #[inline(always)]
    fn segment_near(&self, address: u64) -> Option<usize>
        ensures near { IsNear self.now.segments address result }
        ensures allowed { IsShape self.now }
    {
        // most rings have one segment alone
        if self.segments.len() == 1 {
            return Some(0);
        }
        self.index.last_start(address)
    }

    /// Whether a segment has one of `len` bytes from `at` on; of no bytes none has one. Nothing wraps.
    pub fn overlaps(&self, at: u64, len: u64) -> bool
        ensures { result ≡ touches self.now at len }
    {
        if len == 0 {
            return false;
        }
        // behind the address space nothing starts
        let last = at.saturating_add(len.saturating_sub(1));
        let Some(number) = self.index.last_start(last) else {
            return false;
        };
        self.segments[number].touches(at, len)
    }

    /// Whether a segment of one overlaps one of the other.
    pub fn overlaps_ring(&self, other: &RingShape) -> bool
        ensures { result ≡ rings_overlap self.now other.now }
    {
        some_touches(self, other)
    }

    /// The Link that is crossed on the way to position `q`, by the number of its segment (xHCI 4.11.5.1).
    #[inline(always)]
    pub fn crossing(&self, q: u64) -> Option<u32>
        ensures value { result ≡ link_crossed self.now q }
        ensures link { IfSome result (λ segment. segment < length (links self.now)) }
    {
        // behind most places no segment ends
        if self.offset == 0 && q % u64::from(self.index.step) != 0 {
            return None;
        }
        self.crossing_by_segment(q)
    }

    /// The same, by the segment that has the place before it.
    #[inline(never)]
    fn crossing_by_segment(&self, q: u64) -> Option<u32>
        ensures value { result ≡ link_crossed self.now q }
        ensures link { IfSome result (λ segment. segment < length (links self.now)) }
    {
        if q == 0 || self.kind == RingKind::Evt {
            return None;
        }
        let last = self.place(q - 1);
        let number = self.index.segment_of(last);
        let data = data_blocks(self.kind, self.segments[number]);
        let end = self.index.firsts[number] + u32::from(data);
        if end == last + 1 {
            Some(number as u32)
        } else {
            None
        }
    }

    /// How many Links the ring has: one a segment, and an event ring none.
    pub fn links(&self) -> u32
        ensures { result ≡ length (links self.now) }
    {
        match self.kind {
            RingKind::Evt => 0,
            RingKind::Cmd | RingKind::Xfer => self.segments.len() as u32,
        }
    }

    /// The address of the Link of a segment.
    pub fn link(&self, segment: u32) -> u64
        requires { segment < length (links self.now) }
        ensures { result ≡ slice_index (links self.now) segment }
    {
        let segment = self.segments[segment as usize];
        segment.base + 16 * u64::from(data_blocks(self.kind, segment))
    }

    /// Where the Link of a segment leads: the base of the next segment, behind the last one of the first.
    pub fn target(&self, segment: u32) -> u64
        requires { segment < length (links self.now) }
        ensures { result ≡ link_target self.now segment }
    {
        let next = (segment as usize + 1) % self.segments.len();
        self.segments[next].base
    }

    /// Whether the Link of a segment toggles the cycle: that of the last one does.
    pub fn toggles(&self, segment: u32) -> bool
        requires { segment < length (links self.now) }
        ensures { result ≡ toggles self.now segment }
    {
        segment as usize + 1 == self.segments.len()
    }

    /// An equal shape in memory of its own.
    pub fn copy(&self) -> Result<RingShape, AllocError>
        ensures { IfOk result (λ shape. shape ≡ self.now) }
    {
        Ok(RingShape {
            kind: self.kind,
            segments: copied(&self.segments)?,
            places: self.places,
            offset: self.offset,
            index: self.index.copy()?,
        })
    }
}

/// Whether one of a ring's segments has a byte of the other ring.
fn some_touches(ring: &RingShape, other: &RingShape) -> bool
    ensures touched { result ≡ list_any (λ s. touches other.now s.base (16 * s.count)) ring.now.segments }
    ensures allowed { IsShape ring.now }
{
    ring.segments.iter().any(|segment| other.overlaps(segment.base, 16 * u64::from(segment.count)))
}
