ghost use Rattle.std.specs.Prelude.{◌≡◌, ◌==◌, ◌+◌, ◌<◌, ◌≤◌, ◌/◌, ◌%◌, ◌++◌, ℕ, List, length, map, position, true, IfNone, IfOk, IfSome, OnOk};
ghost use Rattle.std.specs.Bool.{OnTrue};
ghost use Rattle.std.specs.List.{Contains};
ghost use Rattle.segments.specs.Places.{touches};
ghost use Rattle.traces.specs.Header.{is_command_kind, is_event_kind, ring_having};
ghost use Rattle.traces.specs.AllowedHeaders.{IsHeader, may_stand_together};
ghost use Rattle.traces.specs.declared.ring.Ring.{Ring};
ghost use Rattle.trace_record.specs.RingFinder.Finding.{AreHints, AreNumbers, IsFinder, IsRingBefore, slot_of, start_of, starts_from};
ghost use Rattle.trace_record.specs.declared.ring_finder.finder.Start.{Start as StartValue};

use crate::ring_finder::kinds::{is_command_ring, is_event_ring, is_transfer_ring};
use std::alloc::{AllocError, Global};
use traces::{Header, Ring};

/// The first address of a segment, how many bytes it has, and the number of its ring in the header.
#[derive(Clone, Copy)]
pub struct Start {
    pub address: u64,
    pub bytes: u64,
    pub ring: usize,
}

/// The bytes of a page: no segment crosses a multiple of it.
const PAGE: u64 = 1 << 16;

/// The bytes of a small page: Linux's segments are such pages, side by side.
const SMALL_PAGE: u64 = 1 << 12;

/// How many hints there are by pages, and by small pages.
const HINTS: u64 = 1024;

/// The hint of a page without segments.
const NOTHING: usize = usize::MAX;

/// Finds rings of a header by ID and by address, in a time that hardly grows with their number.
#[derive(Drop)]
pub struct Finder {
    /// By ID: the number of the ring that has it.
    pub numbers: Vec<Option<usize>>,
    /// The segments of all rings, by rising address.
    pub starts: Vec<Start>,
    /// By what an address leaves: where one of the segments stands that start on such a page.
    pub hints: Vec<usize>,
    /// The same by small pages. Nothing is asked of these hints: a segment that has an address proves itself.
    pub near: Vec<usize>,
    /// The number of the command ring, where there is one.
    pub commands: Option<usize>,
    /// The number of the event ring, where there is one.
    pub events: Option<usize>,
}

impl Finder {
    /// A finder of these rings.
    pub fn new(alloc: Global, header: &Header) -> Result<Finder, AllocError>
        requires { IsHeader header.now }
        ensures { IfOk result (IsFinder header.now.rings) }
    {
        let rings = header.rings.as_slice();
        let numbers = ring_numbers(alloc, rings)?;
        let mut starts = all_starts(alloc, rings)?;
        starts.sort_unstable_by_key(|start| start.address);
        let mut hints = no_hints(alloc)?;
        let mut near = no_hints(alloc)?;
        note_hints(&mut hints, &mut near, starts.as_slice());
        let commands = command_number(rings);
        let events = event_number(rings);
        Ok(Finder {
            numbers,
            starts,
            hints,
            near,
            commands,
            events,
        })
    }

    /// The number of the ring with this ID.
    pub fn ring_named(&self, id: u8) -> Option<usize>
        ensures { (rings : List Ring) → IsFinder rings self.now → result ≡ position (λ ring. ring.id == id) rings }
    {
        self.numbers.get(usize::from(id)).copied().flatten()
    }

    /// The number of the ring that has the word at this address.
    #[inline(always)]
    pub fn ring_at(&self, header: &Header, address: u64) -> Option<usize>
        requires headed { IsHeader header.now }
        requires found { IsFinder header.now.rings self.now }
        requires aligned { address % 4 ≡ 0 }
        ensures { result ≡ position (λ ring. touches ring.shape address 4) header.now.rings }
    {
        let Some(start) = self.start_on_page(header, address) else {
            return None;
        };
        if has(start, address) {
            return Some(start.ring);
        }
        if let Some(near) = self.start_near(header, address) {
            if has(near, address) {
                return Some(near.ring);
            }
        }
        self.ring_by_search(header, address)
    }

    /// A segment on a page that leaves the same hint as that of an address; none where no segment is on its page.
    fn start_on_page(&self, header: &Header, address: u64) -> Option<Start>
        requires { IsFinder header.now.rings self.now }
        ensures some { IfSome result (λ start. Contains self.now.starts.items start) }
        ensures none { IfNone result ((start : StartValue) → Contains self.now.starts.items start → start.address / 65536 ≡ address / 65536 → ⊥) }
    {
        let hint = self.hints[slot(address)];
        self.starts.get(hint).copied()
    }

    /// A segment that may start on the small page of an address.
    fn start_near(&self, header: &Header, address: u64) -> Option<Start>
        requires { IsFinder header.now.rings self.now }
        ensures { IfSome result (λ start. Contains self.now.starts.items start) }
    {
        let hint = self.near[near_slot(address)];
        self.starts.get(hint).copied()
    }

    /// The number of the ring that has the word at this address, by a search.
    #[inline(never)]
    fn ring_by_search(&self, header: &Header, address: u64) -> Option<usize>
        requires headed { IsHeader header.now }
        requires found { IsFinder header.now.rings self.now }
        requires aligned { address % 4 ≡ 0 }
        ensures { result ≡ position (λ ring. touches ring.shape address 4) header.now.rings }
    {
        let Some(number) = self.ring_before(header, address) else {
            return None;
        };
        let rings = header.rings.as_slice();
        if rings[number].shape.overlaps(address, 4) {
            Some(number)
        } else {
            None
        }
    }

    /// The ID of the transfer ring that has a block at this address.
    pub fn ring_having(&self, header: &Header, address: u64) -> Option<u8>
        requires headed { IsHeader header.now }
        requires found { IsFinder header.now.rings self.now }
        ensures { result ≡ ring_having header.now address }
    {
        let word = address - address % 4;
        let Some(number) = self.ring_at(header, word) else {
            return None;
        };
        let rings = header.rings.as_slice();
        let ring = &rings[number];
        if is_transfer_ring(ring) {
            Some(ring.id)
        } else {
            None
        }
    }

    /// The number of the ring whose segment is the last one that starts at or before this address.
    fn ring_before(&self, header: &Header, address: u64) -> Option<usize>
        requires headed { IsHeader header.now }
        requires found { IsFinder header.now.rings self.now }
        ensures below { IfSome result (λ number. number < length header.now.rings) }
        ensures last { IsRingBefore self.now.starts.items address result }
    {
        let starts = self.starts.as_slice();
        let after = starts.partition_point(|start| start.address <= address);
        if after == 0 {
            return None;
        }
        Some(starts[after - 1].ring)
    }
}

/// Whether a segment has the byte at an address.
fn has(start: Start, address: u64) -> bool
    ensures { OnTrue result ((start.address ≤ address) × (address < start.address + start.bytes)) }
{
    address >= start.address && address - start.address < start.bytes
}

/// Where the hint for an address stands. Pages that lie side by side, or as far apart as the rings of many traces, have hints of their own.
fn slot(address: u64) -> usize
    ensures value { result ≡ slot_of address }
    ensures below { result < 1024 }
{
    let page = address / PAGE;
    ((page + page / 256) % HINTS) as usize
}

/// The same by small pages.
fn near_slot(address: u64) -> usize
    ensures { result < 1024 }
{
    let page = address / SMALL_PAGE;
    ((page + page / 256) % HINTS) as usize
}

/// Hints of no segments.
fn no_hints(alloc: Global) -> Result<Vec<usize>, AllocError>
    ensures { IfOk result (λ hints. length hints.items ≡ 1024) }
{
    Ok(vec![in alloc; NOTHING; HINTS as usize]?)
}

/// Writes the hints of segments, by pages and by small pages, over those that were there.
pub(crate) fn note_hints(hints: &mut Vec<usize>, near: &mut Vec<usize>, starts: &[Start])
    requires hints { length hints.now.items ≡ 1024 }
    requires near { length near.now.items ≡ 1024 }
    ensures hints { AreHints starts.now (length starts.now) hints.new.items }
    ensures near { length near.new.items ≡ 1024 }
{
    for (number, start) in starts.iter().enumerate() {
        hints[slot(start.address)] = number;
        near[near_slot(start.address)] = number;
    }
}

/// The number of the command ring, where there is one.
fn command_number(rings: &[Ring]) -> Option<usize>
    ensures { result ≡ position (λ ring. is_command_kind ring.shape.kind) rings.now }
{
    rings.iter().position(|ring| is_command_ring(ring))
}

/// The number of the event ring, where there is one.
fn event_number(rings: &[Ring]) -> Option<usize>
    ensures { result ≡ position (λ ring. is_event_kind ring.shape.kind) rings.now }
{
    rings.iter().position(|ring| is_event_ring(ring))
}

/// By ID: the number of the ring that has it.
fn ring_numbers(alloc: Global, rings: &[Ring]) -> Result<Vec<Option<usize>>, AllocError>
    requires { may_stand_together rings.now ≡ true }
    ensures { IfOk result (λ numbers. AreNumbers rings.now (length rings.now) numbers.items) }
{
    let mut numbers = vec![in alloc; None; 256]?;
    for (number, ring) in rings.iter().enumerate() {
        numbers[usize::from(ring.id)] = Some(number);
    }
    Ok(numbers)
}

/// The segments of all rings, ring by ring.
fn all_starts(alloc: Global, rings: &[Ring]) -> Result<Vec<Start>, AllocError>
    ensures { IfOk result (λ starts. starts.items ≡ starts_from 0 rings.now) }
{
    let mut starts = Vec::new(alloc);
    for (number, ring) in rings.iter().enumerate() {
        push_starts(&mut starts, ring, number)?;
    }
    Ok(starts)
}

/// Adds the segments of a ring.
fn push_starts(starts: &mut Vec<Start>, ring: &Ring, number: usize) -> Result<(), AllocError>
    ensures { OnOk result (starts.new.items ≡ starts.old.items ++ map (start_of number) ring.now.shape.segments) }
{
    for segment in ring.shape.segments() {
        starts.push(Start {
            address: segment.base,
            bytes: 16 * u64::from(segment.count),
            ring: number,
        })?;
    }
    Ok(())
}
