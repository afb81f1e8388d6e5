//! Where the leases of ranges of bytes stand in the book (xHCI 4.6.5, 4.9.4, 6.1, 6.5).
ghost use Rattle.std.specs.Prelude.{◌≡◌, ℕ, [], ◌∷◌, true, List, length, map, OnOk};
ghost use Rattle.traces.specs.declared.header.Header.{Header};
ghost use Rattle.traces.specs.Header.{command_id, shape_of};
ghost use Rattle.ring_knowledge.specs.declared.lease.Lease.{Lease};
ghost use Rattle.ownership_rules.specs.OpenLeases.{Range, Use, DeviceContext, InputContext, SegmentTable, SlotEntry, is_among, same_leased};
ghost use Rattle.leases.specs.LeaseBooks.Lents.{Lent, ended_where, lents, with_begun};

use crate::book::indexes::Indexes;
use crate::book::lease_log::LeaseLog;
use crate::book::opening::segment_leases;
use segments::Segment;
use std::alloc::{AllocError, Global};
use traces::Ring;

/// Where the open leases of ranges stand in a book of leases.
#[derive(Drop)]
pub struct RangeIndexes {
    /// By the place of the command on its ring: of input contexts.
    pub contexts: Indexes,
    /// By slot: of entries of the DCBAA.
    pub entries: Indexes,
    /// By slot: of device contexts.
    pub devices: Indexes,
    /// Of the segment table.
    pub table: usize,
    /// Of the first of the event ring's segments, which the others follow in their order.
    pub segments: usize,
}

impl RangeIndexes {
    ghost use Rattle.leases.specs.LeaseBooks.Ranges.{FindsRanges, StandFrom, is_lent, is_use_free, segments_in_turn};

    /// Before the first row the event ring's segments alone are under lease.
    pub fn new(alloc: Global) -> RangeIndexes
        ensures { (h : Header) (first : ℕ) → FindsRanges h (lents h first []) result }
    {
        RangeIndexes {
            contexts: Indexes::new(alloc),
            entries: Indexes::new(alloc),
            devices: Indexes::new(alloc),
            table: 0,
            segments: 0,
        }
    }

    /// The lease of an input context begins at a row: that of the command at a position of the command ring.
    pub fn begin_context<B: LeaseLog>(
        &mut self,
        book: &mut B,
        row: u32,
        ring: &Ring,
        position: u64,
        bytes: u32,
        address: u64,
    ) -> Result<(), AllocError>
        ensures held { OnOk result ((list : List Lease) (h : Header) (ts : List Lent) (purpose : Use) → B.holds list h ts book.old → B.holds list h (with_begun row ts (Range bytes address purpose ∷ [])) book.new) }
        ensures found { OnOk result ((list : List Lease) (h : Header) (ts : List Lent) → shape_of h (command_id h) ≡ ring.now.shape → B.holds list h ts book.old → FindsRanges h ts self.old →
            is_use_free h ts (InputContext position) ≡ true → FindsRanges h (with_begun row ts (Range bytes address (InputContext position) ∷ [])) self.new) }
    {
        let index = book.count();
        self.contexts.put(ring.shape.place(position), index)?;
        book.begin_range(row, bytes, address)
    }

    /// The lease of an input context ends at a row: that of the command at a position of the command ring. It is open.
    pub fn end_context<B: LeaseLog>(
        &self,
        book: &mut B,
        row: u32,
        ring: &Ring,
        position: u64,
        bytes: u32,
        address: u64,
    )
        ensures { (list : List Lease) (h : Header) (ts : List Lent) → shape_of h (command_id h) ≡ ring.now.shape → B.holds list h ts book.old → FindsRanges h ts self.now →
            is_lent ts (Range bytes address (InputContext position)) ≡ true →
            B.holds list h (map (ended_where (same_leased (Range bytes address (InputContext position))) row) ts) book.new }
    {
        let index = self.contexts.get(ring.shape.place(position));
        book.end_range(index, row, bytes, address);
    }

    /// The lease of a slot's entry in the DCBAA begins at a row.
    pub fn begin_entry<B: LeaseLog>(
        &mut self,
        book: &mut B,
        row: u32,
        slot: u8,
        bytes: u32,
        address: u64,
    ) -> Result<(), AllocError>
        ensures held { OnOk result ((list : List Lease) (h : Header) (ts : List Lent) (purpose : Use) → B.holds list h ts book.old → B.holds list h (with_begun row ts (Range bytes address purpose ∷ [])) book.new) }
        ensures found { OnOk result ((list : List Lease) (h : Header) (ts : List Lent) → B.holds list h ts book.old → FindsRanges h ts self.old →
            is_use_free h ts (SlotEntry slot) ≡ true → FindsRanges h (with_begun row ts (Range bytes address (SlotEntry slot) ∷ [])) self.new) }
    {
        let index = book.count();
        self.entries.put(u32::from(slot), index)?;
        book.begin_range(row, bytes, address)
    }

    /// The lease of a slot's entry in the DCBAA ends at a row. It is open.
    pub fn end_entry<B: LeaseLog>(&self, book: &mut B, row: u32, slot: u8, bytes: u32, address: u64)
        ensures { (list : List Lease) (h : Header) (ts : List Lent) → B.holds list h ts book.old → FindsRanges h ts self.now →
            is_lent ts (Range bytes address (SlotEntry slot)) ≡ true →
            B.holds list h (map (ended_where (same_leased (Range bytes address (SlotEntry slot))) row) ts) book.new }
    {
        let index = self.entries.get(u32::from(slot));
        book.end_range(index, row, bytes, address);
    }

    /// The lease of a slot's device context begins at a row.
    pub fn begin_device<B: LeaseLog>(
        &mut self,
        book: &mut B,
        row: u32,
        slot: u8,
        bytes: u32,
        address: u64,
    ) -> Result<(), AllocError>
        ensures held { OnOk result ((list : List Lease) (h : Header) (ts : List Lent) (purpose : Use) → B.holds list h ts book.old → B.holds list h (with_begun row ts (Range bytes address purpose ∷ [])) book.new) }
        ensures found { OnOk result ((list : List Lease) (h : Header) (ts : List Lent) → B.holds list h ts book.old → FindsRanges h ts self.old →
            is_use_free h ts (DeviceContext slot) ≡ true → FindsRanges h (with_begun row ts (Range bytes address (DeviceContext slot) ∷ [])) self.new) }
    {
        let index = book.count();
        self.devices.put(u32::from(slot), index)?;
        book.begin_range(row, bytes, address)
    }

    /// The lease of a slot's device context ends at a row. It is open.
    pub fn end_device<B: LeaseLog>(
        &self,
        book: &mut B,
        row: u32,
        slot: u8,
        bytes: u32,
        address: u64,
    )
        ensures { (list : List Lease) (h : Header) (ts : List Lent) → B.holds list h ts book.old → FindsRanges h ts self.now →
            is_lent ts (Range bytes address (DeviceContext slot)) ≡ true →
            B.holds list h (map (ended_where (same_leased (Range bytes address (DeviceContext slot))) row) ts) book.new }
    {
        let index = self.devices.get(u32::from(slot));
        book.end_range(index, row, bytes, address);
    }

    /// The lease of the segment table begins at a row.
    pub fn begin_table<B: LeaseLog>(
        &mut self,
        book: &mut B,
        row: u32,
        bytes: u32,
        address: u64,
    ) -> Result<(), AllocError>
        ensures held { OnOk result ((list : List Lease) (h : Header) (ts : List Lent) (purpose : Use) → B.holds list h ts book.old → B.holds list h (with_begun row ts (Range bytes address purpose ∷ [])) book.new) }
        ensures found { OnOk result ((list : List Lease) (h : Header) (ts : List Lent) → B.holds list h ts book.old → FindsRanges h ts self.old →
            is_use_free h ts SegmentTable ≡ true → FindsRanges h (with_begun row ts (Range bytes address SegmentTable ∷ [])) self.new) }
    {
        self.table = book.count();
        book.begin_range(row, bytes, address)
    }

    /// The lease of the segment table ends at a row. It is open.
    pub fn end_table<B: LeaseLog>(&self, book: &mut B, row: u32, bytes: u32, address: u64)
        ensures { (list : List Lease) (h : Header) (ts : List Lent) → B.holds list h ts book.old → FindsRanges h ts self.now →
            is_lent ts (Range bytes address SegmentTable) ≡ true →
            B.holds list h (map (ended_where (same_leased (Range bytes address SegmentTable)) row) ts) book.new }
    {
        book.end_range(self.table, row, bytes, address);
    }

    /// The leases of an event ring's segments begin at a row, in their order.
    pub fn begin_segments<B: LeaseLog>(
        &mut self,
        alloc: Global,
        book: &mut B,
        row: u32,
        segments: &[Segment],
    ) -> Result<(), AllocError>
        ensures held { OnOk result ((list : List Lease) (h : Header) (ts : List Lent) → B.holds list h ts book.old → B.holds list h (with_begun row ts (segments_in_turn segments.now)) book.new) }
        ensures first { (list : List Lease) (h : Header) (ts : List Lent) → B.holds list h ts book.old → self.new.segments ≡ length ts }
        ensures others { self.new ≡ record self.old { segments = self.new.segments } }
    {
        self.segments = book.count();
        let leases = segment_leases(alloc, segments)?;
        for lease in leases.as_slice() {
            book.begin_range(row, lease.ring, lease.pos)?;
        }
        Ok(())
    }

    /// The leases of an event ring's segments end at a row. They are open.
    pub fn end_segments<B: LeaseLog>(
        &self,
        alloc: Global,
        book: &mut B,
        row: u32,
        segments: &[Segment],
    ) -> Result<(), AllocError>
        ensures { OnOk result ((list : List Lease) (h : Header) (ts : List Lent) → B.holds list h ts book.old → StandFrom ts (segments_in_turn segments.now) self.now.segments →
            B.holds list h (map (ended_where (is_among (segments_in_turn segments.now)) row) ts) book.new) }
    {
        let leases = segment_leases(alloc, segments)?;
        for (place, lease) in leases.iter().enumerate() {
            let Some(index) = self.segments.checked_add(place) else {
                return Err(AllocError);
            };
            book.end_range(index, row, lease.ring, lease.pos);
        }
        Ok(())
    }
}
