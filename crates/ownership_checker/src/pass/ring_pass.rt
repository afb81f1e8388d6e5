//! A pass over rows between which rings come and go, and descriptors are withdrawn.
ghost use Rattle.std.specs.Prelude.{◌≡◌, ◌+◌, ◌<◌, ◌≤◌, ℕ, true, false, [], ◌∷◌, List, All, length, reverse, IfErr, IfOk, OnOk};
ghost use Rattle.traces.specs.AllowedHeaders.{AreUnmoved, IsHeader};
ghost use Rattle.traces.specs.Limits.{most_streamed_lines};
ghost use Rattle.traces.specs.declared.header.Header.{Header};
ghost use Rattle.traces.specs.declared.row.Row.TheVariants.{Read, Ring as RingRow, Free as FreeRow};
ghost use Rattle.traces.specs.declared.row.Row.{Row};
ghost use Rattle.ring_knowledge.specs.declared.lease.Lease.{Lease};
ghost use Rattle.ring_knowledge.specs.Known.{Known};
ghost use Rattle.trace_record.specs.RingFinder.Finding.{IsFinder};
ghost use Rattle.ownership_rules.specs.Leases.{without_end};
ghost use Rattle.leases.specs.LeaseBooks.Lents.{lents};
ghost use Rattle.safety.specs.Harmless.{DoNoHarm};
ghost use Rattle.traces.specs.Rows.{IsComing, IsRow, is_ring_row};
ghost use Rattle.ring_knowledge.specs.Histories.{header_now, known_now};
ghost use Rattle.trace_record.specs.Steps.{IfRefused};
ghost use Rattle.trace_record.specs.RowPlaces.{IsPlaced};
ghost use Rattle.ownership_checker.specs.RingPasses.Clean.{IsLeastOfRow};
ghost use Rattle.ownership_checker.specs.RingPasses.KeptRows.{IsBehind};
ghost use Rattle.ownership_checker.specs.RingPasses.Passing.{IsRingLogged, IsRingPassed};

mod withdrawals;

use crate::pass::behind::Behind;
use crate::rows::check_row;
use driver_rows::{check_coming, check_going};
use guest_memory::WordMemory;
use leases::{LeaseLog, RangeIndexes, note_coming, note_going, note_row};
use ownership_rules::Refusal;
use std::alloc::{AllocError, Global};
use trace_record::{Finder, RowPlace, StepFault, TraceRecord};
use traces::{Header, Ring, Row};
use trb::{Block, BlockKind};

/// The place of a row that writes no word and ends no command.
const NOWHERE: RowPlace = RowPlace {
    ring: None,
    is_lent: false,
    giving: None,
    command: None,
};

/// What is known after the rows so far, the rings that are there, and the log of the leases.
#[derive(Drop)]
pub struct RingPass<B, M> {
    alloc: Global,
    header: Header,
    finder: Finder,
    record: TraceRecord,
    memory: M,
    log: B,
    ranges: RangeIndexes,
    /// Whether a descriptor was withdrawn: else nothing that was handed over is the driver's.
    has_withdrawn: bool,
}

impl<B: LeaseLog + Drop, M: WordMemory + Drop> RingPass<B, M> {
    /// Before the first row. The memory is all zero.
    pub fn new(
        alloc: Global,
        header: Header,
        log: B,
        memory: M,
    ) -> Result<RingPass<B, M>, AllocError>
        requires headed { IsHeader header }
        requires unmoved { AreUnmoved header.rings }
        requires zero { (a : ℕ) → M.words memory a ≡ 0 }
        ensures passed { IfOk result (IsRingPassed M.words header []) }
        ensures logged { IfOk result (λ pass. (list : List Lease) (first : ℕ) → B.holds list header (lents header first []) log → IsRingLogged (B.holds list) header first [] pass) }
    {
        let finder = Finder::new(alloc, &header)?;
        let record = TraceRecord::new(alloc, &header)?;
        Ok(RingPass {
            alloc,
            header,
            finder,
            record,
            memory,
            log,
            ranges: RangeIndexes::new(alloc),
            has_withdrawn: false,
        })
    }

    /// Checks one row more by its kind, and notes it and its leases.
    #[inline(always)]
    pub fn row(&mut self, number: u32, row: &Row) -> Result<(), StepFault>
        requires so_far { (h : Header) × (past : List Row) × IsRingPassed M.words h past self.old × (length past ≤ most_streamed_lines) }
        requires fits { IsRow row.now }
        ensures passed { OnOk result ((h : Header) (past : List Row) → IsRingPassed M.words h past self.old → IsRingPassed M.words h (row.now ∷ past) self.new) }
        ensures logged { OnOk result ((list : List Lease) (h : Header) (first : ℕ) (past : List Row) → IsRingPassed M.words h past self.old →
            number ≡ first + length past → first + length past < without_end →
            IsRingLogged (B.holds list) h first past self.old → IsRingLogged (B.holds list) h first (row.now ∷ past) self.new) }
        ensures refused { IfErr result (λ e. IfRefused e (λ c. (h : Header) (past : List Row) → IsRingPassed M.words h past self.old →
            IsLeastOfRow (header_now h past) (known_now h past) row.now c)) }
    {
        if self.has_withdrawn || is_of_ring(row) {
            return self.rare_row(number, row);
        }
        match row {
            Row::Write { at, word } => {
                let mut place = self
                    .record
                    .word_place(&self.header, &self.finder, *at, *word);
                self.record.add_command(&self.header, &mut place);
                self.placed_row(number, row, &place)
            }
            Row::Read { event } if event.kind() == BlockKind::CommandCompletion => {
                self.completion_row(number, *event)
            }
            _ => self.placed_row(number, row, &NOWHERE),
        }
    }

    /// The same of a row by which a ring comes or goes or a descriptor is withdrawn, or of any behind one that was. It stays apart, so that
    /// nothing is kept of it where other rows go inline.
    #[inline(never)]
    fn rare_row(&mut self, number: u32, row: &Row) -> Result<(), StepFault>
        requires so_far { (h : Header) × (past : List Row) × IsRingPassed M.words h past self.old × (length past ≤ most_streamed_lines) }
        requires fits { IsRow row.now }
        requires rare { is_ring_row row.now ≡ false → self.old.has_withdrawn ≡ true }
        ensures passed { OnOk result ((h : Header) (past : List Row) → IsRingPassed M.words h past self.old → IsRingPassed M.words h (row.now ∷ past) self.new) }
        ensures logged { OnOk result ((list : List Lease) (h : Header) (first : ℕ) (past : List Row) → IsRingPassed M.words h past self.old →
            number ≡ first + length past → first + length past < without_end →
            IsRingLogged (B.holds list) h first past self.old → IsRingLogged (B.holds list) h first (row.now ∷ past) self.new) }
        ensures refused { IfErr result (λ e. IfRefused e (λ c. (h : Header) (past : List Row) → IsRingPassed M.words h past self.old →
            IsLeastOfRow (header_now h past) (known_now h past) row.now c)) }
    {
        match row {
            Row::Ring { ring } => self.ring_comes(number, ring.as_ring().copy()?),
            Row::Free { ring: id } => self.ring_goes(number, *id),
            Row::Nop { ring, position } => { self.descriptor_withdrawn(number, *ring, *position) }
            _ => self.row_behind_withdrawals(number, row),
        }
    }

    /// The same of a Command Completion Event, where nothing was withdrawn. It stays apart, so that writes and other rows go inline.
    #[inline(never)]
    fn completion_row(&mut self, number: u32, event: Block) -> Result<(), StepFault>
        requires unwithdrawn { self.old.has_withdrawn ≡ false }
        requires so_far { (h : Header) × (past : List Row) × IsRingPassed M.words h past self.old × (length past ≤ most_streamed_lines) }
        ensures passed { OnOk result ((h : Header) (past : List Row) → IsRingPassed M.words h past self.old → IsRingPassed M.words h ((Read event) ∷ past) self.new) }
        ensures logged { OnOk result ((list : List Lease) (h : Header) (first : ℕ) (past : List Row) → IsRingPassed M.words h past self.old →
            number ≡ first + length past → first + length past < without_end →
            IsRingLogged (B.holds list) h first past self.old → IsRingLogged (B.holds list) h first ((Read event) ∷ past) self.new) }
        ensures refused { IfErr result (λ e. IfRefused e (λ c. (h : Header) (past : List Row) → IsRingPassed M.words h past self.old →
            IsLeastOfRow (header_now h past) (known_now h past) (Read event) c)) }
    {
        let row = Row::Read { event };
        let place = self.record.place(&self.header, &self.finder, &row);
        self.placed_row(number, &row, &place)
    }

    /// The same of a row with this place, where nothing was withdrawn. It goes inline for writes, for completions and for other rows each by itself.
    #[inline(always)]
    fn placed_row(&mut self, number: u32, row: &Row, place: &RowPlace) -> Result<(), StepFault>
        requires unwithdrawn { self.old.has_withdrawn ≡ false }
        requires so_far { (h : Header) × (past : List Row) × IsRingPassed M.words h past self.old × (length past ≤ most_streamed_lines) }
        requires driven { is_ring_row row.now ≡ false }
        ensures passed { OnOk result ((h : Header) (past : List Row) → IsRingPassed M.words h past self.old → IsPlaced self.old.header (known_now h past) row.now place.now →
            IsRingPassed M.words h (row.now ∷ past) self.new) }
        ensures logged { OnOk result ((list : List Lease) (h : Header) (first : ℕ) (past : List Row) → IsRingPassed M.words h past self.old →
            IsPlaced self.old.header (known_now h past) row.now place.now →
            number ≡ first + length past → first + length past < without_end →
            IsRingLogged (B.holds list) h first past self.old → IsRingLogged (B.holds list) h first (row.now ∷ past) self.new) }
        ensures refused { IfErr result (λ e. IfRefused e (λ c. (h : Header) (past : List Row) → IsRingPassed M.words h past self.old →
            IsPlaced self.old.header (known_now h past) row.now place.now →
            IsLeastOfRow (header_now h past) (known_now h past) row.now c)) }
    {
        note_row(
            &mut self.log,
            &mut self.ranges,
            &self.header,
            &self.finder,
            &self.record,
            &self.memory,
            number,
            row,
            place,
        )?;
        check_row(
            &self.header,
            &self.finder,
            &mut self.record,
            &mut self.memory,
            row,
            place,
        )
    }

    /// Checks a ring that comes, notes the leases that begin with it, and takes it up (xHCI 4.9).
    #[inline(never)]
    fn ring_comes(&mut self, number: u32, ring: Ring) -> Result<(), StepFault>
        requires so_far { (h : Header) × (past : List Row) × IsRingPassed M.words h past self.old }
        requires coming { IsComing ring }
        ensures passed { OnOk result ((h : Header) (past : List Row) → IsRingPassed M.words h past self.old → IsRingPassed M.words h (RingRow ring ∷ past) self.new) }
        ensures logged { OnOk result ((list : List Lease) (h : Header) (first : ℕ) (past : List Row) → IsRingPassed M.words h past self.old →
            number ≡ first + length past → first + length past < without_end →
            IsRingLogged (B.holds list) h first past self.old → IsRingLogged (B.holds list) h first (RingRow ring ∷ past) self.new) }
        ensures refused { IfErr result (λ e. IfRefused e (λ c. (h : Header) (past : List Row) → IsRingPassed M.words h past self.old →
            IsLeastOfRow (header_now h past) (known_now h past) (RingRow ring) c)) }
    {
        if self.record.registers.is_stopped() {
            return Err(StepFault::Refused(Refusal::AfterStop));
        }
        note_coming(self.alloc, &mut self.log, &mut self.ranges, number, &ring)?;
        check_coming(
            self.alloc,
            &mut self.header,
            &mut self.finder,
            &mut self.record,
            &self.memory,
            ring,
        )?;
        Ok(())
    }

    /// Checks a ring that goes, notes the leases that end with it, and forgets it (xHCI 4.9).
    #[inline(never)]
    fn ring_goes(&mut self, number: u32, id: u8) -> Result<(), StepFault>
        requires so_far { (h : Header) × (past : List Row) × IsRingPassed M.words h past self.old }
        ensures passed { OnOk result ((h : Header) (past : List Row) → IsRingPassed M.words h past self.old → IsRingPassed M.words h (FreeRow id ∷ past) self.new) }
        ensures logged { OnOk result ((list : List Lease) (h : Header) (first : ℕ) (past : List Row) → IsRingPassed M.words h past self.old →
            number ≡ first + length past → first + length past < without_end →
            IsRingLogged (B.holds list) h first past self.old → IsRingLogged (B.holds list) h first (FreeRow id ∷ past) self.new) }
        ensures refused { IfErr result (λ e. IfRefused e (λ c. (h : Header) (past : List Row) → IsRingPassed M.words h past self.old →
            IsLeastOfRow (header_now h past) (known_now h past) (FreeRow id) c)) }
    {
        if self.record.registers.is_stopped() {
            return Err(StepFault::Refused(Refusal::AfterStop));
        }
        note_going(
            self.alloc,
            &mut self.log,
            &self.ranges,
            &self.header,
            &self.finder,
            &self.record,
            number,
            id,
        )?;
        check_going(
            self.alloc,
            &mut self.header,
            &mut self.finder,
            &mut self.record,
            id,
        )?;
        Ok(())
    }

    /// The rings that are there.
    pub fn header(&self) -> &Header
        ensures { result.now ≡ self.now.header }
    {
        &self.header
    }

    /// What finds them.
    pub fn finder(&self) -> &Finder
        ensures { result.now ≡ self.now.finder }
    {
        &self.finder
    }

    /// What is known after the rows so far.
    pub fn record(&self) -> &TraceRecord
        ensures { result.now ≡ self.now.record }
    {
        &self.record
    }

    /// The memory after the rows so far.
    pub fn memory(&self) -> &M
        ensures { result.now ≡ self.now.memory }
    {
        &self.memory
    }

    /// The log of the rows so far. No run of the controller's model beside them does harm.
    pub fn into_log(self) -> B
        ensures harmless { (h : Header) (past : List Row) → IsRingPassed M.words h past self → All IsRow past → DoNoHarm h (reverse past) }
        ensures logged { (list : List Lease) (h : Header) (first : ℕ) (past : List Row) → IsRingLogged (B.holds list) h first past self →
            B.holds list (header_now h past) (lents h first past) result }
    {
        self.log
    }

    /// What is known behind the rows so far, and the log of their leases.
    pub fn into_behind(self) -> Behind<B, M>
        ensures behind { (h : Header) (past : List Row) → IsRingPassed M.words h past self → IsBehind M.words h past result }
        ensures logged { (list : List Lease) (h : Header) (first : ℕ) (past : List Row) → IsRingLogged (B.holds list) h first past self →
            B.holds list (header_now h past) (lents h first past) result.log }
    {
        Behind {
            header: self.header,
            kept: self.record,
            memory: self.memory,
            log: self.log,
        }
    }
}

/// A ring comes or goes by the row, or a descriptor is withdrawn.
#[inline(always)]
fn is_of_ring(row: &Row) -> bool
    ensures { result ≡ is_ring_row row.now }
{
    matches!(row, Row::Ring { .. } | Row::Free { .. } | Row::Nop { .. })
}
