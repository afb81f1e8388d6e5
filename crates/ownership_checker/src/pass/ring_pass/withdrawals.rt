//! Rows of a trace in which descriptors are withdrawn: of what was handed over some may be the driver's again, until the ring is started or moved
//! (xHCI 4.6.9, 4.6.10).
ghost use Rattle.std.specs.Prelude.{◌≡◌, ◌+◌, ◌<◌, ◌≤◌, ℕ, true, false, [], ◌∷◌, List, None, Some, length, IfErr, OnOk};
ghost use Rattle.segments.specs.RingView.{Restores, Withdraws as WithdrawsAt};
ghost use Rattle.traces.specs.Header.{ring_with};
ghost use Rattle.traces.specs.AllowedHeaders.{IsHeader};
ghost use Rattle.traces.specs.declared.header.Header.{Header};
ghost use Rattle.traces.specs.Limits.{most_streamed_lines};
ghost use Rattle.traces.specs.declared.row.Row.TheVariants.{Write, Nop as NopRow};
ghost use Rattle.traces.specs.declared.row.Row.{Row};
ghost use Rattle.traces.specs.Rows.{is_ring_row};
ghost use Rattle.ring_knowledge.specs.declared.lease.Lease.{Lease};
ghost use Rattle.ring_knowledge.specs.Known.{Known};
ghost use Rattle.ring_knowledge.specs.Learned.{learned};
ghost use Rattle.ring_knowledge.specs.RingRecords.{IsNotPassed};
ghost use Rattle.ring_knowledge.specs.Rings.{on_ring};
ghost use Rattle.trace_record.specs.RingFinder.Finding.{IsFinder};
ghost use Rattle.ownership_rules.specs.Leases.{without_end};
ghost use Rattle.ownership_rules.specs.OpenLeases.{open_leases};
ghost use Rattle.ownership_rules.specs.FirstBroken.{first_of};
ghost use Rattle.ownership_rules.specs.Rules.{broken_restored};
ghost use Rattle.ownership_rules.specs.LenientRules.{lenient};
ghost use Rattle.ownership_rules.specs.Rings.{is_transfer_ring};
ghost use Rattle.safety.specs.Keeps.{DriverKeeps};
ghost use Rattle.leases.specs.LeaseBooks.InStep.{AreOpen};
ghost use Rattle.leases.specs.LeaseBooks.Lents.{Lent, passed_on};
ghost use Rattle.leases.specs.LeaseRows.CleanRows.{HoldsAll};
ghost use Rattle.ownership_checker.specs.JudgedRows.Tracking.{IsTracked};
ghost use Rattle.trace_record.specs.FollowsTrace.{FollowsTrace};
ghost use Rattle.trace_record.specs.Fresh.{IsWithin};
ghost use Rattle.trace_record.specs.Steps.{IfRefused, IsRowStep};
ghost use Rattle.trace_record.specs.RowPlaces.{IsPlaced, IsPlacedSo};
ghost use Rattle.driver_rows.specs.RingRows.GivenCommands.{GivesCommandAt};
ghost use Rattle.ring_knowledge.specs.Histories.{header_now, known_now, restored, ring_restored};
ghost use Rattle.ownership_rules.specs.Withdrawals.{is_left, some_flips};
ghost use Rattle.ownership_checker.specs.RingPasses.Clean.{IsLeastOfRow};
ghost use Rattle.ownership_checker.specs.RingPasses.Passing.{IsRingLogged, IsRingPassed};

use super::RingPass;
use crate::rows::check_row;
use driver_rows::{
    check_withdrawing, is_left, restore_ring, ring_restored, some_flips, transfer_ring,
};
use guest_memory::WordMemory;
use leases::{LeaseLog, note_moving, note_restoring, note_row, note_withdrawing};
use ownership_rules::Refusal;
use ring_knowledge::RingGiving;
use std::alloc::AllocError;
use trace_record::{RowPlace, StepFault};
use traces::Row;

impl<B: LeaseLog + Drop, M: WordMemory + Drop> RingPass<B, M> {
    /// Checks a descriptor that is withdrawn, ends the leases of its blocks, and notes it (xHCI 4.6.9).
    #[inline(never)]
    pub(super) fn descriptor_withdrawn(
        &mut self,
        number: u32,
        id: u8,
        position: u64,
    ) -> Result<(), StepFault>
        requires so_far { (h : Header) × (past : List Row) × IsRingPassed M.words h past self.old }
        ensures passed { OnOk result ((h : Header) (past : List Row) → IsRingPassed M.words h past self.old → IsRingPassed M.words h (NopRow id position ∷ past) self.new) }
        ensures logged { OnOk result ((list : List Lease) (h : Header) (first : ℕ) (past : List Row) → IsRingPassed M.words h past self.old →
            number ≡ first + length past → first + length past < without_end →
            IsRingLogged (B.holds list) h first past self.old → IsRingLogged (B.holds list) h first (NopRow id position ∷ past) self.new) }
        ensures refused { IfErr result (λ e. IfRefused e (λ c. (h : Header) (past : List Row) → IsRingPassed M.words h past self.old →
            IsLeastOfRow (header_now h past) (known_now h past) (NopRow id position) c)) }
    {
        if self.record.registers.is_stopped() {
            return Err(StepFault::Refused(Refusal::AfterStop));
        }
        self.end_withdrawn(number, id, position);
        check_withdrawing(
            &self.header,
            &self.finder,
            &mut self.record,
            &self.memory,
            id,
            position,
        )?;
        self.has_withdrawn = true;
        Ok(())
    }

    /// The leases end of the blocks of the descriptor that begins at a position, from the floor on, of the ring with this ID.
    fn end_withdrawn(&mut self, number: u32, id: u8, position: u64)
        requires headed { IsHeader self.old.header }
        requires found { IsFinder self.old.header.rings self.old.finder }
        requires as_many { length self.old.record.rings.items ≡ length self.old.header.rings }
        ensures header { self.new.header ≡ self.old.header }
        ensures finder { self.new.finder ≡ self.old.finder }
        ensures record { self.new.record ≡ self.old.record }
        ensures memory { self.new.memory ≡ self.old.memory }
        ensures withdrawn { self.new.has_withdrawn ≡ self.old.has_withdrawn }
        ensures ended { (list : List Lease) (k : Known) (memory : ℕ → ℕ) (ts : List Lent) → FollowsTrace self.old.header k self.old.record memory →
            IsNotPassed (k.ring id) position → is_transfer_ring (ring_with self.old.header id) ≡ true → AreOpen self.old.header k ts → HoldsAll (B.holds list) self.old.header ts self.old.log self.old.ranges →
            HoldsAll (B.holds list) self.old.header (passed_on (open_leases self.old.header k) (open_leases self.old.header (on_ring self.old.header k id (WithdrawsAt position))) number ts) self.new.log self.new.ranges }
    {
        let Some(at) = transfer_ring(&self.header, &self.finder, id) else {
            return;
        };
        let rings = self.header.rings.as_slice();
        let ring = &rings[at];
        let known = &self.record.rings[at];
        let count = u64::from(known.descriptor_length(position));
        if position.checked_add(count).is_none() {
            return;
        }
        let from = position.max(known.floor_number());
        note_withdrawing(&mut self.log, number, ring, from, position + count);
    }

    /// Checks a row of the driver where descriptors were withdrawn, and notes it and its leases.
    #[inline(never)]
    pub(super) fn row_behind_withdrawals(&mut self, number: u32, row: &Row) -> Result<(), StepFault>
        requires so_far { (h : Header) × (past : List Row) × IsRingPassed M.words h past self.old × (length past ≤ most_streamed_lines) }
        requires withdrawn { self.old.has_withdrawn ≡ true }
        requires driven { is_ring_row row.now ≡ false }
        ensures passed { OnOk result ((h : Header) (past : List Row) → IsRingPassed M.words h past self.old → IsRingPassed M.words h (row.now ∷ past) self.new) }
        ensures logged { OnOk result ((list : List Lease) (h : Header) (first : ℕ) (past : List Row) → IsRingPassed M.words h past self.old →
            number ≡ first + length past → first + length past < without_end →
            IsRingLogged (B.holds list) h first past self.old → IsRingLogged (B.holds list) h first (row.now ∷ past) self.new) }
        ensures refused { IfErr result (λ e. IfRefused e (λ c. (h : Header) (past : List Row) → IsRingPassed M.words h past self.old →
            IsLeastOfRow (header_now h past) (known_now h past) row.now c)) }
    {
        if self.record.registers.is_stopped() {
            return Err(StepFault::Refused(Refusal::AfterStop));
        }
        let place = self.record.place(&self.header, &self.finder, row);
        let ring = ring_restored(&self.record, row, &place);
        if is_left(&self.header, &self.finder, &self.record, &self.memory, ring) {
            return Err(self.refusal_left(row, &place));
        }
        self.note_leases(number, row, &place, ring)?;
        restore_ring(&self.header, &self.finder, &mut self.record, ring);
        self.check_restored(row, &place, ring)
    }

    /// The least rule that a row breaks that starts or moves a ring which doesn't stand as declared: rule 33 is the last of them.
    fn refusal_left(&mut self, row: &Row, place: &RowPlace) -> StepFault
        requires so_far { (h : Header) × (past : List Row) × IsRingPassed M.words h past self.old × (length past ≤ most_streamed_lines) }
        requires driven { is_ring_row row.now ≡ false }
        ensures { IfRefused result (λ c. (h : Header) (past : List Row) → IsRingPassed M.words h past self.old → IsPlaced self.old.header (known_now h past) row.now place.now →
            (known_now h past).stopped ≡ false → is_left (header_now h past) (known_now h past) (ring_restored (header_now h past) (known_now h past) row.now) ≡ true →
            IsLeastOfRow (header_now h past) (known_now h past) row.now c) }
    {
        match check_row(
            &self.header,
            &self.finder,
            &mut self.record,
            &mut self.memory,
            row,
            place,
        ) {
            Ok(()) => StepFault::Refused(Refusal::NotRestored),
            Err(fault) => fault,
        }
    }

    /// The place of a row behind the restoring of this ring: where no ring is restored, the one that was found before.
    #[inline(always)]
    fn place_behind(&self, row: &Row, before: &RowPlace, ring: Option<u8>) -> RowPlace
        requires headed { IsHeader self.now.header }
        requires found { IsFinder self.now.header.rings self.now.finder }
        ensures { (k : Known) (memory : ℕ → ℕ) → FollowsTrace self.now.header k self.now.record memory →
            (ring ≡ None → IsPlaced self.now.header k row.now before.now) → IsPlaced self.now.header k row.now result }
    {
        match ring {
            None => *before,
            Some(_) => self.record.place(&self.header, &self.finder, row),
        }
    }

    /// Checks a row, and notes it, whose ring stands as declared and is the controller's again; `before` is the place that it had.
    fn check_restored(
        &mut self,
        row: &Row,
        before: &RowPlace,
        ring: Option<u8>,
    ) -> Result<(), StepFault>
        requires headed { IsHeader self.old.header }
        requires found { IsFinder self.old.header.rings self.old.finder }
        requires as_many { length self.old.record.rings.items ≡ length self.old.header.rings }
        requires few_reads { IsWithin self.old.record.events most_streamed_lines }
        requires driven { is_ring_row row.now ≡ false }
        ensures header { self.new.header ≡ self.old.header }
        ensures finder { self.new.finder ≡ self.old.finder }
        ensures log { self.new.log ≡ self.old.log }
        ensures ranges { self.new.ranges ≡ self.old.ranges }
        ensures withdrawn { self.new.has_withdrawn ≡ self.old.has_withdrawn }
        ensures ok { OnOk result ((k : Known) → IsTracked self.old.header k self.old.record (M.words self.old.memory) →
            (ring ≡ None → IsPlaced self.old.header k row.now before.now) →
            (some_flips self.old.header k row.now ≡ false) × IsRowStep self.old.header k row.now self.new.record (M.words self.new.memory)) }
        ensures refused { IfErr result (λ e. IfRefused e (λ c. (k : Known) → IsTracked self.old.header k self.old.record (M.words self.old.memory) →
            (ring ≡ None → IsPlaced self.old.header k row.now before.now) →
            first_of (broken_restored self.old.header k row.now) ≡ Some c)) }
        ensures reads { OnOk result ((n : ℕ) → IsWithin self.old.record.events n → IsWithin self.new.record.events (n + 1)) }
    {
        let place = self.place_behind(row, before, ring);
        if some_flips(&self.header, &self.record, row, &place) {
            return Err(StepFault::Refused(Refusal::WriteToOwned));
        }
        check_row(
            &self.header,
            &self.finder,
            &mut self.record,
            &mut self.memory,
            row,
            &place,
        )
    }

    /// Notes the leases that begin and end with a row, where it breaks no rule; `ring` is the one that it starts or moves.
    fn note_leases(
        &mut self,
        number: u32,
        row: &Row,
        place: &RowPlace,
        ring: Option<u8>,
    ) -> Result<(), AllocError>
        requires headed { IsHeader self.old.header }
        requires found { IsFinder self.old.header.rings self.old.finder }
        requires as_many { length self.old.record.rings.items ≡ length self.old.header.rings }
        requires driven { is_ring_row row.now ≡ false }
        ensures header { self.new.header ≡ self.old.header }
        ensures finder { self.new.finder ≡ self.old.finder }
        ensures record { self.new.record ≡ self.old.record }
        ensures memory { self.new.memory ≡ self.old.memory }
        ensures withdrawn { self.new.has_withdrawn ≡ self.old.has_withdrawn }
        ensures logged { OnOk result ((list : List Lease) (h : Header) (first : ℕ) (past : List Row) → IsRingPassed M.words h past self.old →
            IsPlaced self.old.header (known_now h past) row.now place.now → ring ≡ ring_restored (header_now h past) (known_now h past) row.now →
            lenient (header_now h past) (restored (header_now h past) (known_now h past) row.now) row.now ≡ [] →
            number ≡ first + length past → first + length past < without_end →
            IsRingLogged (B.holds list) h first past self.old → IsRingLogged (B.holds list) h first (row.now ∷ past) self.new) }
    {
        let Some(id) = ring else {
            return note_row(
                &mut self.log,
                &mut self.ranges,
                &self.header,
                &self.finder,
                &self.record,
                &self.memory,
                number,
                row,
                place,
            );
        };
        match row {
            Row::Write { .. } => self.note_moved(number, place, id),
            _ => self.note_rung(number, id),
        }
    }

    /// Second leases begin of the ring with this ID, whose endpoint's doorbell is rung (xHCI 4.7).
    fn note_rung(&mut self, number: u32, id: u8) -> Result<(), AllocError>
        requires headed { IsHeader self.old.header }
        requires found { IsFinder self.old.header.rings self.old.finder }
        requires as_many { length self.old.record.rings.items ≡ length self.old.header.rings }
        ensures header { self.new.header ≡ self.old.header }
        ensures finder { self.new.finder ≡ self.old.finder }
        ensures record { self.new.record ≡ self.old.record }
        ensures memory { self.new.memory ≡ self.old.memory }
        ensures withdrawn { self.new.has_withdrawn ≡ self.old.has_withdrawn }
        ensures restored { OnOk result ((list : List Lease) (k : Known) (memory : ℕ → ℕ) (ts : List Lent) → FollowsTrace self.old.header k self.old.record memory →
            is_transfer_ring (ring_with self.old.header id) ≡ true → AreOpen self.old.header k ts → HoldsAll (B.holds list) self.old.header ts self.old.log self.old.ranges →
            HoldsAll (B.holds list) self.old.header (passed_on (open_leases self.old.header k) (open_leases self.old.header (on_ring self.old.header k id Restores)) number ts) self.new.log self.new.ranges) }
    {
        let Some(at) = transfer_ring(&self.header, &self.finder, id) else {
            return Ok(());
        };
        let rings = self.header.rings.as_slice();
        let positions = self.record.rings[at].free_positions(self.alloc)?;
        note_restoring(&mut self.log, number, &rings[at], positions.as_slice())
    }

    /// The lease begins of a Set TR Dequeue Pointer that is given, and second leases of the ring with this ID, which it moves (xHCI 4.6.10).
    fn note_moved(&mut self, number: u32, place: &RowPlace, id: u8) -> Result<(), AllocError>
        requires headed { IsHeader self.old.header }
        requires found { IsFinder self.old.header.rings self.old.finder }
        requires as_many { length self.old.record.rings.items ≡ length self.old.header.rings }
        ensures header { self.new.header ≡ self.old.header }
        ensures finder { self.new.finder ≡ self.old.finder }
        ensures record { self.new.record ≡ self.old.record }
        ensures memory { self.new.memory ≡ self.old.memory }
        ensures withdrawn { self.new.has_withdrawn ≡ self.old.has_withdrawn }
        ensures moved { OnOk result ((list : List Lease) (k : Known) (memory : ℕ → ℕ) (ts : List Lent) (a w : ℕ) → FollowsTrace self.old.header k self.old.record memory →
            DriverKeeps self.old.header k → IsPlacedSo self.old.header k a w place.now → ring_restored self.old.header k (Write a w) ≡ Some id → AreOpen self.old.header k ts →
            number < without_end → HoldsAll (B.holds list) self.old.header ts self.old.log self.old.ranges →
            HoldsAll (B.holds list) self.old.header (passed_on (open_leases self.old.header k) (open_leases self.old.header (learned self.old.header (restored self.old.header k (Write a w)) (Write a w))) number ts) self.new.log self.new.ranges) }
    {
        let Some(command_ring) = place.ring else {
            return Ok(());
        };
        let Some(giving) = place.giving else {
            return Ok(());
        };
        match giving {
            RingGiving::Position(position) => {
                self.note_moved_at(number, command_ring, position, id)
            }
            RingGiving::Crossing(_) => Ok(()),
        }
    }

    /// The same, where it is given at a position of the Command Ring, which has this number in the header.
    fn note_moved_at(
        &mut self,
        number: u32,
        command_ring: usize,
        position: u64,
        id: u8,
    ) -> Result<(), AllocError>
        requires headed { IsHeader self.old.header }
        requires found { IsFinder self.old.header.rings self.old.finder }
        requires as_many { length self.old.record.rings.items ≡ length self.old.header.rings }
        ensures header { self.new.header ≡ self.old.header }
        ensures finder { self.new.finder ≡ self.old.finder }
        ensures record { self.new.record ≡ self.old.record }
        ensures memory { self.new.memory ≡ self.old.memory }
        ensures withdrawn { self.new.has_withdrawn ≡ self.old.has_withdrawn }
        ensures moved { OnOk result ((list : List Lease) (k : Known) (memory : ℕ → ℕ) (ts : List Lent) (a w : ℕ) → FollowsTrace self.old.header k self.old.record memory →
            DriverKeeps self.old.header k → GivesCommandAt self.old.header k a w command_ring position → ring_restored self.old.header k (Write a w) ≡ Some id → AreOpen self.old.header k ts →
            number < without_end → HoldsAll (B.holds list) self.old.header ts self.old.log self.old.ranges →
            HoldsAll (B.holds list) self.old.header (passed_on (open_leases self.old.header k) (open_leases self.old.header (learned self.old.header (restored self.old.header k (Write a w)) (Write a w))) number ts) self.new.log self.new.ranges) }
    {
        let Some(at) = transfer_ring(&self.header, &self.finder, id) else {
            return Ok(());
        };
        let rings = self.header.rings.as_slice();
        let Some(commands) = rings.get(command_ring) else {
            return Ok(());
        };
        let positions = self.record.rings[at].free_positions(self.alloc)?;
        note_moving(
            &mut self.log,
            number,
            commands,
            position,
            &rings[at],
            positions.as_slice(),
        )
    }
}
