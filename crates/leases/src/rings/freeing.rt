//! Descriptors that are withdrawn, and rings that are restored (xHCI 4.6.9, 4.6.10).
ghost use Rattle.std.specs.Prelude.{◌≡◌, ◌+◌, ◌<◌, ◌≤◌, ℕ, max, true, List, Some, OnOk};
ghost use Rattle.segments.specs.Descriptors.{length_from};
ghost use Rattle.segments.specs.Givings.{unrestored};
ghost use Rattle.segments.specs.RingView.{Restores, Withdraws, floor_number};
ghost use Rattle.traces.specs.declared.header.Header.{Header};
ghost use Rattle.traces.specs.Header.{is_transfer_kind, ring_with};
ghost use Rattle.traces.specs.AllowedHeaders.{IsHeader};
ghost use Rattle.traces.specs.declared.row.Row.TheVariants.{Write};
ghost use Rattle.ring_knowledge.specs.declared.lease.Lease.{Lease};
ghost use Rattle.ring_knowledge.specs.Known.{Known};
ghost use Rattle.ring_knowledge.specs.Rings.{on_ring};
ghost use Rattle.ring_knowledge.specs.Learned.{learned};
ghost use Rattle.ownership_rules.specs.OpenLeases.{open_leases};
ghost use Rattle.ownership_rules.specs.Leases.{without_end};
ghost use Rattle.leases.specs.LeaseBooks.Lents.{Lent, passed_on};
ghost use Rattle.leases.specs.LeaseBooks.InStep.{AreOpen};
ghost use Rattle.ring_knowledge.specs.Histories.{restored};
ghost use Rattle.leases.specs.RingLeases.Moving.{MovesRing};

use crate::book::LeaseLog;
use std::alloc::AllocError;
use traces::Ring;

/// The leases of the blocks of a descriptor of a transfer ring end at the row at which it is withdrawn, those that are open: `from` is where it begins,
/// or the floor inside it, and `to` is behind it. That of a Link between its blocks goes on: the controller may still read it.
pub fn note_withdrawing<B: LeaseLog>(book: &mut B, row: u32, ring: &Ring, from: u64, to: u64)
    ensures { (list : List Lease) (h : Header) (k : Known) (ts : List Lent) (position : ℕ) → IsHeader h → ring_with h ring.now.id ≡ Some ring.now → is_transfer_kind ring.now.shape.kind ≡ true →
        from ≡ max position (floor_number (k.ring ring.now.id)) → to ≡ position + length_from (k.ring ring.now.id).lengths 0 position → from ≤ to → AreOpen h k ts → B.holds list h ts book.old →
        B.holds list h (passed_on (open_leases h k) (open_leases h (on_ring h k ring.now.id (Withdraws position))) row ts) book.new }
{
    for number in from..to {
        book.end_block(row, ring, number);
    }
}

/// Second leases begin at the row at which a transfer ring is started or moved: those of what was withdrawn of it and was handed over before, from
/// the spot on that the controller's dequeue pointer has surely reached.
pub fn note_restoring<B: LeaseLog>(
    book: &mut B,
    row: u32,
    ring: &Ring,
    positions: &[u64],
) -> Result<(), AllocError>
    ensures { OnOk result ((list : List Lease) (h : Header) (k : Known) (ts : List Lent) → IsHeader h → ring_with h ring.now.id ≡ Some ring.now → is_transfer_kind ring.now.shape.kind ≡ true →
        ((p : ℕ) → (k.ring ring.now.id).free p ≡ true → (k.ring ring.now.id).given p ≡ true) → positions.now ≡ unrestored ring.now.shape (k.ring ring.now.id) → AreOpen h k ts →
        B.holds list h ts book.old → B.holds list h (passed_on (open_leases h k) (open_leases h (on_ring h k ring.now.id Restores)) row ts) book.new) }
{
    for position in positions {
        book.begin_block(row, ring, *position)?;
    }
    Ok(())
}

/// A Set TR Dequeue is given at a position of the command ring, which moves a ring: the lease of its block begins, and second leases of the ring that
/// is moved; all of them blocks, in the order of their rings' IDs.
pub fn note_moving<B: LeaseLog>(
    book: &mut B,
    row: u32,
    commands: &Ring,
    position: u64,
    ring: &Ring,
    positions: &[u64],
) -> Result<(), AllocError>
    ensures { OnOk result ((list : List Lease) (h : Header) (k : Known) (ts : List Lent) (a w : ℕ) → MovesRing h k ts commands.now position ring.now positions.now a w → row < without_end →
        B.holds list h ts book.old → B.holds list h (passed_on (open_leases h k) (open_leases h (learned h (restored h k (Write a w)) (Write a w))) row ts) book.new) }
{
    if ring.id < commands.id {
        note_restoring(book, row, ring, positions)?;
        return book.begin_block(row, commands, position);
    }
    book.begin_block(row, commands, position)?;
    note_restoring(book, row, ring, positions)
}
