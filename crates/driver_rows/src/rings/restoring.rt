ghost use Rattle.std.specs.Prelude.{◌≡◌, ℕ, length, Option};
ghost use Rattle.traces.specs.AllowedHeaders.{IsHeader};
ghost use Rattle.ring_knowledge.specs.Known.{Known};
ghost use Rattle.trace_record.specs.RingFinder.Finding.{IsFinder};
ghost use Rattle.trace_record.specs.FollowsTrace.{FollowsTrace};
ghost use Rattle.ownership_rules.specs.Withdrawals.{is_left};
ghost use Rattle.ring_knowledge.specs.Histories.{restored_on};
ghost use Rattle.driver_rows.specs.RingRows.Withdrawing.{NamesTransfer};

use crate::rings::freeing::transfer_ring;
use guest_memory::WordMemory;
use trace_record::{Finder, TraceRecord};
use traces::Header;

/// Whether a block of this ring that was withdrawn, if one is named, doesn't stand in memory as it is declared now: rule 33 (xHCI 4.6.9).
pub fn is_left<M: WordMemory>(
    header: &Header,
    finder: &Finder,
    kept: &TraceRecord,
    memory: &M,
    ring: Option<u8>,
) -> bool
    requires headed { IsHeader header.now }
    requires found { IsFinder header.now.rings finder.now }
    requires as_many { length kept.now.rings.items ≡ length header.now.rings }
    ensures { (k : Known) → FollowsTrace header.now k kept.now (M.words memory.now) → NamesTransfer header.now ring → result ≡ is_left header.now k ring }
{
    let Some(id) = ring else {
        return false;
    };
    let Some(number) = transfer_ring(header, finder, id) else {
        return false;
    };
    let rings = header.rings.as_slice();
    kept.rings[number].is_not_restored(&rings[number].shape, memory)
}

/// This ring, if one is named, is the controller's again, whole: a row starts or moves it (xHCI 4.6.9, 4.6.10, 4.7).
pub fn restore_ring(header: &Header, finder: &Finder, kept: &mut TraceRecord, ring: Option<u8>)
    requires headed { IsHeader header.now }
    requires found { IsFinder header.now.rings finder.now }
    requires as_many { length kept.now.rings.items ≡ length header.now.rings }
    ensures restored { (k : Known) (memory : ℕ → ℕ) → FollowsTrace header.now k kept.old memory → NamesTransfer header.now ring →
        FollowsTrace header.now (restored_on header.now k ring) kept.new memory }
    ensures events { kept.new.events ≡ kept.old.events }
{
    let Some(id) = ring else {
        return;
    };
    let Some(number) = transfer_ring(header, finder, id) else {
        return;
    };
    kept.rings[number].restore();
}
