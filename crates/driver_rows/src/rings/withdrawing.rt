ghost use Rattle.std.specs.Prelude.{◌≡◌, ◌≤◌, ◌⊎◌, true, false, length, IfErr, OnOk};
ghost use Rattle.segments.specs.Ceiling.{ceiling};
ghost use Rattle.segments.specs.RingView.{RingView, changed, floor_number, Withdraws as WithdrawsAt};
ghost use Rattle.segments.specs.ShapeValue.{Shape};
ghost use Rattle.traces.specs.AllowedHeaders.{IsHeader};
ghost use Rattle.traces.specs.declared.row.Row.TheVariants.{Nop as NopRow};
ghost use Rattle.ring_knowledge.specs.Known.{Known};
ghost use Rattle.ring_knowledge.specs.RingRecords.{FollowsRing, IsNotPassed};
ghost use Rattle.trace_record.specs.RingFinder.Finding.{IsFinder};
ghost use Rattle.safety.specs.Keeps.{DriverKeeps};
ghost use Rattle.trace_record.specs.FollowsTrace.{FollowsTrace};
ghost use Rattle.trace_record.specs.Premises.{ContextsFit};
ghost use Rattle.trace_record.specs.Steps.{IfRefused};
ghost use Rattle.ownership_rules.specs.declared.refusal.Refusal.TheVariants.{BadWithdraw};
ghost use Rattle.driver_rows.specs.RingRows.RingSteps.{IsRingStep};
ghost use Rattle.ownership_rules.specs.Withdrawals.{is_passed, may_tell_value};
ghost use Rattle.ownership_rules.specs.BadWithdrawals.{withdraws_badly};
ghost use Rattle.ownership_rules.specs.Withdrawals.{is_unfit};

use crate::rings::stopped::stopped_ring;
use guest_memory::WordMemory;
use ownership_rules::Refusal;
use ring_knowledge::RingRecord;
use segments::RingShape;
use trace_record::{Finder, StepFault, TraceRecord};
use traces::Header;

/// Checks a descriptor that is withdrawn, before the stop, and notes it: rule 32 (xHCI 4.6.9). The driver has kept the rules so far.
/// Once a growth of memory was refused, what is kept is of no use any more.
pub fn check_withdrawing<M: WordMemory>(
    header: &Header,
    finder: &Finder,
    kept: &mut TraceRecord,
    memory: &M,
    id: u8,
    position: u64,
) -> Result<(), StepFault>
    requires headed { IsHeader header.now }
    requires found { IsFinder header.now.rings finder.now }
    requires as_many { length kept.now.rings.items ≡ length header.now.rings }
    ensures ok { OnOk result ((k : Known) → FollowsTrace header.now k kept.old (M.words memory.now) → DriverKeeps header.now k → ContextsFit header.now k → k.stopped ≡ false →
        IsRingStep header.now k (NopRow id position) kept.new (M.words memory.now)) }
    ensures version { OnOk result ((k : Known) → FollowsTrace header.now k kept.old (M.words memory.now) → DriverKeeps header.now k → ContextsFit header.now k →
        withdraws_badly header.now k id position ≡ false) }
    ensures from { OnOk result ((k : Known) → FollowsTrace header.now k kept.old (M.words memory.now) → DriverKeeps header.now k → ContextsFit header.now k →
        IsNotPassed (k.ring id) position) }
    ensures refused { IfErr result (λ e. IfRefused e (λ c. (c ≡ BadWithdraw) × ((k : Known) → FollowsTrace header.now k kept.old (M.words memory.now) →
        DriverKeeps header.now k → ContextsFit header.now k → withdraws_badly header.now k id position ≡ true))) }
    ensures events { kept.new.events ≡ kept.old.events }
{
    let Some(number) = stopped_ring(header, finder, kept, memory, id) else {
        return Err(StepFault::Refused(Refusal::BadWithdraw));
    };
    let rings = header.rings.as_slice();
    withdraw_on(
        header,
        &rings[number].shape,
        &mut kept.rings[number],
        position,
    )
}

/// The same of the ring, whose endpoint has stopped.
fn withdraw_on(
    header: &Header,
    shape: &RingShape,
    known: &mut RingRecord,
    position: u64,
) -> Result<(), StepFault>
    ensures from { OnOk result ((v : RingView) → FollowsRing shape.now v known.old → floor_number v ≤ ceiling shape.now v → IsNotPassed v position) }
    ensures rule { OnOk result ((v : RingView) → FollowsRing shape.now v known.old → floor_number v ≤ ceiling shape.now v → (is_passed header.now shape.now v position ≡ false) × (is_unfit shape.now v position ≡ false)) }
    ensures ok { OnOk result ((v : RingView) → FollowsRing shape.now v known.old → floor_number v ≤ ceiling shape.now v → FollowsRing shape.now (changed shape.now v (WithdrawsAt position)) known.new) }
    ensures refused { IfErr result (λ e. IfRefused e (λ c. (c ≡ BadWithdraw) × ((v : RingView) → FollowsRing shape.now v known.old → floor_number v ≤ ceiling shape.now v →
        (is_passed header.now shape.now v position ≡ true) ⊎ (is_unfit shape.now v position ≡ true)))) }
{
    if is_passed(header, known, position) {
        return Err(StepFault::Refused(Refusal::BadWithdraw));
    }
    if !known.may_withdraw(position) {
        return Err(StepFault::Refused(Refusal::BadWithdraw));
    }
    if may_tell_value(known, position) {
        return Err(StepFault::Refused(Refusal::BadWithdraw));
    }
    known.withdraw(shape, position)?;
    Ok(())
}

/// Whether an event may still tell the value of a block of the descriptor that begins at a position, which the floor hasn't passed whole: the
/// block is Event Data, and lies from the floor on and below the ceiling (xHCI 4.11.5.2).
fn may_tell_value(known: &RingRecord, position: u64) -> bool
    ensures { (shape : Shape) (v : RingView) → FollowsRing shape v known.now → IsNotPassed v position → result ≡ may_tell_value shape v position }
{
    let from = position.max(known.floor_number());
    let length = u64::from(known.descriptor_length(position));
    let end = position.saturating_add(length).min(known.ceiling());
    (from..end).any(|at| known.data_at(at).is_some())
}

/// Whether a position lies below the ceiling, in version 3 below the floor; in version 4 whether the floor has passed the descriptor there whole.
fn is_passed(header: &Header, known: &RingRecord, position: u64) -> bool
    ensures { (shape : Shape) (v : RingView) → FollowsRing shape v known.now → result ≡ is_passed header.now shape v position }
{
    if header.version.has_runs() {
        return known.has_passed(position);
    }
    if header.version.is_lenient() {
        return position < known.floor_number();
    }
    position < known.ceiling()
}
