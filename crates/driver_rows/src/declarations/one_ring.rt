ghost use Rattle.std.specs.Prelude.{◌≡◌, ◌<◌, ◌≤◌, Some, length, IfErr, IfNone, OnOk};
ghost use Rattle.trb.specs.Descriptor.{most_blocks};
ghost use Rattle.segments.specs.RingView.{RingView};
ghost use Rattle.ring_knowledge.specs.RingRecords.{FollowsRing};
ghost use Rattle.ownership_rules.specs.FirstBroken.{first_broken};
ghost use Rattle.trace_record.specs.Steps.{IfRefused};
ghost use Rattle.driver_rows.specs.DeclarationRows.OneRing.{IsDeclared, form_tests, room_tests};

use ownership_rules::Refusal;
use ring_knowledge::RingRecord;
use segments::RingShape;
use trace_record::StepFault;
use trb::{Block, Fault, Profile, RingKind, descriptor_fault_in};

/// Checks a declaration on a ring by a profile, and notes it.
#[inline(always)]
pub fn declare_on(
    profile: Profile,
    shape: &RingShape,
    known: &mut RingRecord,
    blocks: &[Block],
) -> Result<(), StepFault>
    ensures ok { OnOk result ((v : RingView) → FollowsRing shape.now v known.old → IsDeclared profile shape.now v blocks.now known.new) }
    ensures refused { IfErr result (λ e. IfRefused e (λ c. (v : RingView) → FollowsRing shape.now v known.old →
        first_broken (room_tests profile shape.now v blocks.now) ≡ Some c)) }
{
    if let Some(refusal) = declaration_refusal(profile, shape, known, blocks) {
        return Err(StepFault::Refused(refusal));
    }
    known.declare(blocks)?;
    Ok(())
}

/// Which rule a declaration breaks first.
#[inline(always)]
fn declaration_refusal(
    profile: Profile,
    shape: &RingShape,
    known: &RingRecord,
    blocks: &[Block],
) -> Option<Refusal>
    ensures first { (v : RingView) → FollowsRing shape.now v known.now → result ≡ first_broken (room_tests profile shape.now v blocks.now) }
    ensures some { IfNone result (0 < length blocks.now) }
    ensures few { IfNone result (length blocks.now ≤ most_blocks) }
{
    if !known.has_room(shape, blocks.len()) {
        return Some(Refusal::RingFull);
    }
    form_refusal(profile, shape.kind(), blocks)
}

/// Which rule of forms these blocks break first.
fn form_refusal(profile: Profile, kind: RingKind, blocks: &[Block]) -> Option<Refusal>
    ensures first { result ≡ first_broken (form_tests profile kind blocks.now) }
    ensures some { IfNone result (0 < length blocks.now) }
    ensures few { IfNone result (length blocks.now ≤ most_blocks) }
{
    match descriptor_fault_in(profile, kind, blocks) {
        Some(Fault::BadDescriptor) => Some(Refusal::BadDescriptor),
        Some(Fault::NotInProfile) => Some(Refusal::NotInProfile),
        None => None,
    }
}
