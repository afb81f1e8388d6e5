ghost use Rattle.std.specs.Prelude.{◌≡◌, ℕ, false, length, IfErr, OnOk};
ghost use Rattle.traces.specs.AllowedHeaders.{IsHeader};
ghost use Rattle.traces.specs.declared.row.Row.TheVariants.{Sub};
ghost use Rattle.ring_knowledge.specs.Known.{Known};
ghost use Rattle.trace_record.specs.RingFinder.Finding.{IsFinder};
ghost use Rattle.safety.specs.Keeps.{DriverKeeps};
ghost use Rattle.trace_record.specs.FollowsTrace.{FollowsTrace};
ghost use Rattle.trace_record.specs.Steps.{IfRefused, IsLeast, IsRowStep};

use crate::declarations::one_ring::declare_on;
use ownership_rules::Refusal;
use trace_record::{Finder, StepFault, TraceRecord, is_event_ring};
use traces::Header;
use trb::Block;

/// Checks a declaration before the stop, and notes it: rules 12, 15, 16 and 23, in this order. The driver has kept the rules so
/// far.
#[inline(always)]
pub fn check_declaration(
    header: &Header,
    finder: &Finder,
    kept: &mut TraceRecord,
    id: u8,
    blocks: &[Block],
) -> Result<(), StepFault>
    requires headed { IsHeader header.now }
    requires found { IsFinder header.now.rings finder.now }
    requires as_many { length kept.now.rings.items ≡ length header.now.rings }
    ensures ok { OnOk result ((k : Known) (memory : ℕ → ℕ) → FollowsTrace header.now k kept.old memory → DriverKeeps header.now k → k.stopped ≡ false →
        IsRowStep header.now k (Sub id blocks.now) kept.new memory) }
    ensures refused { IfErr result (λ e. IfRefused e (λ c. (k : Known) (memory : ℕ → ℕ) → FollowsTrace header.now k kept.old memory → k.stopped ≡ false →
        IsLeast header.now k (Sub id blocks.now) c)) }
    ensures events { kept.new.events ≡ kept.old.events }
{
    let Some(number) = finder.ring_named(id) else {
        return Err(StepFault::Refused(Refusal::NotDeclared));
    };
    let rings = header.rings.as_slice();
    let ring = &rings[number];
    if is_event_ring(ring) {
        return Err(StepFault::Refused(Refusal::NotDeclared));
    }
    let profile = header.version.profile();
    declare_on(profile, &ring.shape, &mut kept.rings[number], blocks)
}
