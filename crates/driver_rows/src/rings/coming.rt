ghost use Rattle.std.specs.Prelude.{◌≡◌, ℕ, true, false, IfErr, OnOk};
ghost use Rattle.traces.specs.AllowedHeaders.{IsHeader};
ghost use Rattle.ring_knowledge.specs.Known.{Known};
ghost use Rattle.trace_record.specs.RingFinder.Finding.{IsFinder};
ghost use Rattle.safety.specs.Keeps.{DriverKeeps};
ghost use Rattle.trace_record.specs.FollowsTrace.{FollowsTrace};
ghost use Rattle.trace_record.specs.Fresh.{IsWithin};
ghost use Rattle.trace_record.specs.Steps.{IfRefused};
ghost use Rattle.ownership_rules.specs.Rings.{is_bad_ring};
ghost use Rattle.traces.specs.LivingRings.{with_ring};
ghost use Rattle.traces.specs.Rows.{IsComing};
ghost use Rattle.traces.specs.declared.row.Row.TheVariants.{Ring as RingRow};
ghost use Rattle.ownership_rules.specs.declared.refusal.Refusal.TheVariants.{BadRing};
ghost use Rattle.driver_rows.specs.RingRows.RingSteps.{IsClear, IsRingStep};

use crate::rings::new_rings::is_bad_ring;
use guest_memory::WordMemory;
use ownership_rules::Refusal;
use std::alloc::{AllocError, Global};
use trace_record::{Finder, StepFault, TraceRecord};
use traces::{Header, Ring};

/// Checks a ring that comes, before the stop, and takes it up: rule 35 (xHCI 4.9). The driver has kept the rules so far. Once a growth of
/// memory was refused, what is kept is of no use any more.
pub fn check_coming<M: WordMemory>(
    alloc: Global,
    header: &mut Header,
    finder: &mut Finder,
    kept: &mut TraceRecord,
    memory: &M,
    ring: Ring,
) -> Result<(), StepFault>
    requires headed { IsHeader header.now }
    requires found { IsFinder header.now.rings finder.now }
    requires coming { IsComing ring }
    ensures comes { OnOk result (header.new ≡ with_ring header.old ring) }
    ensures headed { OnOk result (IsHeader header.new) }
    ensures found { OnOk result (IsFinder header.new.rings finder.new) }
    ensures ok { OnOk result ((k : Known) → FollowsTrace header.old k kept.old (M.words memory.now) → DriverKeeps header.old k → k.stopped ≡ false →
        IsRingStep header.old k (RingRow ring) kept.new (M.words memory.now)) }
    ensures refused { IfErr result (λ e. IfRefused e (λ c. (c ≡ BadRing) × ((k : Known) → FollowsTrace header.old k kept.old (M.words memory.now) →
        is_bad_ring header.old k ring ≡ true))) }
    ensures reads { (n : ℕ) → IsWithin kept.old.events n → IsWithin kept.new.events n }
{
    if is_bad_ring(header, finder, kept, memory, &ring) {
        return Err(StepFault::Refused(Refusal::BadRing));
    }
    kept.add_ring(alloc, &ring)?;
    list_ring(header, finder, ring)?;
    Ok(())
}

/// The header has a ring more that may stand with its others, and the finder finds it.
fn list_ring(header: &mut Header, finder: &mut Finder, ring: Ring) -> Result<(), AllocError>
    requires headed { IsHeader header.now }
    requires found { IsFinder header.now.rings finder.now }
    requires coming { IsComing ring }
    requires clear { IsClear header.now ring }
    ensures comes { OnOk result (header.new ≡ with_ring header.old ring) }
    ensures headed { OnOk result (IsHeader header.new) }
    ensures found { OnOk result (IsFinder header.new.rings finder.new) }
{
    finder.add(header, &ring)?;
    header.rings.push(ring)?;
    Ok(())
}
