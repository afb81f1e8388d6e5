ghost use Rattle.std.specs.Prelude.{◌≡◌, ℕ, true, false, length, IfErr, OnOk};
ghost use Rattle.traces.specs.AllowedHeaders.{IsHeader};
ghost use Rattle.ring_knowledge.specs.Known.{Known};
ghost use Rattle.trace_record.specs.RingFinder.Finding.{IsFinder};
ghost use Rattle.safety.specs.Keeps.{DriverKeeps};
ghost use Rattle.trace_record.specs.FollowsTrace.{FollowsTrace};
ghost use Rattle.trace_record.specs.Fresh.{IsWithin};
ghost use Rattle.trace_record.specs.Steps.{IfRefused};
ghost use Rattle.traces.specs.LivingRings.{without_ring};
ghost use Rattle.traces.specs.declared.row.Row.TheVariants.{Free as FreeRow};
ghost use Rattle.ownership_rules.specs.declared.refusal.Refusal.TheVariants.{BadFree};
ghost use Rattle.driver_rows.specs.RingRows.RingSteps.{IsRingStep, frees_badly};

use crate::rings::freeing::free_ring;
use ownership_rules::Refusal;
use std::alloc::Global;
use trace_record::{Finder, StepFault, TraceRecord};
use traces::Header;

/// Checks a ring that goes, before the stop, and forgets it: rule 34 (xHCI 4.9). The driver has kept the rules so far. Once a growth
/// of memory was refused, what is kept is of no use any more.
pub fn check_going(
    alloc: Global,
    header: &mut Header,
    finder: &mut Finder,
    kept: &mut TraceRecord,
    id: u8,
) -> Result<(), StepFault>
    requires headed { IsHeader header.now }
    requires found { IsFinder header.now.rings finder.now }
    requires as_many { length kept.now.rings.items ≡ length header.now.rings }
    ensures goes { OnOk result (header.new ≡ without_ring header.old id) }
    ensures headed { OnOk result (IsHeader header.new) }
    ensures found { OnOk result (IsFinder header.new.rings finder.new) }
    ensures ok { OnOk result ((k : Known) (memory : ℕ → ℕ) → FollowsTrace header.old k kept.old memory → DriverKeeps header.old k → k.stopped ≡ false →
        IsRingStep header.old k (FreeRow id) kept.new memory) }
    ensures version { OnOk result ((k : Known) (memory : ℕ → ℕ) → FollowsTrace header.old k kept.old memory → DriverKeeps header.old k → frees_badly header.old k id ≡ false) }
    ensures refused { IfErr result (λ e. IfRefused e (λ c. (c ≡ BadFree) × ((k : Known) (memory : ℕ → ℕ) → FollowsTrace header.old k kept.old memory →
        DriverKeeps header.old k → frees_badly header.old k id ≡ true))) }
    ensures reads { (n : ℕ) → IsWithin kept.old.events n → IsWithin kept.new.events n }
{
    let Some(number) = free_ring(header, finder, kept, id) else {
        return Err(StepFault::Refused(Refusal::BadFree));
    };
    kept.remove_ring(header, number)?;
    header.rings.remove(number);
    *finder = Finder::new(alloc, header)?;
    Ok(())
}
