//! A write that gives nothing of any ring, as most writes.
ghost use Rattle.std.specs.Prelude.{◌≡◌, ℕ, false, None, IfSome, IfNone};
ghost use Rattle.traces.specs.AllowedHeaders.{IsHeader};
ghost use Rattle.traces.specs.declared.row.Row.TheVariants.{Write};
ghost use Rattle.ring_knowledge.specs.Known.{Known};
ghost use Rattle.ownership_rules.specs.ByVersion.{writes_to_owned};
ghost use Rattle.safety.specs.Keeps.{DriverKeeps};
ghost use Rattle.trace_record.specs.declared.trace_record.TraceRecord.{TraceRecord};
ghost use Rattle.trace_record.specs.FollowsTrace.{FollowsTrace};
ghost use Rattle.trace_record.specs.Steps.{IsLeast};
ghost use Rattle.trace_record.specs.RowPlaces.{IsPlacedSo};
ghost use Rattle.driver_rows.specs.MemoryWrites.Allowed.{IsAllowed};

use ownership_rules::Refusal;
use trace_record::{RowPlace, is_event_ring};
use traces::Header;

/// Which rule a write of memory before the stop breaks that gives nothing: `place` is where the word lies, and `owned` whether
/// the controller owns what is written.
pub fn plain_refusal(header: &Header, place: &RowPlace, owned: bool) -> Option<Refusal>
    requires headed { IsHeader header.now }
    ensures allowed { IfNone result ((k : Known) (t : TraceRecord) (memory : ℕ → ℕ) (at word : ℕ) → FollowsTrace header.now k t memory → DriverKeeps header.now k → k.stopped ≡ false →
        place.now.giving ≡ None → IsPlacedSo header.now k at word place.now → owned ≡ writes_to_owned header.now k at word → IsAllowed header.now k at word None) }
    ensures refused { IfSome result (λ c. (k : Known) (t : TraceRecord) (memory : ℕ → ℕ) (at word : ℕ) → FollowsTrace header.now k t memory → DriverKeeps header.now k → k.stopped ≡ false →
        place.now.giving ≡ None → IsPlacedSo header.now k at word place.now → owned ≡ writes_to_owned header.now k at word → IsLeast header.now k (Write at word) c) }
{
    if owned {
        return Some(Refusal::WriteToOwned);
    }
    let Some(number) = place.ring else {
        return None;
    };
    let rings = header.rings.as_slice();
    let Some(ring) = rings.get(number) else {
        return None;
    };
    if is_event_ring(ring) {
        return Some(Refusal::WriteToOwned);
    }
    None
}
