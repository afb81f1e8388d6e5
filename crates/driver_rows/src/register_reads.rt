//! A row of a register that is read: xHCI 5.4.2.
ghost use Rattle.std.specs.Prelude.{◌≡◌, ℕ, false, IfErr, OnOk};
ghost use Rattle.traces.specs.declared.header.Header.{Header};
ghost use Rattle.traces.specs.declared.row.Row.TheVariants.{RegRead};
ghost use Rattle.ring_knowledge.specs.Known.{Known};
ghost use Rattle.trace_record.specs.FollowsTrace.{FollowsTrace};
ghost use Rattle.trace_record.specs.Steps.{IfRefused, IsLeast, IsRowStep};

use ownership_rules::Refusal;
use trace_record::{StepFault, TraceRecord};
use traces::Register;

/// Checks a register that was read before the stop, and notes what USBSTS tells: rule 36.
pub fn check_register_read(
    t: &mut TraceRecord,
    register: Register,
    value: u64,
) -> Result<(), StepFault>
    ensures ok { OnOk result ((h : Header) (k : Known) (m : ℕ → ℕ) → FollowsTrace h k t.old m → k.stopped ≡ false → IsRowStep h k (RegRead register value) t.new m) }
    ensures refused { IfErr result (λ e. IfRefused e (λ c. (h : Header) (k : Known) (m : ℕ → ℕ) → FollowsTrace h k t.old m → k.stopped ≡ false → IsLeast h k (RegRead register value) c)) }
    ensures events { t.new.events ≡ t.old.events }
{
    if t.is_impossible_read(register, value) {
        return Err(StepFault::Refused(Refusal::ImpossibleRead));
    }
    t.read_register(register, value);
    Ok(())
}
