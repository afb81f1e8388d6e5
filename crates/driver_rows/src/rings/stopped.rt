ghost use Rattle.std.specs.Prelude.{◌≡◌, ◌<◌, ℕ, true, false, length, IfNone, IfSome};
ghost use Rattle.commands.specs.States.{is_stopped};
ghost use Rattle.traces.specs.AllowedHeaders.{IsHeader};
ghost use Rattle.ring_knowledge.specs.Known.{Known};
ghost use Rattle.trace_record.specs.RingFinder.Finding.{IsFinder};
ghost use Rattle.safety.specs.Keeps.{DriverKeeps};
ghost use Rattle.trace_record.specs.FollowsTrace.{FollowsTrace};
ghost use Rattle.trace_record.specs.Premises.{ContextsFit};
ghost use Rattle.ownership_rules.specs.Withdrawals.{has_stopped};
ghost use Rattle.driver_rows.specs.RingRows.RingSteps.{IsTransferAt};

use crate::doorbells::is_touched;
use crate::rings::freeing::transfer_ring;
use commands::EndpointState;
use guest_memory::WordMemory;
use trace_record::{Finder, TraceRecord};
use traces::Header;

/// The number of the transfer ring with this ID, where the endpoint that has it has stopped and no unfinished command touches it
/// (xHCI 4.6.9).
pub(crate) fn stopped_ring<M: WordMemory>(
    header: &Header,
    finder: &Finder,
    kept: &TraceRecord,
    memory: &M,
    id: u8,
) -> Option<usize>
    requires headed { IsHeader header.now }
    requires found { IsFinder header.now.rings finder.now }
    ensures within { IfSome result (λ n. n < length header.now.rings) }
    ensures there { IfSome result (IsTransferAt header.now id) }
    ensures stopped { IfSome result (λ n. (k : Known) → FollowsTrace header.now k kept.now (M.words memory.now) → DriverKeeps header.now k → ContextsFit header.now k →
        has_stopped header.now k id ≡ true) }
    ensures none { IfNone result ((k : Known) → FollowsTrace header.now k kept.now (M.words memory.now) → DriverKeeps header.now k → ContextsFit header.now k →
        has_stopped header.now k id ≡ false) }
{
    let Some(number) = transfer_ring(header, finder, id) else {
        return None;
    };
    if has_stopped(header, kept, memory, id) {
        Some(number)
    } else {
        None
    }
}

/// Whether the endpoint that has a ring has stopped, and no unfinished command touches it.
fn has_stopped<M: WordMemory>(header: &Header, kept: &TraceRecord, memory: &M, id: u8) -> bool
    ensures { (k : Known) → FollowsTrace header.now k kept.now (M.words memory.now) → DriverKeeps header.now k → ContextsFit header.now k →
        result ≡ has_stopped header.now k id }
{
    let Some((slot, index)) = kept.devices.holder(id) else {
        return false;
    };
    if !is_stopped(kept.devices.endpoint_state(slot, index)) {
        return false;
    }
    !is_touched(header, kept, memory, slot, index)
}

fn is_stopped(state: EndpointState) -> bool
    ensures { result ≡ is_stopped state }
{
    matches!(state, EndpointState::Stopped)
}
