ghost use Rattle.std.specs.Prelude.{◌≡◌, ◌+◌, ◌%◌, ◌^◌, ◌≤◌, ◌==◌, ◌||◌, not, ℕ, None, IfSome};
ghost use Rattle.guest_memory.specs.Memory.{long_at};
ghost use Rattle.contexts.specs.Contexts.{slot_entry};
ghost use Rattle.traces.specs.AllowedHeaders.{IsHeader};
ghost use Rattle.ring_knowledge.specs.Known.{Known};
ghost use Rattle.ring_knowledge.specs.Writes.{entry_of};
ghost use Rattle.trace_record.specs.RingFinder.Finding.{IsFinder};
ghost use Rattle.ownership_rules.specs.Commands.{is_bad_device, takes_bad_device};
ghost use Rattle.trace_record.specs.FollowsTrace.{FollowsTrace};

use crate::context_rules::areas::{is_bad_area, is_soiled, overlap};
use crate::context_rules::input::{device_context_bytes, input_context_bytes};
use crate::context_rules::leases::is_in_range_lease;
use guest_memory::WordMemory;
use trace_record::{Finder, TraceRecord};
use traces::{Header, Register};

/// Whether a slot without a device context under lease gets one whose entry is bad, or that lies where none may lie: `context` is
/// the address of the command's input context (xHCI 4.6.5, 6.1, 6.2.1).
pub(crate) fn takes_bad_device<M: WordMemory>(
    header: &Header,
    finder: &Finder,
    t: &TraceRecord,
    memory: &M,
    slot: u8,
    context: u64,
) -> bool
    requires headed { IsHeader header.now }
    requires found { IsFinder header.now.rings finder.now }
    ensures { (k : Known) → FollowsTrace header.now k t.now (M.words memory.now) → result ≡ takes_bad_device header.now k slot context }
{
    if t.devices.device(slot).is_some() {
        return false;
    }
    let Some(dcbaap) = t.registers.value(Register::Dcbaap) else {
        return true;
    };
    let Some(entry) = entry_at(dcbaap, slot) else {
        return true;
    };
    is_bad_area(finder, t, entry, 8)
        || is_soiled(t, entry, 8)
        || is_bad_device(header, finder, t, entry, context, long_at(memory, entry))
}

/// Whether a new device context, which the entry at this address names, lies where none may lie.
fn is_bad_device(
    header: &Header,
    finder: &Finder,
    t: &TraceRecord,
    entry: u64,
    context: u64,
    device: u64,
) -> bool
    requires headed { IsHeader header.now }
    requires found { IsFinder header.now.rings finder.now }
    ensures { (k : Known) (memory : ℕ → ℕ) (slot : ℕ) → FollowsTrace header.now k t.now memory → entry ≡ entry_of k slot →
        result ≡ is_bad_device header.now k slot context device }
{
    let len = device_context_bytes(header.context_size);
    is_no_context(device)
        || is_bad_area(finder, t, device, len)
        || is_in_range_lease(header, t, device, len)
        || overlap(device, len, entry, 8)
        || overlap(
            device,
            len,
            context,
            input_context_bytes(header.context_size),
        )
}

/// Whether no device context lies at an address: it is 0, or no multiple of 64 bytes.
fn is_no_context(device: u64) -> bool
    ensures { result ≡ (device == 0 || not (device % 64 == 0)) }
{
    device == 0 || device % 64 != 0
}

/// The address of a slot's entry in the array that a value of DCBAAP names, where it is below 2^64 (xHCI 6.1).
pub(crate) fn entry_at(dcbaap: u64, slot: u8) -> Option<u64>
    ensures found { IfSome result (λ entry. entry ≡ slot_entry dcbaap slot) }
    ensures above { result ≡ None → 2 ^ 64 ≤ slot_entry dcbaap slot }
{
    (dcbaap / 64 * 64).checked_add(8 * u64::from(slot))
}

/// The 64-bit number at an address.
fn long_at<M: WordMemory>(memory: &M, at: u64) -> u64
    requires aligned { at % 4 ≡ 0 }
    requires inside { at + 8 ≤ 2 ^ 64 }
    ensures { result ≡ long_at (M.words memory.now) at }
{
    contexts::long_at(memory, at)
}
