ghost use Rattle.std.specs.Prelude.{◌≡◌, ℕ, ◌+◌, ◌&&◌, ◌*◌, ◌^◌, ◌≤◌, ◌<◌, ◌%◌, Err};
ghost use Rattle.guest_memory.specs.Memory.{long_at};
ghost use Rattle.std.specs.List.{list_any, range_with_len};
ghost use Rattle.segments.specs.Places.{is_in};
ghost use Rattle.contexts.specs.Contexts.{device_context, device_context_bytes};
ghost use Rattle.traces.specs.declared.header.Header.{Header as HeaderValue};
ghost use Rattle.world_state.specs.World.{World};
ghost use Rattle.controller_model.specs.declared.seen.Seen.TheVariants.{Scribbled};
ghost use Rattle.world_state.specs.Steps.{scribbled, is_scribbled};
ghost use Rattle.controller_model.specs.Following.{Follows, IsStep};

use crate::fault::StepFault;
use crate::kept::Kept;
use crate::rows::write;
use crate::seen::Seen;
use contexts::ContextSize;
use guest_memory::{Addr, WordMemory};
use traces::Header;

/// The 64-bit number at an address.
fn long_at<M: WordMemory>(memory: &M, at: u64) -> u64
    requires { at % 8 ≡ 0 }
    ensures { result ≡ long_at (M.words memory.now) at }
{
    let low = memory.word(Addr::new(at).unwrap());
    let high = memory.word(Addr::new(at + 4).unwrap());
    u64::from(high) << 32 | u64::from(low)
}

/// Where the device context of a slot lies, by DCBAA (xHCI 6.1); beyond the last address there is no memory.
pub(crate) fn device_context<M: WordMemory>(memory: &M, dcbaap: u64, slot: u8) -> u64
    ensures { ((a : ℕ) → 2 ^ 64 ≤ a → M.words memory.now a ≡ 0) → result ≡ device_context (M.words memory.now) dcbaap slot }
{
    match (dcbaap / 64 * 64).checked_add(8 * u64::from(slot)) {
        None => 0,
        Some(at) => long_at(memory, at),
    }
}

/// Whether an address lies in a device context.
fn is_in(address: u64, base: u64, size: ContextSize) -> bool
    ensures { result ≡ is_in address base (device_context_bytes size) }
{
    address >= base && address - base < 32 * size.bytes()
}

/// Whether the word at an address belongs to the device context of a slot, and the controller may write that.
#[tactic(auto, unfolding(world_state::specs::Steps::is_scribbled))]
fn is_scribbled<M: WordMemory>(header: &Header, memory: &M, kept: &Kept, at: Addr, slot: u8) -> bool
    ensures { (w : World) → Follows header.now (M.words memory.now) kept.now w →
        result ≡ is_scribbled header.now w at slot }
{
    if !kept.slots[usize::from(slot)].scribbles {
        return false;
    }
    let base = device_context(memory, kept.registers.dcbaap, slot);
    is_in(at.get(), base, header.context_size)
}

/// Whether the word at an address belongs to a device context that the controller may write.
#[tactic(auto, using(world_state::proofs::Ranges::none_in_range))]
fn may_scribble<M: WordMemory>(header: &Header, memory: &M, kept: &Kept, at: Addr) -> bool
    ensures { (w : World) → Follows header.now (M.words memory.now) kept.now w →
        result ≡ list_any (is_scribbled header.now w at) (range_with_len 0 256) }
{
    for slot in 0..=255 {
        if is_scribbled(header, memory, kept, at, slot) {
            return true;
        }
    }
    false
}

/// The controller writes a word of a device context (xHCI 6.2.1).
pub(crate) fn scribble<M: WordMemory>(
    header: &Header,
    memory: &mut M,
    kept: &mut Kept,
    at: Addr,
    word: u32,
    step: u64,
) -> Result<Seen, StepFault>
    requires { step ≡ kept.old.progress.steps + 1 }
    ensures step { (w : World) → Follows header.now (M.words memory.old) kept.old w →
        IsStep result (scribbled header.now w at word) Scribbled (Follows header.now (M.words memory.new) kept.new) }
    ensures refused { result ≡ Err StepFault.NotPossible → kept.new ≡ kept.old }
    ensures memory { result ≡ Err StepFault.NotPossible → M.words memory.new ≡ M.words memory.old }
{
    if !may_scribble(header, memory, kept, at) {
        return Err(StepFault::NotPossible);
    }
    write(memory, kept, at, word, step)?;
    Ok(Seen::Scribbled)
}
