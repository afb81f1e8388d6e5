ghost use Rattle.std.specs.Prelude.{◌≡◌, ◌≢◌, ℕ, ◌+◌, ◌<◌, OnOk, OnErr, IfOk, length, Option, Some, None, is_ok};
ghost use Rattle.traces.specs.declared.header.Header.{Header as HeaderValue};
ghost use Rattle.world_state.specs.World.{World, stored};
ghost use Rattle.world_state.specs.DriverRows.{declared, register_row, bell_row, event_read};
ghost use Rattle.controller_model.specs.Following.{Follows};

use crate::kept::Kept;
use crate::memory::store;
use guest_memory::{Addr, WordMemory};
use std::alloc::AllocError;
use traces::{Header, Register};
use trb::Block;

/// The driver writes a word of memory.
pub(crate) fn write<M: WordMemory>(
    memory: &mut M,
    kept: &mut Kept,
    at: Addr,
    word: u32,
    step: u64,
) -> Result<(), AllocError>
    requires { step ≡ kept.old.progress.steps + 1 }
    ensures { OnOk result ((h : HeaderValue) (w : World) → Follows h (M.words memory.old) kept.old w →
        Follows h (M.words memory.new) kept.new (stored w at word)) }
{
    store(memory, &mut kept.stamps, at, word, step)?;
    Ok(())
}

/// The driver declares the blocks of one descriptor.
pub(crate) fn declare(kept: &mut Kept, ring: u8, blocks: &[Block]) -> Result<(), AllocError>
    requires { 0 < length blocks.now }
    ensures { OnOk result ((h : HeaderValue) (words : ℕ → ℕ) (w : World) → Follows h words kept.old w →
        Follows h words kept.new (declared h w ring blocks.now)) }
{
    let state = &mut kept.rings[usize::from(ring)];
    state.declared.declare(blocks)?;
    Ok(())
}
