ghost use Rattle.std.specs.Prelude.{◌≡◌, ℕ, ◌+◌, ◌==◌, ◌<◌, ◌^◌, ◌%◌, not, IfOk, OnOk};
ghost use Rattle.trb.specs.Block.{block_at};
ghost use Rattle.controller_model.specs.Held.{held, held_stored, held_block};

use crate::stamps::Stamps;
use guest_memory::{Addr, WordMemory};
use std::alloc::AllocError;
use trb::Block;

/// Writes a word of memory in this step; whether it changes the word.
pub(crate) fn store<M: WordMemory>(
    memory: &mut M,
    stamps: &mut Stamps,
    at: Addr,
    word: u32,
    step: u64,
) -> Result<bool, AllocError>
    ensures changes { IfOk result (λ b. b ≡ not (M.words memory.old at == word)) }
    ensures below { at < 2 ^ 64 }
    ensures stored { OnOk result (held (M.words memory.new) stamps.new ≡ held_stored (held (M.words memory.old) stamps.old) at word step) }
{
    let is_changed = memory.word(at) != word;
    memory.set(at, word)?;
    stamps.note(at, is_changed, step)?;
    Ok(is_changed)
}

/// The address of a word of the block at this address.
pub(crate) fn word_at(address: u64, offset: u64) -> Addr
    requires block { address % 16 ≡ 0 }
    requires end { address < 2 ^ 64 }
    requires word { offset % 4 ≡ 0 }
    requires inside { offset < 16 }
    ensures { result ≡ address + offset }
{
    Addr::new(address + offset).unwrap()
}

/// The block at an address.
pub(crate) fn block_at<M: WordMemory>(memory: &M, address: u64) -> Block
    requires { address % 16 ≡ 0 }
    ensures { result ≡ block_at (M.words memory.now) address }
{
    Block {
        w: [
            memory.word(word_at(address, 0)),
            memory.word(word_at(address, 4)),
            memory.word(word_at(address, 8)),
            memory.word(word_at(address, 12)),
        ],
    }
}

/// Writes a block of memory in this step.
pub(crate) fn store_block<M: WordMemory>(
    memory: &mut M,
    stamps: &mut Stamps,
    address: u64,
    block: Block,
    step: u64,
) -> Result<(), AllocError>
    requires { address % 16 ≡ 0 }
    ensures stored { OnOk result (held (M.words memory.new) stamps.new ≡ held_block (held (M.words memory.old) stamps.old) address block step) }
{
    let [first, second, third, fourth] = block.w;
    store(memory, stamps, word_at(address, 0), first, step)?;
    store(memory, stamps, word_at(address, 4), second, step)?;
    store(memory, stamps, word_at(address, 8), third, step)?;
    store(memory, stamps, word_at(address, 12), fourth, step)?;
    Ok(())
}
