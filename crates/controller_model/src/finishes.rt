ghost use Rattle.std.specs.Prelude.{◌≡◌, ℕ, ◌+◌, ◌==◌, ◌&&◌, not, Err};
ghost use Rattle.trb.specs.Block.{code, kind, pointer, slot};
ghost use Rattle.trb.specs.Kind.{is_command_completion};
ghost use Rattle.commands.specs.Command.{command_of, is_slot_or_any, may_answer_slot};
ghost use Rattle.segments.specs.Places.{address_of};
ghost use Rattle.traces.specs.declared.header.Header.{Header as HeaderValue};
ghost use Rattle.traces.specs.Header.{event_shape};
ghost use Rattle.world_state.specs.World.{World};
ghost use Rattle.controller_model.specs.declared.seen.Seen.TheVariants.{Posted};
ghost use Rattle.controller_model.specs.Completions.{IsPart, completed};
ghost use Rattle.world_state.specs.Finishes.{finished, succeeded};
ghost use Rattle.controller_model.specs.Following.{Follows, IsStep, KeepsRun, Lists};

use crate::effects::apply;
use crate::fault::StepFault;
use crate::kept::{Kept, Pending};
use crate::looks::command_of;
use crate::posts::{can_post, event_ring, post};
use crate::seen::Seen;
use crate::successes::succeeds;
use commands::Command;
use guest_memory::WordMemory;
use traces::Header;
use trb::{Block, BlockKind};

/// Whether the words are those of a Command Completion Event that has a completion code (xHCI 6.4.2.2).
fn is_completion(block: &Block) -> bool
    ensures { result ≡ (is_command_completion (kind block.now) && not (code block.now == 0)) }
{
    matches!(block.kind(), BlockKind::CommandCompletion) && block.code() != 0
}

/// Whether a completion may carry this slot: the one that the command names, or any where it names none.
fn is_slot_or_any(named: Option<u8>, slot: u8) -> bool
    ensures { result ≡ is_slot_or_any named slot }
{
    match named {
        None => true,
        Some(named) => named == slot,
    }
}

fn may_answer_slot(command: Option<Command>, slot: u8) -> bool
    ensures { result ≡ may_answer_slot command slot }
{
    match command {
        None => true,
        Some(command) => is_slot_or_any(command.slot(), slot),
    }
}

/// Whether the event names the command under way (xHCI 6.4.2.2).
fn names(block: &Block, pending: &Pending) -> bool
    ensures { result ≡ (pointer block.now == pending.now.address && may_answer_slot (command_of pending.now.block) (slot block.now)) }
{
    let command = command_of(&pending.block);
    block.pointer() == pending.address && may_answer_slot(command, block.slot())
}

/// The success of the command that a block says, where it is possible (xHCI 4.6).
fn succeed<M: WordMemory>(
    header: &Header,
    memory: &M,
    kept: &mut Kept,
    block: &Block,
    slot: u8,
) -> Result<(), StepFault>
    ensures change { (h : HeaderValue) (w : World) → Lists h header.now → Follows h (M.words memory.now) kept.old w →
        IsPart result (succeeded header.now w slot (command_of block.now)) (Follows h (M.words memory.now) kept.new) }
    ensures refused { result ≡ Err StepFault.NotPossible → kept.new ≡ kept.old }
    ensures rest { KeepsRun kept.old kept.new }
{
    let command = match command_of(block) {
        None => return Err(StepFault::NotPossible),
        Some(command) => command,
    };
    if !succeeds(header, memory, kept, &command, slot) {
        return Err(StepFault::NotPossible);
    }
    apply(header, memory, kept, &command, slot)?;
    Ok(())
}

/// What a completion says of the command under way: with code 1 its success; after a Stopped event no other code is possible;
/// other codes change nothing (xHCI 4.6, 6.4.5).
fn complete<M: WordMemory>(
    header: &Header,
    memory: &M,
    kept: &mut Kept,
    block: &Block,
) -> Result<(), StepFault>
    ensures change { (h : HeaderValue) (w : World) → Lists h header.now → Follows h (M.words memory.now) kept.old w →
        IsPart result (completed header.now w block.now w.under_way) (Follows h (M.words memory.now) kept.new) }
    ensures refused { result ≡ Err StepFault.NotPossible → kept.new ≡ kept.old }
    ensures rest { KeepsRun kept.old kept.new }
{
    let pending = match kept.under_way {
        None => return Err(StepFault::NotPossible),
        Some(pending) => pending,
    };
    if !names(block, &pending) {
        return Err(StepFault::NotPossible);
    }
    if block.code() == 1 {
        return succeed(header, memory, kept, &pending.block, block.slot());
    }
    if pending.has_stopped {
        return Err(StepFault::NotPossible);
    }
    Ok(())
}

/// The controller posts the completion of the command under way, with its effect (xHCI 4.6, 6.4.2.2).
#[tactic(auto, using(crate::proofs::PostLemmas::no_ring), unfolding(world_state::specs::Finishes::finished, traces::specs::Header::event_shape))]
pub(crate) fn finish<M: WordMemory>(
    header: &Header,
    live: &Header,
    memory: &mut M,
    kept: &mut Kept,
    block: &Block,
    step: u64,
) -> Result<Seen, StepFault>
    requires { step ≡ kept.old.progress.steps + 1 }
    ensures step { (w : World) → Lists header.now live.now → Follows header.now (M.words memory.old) kept.old w →
        IsStep result (finished header.now live.now w block.now) (Posted (address_of (event_shape header.now) w.posted)) (Follows header.now (M.words memory.new) kept.new) }
    ensures refused { result ≡ Err StepFault.NotPossible → kept.new ≡ kept.old }
    ensures memory { result ≡ Err StepFault.NotPossible → M.words memory.new ≡ M.words memory.old }
{
    let shape = match event_ring(header) {
        None => return Err(StepFault::NotPossible),
        Some(ring) => &ring.shape,
    };
    if !can_post(shape, kept, block) {
        return Err(StepFault::NotPossible);
    }
    if !is_completion(block) {
        return Err(StepFault::NotPossible);
    }
    complete(live, memory, kept, block)?;
    let at = post(shape, memory, kept, block, step)?;
    kept.under_way = None;
    Ok(Seen::Posted { at })
}
