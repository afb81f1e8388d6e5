ghost use Rattle.std.specs.Prelude.{◌≡◌, ℕ, false};
ghost use Rattle.guest_memory.specs.Memory.{put};
ghost use Rattle.commands.specs.Changes.{slot_gone_on};
ghost use Rattle.traces.specs.declared.header.Header.{Header};
ghost use Rattle.world_state.specs.World.{World};
ghost use Rattle.controller_model.specs.Following.{Follows, KeepsRun};

use crate::kept::Kept;
use commands::{Command, State};

/// A slot's state goes on by the success of a command (xHCI 4.5.3).
pub(crate) fn go_on(kept: &mut Kept, command: &Command, slot: u8)
    ensures change { (h : Header) (words : ℕ → ℕ) (w : World) → Follows h words kept.old w →
        Follows h words kept.new (record w { slot_state = slot_gone_on command.now w.slot_state slot }) }
    ensures rest { KeepsRun kept.old kept.new }
{
    let kept_slot = &mut kept.slots[usize::from(slot)];
    let state = kept_slot.state;
    kept_slot.state = state.after(command, 1).unwrap_or(state);
}

/// The controller writes the slot's device context no more.
#[tactic(auto, using(crate::proofs::RingLemmas::with_slots, crate::proofs::SlotLemmas::slots_scribbles))]
pub(crate) fn leave_device(kept: &mut Kept, slot: u8)
    ensures change { (h : Header) (words : ℕ → ℕ) (w : World) → Follows h words kept.old w →
        Follows h words kept.new (record w { scribbles = put w.scribbles slot false }) }
    ensures rest { KeepsRun kept.old kept.new }
{
    let state = &mut kept.slots[usize::from(slot)];
    state.scribbles = false;
}
