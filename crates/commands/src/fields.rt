ghost use Rattle.std.specs.Prelude.{◌≡◌};
ghost use Rattle.commands.specs.Command.{command_by_kind, option_bit};
ghost use Rattle.trb.specs.Bits.{is_set};
ghost use Rattle.trb.specs.Block.{aligned, kind, word};

use crate::command::Command;
use trb::{Block, BlockFlags, BlockKind, Flags};

/// The command of a block by its type, where that is one of the profile.
#[inline(always)]
pub(crate) fn command_by_kind(block: Block) -> Option<Command>
    ensures { result ≡ command_by_kind (kind block) block }
{
    let slot = block.slot();
    let endpoint = block.endpoint();
    let address = aligned(block.pointer());
    let option = option_bit(block);
    let command = match block.kind() {
        BlockKind::NoOpCommand => Command::NoOp,
        BlockKind::EnableSlot => Command::EnableSlot,
        BlockKind::DisableSlot => Command::DisableSlot { slot },
        BlockKind::AddressDevice => Command::AddressDevice {
            slot,
            block_set_address: option,
            input_context: address,
        },
        BlockKind::ConfigureEndpoint => Command::ConfigureEndpoint {
            slot,
            deconfigure: option,
            input_context: address,
        },
        BlockKind::EvaluateContext => Command::EvaluateContext {
            slot,
            input_context: address,
        },
        BlockKind::ResetEndpoint => Command::ResetEndpoint { slot, endpoint },
        BlockKind::StopEndpoint => Command::StopEndpoint { slot, endpoint },
        BlockKind::SetTrDequeue => Command::SetTrDequeue {
            slot,
            endpoint,
            dequeue: address,
            cycle: dequeue_cycle(block),
        },
        BlockKind::ResetDevice => Command::ResetDevice { slot },
        _ => return None,
    };
    Some(command)
}

/// BSR of Address Device, DC of Configure Endpoint (word 3 bit 9).
fn option_bit(block: Block) -> bool
    ensures { result ≡ option_bit block }
{
    block.flags().contains(BlockFlags::OPTION)
}

/// DCS of Set TR Dequeue (word 0 bit 0).
fn dequeue_cycle(block: Block) -> bool
    ensures { result ≡ is_set (word block 0) 0 }
{
    block.w[0] % 2 == 1
}

/// Bits 63:4 of a pointer.
fn aligned(pointer: u64) -> u64
    ensures { result ≡ aligned pointer }
{
    pointer & !0xf
}
