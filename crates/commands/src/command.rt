ghost use Rattle.std.specs.Prelude.{◌≡◌, ◌↔◌, IsTrue, Some};
ghost use Rattle.commands.specs.Command.{is_stop_of};
ghost use Rattle.trb.specs.Descriptor.{is_command_left_out, is_no_command};

use crate::fields::command_by_kind;
use trb::{Block, Fault, is_command_left_out};

/// A command of the profile (xHCI 4.6). Slots and endpoint indices (DCI) are numbers of the block; addresses are bits
/// 63:4 of its pointer.
#[derive(Clone, Copy, Debug, PartialEq, Eq)]
pub enum Command {
    NoOp,
    EnableSlot,
    DisableSlot {
        slot: u8,
    },
    AddressDevice {
        slot: u8,
        block_set_address: bool,
        input_context: u64,
    },
    ConfigureEndpoint {
        slot: u8,
        deconfigure: bool,
        input_context: u64,
    },
    EvaluateContext {
        slot: u8,
        input_context: u64,
    },
    ResetEndpoint {
        slot: u8,
        endpoint: u8,
    },
    StopEndpoint {
        slot: u8,
        endpoint: u8,
    },
    SetTrDequeue {
        slot: u8,
        endpoint: u8,
        dequeue: u64,
        cycle: bool,
    },
    ResetDevice {
        slot: u8,
    },
}

impl Command {
    ghost use Rattle.commands.specs.Command.{command_of, named_slot, named_endpoint, named_context};

    /// The command that a block says, whatever its Cycle bit. `NotInProfile` is a command that the profile leaves out,
    /// by its type or by one of its fields; `BadDescriptor` is a block of another type.
    #[inline(always)]
    pub fn read(block: &Block) -> Result<Command, Fault>
        ensures command { (c : Command) → (result ≡ Ok c) ↔ (command_of block.now ≡ Some c) }
        ensures not_in_profile { (result ≡ Err Fault.NotInProfile) ↔ IsTrue (is_command_left_out block.now) }
        ensures bad_descriptor { (result ≡ Err Fault.BadDescriptor) ↔ IsTrue (is_no_command block.now) }
    {
        if is_command_left_out(*block) {
            return Err(Fault::NotInProfile);
        }
        command_by_kind(*block).ok_or(Fault::BadDescriptor)
    }

    /// The slot that the command names.
    pub fn slot(&self) -> Option<u8>
        ensures { result ≡ named_slot self.now }
    {
        match *self {
            Command::NoOp | Command::EnableSlot => None,
            Command::DisableSlot { slot }
            | Command::AddressDevice { slot, .. }
            | Command::ConfigureEndpoint { slot, .. }
            | Command::EvaluateContext { slot, .. }
            | Command::ResetEndpoint { slot, .. }
            | Command::StopEndpoint { slot, .. }
            | Command::SetTrDequeue { slot, .. }
            | Command::ResetDevice { slot } => Some(slot),
        }
    }

    /// The endpoint that the command names, by slot and index (DCI).
    pub fn endpoint(&self) -> Option<(u8, u8)>
        ensures { result ≡ named_endpoint self.now }
    {
        match *self {
            Command::ResetEndpoint { slot, endpoint }
            | Command::StopEndpoint { slot, endpoint }
            | Command::SetTrDequeue { slot, endpoint, .. } => Some((slot, endpoint)),
            _ => None,
        }
    }

    /// The address of the input context that the command reads. Configure Endpoint with DC reads none (xHCI 4.6.6).
    pub fn input_context(&self) -> Option<u64>
        ensures { result ≡ named_context self.now }
    {
        match *self {
            Command::AddressDevice { input_context, .. }
            | Command::EvaluateContext { input_context, .. }
            | Command::ConfigureEndpoint {
                deconfigure: false,
                input_context,
                ..
            } => Some(input_context),
            _ => None,
        }
    }
}

/// Whether a command is a Stop Endpoint for this endpoint (xHCI 4.6.9).
pub fn is_stop_of(command: Option<Command>, slot: u8, endpoint: u8) -> bool
    ensures { result ≡ is_stop_of slot endpoint command }
{
    match command {
        Some(
            Command::StopEndpoint {
                slot: stopped,
                endpoint: stopping,
            },
        ) => slot == stopped && endpoint == stopping,
        _ => false,
    }
}
