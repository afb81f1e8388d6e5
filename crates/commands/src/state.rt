ghost use Rattle.std.specs.Prelude.{◌≡◌, ℕ, Option};
ghost use Rattle.commands.specs.declared.command.Command.{Command};
ghost use Rattle.commands.specs.States.{slot_success, endpoint_success, slot_after, endpoint_after, is_off};

use crate::command::Command;

/// The state of a device slot (xHCI 4.5.3).
#[derive(Clone, Copy, Debug, PartialEq, Eq)]
pub enum SlotState {
    Disabled,
    Enabled,
    Default,
    Addressed,
    Configured,
}

/// The state of an endpoint (xHCI 4.8.3).
#[derive(Clone, Copy, Debug, PartialEq, Eq)]
pub enum EndpointState {
    Disabled,
    Running,
    Halted,
    Stopped,
    Error,
}

/// A state that the completions of commands lead on: that of a slot, or that of an endpoint.
pub trait State: Copy {
    /// The state after a command that completes with a code.
    ghost after_of: { Self → Command → ℕ → Option Self };

    /// The state after a command that completes with this code: `None` where it can't complete so from this state.
    /// Code 0 is none, code 1 is Success, and any other code changes nothing (xHCI 6.4.5).
    fn after(self, command: &Command, code: u8) -> Option<Self>
        ensures { result ≡ after_of self command.now code };
}

impl State for SlotState {
    ghost after_of = { slot_after };

    fn after(self, command: &Command, code: u8) -> Option<SlotState>
        ensures { result ≡ slot_after self command.now code }
    {
        match code {
            0 => None,
            1 => slot_success(command, self),
            _ => Some(self),
        }
    }
}

impl State for EndpointState {
    ghost after_of = { endpoint_after };

    fn after(self, command: &Command, code: u8) -> Option<EndpointState>
        ensures { result ≡ endpoint_after self command.now code }
    {
        match code {
            0 => None,
            1 => endpoint_success(command, self),
            _ => Some(self),
        }
    }
}

/// The state of a slot or an endpoint after a command that completes with this code, as `State::after`.
pub fn after<S: State>(state: S, command: &Command, code: u8) -> Option<S>
    ensures { result ≡ S.after_of state command.now code }
{
    state.after(command, code)
}

/// The state of the slot after the command's success.
fn slot_success(command: &Command, state: SlotState) -> Option<SlotState>
    ensures { result ≡ slot_success command.now state }
{
    use SlotState::{Addressed, Configured, Default, Disabled, Enabled};
    match (*command, state) {
        (Command::EnableSlot, Disabled) => Some(Enabled),
        (Command::DisableSlot { .. }, Enabled | Default | Addressed | Configured) => Some(Disabled),
        (
            Command::AddressDevice {
                block_set_address: true,
                ..
            },
            Enabled,
        ) => Some(Default),
        (
            Command::AddressDevice {
                block_set_address: false,
                ..
            },
            Enabled | Default,
        ) => Some(Addressed),
        (
            Command::ConfigureEndpoint {
                deconfigure: false,
                ..
            },
            Addressed | Configured,
        ) => Some(Configured),
        (
            Command::ConfigureEndpoint {
                deconfigure: true,
                ..
            },
            Addressed | Configured,
        ) => Some(Addressed),
        (Command::EvaluateContext { .. }, Default | Addressed | Configured) => Some(state),
        (Command::ResetDevice { .. }, Default | Addressed | Configured) => Some(Default),
        (Command::NoOp, _)
        | (Command::ResetEndpoint { .. }, _)
        | (Command::StopEndpoint { .. }, _)
        | (Command::SetTrDequeue { .. }, _) => Some(state),
        _ => None,
    }
}

/// The state of the endpoint after the command's success.
fn endpoint_success(command: &Command, state: EndpointState) -> Option<EndpointState>
    ensures { result ≡ endpoint_success command.now state }
{
    use EndpointState::{Error, Halted, Running, Stopped};
    match (*command, state) {
        (Command::StopEndpoint { .. }, Running) => Some(Stopped),
        (Command::ResetEndpoint { .. }, Halted) => Some(Stopped),
        (Command::SetTrDequeue { .. }, Stopped | Error) => Some(Stopped),
        (
            Command::StopEndpoint { .. }
            | Command::ResetEndpoint { .. }
            | Command::SetTrDequeue { .. },
            _,
        ) => None,
        _ => Some(state),
    }
}

/// Whether the endpoint is Disabled (xHCI 4.8.3).
#[inline(always)]
pub fn is_off(state: EndpointState) -> bool
    ensures { result ≡ is_off state }
{
    matches!(state, EndpointState::Disabled)
}
