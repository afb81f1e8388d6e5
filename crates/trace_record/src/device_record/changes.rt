ghost use Rattle.std.specs.Prelude.{◌≡◌, ℕ, ◌<◌, ◌==◌, Bool, Option, Some, true, unwrap_or};
ghost use Rattle.commands.specs.declared.command.Command.{Command as CommandValue};
ghost use Rattle.commands.specs.declared.command.Command.TheVariants.{StopEndpoint};
ghost use Rattle.commands.specs.States.{is_off, slot_success};
ghost use Rattle.commands.specs.Changes.{SlotGoesOn, DeviceLeft, Places, Stops, Resets};
ghost use Rattle.traces.specs.declared.header.Header.{Header};
ghost use Rattle.traces.specs.Header.{ring_having};
ghost use Rattle.ring_knowledge.specs.Known.{Known};
ghost use Rattle.ring_knowledge.specs.Completions.{changed_by, in_state, stop_ended, typed};
ghost use Rattle.ring_knowledge.specs.Writes.{with_device};
ghost use Rattle.trace_record.specs.DeviceSlots.Endpoints.{placed_endpoint, ring_got};

use crate::device_record::kept::{DeviceRecord, Endpoint, Slot};
use commands::{Command, EndpointState, SlotState, State};

impl DeviceRecord {
    ghost use Rattle.trace_record.specs.DeviceSlots.Devices.{FollowsDevices};

    /// A slot's state goes on by the success of a command (xHCI 4.5.3).
    pub fn go_on(&mut self, command: &Command, slot: u8)
        ensures { (h : Header) (k : Known) → FollowsDevices k self.old → FollowsDevices (changed_by h command.now k (SlotGoesOn slot)) self.new }
    {
        let kept = self.slot(slot);
        self.set_slot(
            slot,
            Slot {
                state: gone_on(command, kept.state),
                device: kept.device,
            },
        );
    }

    /// The controller lets go of the slot's device context (xHCI 4.6.4).
    pub fn leave_device(&mut self, slot: u8)
        ensures { (h : Header) (c : CommandValue) (k : Known) → FollowsDevices k self.old → FollowsDevices (changed_by h c k (DeviceLeft slot)) self.new }
    {
        let kept = self.slot(slot);
        self.set_slot(
            slot,
            Slot {
                state: kept.state,
                device: None,
            },
        );
    }

    /// A device context at this address comes under lease for the slot (xHCI 4.6.5).
    pub fn take_device(&mut self, slot: u8, address: u64)
        ensures { (h : Header) (k : Known) → FollowsDevices k self.old → FollowsDevices (with_device h k (Some (slot, address))) self.new }
    {
        let kept = self.slot(slot);
        self.set_slot(
            slot,
            Slot {
                state: kept.state,
                device: Some(address),
            },
        );
    }

    /// An endpoint is in this state from now on, and its ring is the one at the pointer (xHCI 4.6.5, 4.6.6, 4.6.10): a Disabled
    /// endpoint gets the transfer ring that has the block there, `ring`, and any other one keeps its own, whatever `ring` is.
    pub fn place(&mut self, slot: u8, index: u8, ring: Option<u8>, state: EndpointState)
        requires { index < 32 }
        ensures { (h : Header) (c : CommandValue) (k : Known) (p : ℕ) (cycle : Bool) →
            (is_off (k.endpoint_state slot index) ≡ true → ring_having h p ≡ ring) →
            FollowsDevices k self.old → FollowsDevices (changed_by h c k (Places slot index p cycle state)) self.new }
    {
        let kept = self.endpoint(slot, index);
        let gets = ring_got(kept.state, ring);
        self.note_bound(gets);
        self.set_endpoint(slot, index, placed_endpoint(kept, gets, state));
    }

    /// An endpoint that a context adds has the type that the context says (xHCI 4.6.6, 6.2.3).
    pub fn note_type(&mut self, slot: u8, index: u8, isochronous: bool)
        requires { index < 32 }
        ensures { (h : Header) (k : Known) → FollowsDevices k self.old → FollowsDevices (typed h k slot (λ i. i == index) (λ i. isochronous)) self.new }
    {
        let kept = self.endpoint(slot, index);
        self.set_endpoint(
            slot,
            index,
            Endpoint {
                isochronous,
                ..kept
            },
        );
    }

    /// An endpoint is Stopped by a command (xHCI 4.6.9).
    pub fn stop(&mut self, slot: u8, index: u8)
        requires { index < 32 }
        ensures { (h : Header) (c : CommandValue) (k : Known) → FollowsDevices k self.old → FollowsDevices (changed_by h c k (Stops slot index)) self.new }
    {
        self.set_state(slot, index, EndpointState::Stopped);
    }

    /// A halt is over, and the endpoint Stopped (xHCI 4.6.8).
    pub fn reset(&mut self, slot: u8, index: u8)
        requires { index < 32 }
        ensures { (h : Header) (c : CommandValue) (k : Known) → FollowsDevices k self.old → FollowsDevices (changed_by h c k (Resets slot index)) self.new }
    {
        self.set_state(slot, index, EndpointState::Stopped);
    }

    /// A Stop Endpoint has come to its end, whatever its code (xHCI 4.6.9).
    pub fn end_stop(&mut self, slot: u8, index: u8)
        requires { index < 32 }
        ensures { (h : Header) (k : Known) → FollowsDevices k self.old → FollowsDevices (stop_ended h k (StopEndpoint slot index)) self.new }
    {
        let kept = self.endpoint(slot, index);
        self.set_endpoint(
            slot,
            index,
            Endpoint {
                stop_seen: false,
                ..kept
            },
        );
    }

    /// An endpoint is in this state from now on.
    fn set_state(&mut self, slot: u8, index: u8, state: EndpointState)
        requires { index < 32 }
        ensures { (h : Header) (k : Known) → FollowsDevices k self.old → FollowsDevices (in_state h k slot index state) self.new }
    {
        let kept = self.endpoint(slot, index);
        self.set_endpoint(slot, index, Endpoint { state, ..kept });
    }
}

/// The state of the slot after a success of the command; it stays where none is possible.
fn gone_on(command: &Command, state: SlotState) -> SlotState
    ensures { result ≡ unwrap_or (slot_success command.now state) state }
{
    state.after(command, 1).unwrap_or(state)
}

/// The ring that an endpoint in this state gets, of the one that has the block at a pointer.
fn ring_got(state: EndpointState, ring: Option<u8>) -> Option<u8>
    ensures { result ≡ ring_got state ring }
{
    match state {
        EndpointState::Disabled => ring,
        _ => None,
    }
}

fn placed_endpoint(kept: Endpoint, gets: Option<u8>, state: EndpointState) -> Endpoint
    ensures { result ≡ placed_endpoint kept gets state }
{
    Endpoint {
        state,
        ring: gets.or(kept.ring),
        must_move: false,
        ..kept
    }
}
