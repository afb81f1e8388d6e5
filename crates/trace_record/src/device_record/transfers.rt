ghost use Rattle.std.specs.Prelude.{◌≡◌, ℕ, ◌<◌, ◌&&◌, is_some};
ghost use Rattle.trb.specs.CompletionCode.{is_success, is_halting, is_trb_error, is_stopping};
ghost use Rattle.segments.specs.declared.spot.Spot.{Spot};
ghost use Rattle.commands.specs.States.{is_stopped};
ghost use Rattle.traces.specs.declared.header.Header.{Header};
ghost use Rattle.ring_knowledge.specs.Known.{Known};
ghost use Rattle.ring_knowledge.specs.Registers.{rung};
ghost use Rattle.ring_knowledge.specs.Transfers.{transferred};
ghost use Rattle.trace_record.specs.DeviceSlots.Endpoints.{rung_endpoint, transferred_endpoint};

use crate::device_record::kept::{DeviceRecord, Endpoint};
use commands::EndpointState;
use trb::{is_halting, is_stopping, is_success, is_trb_error};

impl DeviceRecord {
    ghost use Rattle.trace_record.specs.DeviceSlots.Devices.{FollowsDevices};

    /// The driver rings a doorbell (xHCI 4.7, 5.6): a Stopped endpoint with a ring is Running. Slot 0 is the host controller.
    pub fn ring_bell(&mut self, slot: u8, index: u8)
        ensures { (h : Header) (k : Known) → FollowsDevices k self.old → FollowsDevices (rung h k slot index) self.new }
    {
        if slot == 0 {
            return;
        }
        if index >= 32 {
            return;
        }
        let kept = self.endpoint(slot, index);
        self.set_endpoint(slot, index, rung_endpoint(kept));
    }

    /// The driver has read a Transfer Event with this code on the endpoint's ring (xHCI 4.8.3, 4.10.2, 6.4.2.1).
    #[inline(always)]
    pub fn read_transfer(&mut self, code: u8, slot: u8, index: u8)
        requires { index < 32 }
        ensures { (h : Header) (k : Known) (r : ℕ) (t : Spot) → FollowsDevices k self.old → FollowsDevices (transferred h k code slot index r t) self.new }
    {
        let kept = self.endpoint(slot, index);
        self.set_endpoint(slot, index, transferred_endpoint(kept, code));
    }
}

/// What is kept of an endpoint whose doorbell is rung.
fn rung_endpoint(kept: Endpoint) -> Endpoint
    ensures { result ≡ rung_endpoint kept }
{
    if !answers_bell(kept) {
        return kept;
    }
    Endpoint {
        state: EndpointState::Running,
        ..kept
    }
}

fn answers_bell(kept: Endpoint) -> bool
    ensures { result ≡ (is_some kept.ring && is_stopped kept.state) }
{
    kept.ring.is_some() & matches!(kept.state, EndpointState::Stopped)
}

/// What is kept of an endpoint behind a Transfer Event.
fn transferred_endpoint(kept: Endpoint, code: u8) -> Endpoint
    ensures { result ≡ transferred_endpoint code kept }
{
    if is_success(code) {
        return kept;
    }
    if is_halting(code) {
        return Endpoint {
            state: EndpointState::Halted,
            must_move: true,
            ..kept
        };
    }
    if is_trb_error(code) {
        return Endpoint {
            state: EndpointState::Error,
            ..kept
        };
    }
    if is_stopping(code) {
        return Endpoint {
            stop_seen: true,
            ..kept
        };
    }
    kept
}
