ghost use Rattle.std.specs.Prelude.{◌≡◌, ℕ, ◌<◌, ◌&&◌, ◌==◌};
ghost use Rattle.commands.specs.declared.command.Command.{Command};
ghost use Rattle.commands.specs.Changes.{Disables};
ghost use Rattle.traces.specs.declared.header.Header.{Header};
ghost use Rattle.ring_knowledge.specs.Known.{Known};
ghost use Rattle.ring_knowledge.specs.Completions.{changed_by};
ghost use Rattle.trace_record.specs.DeviceSlots.Endpoints.{named_by, turned_off};

use crate::device_record::kept::{DeviceRecord, Endpoint};
use commands::EndpointState;

/// Which endpoints of a slot a command disables.
#[derive(Clone, Copy, Debug)]
pub enum Named {
    All,
    /// All but the default control endpoint (xHCI 4.6.6 with DC, 4.6.11).
    AboveControl,
    /// Those of them whose bits are 1 in this word of Drop Context flags (xHCI 6.2.5.1).
    Dropped(u32),
}

impl DeviceRecord {
    ghost use Rattle.trace_record.specs.DeviceSlots.Devices.{FollowsDevices, IsDisabled};

    /// These endpoints of a slot are Disabled, and have no ring.
    pub fn disable(&mut self, slot: u8, named: Named)
        ensures { (h : Header) (c : Command) (k : Known) → FollowsDevices k self.old → FollowsDevices (changed_by h c k (Disables slot (named_by named))) self.new }
    {
        self.disable_each(slot, named);
    }

    fn disable_each(&mut self, slot: u8, named: Named)
        ensures { IsDisabled self.old self.new slot (named_by named) }
    {
        for index in 0..32 {
            self.disable_named(slot, named, index);
        }
    }

    /// The endpoint with this index is disabled, where it is among them.
    fn disable_named(&mut self, slot: u8, named: Named, index: u8)
        requires { index < 32 }
        ensures { IsDisabled self.old self.new slot (λ i. named_by named i && i == index) }
    {
        let kept = self.endpoint(slot, index);
        self.set_endpoint(slot, index, turned_off(is_named(named, index), kept));
    }
}

/// Whether an endpoint is among them.
fn is_named(named: Named, index: u8) -> bool
    requires { index < 32 }
    ensures { result ≡ named_by named index }
{
    match named {
        Named::All => true,
        Named::AboveControl => index >= 2,
        Named::Dropped(flags) => index >= 2 && (flags >> u32::from(index)) % 2 == 1,
    }
}

fn turned_off(is_named: bool, kept: Endpoint) -> Endpoint
    ensures { result ≡ turned_off is_named kept }
{
    if !is_named {
        return kept;
    }
    Endpoint {
        state: EndpointState::Disabled,
        ring: None,
        ..kept
    }
}
