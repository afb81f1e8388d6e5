//! Which Transfer Events the profile has: xHCI 6.4.2.1, 6.4.5.
ghost use Rattle.std.specs.Prelude.{◌≡◌, ◌&&◌, ◌||◌, not};
ghost use Rattle.trb.specs.Block.{code, endpoint, kind, slot};
ghost use Rattle.trb.specs.CompletionCode.{is_halting, is_isoch_error, is_of_service, is_success, is_transfer_code, is_trb_error};
ghost use Rattle.trb.specs.Kind.{is_transfer_event};
ghost use Rattle.traces.specs.Versions.{has_isoch};
ghost use Rattle.ring_knowledge.specs.Known.{Known};
ghost use Rattle.trace_record.specs.DeviceSlots.Devices.{FollowsDevices};
ghost use Rattle.ownership_rules.specs.Events.{is_code_of_profile, is_in_profile};

use trace_record::DeviceRecord;
use traces::Header;
use trb::{Block, BlockKind, counted_code, is_halting, is_of_service, is_success, is_trb_error};

/// Whether the profile leaves an event out: a Transfer Event with Event Data where the version or its code has none, or with a code that
/// the profile doesn't have.
#[inline(always)]
pub fn is_left_out(header: &Header, devices: &DeviceRecord, event: Block) -> bool
    ensures { (k : Known) → FollowsDevices k devices.now → result ≡ (is_transfer_event (kind event) && not (is_in_profile header.now k event)) }
{
    is_transfer_event(event.kind()) && !is_in_profile(header, devices, event)
}

fn is_transfer_event(kind: BlockKind) -> bool
    ensures { result ≡ is_transfer_event kind }
{
    matches!(kind, BlockKind::TransferEvent)
}

/// Event Data (ED) only where the version and the code have it, and a code of the profile.
#[inline(always)]
fn is_in_profile(header: &Header, devices: &DeviceRecord, event: Block) -> bool
    ensures { (k : Known) → FollowsDevices k devices.now → result ≡ is_in_profile header.now k event }
{
    header.version.may_have_data(event) && is_code_of_profile(header, devices, event)
}

/// A code of any endpoint, or of an isochronous one, where the trace's version has those.
#[inline(always)]
fn is_code_of_profile(header: &Header, devices: &DeviceRecord, event: Block) -> bool
    ensures { (k : Known) → FollowsDevices k devices.now → result ≡ is_code_of_profile header.now k event }
{
    is_transfer_code(event.code()) || header.version.has_isoch() && is_isoch_code(devices, event)
}

/// The codes of Transfer Events of any endpoint (xHCI 6.4.5, table 6-90).
fn is_transfer_code(code: u8) -> bool
    ensures { result ≡ is_transfer_code code }
{
    matches!(code, 1 | 13 | 3 | 4 | 6 | 36 | 5 | 26 | 27 | 28)
}

/// A code that tells of the service of an endpoint, or the error of an isochronous one (xHCI 4.10.3).
fn is_isoch_code(devices: &DeviceRecord, event: Block) -> bool
    ensures { (k : Known) → FollowsDevices k devices.now →
        result ≡ (is_of_service (code event) || (k.isochronous (slot event) (endpoint event) && is_isoch_error (code event))) }
{
    is_of_service(event.code())
        || devices.is_isochronous(event.slot(), event.endpoint()) && is_isoch_error(event.code())
}

/// An error that an isochronous endpoint tells of, and goes on: there it counts as Success.
fn is_isoch_error(code: u8) -> bool
    ensures { result ≡ is_isoch_error code }
{
    code != 1 && counted_code(true, code) == 1
}

/// An error behind which the endpoint is Halted or in the Error state (xHCI 4.10.2).
pub fn is_failure(code: u8) -> bool
    ensures { result ≡ (is_halting code || is_trb_error code) }
{
    is_halting(code) || is_trb_error(code)
}
