//! Completion codes of Transfer Events: xHCI 6.4.5, table 6-90.
ghost use Rattle.std.specs.Prelude.{◌≡◌};
ghost use Rattle.trb.specs.CompletionCode.{counted_code, is_halting, is_isoch_error, is_of_service, may_name_data, is_stopping, is_success, is_trb_error};

/// Success or Short Packet: the block is finished.
#[inline(always)]
pub fn is_success(code: u8) -> bool
    ensures { result ≡ is_success code }
{
    code == 1 || code == 13
}

/// An error behind which the endpoint is Halted (xHCI 4.10.2).
#[inline(always)]
pub fn is_halting(code: u8) -> bool
    ensures { result ≡ is_halting code }
{
    code == 3 || code == 4 || code == 6 || code == 36
}

/// TRB Error, behind which the endpoint is in the Error state (xHCI 4.10.2.2).
#[inline(always)]
pub fn is_trb_error(code: u8) -> bool
    ensures { result ≡ is_trb_error code }
{
    code == 5
}

/// Stopped, Stopped - Length Invalid or Stopped - Short Packet: the controller was stopped before or inside the block that the event names (xHCI 4.6.9).
#[inline(always)]
pub fn is_stopping(code: u8) -> bool
    ensures { result ≡ is_stopping code }
{
    code == 26 || code == 27 || code == 28
}

/// How a code counts, by whether its endpoint is isochronous: no error halts such an endpoint, the errors tell that a block was passed, as
/// Success does; nothing stalls there, and Stall counts as no code (xHCI 4.10.2, 4.10.3).
#[inline(always)]
pub fn counted_code(is_isochronous: bool, code: u8) -> u8
    ensures { result ≡ counted_code is_isochronous code }
{
    if !is_isochronous {
        return code;
    }
    if is_isoch_error(code) {
        1
    } else if code == 6 {
        0
    } else {
        code
    }
}

/// An error that an isochronous endpoint tells of, and goes on.
fn is_isoch_error(code: u8) -> bool
    ensures { result ≡ is_isoch_error code }
{
    matches!(code, 2 | 3 | 4 | 18 | 20 | 31 | 36)
}

/// Ring Underrun, Ring Overrun or Missed Service Error: an isochronous endpoint tells of its service, and of no block (xHCI 4.10.3).
#[inline(always)]
pub fn is_of_service(code: u8) -> bool
    ensures { result ≡ is_of_service code }
{
    matches!(code, 14 | 15 | 23)
}

/// An event with this code may tell the value of an Event Data block (xHCI 4.11.5.2): the code tells that the block was passed.
#[inline(always)]
pub fn may_name_data(code: u8) -> bool
    ensures { result ≡ may_name_data code }
{
    !is_of_service(code) && !is_stopping(code)
}
