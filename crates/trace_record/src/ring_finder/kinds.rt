ghost use Rattle.std.specs.Prelude.{◌≡◌};
ghost use Rattle.traces.specs.Header.{is_command_kind, is_event_kind, is_transfer_kind};

use traces::Ring;
use trb::RingKind;

/// The ring carries events.
pub fn is_event_ring(ring: &Ring) -> bool
    ensures { result ≡ is_event_kind ring.now.shape.kind }
{
    matches!(ring.shape.kind(), RingKind::Evt)
}

/// The ring carries commands.
pub fn is_command_ring(ring: &Ring) -> bool
    ensures { result ≡ is_command_kind ring.now.shape.kind }
{
    matches!(ring.shape.kind(), RingKind::Cmd)
}

/// The ring carries transfers.
pub(crate) fn is_transfer_ring(ring: &Ring) -> bool
    ensures { result ≡ is_transfer_kind ring.now.shape.kind }
{
    matches!(ring.shape.kind(), RingKind::Xfer)
}
