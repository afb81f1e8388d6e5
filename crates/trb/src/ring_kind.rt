ghost use Rattle.std.specs.Prelude.{◌≡◌, Some};
ghost use Rattle.std.specs.Fmt.{padded};
ghost use Rattle.trb.specs.RingKind.{ring_name};

use std::fmt;

/// What a ring carries (xHCI 4.9).
#[derive(Clone, Copy, Debug, PartialEq, Eq)]
pub enum RingKind {
    /// The Command Ring.
    Cmd,
    /// The Event Ring of interrupter 0.
    Evt,
    /// A Transfer Ring.
    Xfer,
}

impl RingKind {
    /// The word for it in a trace.
    pub fn name(self) -> &'static str
        ensures { result.now ≡ ring_name self }
    {
        match self {
            RingKind::Cmd => "cmd",
            RingKind::Evt => "evt",
            RingKind::Xfer => "xfer",
        }
    }
}

impl fmt::Display for RingKind {
    ghost output = { λ kind. Some (ring_name kind) };

    ghost styled_output = { λ kind spec. Some (padded spec (ring_name kind)) };

    fn fmt<W: fmt::Write>(&self, f: &mut fmt::Formatter<W>) -> fmt::Result {
        f.pad(self.name())
    }
}
