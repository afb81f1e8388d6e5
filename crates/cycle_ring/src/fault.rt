ghost use Rattle.std.specs.Prelude.{◌≡◌, Some, codes};
ghost use Rattle.std.specs.Fmt.{padded};
ghost use Rattle.cycle_ring.specs.Progress.{enqueue_fault_number, enqueue_fault_name};

use std::alloc::AllocError;
use std::error::Error;
use std::fmt;
use trb::Fault;

/// Why blocks were not enqueued.
#[derive(Clone, Copy, Debug, PartialEq, Eq)]
pub enum EnqueueFault {
    /// There is no room for them on the ring.
    RingFull,
    /// They are no descriptor of the ring.
    BadDescriptor,
    /// They are a descriptor that this project leaves out.
    NotInProfile,
    /// A growth of memory was refused.
    Memory,
}

impl EnqueueFault {
    /// The number that is printed.
    pub fn number(self) -> u8
        ensures { result ≡ enqueue_fault_number self }
    {
        match self {
            EnqueueFault::RingFull => 15,
            EnqueueFault::BadDescriptor => 16,
            EnqueueFault::NotInProfile => 23,
            EnqueueFault::Memory => 30,
        }
    }

    /// The name that is printed.
    pub fn name(self) -> &'static str
        ensures { result.now ≡ enqueue_fault_name self }
    {
        match self {
            EnqueueFault::RingFull => "RingFull",
            EnqueueFault::BadDescriptor => "BadDescriptor",
            EnqueueFault::NotInProfile => "NotInProfile",
            EnqueueFault::Memory => "Memory",
        }
    }
}

impl fmt::Display for EnqueueFault {
    ghost output = { λ fault. Some (enqueue_fault_name fault) };

    ghost styled_output = { λ fault spec. Some (padded spec (enqueue_fault_name fault)) };

    fn fmt<W: fmt::Write>(&self, f: &mut fmt::Formatter<W>) -> fmt::Result {
        f.pad(self.name())
    }
}

impl Error for EnqueueFault {}

impl From<Fault> for EnqueueFault {
    ghost use Rattle.std.specs.Prelude.{◌≡◌};
    ghost use Rattle.cycle_ring.specs.Progress.{of_descriptor};

    ghost from_gives = { λ fault result. result ≡ of_descriptor fault };

    fn from(fault: Fault) -> EnqueueFault {
        match fault {
            Fault::BadDescriptor => EnqueueFault::BadDescriptor,
            Fault::NotInProfile => EnqueueFault::NotInProfile,
        }
    }
}

impl From<AllocError> for EnqueueFault {
    ghost use Rattle.std.specs.Prelude.{◌≡◌};
    ghost use Rattle.cycle_ring.specs.declared.fault.EnqueueFault.TheVariants.{Memory};

    ghost from_gives = { λ _ fault. fault ≡ Memory };

    fn from(_refused: AllocError) -> EnqueueFault {
        EnqueueFault::Memory
    }
}

/// Blocks cannot be retired up to this count: it is below what is retired, or above what is enqueued.
#[derive(Clone, Copy, Debug, PartialEq, Eq)]
pub struct NotGiven;

impl NotGiven {
    /// The number that is printed.
    pub fn number(self) -> u8
        ensures { result ≡ 26 }
    {
        26
    }

    /// The name that is printed.
    pub fn name(self) -> &'static str
        ensures { result.now ≡ codes "NotGiven" }
    {
        "NotGiven"
    }
}

impl fmt::Display for NotGiven {
    ghost output = { λ _. Some (codes "NotGiven") };

    ghost styled_output = { λ _ spec. Some (padded spec (codes "NotGiven")) };

    fn fmt<W: fmt::Write>(&self, f: &mut fmt::Formatter<W>) -> fmt::Result {
        f.pad(self.name())
    }
}

impl Error for NotGiven {}
