ghost use Rattle.std.specs.Prelude.{◌≡◌, Some};
ghost use Rattle.std.specs.Fmt.{padded};
ghost use Rattle.trb.specs.Descriptor.{fault_number, fault_name};

use std::error::Error;
use std::fmt;

/// What is wrong with a list of blocks as a descriptor.
#[derive(Clone, Copy, Debug, PartialEq, Eq)]
pub enum Fault {
    /// No form of a descriptor of this ring.
    BadDescriptor,
    /// A form of the standard that this project leaves out.
    NotInProfile,
}

impl Fault {
    /// The number that is printed.
    pub fn number(self) -> u8
        ensures { result ≡ fault_number self }
    {
        match self {
            Fault::BadDescriptor => 16,
            Fault::NotInProfile => 23,
        }
    }

    /// The name that is printed.
    pub fn name(self) -> &'static str
        ensures { result.now ≡ fault_name self }
    {
        match self {
            Fault::BadDescriptor => "BadDescriptor",
            Fault::NotInProfile => "NotInProfile",
        }
    }
}

impl fmt::Display for Fault {
    ghost output = { λ fault. Some (fault_name fault) };

    ghost styled_output = { λ fault spec. Some (padded spec (fault_name fault)) };

    fn fmt<W: fmt::Write>(&self, f: &mut fmt::Formatter<W>) -> fmt::Result {
        f.pad(self.name())
    }
}

impl Error for Fault {}
