ghost use Rattle.std.specs.Prelude.{◌≡◌, Some};
ghost use Rattle.std.specs.Fmt.{padded};
ghost use Rattle.certificate.specs.Spelling.{cert_fault_number, cert_fault_name};

use std::alloc::AllocError;
use std::fmt;
use thiserror::Error;

/// Why bytes are no certificate.
#[derive(Clone, Copy, Debug, PartialEq, Eq)]
pub enum CertFault {
    /// The first 8 bytes are missing, or others than `XHCICRT1`.
    Magic,
    /// The rest is no whole number of records of 24 bytes.
    Length,
    /// A field that no lease has: a kind above 2, a ring's ID above 255, or an end that isn't after the beginning.
    Field,
    /// A growth of memory was refused.
    Memory,
}

impl CertFault {
    /// The number that is printed: 6 to 8, or 30.
    pub fn number(self) -> u8
        ensures { result ≡ cert_fault_number self }
    {
        match self {
            CertFault::Magic => 6,
            CertFault::Length => 7,
            CertFault::Field => 8,
            CertFault::Memory => 30,
        }
    }

    /// The name that is printed.
    pub fn name(self) -> &'static str
        ensures { result.now ≡ cert_fault_name self }
    {
        match self {
            CertFault::Magic => "Magic",
            CertFault::Length => "Length",
            CertFault::Field => "Field",
            CertFault::Memory => "Memory",
        }
    }
}

impl fmt::Display for CertFault {
    ghost output = { λ fault. Some (cert_fault_name fault) };

    ghost styled_output = { λ fault spec. Some (padded spec (cert_fault_name fault)) };

    fn fmt<W: fmt::Write>(&self, f: &mut fmt::Formatter<W>) -> fmt::Result {
        f.pad(self.name())
    }
}

impl std::error::Error for CertFault {}

impl From<AllocError> for CertFault {
    ghost use Rattle.certificate.specs.declared.fault.CertFault.TheVariants.{Memory};

    ghost from_gives = { λ f e. e ≡ Memory };

    fn from(_error: AllocError) -> CertFault {
        CertFault::Memory
    }
}

/// Why a certificate wasn't written whole.
#[derive(Clone, Copy, Debug, Error, PartialEq, Eq)]
pub enum EncodeFault {
    /// The device failed when it had taken so many bytes of the certificate, and these alone.
    #[error("the device failed when it had taken {done} bytes")]
    Device { done: u64 },
}

impl EncodeFault {
    /// The number that is printed.
    pub fn number(self) -> u8
        ensures { result ≡ 31 }
    {
        match self {
            EncodeFault::Device { .. } => 31,
        }
    }
}
