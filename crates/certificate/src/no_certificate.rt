//! Why there are no leases: what shows that bytes are no certificate, or how reading them failed.
ghost use Rattle.std.specs.Prelude.{◌≡◌};
ghost use Rattle.certificate.specs.Pieces.{fault_of};

use crate::fault::CertFault;
use ring_knowledge::Lease;
use std::alloc::AllocError;
use std::io;

/// A lease of a certificate that has a field that no lease has, and its number, from 1.
#[derive(Clone, Copy, Debug, PartialEq, Eq)]
pub struct BadLease {
    pub number: usize,
    pub lease: Lease,
}

/// What shows that bytes are no certificate.
#[derive(Clone, Copy, Debug)]
pub enum NoCertificate {
    /// They begin with so many of these bytes, with others than those that name the format, or have no more.
    Magic { first: [u8; 8], count: usize },
    /// So many stand behind the first 8.
    Length { behind: u64 },
    /// The first lease that is none.
    Field(BadLease),
}

impl NoCertificate {
    /// The least fault that the bytes have.
    pub fn fault(&self) -> CertFault
        ensures { result ≡ fault_of self.now }
    {
        match self {
            NoCertificate::Magic { .. } => CertFault::Magic,
            NoCertificate::Length { .. } => CertFault::Length,
            NoCertificate::Field(_) => CertFault::Field,
        }
    }
}

/// Why a certificate wasn't read.
#[derive(Debug, Drop)]
pub enum Unread {
    /// There is none.
    Bytes(NoCertificate),
    /// The reader failed, or a growth of memory was refused, which is of the kind `OutOfMemory`.
    Failed(io::Error),
}

impl From<io::Error> for Unread {
    ghost use Rattle.certificate.specs.declared.no_certificate.Unread.TheVariants.{Failed};

    ghost from_gives = { λ error unread. unread ≡ Failed error };

    fn from(error: io::Error) -> Unread {
        Unread::Failed(error)
    }
}

impl From<AllocError> for Unread {
    ghost use Rattle.certificate.specs.Pieces.{IsFailed};

    ghost from_gives = { λ _ unread. IsFailed unread };

    fn from(error: AllocError) -> Unread {
        Unread::Failed(error.into())
    }
}
