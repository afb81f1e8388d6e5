//! The records of a certificate, as they are read piece by piece.
ghost use Rattle.std.specs.Prelude.{◌≡◌, ◌≤◌, ◌/◌, ◌++◌, ◌∷◌, [], List, ℕ, Ok, Err, OnOk, IfOk, IfErr, length};
ghost use Rattle.ring_knowledge.specs.declared.lease.Lease.{Lease};
ghost use Rattle.certificate.specs.Pieces.{AreSeen, IsShownBehind, fault_of};
ghost use Rattle.certificate.specs.Spelling.{has_lease_fields, lease_in, leases_in, records_of};

use crate::no_certificate::{BadLease, NoCertificate};
use byteorder::{ByteOrder, LittleEndian};
use ring_knowledge::Lease;
use std::alloc::{AllocError, Global};

/// The bytes of a record.
pub(crate) const RECORD: usize = 24;

/// The leases of the records so far, up to the first that is none.
#[derive(Drop)]
pub(crate) struct Records {
    leases: Vec<Lease>,
    bad: Option<BadLease>,
}

impl Records {
    /// No record was read.
    pub fn new(alloc: Global) -> Records
        ensures { AreSeen result [] }
    {
        Records {
            leases: Vec::new(alloc),
            bad: None,
        }
    }

    /// Takes the records of a piece; bytes behind its last whole record are left out.
    pub fn take(&mut self, piece: &[u8]) -> Result<(), AllocError>
        ensures { OnOk result ((seen : List Lease) → AreSeen self.old seen → AreSeen self.new (seen ++ leases_in piece.now (length piece.now / 24))) }
    {
        for record in 0..piece.len() / RECORD {
            self.push(lease_in(&piece[RECORD * record..]))?;
        }
        Ok(())
    }

    fn push(&mut self, lease: Lease) -> Result<(), AllocError>
        ensures { OnOk result ((seen : List Lease) → AreSeen self.old seen → AreSeen self.new (seen ++ lease ∷ [])) }
    {
        if self.bad.is_some() {
            return Ok(());
        }
        if has_lease_fields(lease) {
            self.leases.push(lease)?;
        } else {
            let number = self.leases.as_slice().len() + 1;
            self.bad = Some(BadLease { number, lease });
        }
        Ok(())
    }

    /// The leases of all records, which have so many bytes; else the least fault that these have.
    pub fn into_leases(self, bytes: u64) -> Result<Vec<Lease>, NoCertificate>
        ensures leases { IfOk result (λ leases. (records : List ℕ) → length records ≡ bytes → AreSeen self (leases_in records (length records / 24))
            → records_of records ≡ Ok leases.items) }
        ensures fault { IfErr result (λ why. (records : List ℕ) → length records ≡ bytes → AreSeen self (leases_in records (length records / 24))
            → (records_of records ≡ Err (fault_of why)) × IsShownBehind records why) }
    {
        if bytes % RECORD as u64 != 0 {
            return Err(NoCertificate::Length { behind: bytes });
        }
        match self.bad {
            Some(bad) => Err(NoCertificate::Field(bad)),
            None => Ok(self.leases),
        }
    }
}

/// The lease in the first 24 bytes.
#[tactic(auto, unfolding(crate::specs::Spelling::lease_in))]
fn lease_in(bytes: &[u8]) -> Lease
    requires { 24 ≤ length bytes.now }
    ensures { result ≡ lease_in bytes.now }
{
    Lease {
        kind: LittleEndian::read_u32(bytes),
        ring: LittleEndian::read_u32(&bytes[4..]),
        pos: LittleEndian::read_u64(&bytes[8..]),
        from: LittleEndian::read_u32(&bytes[16..]),
        to: LittleEndian::read_u32(&bytes[20..]),
    }
}

fn has_lease_fields(lease: Lease) -> bool
    ensures { result ≡ has_lease_fields lease }
{
    lease.kind <= 2 && (lease.kind == 2 || lease.ring <= 255) && lease.from < lease.to
}
