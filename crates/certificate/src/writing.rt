//! Leases as bytes: 8 bytes that name the format, then a record of 24 bytes for each, little-endian.
ghost use Rattle.std.specs.Prelude.{◌≡◌, ◌++◌, ◌+◌, ◌^◌, ◌<◌, ◌≤◌, ◌*◌, All, Ok, IfOk, IfErr, OnOk, length};
ghost use Rattle.std.specs.List.{flat_map};
ghost use Rattle.std.specs.Io.KnownBytes.{Appends};
ghost use Rattle.certificate.specs.Sinks.{IsCutBehind, IsCutOff, failures_behind};
ghost use Rattle.certificate.specs.Spelling.{FitsLease, certificate_of, lease_bytes, spelling};

use crate::fault::EncodeFault;
use crate::records_so_far::RECORD;
use crate::sink::{Failed, Sink};
use arrayvec::ArrayVec;
use byteorder::{ByteOrder, LittleEndian};
use ring_knowledge::Lease;
use std::alloc::{AllocError, Global};

/// The bytes of a list of leases, in its order. Read again they give the same list, where its fields are allowed.
pub fn encode(alloc: Global, leases: &[Lease]) -> Result<Vec<u8>, AllocError>
    ensures spelled { IfOk result (λ bytes. bytes.items ≡ spelling leases.now) }
    ensures reread { IfOk result (λ bytes. All FitsLease leases.now → certificate_of bytes.items ≡ Ok leases.now) }
{
    let bytes = bytes_of(alloc, leases)?;
    Ok(bytes)
}

fn bytes_of(alloc: Global, leases: &[Lease]) -> Result<Vec<u8>, AllocError>
    ensures { IfOk result (λ bytes. bytes.items ≡ spelling leases.now) }
{
    let mut bytes = Vec::new(alloc);
    bytes.extend_from_slice(b"XHCICRT1")?;
    for lease in leases {
        bytes.extend_from_slice(&record_of(*lease))?;
    }
    Ok(bytes)
}

/// The record of a lease: kind, ring, position, first and last row.
#[tactic(auto, unfolding(crate::specs::Spelling::lease_bytes))]
fn record_of(lease: Lease) -> [u8; RECORD]
    ensures bytes { result ≡ lease_bytes lease }
    ensures size { length result ≡ 24 }
{
    let mut record = [0; RECORD];
    LittleEndian::write_u32(&mut record, lease.kind);
    LittleEndian::write_u32(&mut record[4..], lease.ring);
    LittleEndian::write_u64(&mut record[8..], lease.pos);
    LittleEndian::write_u32(&mut record[16..], lease.from);
    LittleEndian::write_u32(&mut record[20..], lease.to);
    record
}

/// As many records are written at once.
const AT_ONCE: usize = 170;

/// The bytes that are written at once: those that name the format, and records.
const BUFFER: usize = 4096;

/// Writes the bytes of a list of leases, in its order. It takes no memory, and ends at the first failure.
pub fn encode_to<S: Sink>(sink: &mut S, leases: &[Lease]) -> Result<(), EncodeFault>
    ensures whole { OnOk result (Appends (S.taken sink.old) (S.taken sink.new) (spelling leases.now)) }
    ensures part { IfErr result (λ fault. IsCutOff (S.taken sink.old) (S.taken sink.new) (spelling leases.now) fault) }
    ensures failures { S.failed sink.new ≡ failures_behind (S.failed sink.old) result }
{
    let _fits = size_of_records(leases);
    let (first, later) = leases.split_at(leases.len().min(AT_ONCE));
    let mut done = write_records(sink, 0, b"XHCICRT1", first)?;
    let mut rest = later;
    while !rest.is_empty() {
        let (next, later) = rest.split_at(rest.len().min(AT_ONCE));
        done = write_records(sink, done, b"", next)?;
        rest = later;
    }
    Ok(())
}

/// How many bytes the records have: as many as the leases have in memory.
fn size_of_records(leases: &[Lease]) -> usize
    ensures size { result ≡ 24 * length leases.now }
    ensures small { result < 2 ^ 63 }
{
    RECORD * leases.len()
}

/// Writes records, `front` before them, where so many bytes were written before; how many are written then.
fn write_records<S: Sink>(
    sink: &mut S,
    done: u64,
    front: &[u8],
    leases: &[Lease],
) -> Result<u64, EncodeFault>
    requires few { length front.now + 24 * length leases.now ≤ 4096 }
    requires fits { done + (length front.now + 24 * length leases.now) < 2 ^ 64 }
    ensures whole { OnOk result (Appends (S.taken sink.old) (S.taken sink.new) (front.now ++ flat_map lease_bytes leases.now)) }
    ensures done { IfOk result (λ now. now ≡ done + length (front.now ++ flat_map lease_bytes leases.now)) }
    ensures part { IfErr result (λ fault. IsCutBehind (S.taken sink.old) (S.taken sink.new) done (front.now ++ flat_map lease_bytes leases.now) fault) }
    ensures failures { S.failed sink.new ≡ failures_behind (S.failed sink.old) result }
{
    let bytes = records_behind(front, leases);
    write_all(sink, done, bytes.as_slice())
}

/// Records, `front` before them.
fn records_behind(front: &[u8], leases: &[Lease]) -> ArrayVec<u8, BUFFER>
    requires { length front.now + 24 * length leases.now ≤ 4096 }
    ensures { result.items ≡ front.now ++ flat_map lease_bytes leases.now }
{
    let mut bytes = ArrayVec::new();
    push(&mut bytes, front);
    for lease in leases {
        push(&mut bytes, &record_of(*lease));
    }
    bytes
}

/// Appends bytes, for which there is room.
fn push(bytes: &mut ArrayVec<u8, BUFFER>, more: &[u8])
    requires { length bytes.old.items + length more.now ≤ 4096 }
    ensures items { bytes.new.items ≡ bytes.old.items ++ more.now }
    ensures size { length bytes.new.items ≡ length bytes.old.items + length more.now }
{
    let _fits = bytes.try_extend_from_slice(more);
}

/// Writes all of the bytes, where so many were written before; how many are written then.
fn write_all<S: Sink>(sink: &mut S, done: u64, bytes: &[u8]) -> Result<u64, EncodeFault>
    requires { done + length bytes.now < 2 ^ 64 }
    ensures whole { OnOk result (Appends (S.taken sink.old) (S.taken sink.new) bytes.now) }
    ensures done { IfOk result (λ now. now ≡ done + length bytes.now) }
    ensures part { IfErr result (λ fault. IsCutBehind (S.taken sink.old) (S.taken sink.new) done bytes.now fault) }
    ensures failures { S.failed sink.new ≡ failures_behind (S.failed sink.old) result }
{
    let mut taken = 0;
    while taken < bytes.len() {
        match sink.write(&bytes[taken..]) {
            Ok(more) => taken += more,
            Err(Failed) => {
                return Err(EncodeFault::Device {
                    done: done + taken as u64,
                });
            }
        }
    }
    Ok(done + taken as u64)
}
