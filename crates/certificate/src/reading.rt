//! The leases that bytes spell: of a slice, or as a reader gives them.
ghost use Rattle.std.specs.Prelude.{◌≡◌, ◌≢◌, ◌≤◌, ◌<◌, Ok, Err, length, take, IfOk, IfErr, IfSome};
ghost use Rattle.std.specs.Io.KnownBytes.{Consumes, IsAtEnd};
ghost use Rattle.certificate.specs.Pieces.{AreUnread, IsUnread};
ghost use Rattle.std.specs.Str.{bytes_eq};
ghost use Rattle.certificate.specs.Spelling.{certificate_of, magic, records_of, spelling};

use crate::fault::CertFault;
use crate::no_certificate::{NoCertificate, Unread};
use crate::records_so_far::Records;
use ring_knowledge::Lease;
use std::alloc::Global;
use std::io::{self, ErrorKind, Read};

/// The bytes that name the format.
const MAGIC: &[u8; 8] = b"XHCICRT1";

/// How many bytes are read at a time: whole records.
const PIECE: usize = 4080;

/// So many pieces are read at most, so that their bytes can be counted.
const MOST_PIECES: u64 = 1 << 51;

/// The leases that a certificate spells; else the least fault that the bytes have, or want of memory.
pub fn decode(alloc: Global, bytes: &[u8]) -> Result<Vec<Lease>, CertFault>
    ensures leases { IfOk result (λ leases. certificate_of bytes.now ≡ Ok leases.items) }
    ensures spelled { IfOk result (λ leases. spelling leases.items ≡ bytes.now) }
    ensures fault { IfErr result (λ fault. fault ≢ CertFault.Memory → certificate_of bytes.now ≡ Err fault) }
{
    certificate_of(alloc, bytes)
}

#[tactic(auto, unfolding(crate::specs::Spelling::certificate_of))]
fn certificate_of(alloc: Global, bytes: &[u8]) -> Result<Vec<Lease>, CertFault>
    ensures leases { IfOk result (λ leases. certificate_of bytes.now ≡ Ok leases.items) }
    ensures fault { IfErr result (λ fault. fault ≢ CertFault.Memory → certificate_of bytes.now ≡ Err fault) }
{
    match bytes.strip_prefix(MAGIC) {
        Some(records) => records_of(alloc, records),
        None => Err(CertFault::Magic),
    }
}

/// The leases of records, or the least fault that these have.
fn records_of(alloc: Global, bytes: &[u8]) -> Result<Vec<Lease>, CertFault>
    ensures leases { IfOk result (λ leases. records_of bytes.now ≡ Ok leases.items) }
    ensures fault { IfErr result (λ fault. fault ≢ CertFault.Memory → records_of bytes.now ≡ Err fault) }
{
    let mut records = Records::new(alloc);
    records.take(bytes)?;
    match records.into_leases(bytes.len() as u64) {
        Ok(leases) => Ok(leases),
        Err(why) => Err(why.fault()),
    }
}

/// The leases of the certificate that a reader gives, which is read to its end by small pieces; the bytes aren't kept. Else what shows
/// that it is none, or why it can't be read.
pub fn read_certificate<R: Read>(alloc: Global, reader: &mut R) -> Result<Vec<Lease>, Unread>
    ensures leases { IfOk result (λ leases. IfSome (R.remaining reader.old) (λ bytes. certificate_of bytes ≡ Ok leases.items)) }
    ensures unread { IfErr result (λ unread. IfSome (R.remaining reader.old) (λ bytes. IsUnread bytes unread)) }
{
    let mut first = [0; 8];
    let count = fill(reader, &mut first)?;
    if names_format(&first[..count]) {
        read_records(alloc, reader)
    } else {
        skip(reader)?;
        Err(Unread::Bytes(NoCertificate::Magic { first, count }))
    }
}

/// Whether these are the bytes that name the format.
fn names_format(first: &[u8]) -> bool
    ensures { result ≡ bytes_eq first.now magic }
{
    first == MAGIC.as_slice()
}

/// The same of the records behind the first 8 bytes.
fn read_records<R: Read>(alloc: Global, reader: &mut R) -> Result<Vec<Lease>, Unread>
    ensures leases { IfOk result (λ leases. IfSome (R.remaining reader.old) (λ records. records_of records ≡ Ok leases.items)) }
    ensures unread { IfErr result (λ unread. IfSome (R.remaining reader.old) (λ records. AreUnread records unread)) }
{
    let mut records = Records::new(alloc);
    let mut piece = [0; PIECE];
    for pieces in 0..MOST_PIECES {
        let count = fill(reader, &mut piece)?;
        records.take(&piece[..count])?;
        if count < PIECE {
            return match records.into_leases(pieces * PIECE as u64 + count as u64) {
                Ok(leases) => Ok(leases),
                Err(why) => Err(Unread::Bytes(why)),
            };
        }
    }
    Err(Unread::Failed(ErrorKind::FileTooLarge.into()))
}

/// Reads to the end.
fn skip<R: Read>(reader: &mut R) -> io::Result<()> {
    let mut piece = [0; PIECE];
    for _ in 0..u64::MAX {
        if fill(reader, &mut piece)? < PIECE {
            return Ok(());
        }
    }
    Err(ErrorKind::FileTooLarge.into())
}

/// Fills the buffer as far as there are bytes, and says with how many.
fn fill<R: Read>(reader: &mut R, buffer: &mut [u8]) -> io::Result<usize>
    ensures bound { IfOk result (λ count. count ≤ length buffer.new) }
    ensures bytes { IfOk result (λ count. Consumes (R.remaining reader.old) (R.remaining reader.new) (take count buffer.new)) }
    ensures end { IfOk result (λ count. count < length buffer.new → IsAtEnd (R.remaining reader.new)) }
{
    let mut filled = 0;
    for _ in 0..u64::MAX {
        if filled == buffer.len() {
            return Ok(filled);
        }
        match reader.read(&mut buffer[filled..]) {
            Ok(0) => return Ok(filled),
            Ok(count) => filled += count,
            Err(error) => {
                if error.kind() != ErrorKind::Interrupted {
                    return Err(error);
                }
            }
        }
    }
    Err(ErrorKind::Interrupted.into())
}
