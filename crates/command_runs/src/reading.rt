//! Reads an input whole, or its first lines.
ghost use Rattle.std.specs.Prelude.{◌≡◌, ◌≤◌, length, IfErr, IfOk, IfSome, IsErr};
ghost use Rattle.answers.specs.Inputs.{opened};
ghost use Rattle.certificate.specs.Pieces.{IsFailed};
ghost use Rattle.command_runs.specs.VerifyAnswers.{IsCertificateOf, IsNoCertificate};

use certificate::{Unread, read_certificate};
use diagnostics::lines_to;
use memchr::memchr_iter;
use ring_knowledge::Lease;
use std::alloc::Global;
use std::io::{self, ErrorKind, Read};

/// How many bytes are read at a time.
const PIECE: usize = 4096;

/// For how many bytes there is room at first, so that most inputs are never moved.
const ROOM: usize = 1 << 18;

/// The bytes of an input, or why it couldn't be opened or read.
pub fn bytes_of<R: Read + Drop>(alloc: Global, input: io::Result<R>) -> io::Result<Vec<u8>>
    ensures bytes { IfOk result (λ bytes. IfSome (opened R.remaining input) (λ known. bytes.items ≡ known)) }
    ensures unopened { IsErr input → IsErr result }
{
    let mut input = input?;
    read_whole(alloc, &mut input)
}

/// The leases of the certificate that an input holds, or why there are none.
pub fn leases_of<R: Read + Drop>(alloc: Global, input: io::Result<R>) -> Result<Vec<Lease>, Unread>
    ensures leases { IfOk result (λ leases. IsCertificateOf (opened R.remaining input) leases.items) }
    ensures unread { IfErr result (λ unread. IsNoCertificate (opened R.remaining input) unread) }
    ensures unopened { IsErr input → IsErr result }
    ensures failed { IsErr input → IfErr result IsFailed }
{
    let mut certificate = input?;
    read_certificate(alloc, &mut certificate)
}

/// The bytes that a reader still has. They are read by small pieces, since a buffer for all of them would be zeroed first.
fn read_whole<R: Read>(alloc: Global, reader: &mut R) -> io::Result<Vec<u8>>
    ensures { IfOk result (λ bytes. IfSome (R.remaining reader.old) (λ known. bytes.items ≡ known)) }
{
    let mut bytes = Vec::with_capacity(alloc, ROOM)?;
    let mut piece = [0u8; PIECE];
    for _ in 0..u64::MAX {
        match reader.read(&mut piece) {
            Ok(0) => return Ok(bytes),
            Ok(count) => bytes.extend_from_slice(&piece[..count])?,
            Err(error) => {
                if error.kind() != ErrorKind::Interrupted {
                    return Err(error);
                }
            }
        }
    }
    Err(ErrorKind::Interrupted.into())
}

/// The first so many lines that a reader still has.
pub fn first_lines<R: Read>(alloc: Global, reader: &mut R, lines: u32) -> io::Result<Vec<u8>> {
    let mut bytes = Vec::new(alloc);
    let mut piece = [0u8; PIECE];
    let mut left = lines;
    for _ in 0..u64::MAX {
        match reader.read(&mut piece) {
            Ok(0) => return Ok(bytes),
            Ok(count) => {
                let end = end_of_lines(&piece[..count], &mut left);
                bytes.extend_from_slice(&piece[..end])?;
                if left == 0 {
                    return Ok(bytes);
                }
            }
            Err(error) => {
                if error.kind() != ErrorKind::Interrupted {
                    return Err(error);
                }
            }
        }
    }
    Err(ErrorKind::Interrupted.into())
}

/// A text as far as the line with this number.
pub fn through_line(mut text: Vec<u8>, line: u32) -> Vec<u8> {
    let end = lines_to(&text, line).len();
    text.truncate(end);
    text
}

/// Where the lines end of which so many are left: behind the last one's line feed, or behind the piece.
fn end_of_lines(piece: &[u8], left: &mut u32) -> usize
    ensures { result ≤ length piece.now }
{
    for at in memchr_iter(b'\n', piece) {
        *left = left.saturating_sub(1);
        if *left == 0 {
            return at.saturating_add(1).min(piece.len());
        }
    }
    piece.len()
}
