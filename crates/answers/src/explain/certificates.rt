//! What is said of the bytes of a certificate: why they are none, or which lease isn't the trace's.
use super::words::lease_words;
use certificate::{BadLease, NoCertificate};
use diagnostics::{Colors, error_line, help_line, note_line};
use ring_knowledge::Lease;
use std::alloc::{AllocError, Global};

/// How a certificate is made.
const HELP: &str = "`xhcitrace check --cert CERT TRACE` writes the trace's certificate";

/// What is said where there is no line to quote.
#[derive(Debug, Drop)]
pub struct Remarks {
    /// What is wrong.
    pub head: String,
    /// What was found, and what was expected.
    pub notes: Vec<String>,
    /// What helps.
    pub help: String,
}

impl Remarks {
    /// The lines of the remarks, on what is called so.
    fn lines(&self, alloc: Global, colors: Colors, matter: &str) -> Result<String, AllocError> {
        let mut lines = error_line(alloc, colors, matter, &self.head)?;
        for note in &self.notes {
            lines.push_str(&note_line(alloc, colors, 0, note)?)?;
        }
        lines.push_str(&help_line(alloc, colors, 0, &self.help)?)?;
        Ok(lines)
    }
}

/// What a person is told of bytes that are no certificate.
pub fn no_certificate(
    alloc: Global,
    colors: Colors,
    why: &NoCertificate,
) -> Result<String, AllocError> {
    let fault = why.fault();
    let (number, name) = (fault.number(), fault.name());
    let remarks = remarks_on_certificate(alloc, why)?;
    remarks.lines(alloc, colors, &format!(in alloc; "{number} {name}")?)
}

/// What is said of bytes that are no certificate.
pub fn remarks_on_certificate(alloc: Global, why: &NoCertificate) -> Result<Remarks, AllocError> {
    let (head, note) = match why {
        NoCertificate::Magic { first, count } => (
            String::from_str(alloc, "the file isn't a certificate")?,
            first_bytes(alloc, first, *count)?,
        ),
        NoCertificate::Length { behind } => (
            String::from_str(
                alloc,
                "the certificate is cut off, or has too much behind it",
            )?,
            leases_and_rest(alloc, *behind)?,
        ),
        NoCertificate::Field(bad) => (lease_head(alloc, *bad)?, lease_fault(alloc, bad.lease)?),
    };
    let mut notes = Vec::new(alloc);
    notes.push(note)?;
    let help = String::from_str(alloc, HELP)?;
    Ok(Remarks { head, notes, help })
}

/// What stands where a certificate's first bytes must: so many of these.
fn first_bytes(alloc: Global, first: &[u8; 8], count: usize) -> Result<String, AllocError> {
    if count < 8 {
        return format!(in alloc;
            "it has {count} bytes, and a certificate begins with the 8 bytes `XHCICRT1`"
        );
    }
    let found = first.as_slice().escape_ascii();
    format!(in alloc; "it begins with `{found}`, and must begin with `XHCICRT1`")
}

/// How many leases so many bytes are, and how many bytes are behind them.
fn leases_and_rest(alloc: Global, behind: u64) -> Result<String, AllocError> {
    let (leases, rest) = (behind / 24, behind % 24);
    format!(in alloc;
        "behind its first 8 bytes it has {behind}, which are {leases} leases of 24 bytes and {rest} bytes more"
    )
}

/// Which lease is none, and where it stands.
fn lease_head(alloc: Global, bad: BadLease) -> Result<String, AllocError> {
    let number = bad.number;
    let at = number
        .saturating_sub(1)
        .saturating_mul(24)
        .saturating_add(8);
    format!(in alloc; "lease {number} of the certificate, the 24 bytes from byte {at} on, is none")
}

/// The field that no lease has.
fn lease_fault(alloc: Global, lease: Lease) -> Result<String, AllocError> {
    let Lease {
        kind,
        ring,
        from,
        to,
        ..
    } = lease;
    if kind > 2 {
        return format!(in alloc;
            "its kind is {kind}, and must be 0 (a TRB), 1 (a Link TRB) or 2 (bytes)"
        );
    }
    if kind < 2 && ring > 255 {
        return format!(in alloc; "its ring is {ring}, and the ID of a ring is at most 255");
    }
    format!(in alloc; "it ends at row {to}, and must end behind row {from}, where it begins")
}

/// What a person is told of a certificate that isn't the list of its trace's leases: the first that differs.
pub fn other_lease(
    alloc: Global,
    colors: Colors,
    given: &[Lease],
    own: &[Lease],
) -> Result<String, AllocError> {
    remarks_on_leases(alloc, given, own)?.lines(alloc, colors, "no")
}

/// What is said of a certificate that isn't the list of its trace's leases: the first that differs.
pub fn remarks_on_leases(
    alloc: Global,
    given: &[Lease],
    own: &[Lease],
) -> Result<Remarks, AllocError> {
    let same = given
        .iter()
        .zip(own.iter())
        .take_while(|pair| pair.0 == pair.1)
        .count();
    let number = same.saturating_add(1);
    let there = lease_words(alloc, given.get(same).copied())?;
    let wanted = lease_words(alloc, own.get(same).copied())?;
    let mut notes = Vec::new(alloc);
    notes.push(format!(in alloc; "lease {number} of the certificate: {there}")?)?;
    notes.push(format!(in alloc; "lease {number} of the trace: {wanted}")?)?;
    let head = String::from_str(
        alloc,
        "the certificate isn't the list of the trace's leases",
    )?;
    let help = format!(in alloc; "no row breaks a rule; {HELP}")?;
    Ok(Remarks { head, notes, help })
}
