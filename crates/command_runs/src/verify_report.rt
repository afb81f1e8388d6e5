//! Verifies a certificate beside a trace, and finds what explains the answer.
use crate::found::{About, Found, found_failed, told_as_read};
use crate::reading::leases_of;
use crate::recorded::Recorded;
use crate::stream_answers::verified_answer;
use crate::told::Told;
use answers::{Answer, remarks_on_certificate};
use certificate::{NoCertificate, Unread};
use ring_knowledge::Lease;
use std::alloc::{AllocError, Global};
use std::io::{self, Read, Seek};

/// Verifies the certificate that `certificate` holds beside the trace of the input that `open_trace` opens, once the certificate was
/// read; where it is none, the trace isn't opened.
pub fn verified<C, R, F>(alloc: Global, certificate: io::Result<C>, open_trace: F) -> Found
where
    C: Read + Drop,
    R: Read + Seek + Drop,
    F: FnOnce() -> io::Result<R> + Drop,
    requires { F.pre open_trace }
{
    match leases_of(alloc, certificate) {
        Ok(leases) => verified_beside(alloc, &leases, open_trace()),
        Err(Unread::Bytes(why)) => Found {
            answer: Answer::from(why.fault()),
            about: About::Other,
            told: told_on_certificate(alloc, &why),
        },
        Err(Unread::Failed(error)) => found_failed(alloc, About::Other, error),
    }
}

/// Verifies leases beside the trace that an input holds, as it is read.
fn verified_beside<R: Read + Seek + Drop>(
    alloc: Global,
    leases: &[Lease],
    trace: io::Result<R>,
) -> Found {
    match trace {
        Ok(trace) => {
            let mut source = Recorded::new(alloc, trace, true);
            let answer = verified_answer(alloc, leases, &mut source);
            let told = told_as_read(alloc, leases, source, &answer);
            let about = About::Trace;
            Found {
                answer,
                about,
                told,
            }
        }
        Err(error) => found_failed(alloc, About::Trace, error),
    }
}

/// What is wrong with the bytes of a certificate.
fn told_on_certificate(alloc: Global, why: &NoCertificate) -> Result<Told, AllocError> {
    let remarks = remarks_on_certificate(alloc, why)?;
    Ok(Told::remarked(alloc, remarks))
}
