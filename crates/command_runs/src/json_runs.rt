//! Runs whose answer is a JSON object on a line, which other programs read.
use crate::check_report::{checked, checked_as_it_comes};
use crate::found::Found;
use crate::outcome::Outcome;
use crate::replay_report::replayed;
use crate::reported::{check_report, page_report, replay_report, show_report, verify_report};
use crate::show_report::shown;
use crate::verify_report::verified;
use answers::{Status, write_whole};
use replayer::Search;
use reports::{MEMORY_REPORT, Report};
use rule_pages::Subject;
use std::alloc::{AllocError, Global};
use std::io::{self, Read, Seek, Write};

/// Checks the trace that `input` holds, which is called `name`, and writes a JSON object. Where the trace is accepted its certificate is
/// written before that. Where `shows` says how far to look for one, the object of a refused trace has a schedule that does harm, if one
/// was found. An error is that `out` failed.
pub fn report_check<R: Read + Seek + Drop, C: Write, O: Write>(
    alloc: Global,
    name: &str,
    shows: Option<Search>,
    input: io::Result<R>,
    certificate: &mut Option<C>,
    out: &mut O,
) -> io::Result<Outcome> {
    let found = checked(alloc, shows, input, certificate);
    write_check(alloc, name, found, out)
}

/// Checks the trace that `input` holds as its lines come, which is called `name`, and writes a JSON object. An error is that `out` failed.
pub fn report_follow<R: Read + Seek + Drop, O: Write>(
    alloc: Global,
    name: &str,
    input: io::Result<R>,
    out: &mut O,
) -> io::Result<Outcome> {
    write_check(alloc, name, checked_as_it_comes(alloc, input), out)
}

/// Writes the JSON object of a check, and says how it ends.
fn write_check<O: Write>(
    alloc: Global,
    name: &str,
    found: Found,
    out: &mut O,
) -> io::Result<Outcome> {
    let Outcome { status, class } = found.outcome();
    let status = write_report(alloc, status, check_report(alloc, name, found), out)?;
    Ok(Outcome { status, class })
}

/// Verifies a certificate beside the trace of the input that `open_trace` opens, once the certificate was read, and writes a JSON object.
/// They are called `beside` and `name`. An error is that `out` failed.
pub fn report_verify<C, R, F, O: Write>(
    alloc: Global,
    name: &str,
    beside: &str,
    certificate: io::Result<C>,
    open_trace: F,
    out: &mut O,
) -> io::Result<Status>
where
    C: Read + Drop,
    R: Read + Seek + Drop,
    F: FnOnce() -> io::Result<R> + Drop,
    requires { F.pre open_trace }
{
    let found = verified(alloc, certificate, open_trace);
    let status = found.answer.status();
    write_report(alloc, status, verify_report(name, beside, found), out)
}

/// Replays the schedule of the input that `open_schedule` opens beside the trace that `trace` holds, once this was read, and writes a JSON
/// object. They are called `beside` and `name`. An error is that `out` failed.
pub fn report_replay<R, S, F, O: Write>(
    alloc: Global,
    name: &str,
    beside: &str,
    trace: io::Result<R>,
    open_schedule: F,
    out: &mut O,
) -> io::Result<Status>
where
    R: Read + Drop,
    S: Read + Drop,
    F: FnOnce() -> io::Result<S> + Drop,
    requires { F.pre open_schedule }
{
    let found = replayed(alloc, trace, open_schedule);
    let status = found.answer.status();
    write_report(
        alloc,
        status,
        replay_report(alloc, name, beside, found),
        out,
    )
}

/// Shows what stands before a row, by its line from 1, of the trace that `input` holds, which is called `name`, as a JSON object: before
/// the first row that breaks a rule, or behind all, where none is named. An error is that `out` failed.
pub fn report_show<R: Read + Drop, O: Write>(
    alloc: Global,
    name: &str,
    row: Option<u32>,
    input: io::Result<R>,
    out: &mut O,
) -> io::Result<Status> {
    let found = shown(alloc, row, input);
    let status = found.answer.status();
    write_report(alloc, status, show_report(alloc, name, found), out)
}

/// Writes the page on a number that is printed, as a JSON object. An error is that `out` failed.
pub fn report_page<O: Write>(alloc: Global, subject: Subject, out: &mut O) -> io::Result<Status> {
    write_report(alloc, Status::Clean, page_report(alloc, subject), out)
}

/// Writes a report, or that memory was wanted for it; how that ends.
fn write_report<O: Write>(
    alloc: Global,
    status: Status,
    report: Result<Report, AllocError>,
    out: &mut O,
) -> io::Result<Status> {
    match line_of(alloc, report) {
        Ok(line) => {
            write_whole(&line, out)?;
            Ok(status)
        }
        Err(_) => {
            write_whole(MEMORY_REPORT.as_bytes(), out)?;
            Ok(Status::Unanswered)
        }
    }
}

/// The line of a report, where memory sufficed for it.
fn line_of(alloc: Global, report: Result<Report, AllocError>) -> Result<Vec<u8>, AllocError> {
    report?.line(alloc)
}
