//! Arguments that are right one by one, and not together.
use clap::ArgMatches;
use command_line::{Format, Misuse, format_of, is_read_twice, path, paths, subject};
use std::fs::{self, Metadata};
use std::io::{self, ErrorKind};
use std::os::unix::fs::MetadataExt;

/// What is wrong with the arguments. An error is that memory is wanted to find out whether two files are one.
pub fn wrong_arguments(rt: &HostRuntime, matches: &ArgMatches) -> io::Result<Option<Misuse>> {
    if let Some(check) = matches.subcommand_matches("check") {
        return wrong_check(rt, check);
    }
    if is_twice(matches, "verify", "CERT") || is_twice(matches, "replay", "SCHEDULE") {
        return Ok(Some(Misuse::InputTwice));
    }
    match matches.subcommand_matches("explain") {
        Some(explain) if subject(explain).is_none() => Ok(Some(Misuse::NoPage)),
        _ => Ok(None),
    }
}

/// Whether a command's trace and its other input are both standard input.
fn is_twice(matches: &ArgMatches, command: &str, other: &str) -> bool {
    match matches.subcommand_matches(command) {
        Some(given) => path(given, "TRACE").is_none() && path(given, other).is_none(),
        None => false,
    }
}

/// What is wrong with the traces that are to be checked, and with the file of their certificate.
fn wrong_check(rt: &HostRuntime, check: &ArgMatches) -> io::Result<Option<Misuse>> {
    let traces = paths(check);
    if is_read_twice(traces) {
        return Ok(Some(Misuse::InputTwice));
    }
    let is_more = traces.len() > 1 || check.get_flag("show") || check.contains_id("cert");
    if check.get_flag("follow") && is_more {
        return Ok(Some(Misuse::MoreThanFollowed));
    }
    if check.get_flag("show") && traces.len() > 1 {
        return Ok(Some(Misuse::SeveralShown));
    }
    if check.get_flag("show") && format_of(check) == Format::Sarif {
        return Ok(Some(Misuse::ShownAsSarif));
    }
    if check.get_flag("summary") && format_of(check) != Format::Text {
        return Ok(Some(Misuse::SummaryOfReports));
    }
    let Some(certificate) = check.get_str("cert") else {
        return Ok(None);
    };
    if traces.len() > 1 {
        return Ok(Some(Misuse::SeveralCertificates));
    }
    if is_trace(rt, certificate, traces.first())? {
        return Ok(Some(Misuse::OverTheTrace));
    }
    Ok(None)
}

/// Whether a certificate's path is the trace's, or names the same file; of no trace, standard input's.
fn is_trace(rt: &HostRuntime, certificate: &str, trace: Option<&&str>) -> io::Result<bool> {
    let trace = match trace {
        Some(trace) => *trace,
        None => "-",
    };
    if certificate == trace {
        return Ok(true);
    }
    let file = if trace == "-" { "/dev/stdin" } else { trace };
    is_same_file(fs::metadata(rt, certificate), fs::metadata(rt, file))
}

/// Whether both are of one regular file. A file that can't be looked at is another one, unless memory was wanted for that.
fn is_same_file(one: io::Result<Metadata>, other: io::Result<Metadata>) -> io::Result<bool> {
    match (one, other) {
        (Ok(one), Ok(other)) => {
            Ok(one.is_file() && one.dev() == other.dev() && one.ino() == other.ino())
        }
        (Err(error), _) | (_, Err(error)) if error.kind() == ErrorKind::OutOfMemory => Err(error),
        _ => Ok(false),
    }
}
