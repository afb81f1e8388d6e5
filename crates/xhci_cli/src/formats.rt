//! Answers as other programs read them: a JSON object on a line for each input, or a SARIF log of all.
use crate::file_on_write::FileOnWrite;
use crate::inputs::{Input, called};
use crate::progress::Watched;
use answers::Status;
use clap::ArgMatches;
use command_line::{path, paths};
use command_runs::{
    Found, Outcome, Tally, checked, checked_as_it_comes, logged, report_check, report_follow,
    report_page, report_replay, report_show, report_verify, write_log,
};
use replayer::Search;
use reports::Sarif;
use rule_pages::Subject;
use std::alloc::{AllocError, Global};
use std::io;

/// An input: its file, unless it is standard input, and how it is called.
#[derive(Clone, Copy)]
struct Trace<'a> {
    file: Option<&'a str>,
    name: &'a str,
}

/// The traces that are to be checked.
fn traces_of<'a>(alloc: Global, check: &'a ArgMatches<'_>) -> Result<Vec<Trace<'a>>, AllocError> {
    let mut traces = Vec::new(alloc);
    let paths = paths(check);
    if paths.len() < 2 {
        let file = path(check, "TRACE");
        traces.push(Trace {
            file,
            name: called(file),
        })?;
        return Ok(traces);
    }
    for path in paths {
        let file = if *path == "-" { None } else { Some(*path) };
        traces.push(Trace { file, name: *path })?;
    }
    Ok(traces)
}

/// Checks traces, writes a JSON object for each, and counts them.
pub fn check_as_json(
    rt: &HostRuntime,
    check: &ArgMatches,
    shows: Option<Search>,
    tally: &mut Tally,
) -> io::Result<()> {
    let alloc = rt.alloc();
    let traces = traces_of(alloc, check)?;
    for trace in &traces {
        tally.add(check_one_as_json(rt, check, shows, trace)?);
    }
    Ok(())
}

/// Checks a trace, as it comes where that is asked for, and writes a JSON object.
fn check_one_as_json(
    rt: &HostRuntime,
    check: &ArgMatches,
    shows: Option<Search>,
    trace: &Trace,
) -> io::Result<Outcome> {
    let alloc = rt.alloc();
    let input = Watched::open(rt, trace.file);
    let out = &mut rt.stdout();
    if check.get_flag("follow") {
        return report_follow(alloc, trace.name, input, out);
    }
    let mut kept = FileOnWrite::named(rt, check.get_str("cert"));
    report_check(alloc, trace.name, shows, input, &mut kept, out)
}

/// Checks traces, writes a SARIF log of all, and counts them.
pub fn check_as_sarif(rt: &HostRuntime, check: &ArgMatches, tally: &mut Tally) -> io::Result<()> {
    let alloc = rt.alloc();
    let mut log = Ok(Sarif::new(alloc));
    let traces = traces_of(alloc, check)?;
    for trace in &traces {
        let found = found_in(rt, check, trace);
        tally.add(found.outcome());
        log = logged(alloc, log, trace.name, found);
    }
    write_log(alloc, log, tally, &mut rt.stdout())
}

/// What is found of a trace that goes into a log.
fn found_in(rt: &HostRuntime, check: &ArgMatches, trace: &Trace) -> Found {
    let alloc = rt.alloc();
    let input = Watched::open(rt, trace.file);
    if check.get_flag("follow") {
        return checked_as_it_comes(alloc, input);
    }
    let mut kept = FileOnWrite::named(rt, check.get_str("cert"));
    checked(alloc, None, input, &mut kept)
}

/// Verifies a certificate beside a trace, and writes a JSON object.
pub fn verify_as_json(rt: &HostRuntime, matches: &ArgMatches) -> io::Result<Status> {
    let (trace, other) = inputs_of(matches, "CERT");
    let certificate = Input::open(rt, other.file);
    let later = Later {
        rt,
        file: trace.file,
    };
    let open_trace = move || later.watched();
    let out = &mut rt.stdout();
    report_verify(
        rt.alloc(),
        trace.name,
        other.name,
        certificate,
        open_trace,
        out,
    )
}

/// Replays a schedule beside a trace, and writes a JSON object.
pub fn replay_as_json(rt: &HostRuntime, matches: &ArgMatches) -> io::Result<Status> {
    let (trace, other) = inputs_of(matches, "SCHEDULE");
    let opened = Input::open(rt, trace.file);
    let later = Later {
        rt,
        file: other.file,
    };
    let open_schedule = move || later.input();
    let out = &mut rt.stdout();
    report_replay(
        rt.alloc(),
        trace.name,
        other.name,
        opened,
        open_schedule,
        out,
    )
}

/// An input that is opened later.
#[derive(Clone, Copy)]
struct Later<'a> {
    rt: &'a HostRuntime,
    file: Option<&'a str>,
}

impl<'a> Later<'a> {
    fn input(self) -> io::Result<Input> {
        Input::open(self.rt, self.file)
    }

    /// With what is told of how far it is read.
    fn watched(self) -> io::Result<Watched<'a>> {
        Watched::open(self.rt, self.file)
    }
}

/// The trace of a command, and its other input.
fn inputs_of<'a>(matches: &ArgMatches<'a>, other: &str) -> (Trace<'a>, Trace<'a>) {
    let (file, beside) = (path(matches, "TRACE"), path(matches, other));
    let trace = Trace {
        file,
        name: called(file),
    };
    let other = Trace {
        file: beside,
        name: called(beside),
    };
    (trace, other)
}

/// Shows what stands before a row of a trace, as a JSON object.
pub fn show_as_json(rt: &HostRuntime, matches: &ArgMatches) -> io::Result<Status> {
    let trace = path(matches, "TRACE");
    let row = matches.get_one::<u32>("ROW");
    let input = Input::open(rt, trace);
    report_show(rt.alloc(), called(trace), row, input, &mut rt.stdout())
}

/// Writes the page on a number that is printed, as a JSON object.
pub fn page_as_json(rt: &HostRuntime, subject: Subject) -> io::Result<Status> {
    report_page(rt.alloc(), subject, &mut rt.stdout())
}
