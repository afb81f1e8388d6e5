//! `xhcitrace`: checks recorded traces of USB host controller drivers.
#![tactic(auto)]

mod arguments;
mod file_on_write;
mod formats;
mod inputs;
mod manner;
mod on_bench;
mod progress;
mod streams;

use answers::{Asked, Status, run_decode, run_explain, tell_failure};
use arguments::wrong_arguments;
use clap::ArgMatches;
use command_line::{Format, Misuse, block_words, format_of, misused, path, paths, subject};
use command_runs::{
    Outcome, Tally, run_check, run_check_named, run_follow, run_replay, run_schedule, run_show,
    run_verify, run_write, tell_summary,
};
use file_on_write::FileOnWrite;
use formats::{
    check_as_json, check_as_sarif, page_as_json, replay_as_json, show_as_json, verify_as_json,
};
use inputs::{Input, called};
use manner::{explains, manner, manner_of_check, tell_waiting, unasked};
use on_bench::bench_at;
use progress::Watched;
use replayer::Search;
use rule_pages::Subject;
use std::alloc::AllocError;
use std::env;
use std::io::{self, ErrorKind, IsTerminal};
use std::process::ExitCode;
use streams::{NULL, hold_streams};

fn main(rt: HostRuntime) -> ExitCode {
    if let Err(error) = hold_streams(&rt) {
        return ended(failed(&rt, NULL, error));
    }
    match obey(&rt) {
        Ok(code) => code,
        Err(error) => ended(failed(&rt, "the command line", error)),
    }
}

/// How the process ends.
fn ended(status: Status) -> ExitCode {
    ExitCode::from(status.number())
}

/// Tells what failed before an input was read, and why.
fn failed(rt: &HostRuntime, input: &str, error: io::Error) -> Status {
    tell_failure(
        rt.alloc(),
        &unasked(rt).of(input),
        error,
        &mut rt.stdout(),
        &mut rt.stderr(),
    )
}

/// Tells that standard output failed, and why; where nobody reads it any more the status alone tells of it.
fn unwritten(rt: &HostRuntime, error: io::Error) -> Status {
    if error.kind() == ErrorKind::BrokenPipe {
        return Status::Unanswered;
    }
    failed(rt, "standard output", error)
}

/// Does what the command line says.
fn obey(rt: &HostRuntime) -> io::Result<ExitCode> {
    let alloc = rt.alloc();
    let words: Vec<String> = match env::args(rt) {
        Ok(words) => words.collect(alloc)?,
        // std reads arguments as text, and takes paths as text
        Err(error) if error.kind() == ErrorKind::InvalidData => {
            return usage(rt, misused(alloc, Misuse::NotText)?);
        }
        Err(error) => return Err(error),
    };
    match command_line::command(alloc)?.try_get_matches_from(words.as_slice()) {
        Ok(matches) => match wrong_arguments(rt, &matches)? {
            Some(misuse) => usage(rt, misused(alloc, misuse)?),
            None => match matches.subcommand_matches("check") {
                Some(check) => Ok(check_all(rt, check)),
                None => Ok(ended(status_of(rt, &matches))),
            },
        },
        Err(error) => usage(rt, error),
    }
}

/// Prints what is told of the arguments: help, or that they are wrong.
fn usage(rt: &HostRuntime, error: clap::Error) -> io::Result<ExitCode> {
    if error.kind() == clap::error::ErrorKind::OutOfMemory {
        return Err(AllocError.into());
    }
    match error.print(rt) {
        Ok(()) => Ok(ExitCode::from(error.exit_code() as u8)),
        Err(failure) => Ok(ended(unwritten(rt, failure))),
    }
}

/// Runs the command that is asked for, where it isn't `check`; without one checks the trace on standard input.
fn status_of(rt: &HostRuntime, matches: &ArgMatches) -> Status {
    match status_in_json(rt, matches) {
        Ok(Some(status)) => status,
        Ok(None) => status_in_text(rt, matches),
        Err(error) => unwritten(rt, error),
    }
}

/// Runs a command whose answer is asked for as JSON.
fn status_in_json(rt: &HostRuntime, matches: &ArgMatches) -> io::Result<Option<Status>> {
    let Some((command, given)) = matches.subcommand() else {
        return Ok(None);
    };
    if format_of(given) != Format::Json {
        return Ok(None);
    }
    let status = match (command, subject_of(command, given)) {
        ("verify", _) => verify_as_json(rt, given)?,
        ("replay", _) => replay_as_json(rt, given)?,
        ("show", _) => show_as_json(rt, given)?,
        (_, Some(subject)) => page_as_json(rt, subject)?,
        _ => return Ok(None),
    };
    Ok(Some(status))
}

/// What `explain` is to tell of; of another command nothing.
fn subject_of(command: &str, given: &ArgMatches) -> Option<Subject> {
    if command == "explain" {
        subject(given)
    } else {
        None
    }
}

/// Runs a command whose answer is asked for as text.
fn status_in_text(rt: &HostRuntime, matches: &ArgMatches) -> Status {
    if let Some(decode) = matches.subcommand_matches("decode") {
        if let Some(words) = block_words(decode) {
            return run_decode(
                rt.alloc(),
                explains(rt, decode),
                &words,
                &mut rt.stdout(),
                &mut rt.stderr(),
            );
        }
    }
    if let Some(explain) = matches.subcommand_matches("explain") {
        if let Some(subject) = subject(explain) {
            return page_at(rt, subject);
        }
    }
    if let Some(write) = matches.subcommand_matches("write") {
        return write_at(rt, write, &manner(rt, write));
    }
    if let Some(replay) = matches.subcommand_matches("replay") {
        return replay_at(rt, replay, &manner(rt, replay));
    }
    if let Some(verify) = matches.subcommand_matches("verify") {
        return verify_at(rt, verify, &manner(rt, verify));
    }
    if let Some(show) = matches.subcommand_matches("show") {
        return show_at(rt, show, &manner(rt, show));
    }
    if let Some(schedule) = matches.subcommand_matches("schedule") {
        return schedule_at(rt, schedule, &manner(rt, schedule));
    }
    if let Some(bench) = matches.subcommand_matches("bench") {
        return match bench_at(rt, bench) {
            Ok(status) => status,
            Err(error) => failed(rt, "the bench", error),
        };
    }
    tell_waiting(rt, "trace");
    check_at(rt, None, None, None, &unasked(rt)).status
}

/// Checks a trace, or each of several ones: how the process ends.
fn check_all(rt: &HostRuntime, check: &ArgMatches) -> ExitCode {
    let mut tally = Tally::new();
    match check_in_format(rt, check, &mut tally) {
        Ok(()) => {
            let unjudged = check.get_one::<u8>("unjudged");
            ExitCode::from(tally.number(unjudged.unwrap_or(Status::Unclean.number())))
        }
        Err(error) => ended(unwritten(rt, error)),
    }
}

/// Checks traces, counts the answers and tells them in the form that is asked for.
fn check_in_format(rt: &HostRuntime, check: &ArgMatches, tally: &mut Tally) -> io::Result<()> {
    if paths(check).is_empty() {
        tell_waiting(rt, "trace");
    }
    match format_of(check) {
        Format::Text => check_as_text(rt, check, tally)?,
        Format::Json => check_as_json(rt, check, search(check), tally)?,
        Format::Sarif => check_as_sarif(rt, check, tally)?,
    }
    if check.get_flag("summary") {
        tell_summary(rt.alloc(), tally, &mut rt.stdout())?;
    }
    Ok(())
}

/// Checks traces, and tells the answers as text.
fn check_as_text(rt: &HostRuntime, check: &ArgMatches, tally: &mut Tally) -> io::Result<()> {
    let paths = paths(check);
    let asked = manner_of_check(rt, check);
    if paths.len() > 1 {
        return check_each(rt, paths, &asked, tally);
    }
    if check.get_flag("follow") {
        tally.add(follow_at(rt, path(check, "TRACE"), &asked));
        return Ok(());
    }
    tally.add(check_at(
        rt,
        path(check, "TRACE"),
        check.get_str("cert"),
        search(check),
        &asked,
    ));
    Ok(())
}

/// How far a run that does harm is looked for, where one is asked for.
fn search(check: &ArgMatches) -> Option<Search> {
    if check.get_flag("search") {
        Some(Search::Wide)
    } else if check.get_flag("show") {
        Some(Search::Brief)
    } else {
        None
    }
}

/// Checks the traces in these files one after the other, and counts them.
fn check_each(
    rt: &HostRuntime,
    paths: &[&str],
    asked: &Asked,
    tally: &mut Tally,
) -> io::Result<()> {
    for path in paths {
        tally.add(check_named(rt, path, asked)?);
    }
    Ok(())
}

/// Checks the trace in one of several files, where `-` is standard input.
fn check_named(rt: &HostRuntime, path: &str, asked: &Asked) -> io::Result<Outcome> {
    let file = if path == "-" { None } else { Some(path) };
    run_check_named(
        rt.alloc(),
        &asked.of(path),
        Watched::open(rt, file),
        &mut rt.stdout(),
        &mut rt.stderr(),
    )
}

/// Checks the trace in a file, or on standard input; its certificate goes to another file, where one is named.
fn check_at(
    rt: &HostRuntime,
    path: Option<&str>,
    certificate: Option<&str>,
    shows: Option<Search>,
    asked: &Asked,
) -> Outcome {
    let mut kept = FileOnWrite::named(rt, certificate);
    run_check(
        rt.alloc(),
        &asked.of(called(path)),
        shows,
        Watched::open(rt, path),
        &mut kept,
        &mut rt.stdout(),
        &mut rt.stderr(),
    )
}

/// Checks the trace in a file, or on standard input, as it comes.
fn follow_at(rt: &HostRuntime, path: Option<&str>, asked: &Asked) -> Outcome {
    run_follow(
        rt.alloc(),
        &asked.of(called(path)),
        Watched::open(rt, path),
        &mut rt.stdout(),
        &mut rt.stderr(),
    )
}

/// Writes the page on a rule, or on another number that is printed.
fn page_at(rt: &HostRuntime, subject: Subject) -> Status {
    let explains = rt.stderr().is_terminal();
    run_explain(
        rt.alloc(),
        explains,
        subject,
        &mut rt.stdout(),
        &mut rt.stderr(),
    )
}

/// Writes the trace of the plan in a file, or on standard input.
fn write_at(rt: &HostRuntime, matches: &ArgMatches, asked: &Asked) -> Status {
    let path = path(matches, "PLAN");
    if matches.get_str("PLAN").is_none() {
        tell_waiting(rt, "plan");
    }
    run_write(
        rt.alloc(),
        &asked.of(called(path)),
        Input::open(rt, path),
        &mut rt.stdout(),
        &mut rt.stderr(),
    )
}

/// Writes the lazy schedule of the trace in a file, or on standard input.
fn schedule_at(rt: &HostRuntime, matches: &ArgMatches, asked: &Asked) -> Status {
    let path = path(matches, "TRACE");
    if matches.get_str("TRACE").is_none() {
        tell_waiting(rt, "trace");
    }
    run_schedule(
        rt.alloc(),
        &asked.of(called(path)),
        Input::open(rt, path),
        &mut rt.stdout(),
        &mut rt.stderr(),
    )
}

/// Shows what stands before a row of the trace in a file, or on standard input.
fn show_at(rt: &HostRuntime, matches: &ArgMatches, asked: &Asked) -> Status {
    let trace = path(matches, "TRACE");
    run_show(
        rt.alloc(),
        &asked.of(called(trace)),
        matches.get_one::<u32>("ROW"),
        Input::open(rt, trace),
        &mut rt.stdout(),
        &mut rt.stderr(),
    )
}

/// Verifies the certificate in one file, which is opened first, beside the trace in another; one of them may be standard input.
fn verify_at(rt: &HostRuntime, matches: &ArgMatches, asked: &Asked) -> Status {
    let certificate = path(matches, "CERT");
    let trace = path(matches, "TRACE");
    run_verify(
        rt.alloc(),
        &asked.of(called(trace)),
        called(certificate),
        Input::open(rt, certificate),
        || Watched::open(rt, trace),
        &mut rt.stdout(),
        &mut rt.stderr(),
    )
}

/// Replays the schedule in one file beside the trace in another, which is opened first; one of them may be standard input.
fn replay_at(rt: &HostRuntime, matches: &ArgMatches, asked: &Asked) -> Status {
    let trace = path(matches, "TRACE");
    let schedule = path(matches, "SCHEDULE");
    run_replay(
        rt.alloc(),
        &asked.of(called(trace)),
        called(schedule),
        Input::open(rt, trace),
        || Input::open(rt, schedule),
        &mut rt.stdout(),
        &mut rt.stderr(),
    )
}
