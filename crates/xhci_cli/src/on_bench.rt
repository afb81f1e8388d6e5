//! A driver on the bench: what is asked of the run, and where it is kept.
use crate::file_on_write::FileOnWrite;
use answers::Status;
use bench::{Policy, Profile};
use bench_runs::{Asked, Left, keep, run_bench, tell_end};
use clap::ArgMatches;
use std::io;

/// How many steps a controller makes at most, where nothing is said.
const MOST_STEPS: u64 = 1_000_000;

/// Runs the driver on standard input beside the controller's model.
pub fn bench_at(rt: &HostRuntime, given: &ArgMatches) -> io::Result<Status> {
    let alloc = rt.alloc();
    let asked = asked(given);
    let (mut out, mut err) = (rt.stdout(), rt.stderr());
    let left = run_bench(alloc, &asked, rt.stdin(), &mut out, &mut err)?;
    if let Some(name) = given.get_str("out") {
        keep_at(rt, name, &left)?;
    }
    tell_end(alloc, left.ended, &mut out, &mut err)
}

/// What is asked of a run.
fn asked(given: &ArgMatches) -> Asked {
    let policy = match given.get_str("policy") {
        Some("eager") => Policy::Eager,
        Some("lazy") => Policy::Lazy,
        _ => Policy::Random,
    };
    Asked {
        seed: given.get_one::<u64>("seed").unwrap_or(1),
        profile: Profile {
            policy,
            errors: given.get_one::<u8>("errors").unwrap_or(0),
            steps: given.get_one::<u64>("steps").unwrap_or(MOST_STEPS),
        },
    }
}

/// Writes the trace and the schedule of a run.
fn keep_at(rt: &HostRuntime, name: &str, left: &Left) -> io::Result<()> {
    let trace = format!(in rt.alloc(); "{name}.xtrace")?;
    let schedule = format!(in rt.alloc(); "{name}.xsched")?;
    let mut trace_file = FileOnWrite::at(rt, &trace);
    let mut schedule_file = FileOnWrite::at(rt, &schedule);
    keep(rt.alloc(), left, &mut trace_file, &mut schedule_file)
}
