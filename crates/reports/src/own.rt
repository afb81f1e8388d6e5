//! What the answer to a command has beside what all have.
ghost use Rattle.std.specs.Prelude.{◌≡◌, OnOk, option_map};
ghost use Rattle.serde_json.specs.View.{members_view};
ghost use Rattle.world_state.specs.Harm.{number_of as harm_number};
ghost use Rattle.reports.specs.Objects.{with_check, with_own, with_replay, with_run};

use crate::sections::{Section, sections_value};
use crate::values::{number_or_null, takes, texts};
use serde_json::{Map, Value, put};
use std::alloc::{AllocError, Global};
use world_state::Harm;

/// A run that does harm beside a trace: the lines of its schedule, and the harm behind its last step.
#[derive(Debug, Drop)]
pub struct Run {
    pub schedule: Vec<String>,
    pub harm: Harm,
}

/// A TRB that a controller took: its ring, where it lies, and its words, in hex digits as in traces.
#[derive(Debug, Drop)]
pub struct Take {
    pub ring: String,
    pub address: String,
    pub words: Vec<String>,
}

impl Take {
    /// The take of a TRB of a ring.
    pub fn of(alloc: Global, ring: u8, at: u64, block: &[u32]) -> Result<Take, AllocError> {
        let mut words = Vec::new(alloc);
        for word in block {
            words.push(format!(in alloc; "{word:08x}")?)?;
        }
        Ok(Take {
            ring: format!(in alloc; "{ring:02x}")?,
            address: format!(in alloc; "{at:016x}")?,
            words,
        })
    }
}

/// What the controller took in a replay, the step with which that ends, from 1, and the harm behind this.
#[derive(Debug, Drop)]
pub struct Replay {
    pub takes: Vec<Take>,
    pub step: Option<u32>,
    pub harm: Option<Harm>,
}

/// What belongs to a command's own answer.
#[derive(Debug, Drop)]
pub enum Own<'a> {
    /// Of `check`: how many leases an accepted trace has, and what it leaves waiting.
    Check {
        leases: Option<u64>,
        waiting: Vec<String>,
    },
    /// Of `check --show`: the run that does harm, if one was found.
    Harm {
        run: Option<Run>,
    },
    /// Of `verify`: how the certificate is called.
    Verify {
        certificate: &'a str,
    },
    /// Of `replay`: how the schedule is called, and what came of it.
    Replay {
        schedule: &'a str,
        replay: Replay,
    },
    /// Of `show` and `explain`: the page.
    Page {
        sections: Vec<Section>,
    },
}

/// Puts what a command's answer has into its object.
pub(crate) fn put_own(
    alloc: Global,
    object: &mut Map<String, Value>,
    own: &Own,
) -> Result<(), AllocError>
    ensures { OnOk result (members_view object.new.entries ≡ with_own own.now (members_view object.old.entries)) }
{
    match own {
        Own::Check { leases, waiting } => put_check(alloc, object, *leases, waiting),
        Own::Harm { run } => {
            put_check(alloc, object, None, &[])?;
            put_run(alloc, object, run)
        }
        Own::Verify { certificate } => {
            put(
                object,
                alloc,
                "certificate",
                Value::try_from_str(alloc, certificate)?,
            )
        }
        Own::Replay { schedule, replay } => {
            put(
                object,
                alloc,
                "schedule",
                Value::try_from_str(alloc, schedule)?,
            )?;
            put_replay(alloc, object, replay)
        }
        Own::Page { sections } => put(object, alloc, "sections", sections_value(alloc, sections)?),
    }
}

/// Puts how many leases there are, and what waits.
fn put_check(
    alloc: Global,
    object: &mut Map<String, Value>,
    leases: Option<u64>,
    waiting: &[String],
) -> Result<(), AllocError>
    ensures { OnOk result (members_view object.new.entries ≡ with_check leases waiting.now (members_view object.old.entries)) }
{
    put(object, alloc, "leases", number_or_null(leases))?;
    put(object, alloc, "waiting", texts(alloc, waiting)?)
}

/// Puts a run that does harm; null where none was found.
fn put_run(
    alloc: Global,
    object: &mut Map<String, Value>,
    run: &Option<Run>,
) -> Result<(), AllocError>
    ensures { OnOk result (members_view object.new.entries ≡ with_run run.now (members_view object.old.entries)) }
{
    match run {
        Some(run) => {
            put(object, alloc, "harm", Value::from(run.harm.number()))?;
            put(object, alloc, "schedule", texts(alloc, &run.schedule)?)
        }
        None => {
            put(object, alloc, "harm", Value::Null)?;
            put(object, alloc, "schedule", Value::Null)
        }
    }
}

/// Puts what a replay showed, and how it ends.
fn put_replay(
    alloc: Global,
    object: &mut Map<String, Value>,
    replay: &Replay,
) -> Result<(), AllocError>
    ensures { OnOk result (members_view object.new.entries ≡ with_replay replay.now (members_view object.old.entries)) }
{
    put(object, alloc, "takes", takes(alloc, &replay.takes)?)?;
    put(object, alloc, "step", number_or_null(step_of(replay)))?;
    put(object, alloc, "harm", number_or_null(harm_of(replay)))
}

/// The step with which a replay ends.
fn step_of(replay: &Replay) -> Option<u64>
    ensures { result ≡ replay.now.step }
{
    match replay.step {
        Some(step) => Some(u64::from(step)),
        None => None,
    }
}

/// The number of its harm.
fn harm_of(replay: &Replay) -> Option<u64>
    ensures { result ≡ option_map harm_number replay.now.harm }
{
    match replay.harm {
        Some(harm) => Some(u64::from(harm.number())),
        None => None,
    }
}
