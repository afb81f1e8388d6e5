//! What is told of a replay.
ghost use Rattle.std.specs.Prelude.{◌≡◌, ◌++◌, OnOk, IfOk, codes, decimal, string_bytes};
ghost use Rattle.answers.specs.Replays.{end_status, end_text, replay_text, take_line, take_text, takes_text, words_text};

use crate::answer::Status;
use controller_model::Seen;
use line_text::{push_u8, push_u32, push_u64};
use std::alloc::{AllocError, Global};
use trb::Block;
use world_state::Harm;

/// How a replay ends. Steps count from 1.
#[derive(Clone, Copy, Debug, PartialEq, Eq)]
pub enum ReplayEnd {
    /// There is no harm after any step.
    NoHarm,
    /// The first step after which there is harm, and the least one.
    Harmful { step: u32, harm: Harm },
    /// The first step that no controller may make, where there was no harm before.
    NotPossible { step: u32 },
}

impl ReplayEnd {
    pub fn status(&self) -> Status
        ensures { result ≡ end_status self.now }
    {
        match self {
            ReplayEnd::NoHarm => Status::Clean,
            ReplayEnd::Harmful { .. } | ReplayEnd::NotPossible { .. } => Status::Unclean,
        }
    }
}

/// The lines of a replay, each with its line feed.
pub fn replay_text(alloc: Global, seen: &[Seen], ending: ReplayEnd) -> Result<Vec<u8>, AllocError>
    ensures { IfOk result (λ text. text.items ≡ replay_text seen.now ending) }
{
    let mut text = Vec::new(alloc);
    push_takes(&mut text, seen)?;
    push_end(alloc, &mut text, ending)?;
    Ok(text)
}

/// Appends the line of each take.
fn push_takes(text: &mut Vec<u8>, seen: &[Seen]) -> Result<(), AllocError>
    ensures { OnOk result (text.new.items ≡ text.old.items ++ takes_text seen.now) }
{
    for shown in seen {
        push_seen(text, shown)?;
    }
    Ok(())
}

/// Appends the line of a take; of another step nothing.
fn push_seen(text: &mut Vec<u8>, shown: &Seen) -> Result<(), AllocError>
    ensures { OnOk result (text.new.items ≡ text.old.items ++ take_text shown.now) }
{
    match shown {
        Seen::Took { ring, at, words } => push_take(text, *ring, *at, words),
        _ => Ok(()),
    }
}

/// Appends the line of a take: the ring, where the block lies, and its words.
fn push_take(text: &mut Vec<u8>, ring: u8, at: u64, block: &Block) -> Result<(), AllocError>
    ensures { OnOk result (text.new.items ≡ text.old.items ++ take_line ring at block.now) }
{
    text.extend_from_slice(b"took ")?;
    push_u8(text, ring)?;
    text.extend_from_slice(b" ")?;
    push_u64(text, at)?;
    push_words(text, &block.w)?;
    text.extend_from_slice(b"\n")
}

/// Appends words, each behind a space.
fn push_words(text: &mut Vec<u8>, words: &[u32]) -> Result<(), AllocError>
    ensures { OnOk result (text.new.items ≡ text.old.items ++ words_text words.now) }
{
    for word in words {
        text.extend_from_slice(b" ")?;
        push_u32(text, *word)?;
    }
    Ok(())
}

/// Appends how the replay ends.
fn push_end(alloc: Global, text: &mut Vec<u8>, ending: ReplayEnd) -> Result<(), AllocError>
    ensures { OnOk result (text.new.items ≡ text.old.items ++ end_text ending) }
{
    let line = end_line(alloc, ending)?;
    text.extend_from_slice(line.as_bytes())
}

/// The line that says how the replay ends.
fn end_line(alloc: Global, ending: ReplayEnd) -> Result<String, AllocError>
    ensures { IfOk result (λ line. string_bytes line ≡ end_text ending) }
{
    match ending {
        ReplayEnd::NoHarm => String::from_str(alloc, "no harm\n"),
        ReplayEnd::Harmful { step, harm } => harm_line(alloc, step, harm.number()),
        ReplayEnd::NotPossible { step } => stuck_line(alloc, step),
    }
}

/// That there is harm after a step.
fn harm_line(alloc: Global, step: u32, harm: u8) -> Result<String, AllocError>
    ensures { IfOk result (λ line. string_bytes line ≡ codes "step " ++ (decimal step ++ (codes ": harm " ++ (decimal harm ++ codes "\n")))) }
{
    format!(in alloc; "step {step}: harm {harm}\n")
}

/// That a step isn't possible.
fn stuck_line(alloc: Global, step: u32) -> Result<String, AllocError>
    ensures { IfOk result (λ line. string_bytes line ≡ codes "step " ++ (decimal step ++ codes ": not possible\n")) }
{
    format!(in alloc; "step {step}: not possible\n")
}
