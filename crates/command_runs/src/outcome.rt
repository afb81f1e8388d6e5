//! How checks end: how many traces had which answer, and the exit status of the program.
ghost use Rattle.std.specs.Prelude.{◌≡◌, IfOk, string_bytes};
ghost use Rattle.command_runs.specs.Outcomes.{behind, no_traces, number_of, summary_text};

use answers::Status;
use diagnostics::Class;
use std::alloc::{AllocError, Global};

/// How the check of a trace ends, and the class of a refusal.
#[derive(Clone, Copy, Debug, PartialEq, Eq)]
pub struct Outcome {
    pub status: Status,
    pub class: Class,
}

impl Outcome {
    /// That memory or a device failed.
    pub fn unanswered() -> Outcome
        ensures { result.status ≡ Status.Unanswered }
    {
        Outcome {
            status: Status::Unanswered,
            class: Class::Broken,
        }
    }
}

/// How many traces had which answer.
#[derive(Clone, Copy, Debug, PartialEq, Eq)]
pub struct Tally {
    pub accepted: u32,
    pub refused: u32,
    pub unjudged: u32,
    pub unreadable: u32,
    /// Memory or a device failed.
    pub unanswered: u32,
}

impl Tally {
    /// Of no trace.
    pub fn new() -> Tally
        ensures { result ≡ no_traces }
    {
        Tally {
            accepted: 0,
            refused: 0,
            unjudged: 0,
            unreadable: 0,
            unanswered: 0,
        }
    }

    /// Counts one trace more.
    pub fn add(&mut self, outcome: Outcome)
        ensures { self.new ≡ behind self.old outcome }
    {
        match outcome.status {
            Status::Clean => self.accepted = self.accepted.saturating_add(1),
            Status::Unclean => match outcome.class {
                Class::Broken => self.refused = self.refused.saturating_add(1),
                Class::Unjudged => self.unjudged = self.unjudged.saturating_add(1),
            },
            Status::Unreadable => self.unreadable = self.unreadable.saturating_add(1),
            Status::Unanswered => self.unanswered = self.unanswered.saturating_add(1),
        }
    }

    /// The exit status, where traces that aren't judged have this one: that of the worst answer. A trace that isn't judged is worse than an
    /// accepted one, and better than each other.
    pub fn number(&self, unjudged: u8) -> u8
        ensures { result ≡ number_of unjudged self.now }
    {
        if self.unanswered > 0 {
            Status::Unanswered.number()
        } else if self.unreadable > 0 {
            Status::Unreadable.number()
        } else if self.refused > 0 {
            Status::Unclean.number()
        } else if self.unjudged > 0 {
            unjudged
        } else {
            Status::Clean.number()
        }
    }

    /// The line of a summary, with its line feed.
    pub fn line(&self, alloc: Global) -> Result<String, AllocError>
        ensures { IfOk result (λ line. string_bytes line ≡ summary_text self.now) }
    {
        let (accepted, refused, unjudged) = (self.accepted, self.refused, self.unjudged);
        let unreadable = u64::from(self.unreadable) + u64::from(self.unanswered);
        let traces = u64::from(accepted) + u64::from(refused) + u64::from(unjudged) + unreadable;
        format!(in alloc;
            "{traces} traces: {accepted} accepted, {refused} refused, {unjudged} not judged, {unreadable} unreadable\n"
        )
    }
}
