//! What is answered, in a word, and the number and the class of what is wrong.
ghost use Rattle.std.specs.Prelude.{◌≡◌};
ghost use Rattle.reports.specs.Verdicts.{cause_word, verdict_word};

use diagnostics::Class;

/// What is answered.
#[derive(Clone, Copy, Debug, PartialEq, Eq)]
pub enum Verdict {
    /// No row of the trace breaks a rule.
    Accepted,
    /// A row of it does.
    Refused,
    /// A certificate is that of its trace, which is accepted.
    Yes,
    /// It isn't.
    No,
    /// A replay shows no harm.
    NoHarm,
    /// A step of it does harm.
    Harm,
    /// No controller makes a step of it.
    NotPossible,
    /// It is told who owns what before a row.
    Shown,
    /// It is told of a number that is printed.
    Explained,
    /// A trace, a schedule or what a TRB says is written.
    Written,
    /// A text is no trace or no schedule, the bytes are no certificate, or the trace hasn't the row.
    Unreadable,
    /// Memory or a device failed.
    Failed,
}

impl Verdict {
    /// The word for it.
    pub fn word(self) -> &'static str
        ensures { result.now ≡ verdict_word self }
    {
        use Verdict::{
            Accepted, Explained, Failed, Harm, No, NoHarm, NotPossible, Refused, Shown, Unreadable,
            Written, Yes,
        };
        match self {
            Accepted => "accepted",
            Refused => "refused",
            Yes => "yes",
            No => "no",
            NoHarm => "no harm",
            Harm => "harm",
            NotPossible => "not possible",
            Shown => "shown",
            Explained => "explained",
            Written => "written",
            Unreadable => "unreadable",
            Failed => "failed",
        }
    }
}

/// Why something isn't as it must be.
#[derive(Clone, Copy, Debug, PartialEq, Eq)]
pub enum Cause {
    /// A row breaks a rule.
    Broken,
    /// A row is refused by the profile, or by the trace's version, alone.
    Unjudged,
    /// A text or a file of bytes isn't as it must be.
    Text,
    /// A file or a stream failed.
    Device,
    /// Memory is wanted.
    Memory,
}

impl Cause {
    /// The word for it.
    pub fn word(self) -> &'static str
        ensures { result.now ≡ cause_word self }
    {
        use Cause::{Broken, Device, Memory, Text, Unjudged};
        match self {
            Broken => "broken",
            Unjudged => "unjudged",
            Text => "text",
            Device => "device",
            Memory => "memory",
        }
    }
}

impl From<Class> for Cause {
    ghost use Rattle.reports.specs.Verdicts.{cause_of_class};

    ghost from_gives = { λ class cause. cause ≡ cause_of_class class };

    fn from(class: Class) -> Cause {
        match class {
            Class::Broken => Cause::Broken,
            Class::Unjudged => Cause::Unjudged,
        }
    }
}

/// What is printed by a number and a name, with the page on it.
#[derive(Clone, Copy, Debug, PartialEq, Eq)]
pub struct Numbered {
    pub number: u8,
    pub name: &'static str,
    pub page: &'static str,
}

/// What is answered of an input.
#[derive(Clone, Copy, Debug, PartialEq, Eq)]
pub struct Outcome {
    pub verdict: Verdict,
    /// The row that breaks a rule, or the bad line, by its line from 1.
    pub row: Option<u32>,
    /// The rule that is broken, or what is wrong.
    pub cause: Option<Numbered>,
    pub class: Option<Cause>,
}
