//! What is answered, its text, and the exit status that goes with it.
ghost use Rattle.std.specs.Prelude.{◌≡◌, ◌++◌, ◌∷◌, [], IfOk, IsOk, OnOk, codes, decimal, max, string_bytes};
ghost use Rattle.answers.specs.Answers.{exit_number, harm_text, numbered_page, page_text, range_text, refused_text, status_of, text_of};

use crate::replay_lines::{ReplayEnd, replay_text};
use block_text::line_of;
use certificate::CertFault;
use controller_model::Seen;
use ownership_rules::Refusal;
use plan_writer::{PlanFault, PlanRefusal};
use rule_pages::Subject;
use std::alloc::{AllocError, Global};
use std::io;
use trace_reader::{LineFault, ReadFault, StreamFault};
use trb::Block;
use world_state::Harm;

/// The answer to a trace, alone or beside a schedule or a certificate, to a plan or to a block.
#[derive(Debug, Drop, PartialEq, Eq)]
pub enum Answer {
    /// The trace is clean, with so many leases.
    Accepted {
        leases: u64,
    },
    /// The trace of a plan, as it is printed.
    Written {
        trace: Vec<u8>,
    },
    /// What the block says.
    Decoded {
        block: Block,
    },
    /// What the steps of a schedule showed, and how its replay ends.
    Replayed {
        seen: Vec<Seen>,
        ending: ReplayEnd,
    },
    /// Whether the certificate is that of the trace.
    Verified {
        holds: bool,
    },
    /// The lazy schedule of the trace, as it is printed.
    Scheduled {
        schedule: Vec<u8>,
    },
    /// A page on a rule, on what is wrong with a file, or on a harm.
    Explained {
        subject: Subject,
        page: &'static str,
    },
    /// What is known, and who owns what, before a row of a trace, as a page of text.
    Shown {
        page: Vec<u8>,
    },
    /// The first row that breaks a rule, by its line from 1, and the least rule that it breaks.
    Refused {
        row: u32,
        refusal: Refusal,
    },
    /// The same, and a run that does harm beside the trace, where one was found.
    HarmShown {
        row: u32,
        refusal: Refusal,
        harm: Option<FoundHarm>,
    },
    /// The first line of a plan that can't be followed, from 1, and why.
    Unfollowed {
        line: u32,
        refusal: PlanRefusal,
    },
    /// The first bad line, from 1, and its fault.
    BadLine {
        line: u32,
        fault: LineFault,
    },
    /// A word of a block isn't 8 hex digits.
    BadWord,
    /// The bytes are no certificate.
    BadCertificate {
        fault: CertFault,
    },
    /// A row that was asked for is none of those from `first` to `last`, by their lines; there are none where `last` is the less.
    NoRow {
        first: u32,
        last: u32,
    },
    /// A growth of memory was refused.
    Memory,
    /// The trace couldn't be opened or read, or the answer couldn't be written.
    Device,
}

/// A run that does harm beside a trace: its schedule, as it is printed, and the harm behind its last step.
#[derive(Debug, Drop, PartialEq, Eq)]
pub struct FoundHarm {
    pub schedule: Vec<u8>,
    pub harm: Harm,
}

/// How the program ends.
#[derive(Clone, Copy, Debug, PartialEq, Eq)]
pub enum Status {
    /// The trace is accepted, the plan, the block, the schedule or the page is written, the replay shows no harm, or the certificate
    /// holds.
    Clean,
    /// A row breaks a rule, a line of a plan can't be followed, a replay does harm or isn't possible, or a certificate doesn't hold.
    Unclean,
    /// The text is no trace, no plan, no schedule or no block, the bytes are no certificate, the trace hasn't the row, or the arguments
    /// are wrong.
    Unreadable,
    /// Memory or a device failed.
    Unanswered,
}

/// The bytes of a line, its line feed behind them.
fn ended(line: Result<String, AllocError>) -> Result<Vec<u8>, AllocError>
    ensures line { OnOk result (IsOk line) }
    ensures ended { IfOk result (λ bytes. IfOk line (λ text. bytes.items ≡ string_bytes text ++ 10 ∷ [])) }
{
    let mut text = line?;
    text.push_str("\n")?;
    Ok(text.into_bytes())
}

/// What is told of a numbered line.
fn numbered(
    alloc: Global,
    head: &str,
    line: u32,
    number: u8,
    name: &str,
) -> Result<String, AllocError>
    ensures { IfOk result (λ text. string_bytes text ≡ head.now ++ (decimal line ++ (codes ": " ++ (decimal number ++ (codes " " ++ name.now))))) }
{
    format!(in alloc; "{head}{line}: {number} {name}")
}

/// The line on a row that breaks a rule.
fn refused_line(alloc: Global, row: u32, refusal: Refusal) -> Result<Vec<u8>, AllocError>
    ensures { IfOk result (λ text. text.items ≡ refused_text row refusal) }
{
    ended(numbered(alloc, "row ", row, refusal.number(), refusal.name()))
}

/// A text with the schedule of a run that does harm behind it, or that none was found.
fn with_harm(text: Vec<u8>, harm: Option<FoundHarm>) -> Result<Vec<u8>, AllocError>
    ensures { IfOk result (λ all. all.items ≡ text.items ++ harm_text harm) }
{
    let mut text = text;
    match harm {
        Some(found) => text.extend_from_slice(&found.schedule)?,
        None => text.extend_from_slice(NO_HARM.as_bytes())?,
    }
    Ok(text)
}

/// What is told of bytes that are no certificate.
fn named(alloc: Global, number: u8, name: &str) -> Result<String, AllocError>
    ensures { IfOk result (λ text. string_bytes text ≡ codes "xhcitrace: " ++ (decimal number ++ (codes " " ++ name.now))) }
{
    format!(in alloc; "xhcitrace: {number} {name}")
}

/// A page, its number and name before it; on a harm the word and the number, as they are printed.
fn headed_page(alloc: Global, subject: Subject, page: &str) -> Result<Vec<u8>, AllocError>
    ensures { IfOk result (λ text. text.items ≡ page_text subject page.now) }
{
    let name = subject.name();
    let text = match subject {
        Subject::Harm(_) => format!(in alloc; "{name}: {page}")?,
        _ => numbered_page(alloc, subject.number(), name, page)?,
    };
    Ok(text.into_bytes())
}

/// A page, a number and a name before it.
fn numbered_page(alloc: Global, number: u8, name: &str, page: &str) -> Result<String, AllocError>
    ensures { IfOk result (λ text. string_bytes text ≡ numbered_page number name.now page.now) }
{
    format!(in alloc; "{number} {name}: {page}")
}

/// Which rows may be asked for.
fn row_range(alloc: Global, first: u32, last: u32) -> Result<String, AllocError>
    ensures { IfOk result (λ text. string_bytes text ≡ range_text first last) }
{
    if last < first {
        format!(in alloc; "xhcitrace: no such row: the trace has none")
    } else {
        rows_between(alloc, first, last)
    }
}

/// That rows from one to another may be asked for.
fn rows_between(alloc: Global, first: u32, last: u32) -> Result<String, AllocError>
    ensures { IfOk result (λ text. string_bytes text ≡ codes "xhcitrace: no such row: " ++ (decimal first ++ (codes " to " ++ (decimal last ++ codes " can be shown")))) }
{
    format!(in alloc; "xhcitrace: no such row: {first} to {last} can be shown")
}

/// What is written where no run was found that does harm.
const NO_HARM: &str = "no harmful schedule found\n";

/// What is written where memory is wanted: it needs none.
pub const MEMORY_LINE: &str = "xhcitrace: 30 Memory\n";

/// What is written where a device failed.
pub const DEVICE_LINE: &str = "xhcitrace: 31 Device\n";

impl Answer {
    pub fn status(&self) -> Status
        ensures { result ≡ status_of self.now }
    {
        match self {
            Answer::Accepted { .. }
            | Answer::Written { .. }
            | Answer::Decoded { .. }
            | Answer::Scheduled { .. }
            | Answer::Explained { .. }
            | Answer::Shown { .. } => Status::Clean,
            Answer::Replayed { ending, .. } => ending.status(),
            Answer::Verified { holds } => if *holds {
                Status::Clean
            } else {
                Status::Unclean
            },
            Answer::Refused { .. } | Answer::HarmShown { .. } | Answer::Unfollowed { .. } => {
                Status::Unclean
            }
            Answer::BadLine { .. }
            | Answer::BadWord
            | Answer::BadCertificate { .. }
            | Answer::NoRow { .. } => Status::Unreadable,
            Answer::Memory | Answer::Device => Status::Unanswered,
        }
    }
}

impl Status {
    /// The exit status of the process.
    pub fn number(self) -> u8
        ensures { result ≡ exit_number self }
    {
        match self {
            Status::Clean => 0,
            Status::Unclean => 1,
            Status::Unreadable => 2,
            Status::Unanswered => 3,
        }
    }

    /// The one of two with the greater number.
    pub fn worse(self, other: Status) -> Status
        ensures { exit_number result ≡ max (exit_number self) (exit_number other) }
    {
        if self.number() < other.number() {
            other
        } else {
            self
        }
    }
}

impl Answer {
    /// The text of the answer, with its line feed.
    pub fn text(self, alloc: Global) -> Result<Vec<u8>, AllocError>
        ensures { IfOk result (λ text. text.items ≡ text_of self) }
    {
        match self {
            Answer::Accepted { leases } => ended(format!(in alloc; "accepted: {leases} leases")),
            Answer::Written { trace } => Ok(trace),
            Answer::Decoded { block } => line_of(alloc, block),
            Answer::Replayed { seen, ending } => replay_text(alloc, &seen, ending),
            Answer::Verified { holds } => {
                let word = if holds { b"yes\n".as_slice() } else { b"no\n" };
                Vec::from_slice(alloc, word)
            }
            Answer::Scheduled { schedule } => Ok(schedule),
            Answer::Explained { subject, page } => headed_page(alloc, subject, page),
            Answer::Shown { page } => Ok(page),
            Answer::Refused { row, refusal } => refused_line(alloc, row, refusal),
            Answer::HarmShown { row, refusal, harm } => {
                with_harm(refused_line(alloc, row, refusal)?, harm)
            }
            Answer::Unfollowed { line, refusal } => {
                ended(numbered(alloc, "line ", line, refusal.number(), refusal.name()))
            },
            Answer::BadLine { line, fault } => {
                ended(numbered(
                    alloc,
                    "xhcitrace: line ",
                    line,
                    fault.number(),
                    fault.name(),
                ))
            },
            Answer::BadWord => Vec::from_slice(alloc, b"xhcitrace: 3 Number\n"),
            Answer::BadCertificate { fault } => {
                ended(named(alloc, fault.number(), fault.name()))
            }
            Answer::NoRow { first, last } => ended(row_range(alloc, first, last)),
            Answer::Memory => Vec::from_slice(alloc, MEMORY_LINE.as_bytes()),
            Answer::Device => Vec::from_slice(alloc, DEVICE_LINE.as_bytes()),
        }
    }
}

impl From<ReadFault> for Answer {
    ghost use Rattle.answers.specs.Answers.{answer_of_fault};

    ghost from_gives = { λ fault answer. answer ≡ answer_of_fault fault };

    fn from(fault: ReadFault) -> Answer {
        match fault {
            ReadFault::Line { line, code } => Answer::BadLine { line, fault: code },
            ReadFault::Memory => Answer::Memory,
        }
    }
}

impl From<StreamFault> for Answer {
    ghost use Rattle.answers.specs.Answers.{answer_of_stream_fault};

    ghost from_gives = { λ fault answer. answer ≡ answer_of_stream_fault fault };

    fn from(fault: StreamFault) -> Answer {
        match fault {
            StreamFault::Line { line, fault } => Answer::BadLine { line, fault },
            StreamFault::Device => Answer::Device,
            StreamFault::Memory => Answer::Memory,
        }
    }
}

impl From<PlanFault> for Answer {
    ghost use Rattle.answers.specs.Answers.{answer_of_plan_fault};

    ghost from_gives = { λ fault answer. answer ≡ answer_of_plan_fault fault };

    fn from(fault: PlanFault) -> Answer {
        match fault {
            PlanFault::Line { line, fault } => Answer::BadLine { line, fault },
            PlanFault::Refused { line, refusal } => Answer::Unfollowed { line, refusal },
            PlanFault::Memory => Answer::Memory,
        }
    }
}

impl From<CertFault> for Answer {
    ghost use Rattle.answers.specs.Answers.{answer_of_cert_fault};

    ghost from_gives = { λ fault answer. answer ≡ answer_of_cert_fault fault };

    fn from(fault: CertFault) -> Answer {
        match fault {
            CertFault::Memory => Answer::Memory,
            fault => Answer::BadCertificate { fault },
        }
    }
}

impl From<AllocError> for Answer {
    ghost use Rattle.answers.specs.declared.answer.Answer.TheVariants.{Memory};

    ghost from_gives = { λ _ answer. answer ≡ Memory };

    fn from(_error: AllocError) -> Answer {
        Answer::Memory
    }
}

impl From<io::Error> for Answer {
    ghost use Rattle.std.specs.IoError.{error_kind};
    ghost use Rattle.answers.specs.Answers.{answer_of_kind};

    ghost from_gives = { λ error answer. answer ≡ answer_of_kind (error_kind error) };

    fn from(error: io::Error) -> Answer {
        match error.kind() {
            io::ErrorKind::OutOfMemory => Answer::Memory,
            _ => Answer::Device,
        }
    }
}
