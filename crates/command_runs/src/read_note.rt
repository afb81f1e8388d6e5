//! What is told of an answer to an input that was judged as it was read.
ghost use Rattle.std.specs.Prelude.{◌≡◌, true, IfOk, string_bytes};
ghost use Rattle.answers.specs.Telling.{IsNote};

use crate::no_note::note_on_verdict;
use crate::reading::through_line;
use crate::recorded::{Recorded, Text};
use crate::stream_answers::unaccepted;
use answers::{Answer, Asked, broken, note_on_failure};
use diagnostics::Explanation;
use guest_memory::SparseMemory;
use memchr::memchr_iter;
use ownership_checker::{Certificate, check_stream};
use ring_knowledge::Lease;
use std::alloc::{AllocError, Global};
use std::io::{Read, Seek};
use trace_reader::{Counted, MOST_LINES};

/// So many lines of a text are read once more for an explanation at most: with their rows they take some 1.5 GB.
const MOST_EXPLAINED: u32 = 1 << 24;

/// What a person is told of an answer to the trace that an input held, and the class of a refusal; the leases are those of a certificate,
/// where one is verified. A text that was too long to be kept is read once more.
pub fn note_as_read<R: Read + Seek + Drop>(
    alloc: Global,
    asked: &Asked,
    leases: &[Lease],
    input: Recorded<R>,
    answer: &Answer,
) -> Result<Explanation, AllocError>
    ensures { IfOk result (λ note. IsNote asked.now.explains answer.now (string_bytes note.text)) }
{
    match answer {
        Answer::Device => {
            let note = note_on_device(alloc, asked, input)?;
            Ok(broken(note))
        }
        _ if !asked.is_explained(answer) => Ok(broken(String::new(alloc))),
        _ => {
            let explained = note_on_read(alloc, &asked.explaining(), leases, input, answer)?;
            Ok(asked.as_told(alloc, explained))
        }
    }
}

/// Which input failed, and why.
fn note_on_device<R: Read + Seek + Drop>(
    alloc: Global,
    asked: &Asked,
    input: Recorded<R>,
) -> Result<String, AllocError>
    ensures { IfOk result (λ note. IsNote asked.now.explains Answer.Device (string_bytes note)) }
{
    match input.into_error() {
        Some(error) => note_on_failure(alloc, asked, error),
        None => Ok(String::new(alloc)),
    }
}

/// What explains an answer to a text that was read to its end.
fn note_on_read<R: Read + Seek + Drop>(
    alloc: Global,
    asked: &Asked,
    leases: &[Lease],
    input: Recorded<R>,
    answer: &Answer,
) -> Result<Explanation, AllocError> {
    match answer {
        Answer::Verified { holds: true } | Answer::Memory => Ok(broken(String::new(alloc))),
        // want of memory changes no `accepted`
        Answer::Accepted { .. } => match note_on_lines(alloc, asked, leases, input, answer) {
            Ok(note) => Ok(note),
            Err(_) => Ok(broken(String::new(alloc))),
        },
        _ => note_on_lines(alloc, asked, leases, input, answer),
    }
}

/// The same of an answer that is explained from the text.
fn note_on_lines<R: Read + Seek + Drop>(
    alloc: Global,
    asked: &Asked,
    leases: &[Lease],
    input: Recorded<R>,
    answer: &Answer,
) -> Result<Explanation, AllocError> {
    match grounds_of(alloc, input, answer)? {
        Grounds::Text(text) => note_on_verdict(alloc, asked, leases, &text, answer),
        Grounds::None(why) => {
            let input = asked.input;
            let note = format!(in alloc; "xhcitrace: {input}: {why}\n")?;
            Ok(broken(note))
        }
        Grounds::Nothing => Ok(broken(String::new(alloc))),
    }
}

/// What an answer is explained from.
#[derive(Drop)]
pub enum Grounds {
    /// A text, as far as it is needed.
    Text(Vec<u8>),
    /// Why there is none.
    None(String),
    /// There is none, and nobody has to be told so.
    Nothing,
}

/// What an answer to a text that was read to its end is explained from.
pub fn grounds_of<R: Read + Seek + Drop>(
    alloc: Global,
    input: Recorded<R>,
    answer: &Answer,
) -> Result<Grounds, AllocError> {
    let most = most_lines(answer);
    let behind = most.saturating_add(1);
    let line = last_line(answer).unwrap_or(behind);
    if line > behind {
        return Ok(Grounds::None(too_far(alloc, answer, line)?));
    }
    match explained_text(alloc, input, answer, line)? {
        // (of a text that ends with a line which is near enough none has to be counted)
        Some(text) if line <= most || !has_more_lines(&text, most) => Ok(Grounds::Text(text)),
        _ if matches!(answer, Answer::Accepted { .. }) => Ok(Grounds::Nothing),
        Some(_) => Ok(Grounds::None(too_far(alloc, answer, behind)?)),
        None => Ok(Grounds::None(too_long(alloc, answer)?)),
    }
}

/// From how many lines an answer is explained. What an accepted trace leaves waiting is no reason to keep the rows of a long one.
fn most_lines(answer: &Answer) -> u32 {
    match answer {
        Answer::Accepted { .. } => MOST_LINES,
        _ => MOST_EXPLAINED,
    }
}

/// Whether a text has more than so many lines: then it is cut off.
fn has_more_lines(text: &[u8], most: u32) -> bool {
    memchr_iter(b'\n', text).nth(most as usize).is_some()
}

/// The line of which an answer speaks, where it speaks of one.
fn last_line(answer: &Answer) -> Option<u32> {
    match answer {
        Answer::Refused { row, .. } | Answer::HarmShown { row, .. } => Some(*row),
        Answer::BadLine { line, .. } => Some(*line),
        _ => None,
    }
}

/// The text that an answer is explained from, as far as that line; none where it can't be read once more, or its answer is another one then.
fn explained_text<R: Read + Seek + Drop>(
    alloc: Global,
    input: Recorded<R>,
    answer: &Answer,
    lines: u32,
) -> Result<Option<Vec<u8>>, AllocError> {
    match input.into_text(alloc, lines)? {
        // where a trace is judged as it comes more may have been read, and end in mid-line
        Text::Kept(text) => Ok(Some(through_line(text, lines))),
        Text::ReadAgain(text) => {
            // what is told of an accepted trace is told where it is that trace
            let same = matches!(answer, Answer::Accepted { .. })
                || has_answer(alloc, &text, answer)?;
            Ok(same.then_some(text))
        }
        Text::Gone => Ok(None),
    }
}

/// Whether a text has this answer. Whether a certificate is that of its trace is left to what is told of it.
fn has_answer(alloc: Global, text: &[u8], answer: &Answer) -> Result<bool, AllocError> {
    match answer_again(alloc, text) {
        Answer::Memory => Err(AllocError),
        again => match answer {
            Answer::Verified { .. } => Ok(true),
            _ => Ok(again == *answer),
        },
    }
}

/// The answer to a text by itself.
fn answer_again(alloc: Global, text: &[u8]) -> Answer {
    let mut source = Counted::new(text);
    match check_stream(alloc, false, &mut source, SparseMemory::new(alloc)) {
        Ok(Certificate { leases }) => Answer::Accepted {
            leases: leases.len() as u64,
        },
        Err(fault) => unaccepted(fault),
    }
}

/// That a text was too long to be kept, and what explains its answer.
fn too_long(alloc: Global, answer: &Answer) -> Result<String, AllocError> {
    let words = match answer {
        Answer::Verified { .. } => "verify --explain CERT",
        _ => "check --explain",
    };
    format!(in alloc;
        "too long to keep for an explanation; stored in a file it is explained: xhcitrace {words} FILE"
    )
}

/// That an answer speaks of a line behind those from which it could be explained.
fn too_far(alloc: Global, answer: &Answer, line: u32) -> Result<String, AllocError> {
    let mut words = format!(in alloc;
        "line {line} is behind the first {MOST_EXPLAINED}, and those alone are kept for an explanation; tools/picture draws the rows before it"
    )?;
    if let Answer::Refused { refusal, .. } = answer {
        let number = refusal.number();
        let page = format!(in alloc; "; of the rule tells: xhcitrace explain {number}")?;
        words.push_str(&page)?;
    }
    Ok(words)
}
