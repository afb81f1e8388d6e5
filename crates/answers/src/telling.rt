//! Writes an answer to the stream that it belongs to.
ghost use Rattle.std.specs.Io.KnownBytes.{Appends};
ghost use Rattle.std.specs.IoError.{error_kind};
ghost use Rattle.std.specs.Prelude.{◌≡◌, ◌++◌, ◌⊎◌, [], ℕ, List, false, true, OnOk, IfOk, IsOk, codes, string_bytes};
ghost use Rattle.std.specs.declared.io.ErrorKind.TheVariants.{BrokenPipe};
ghost use Rattle.answers.specs.Answers.{answer_of_kind, device_line, err_text, goes_out, memory_line, out_text, status_of};
ghost use Rattle.answers.specs.Telling.{Begins, IsNote, IsPlainNote, IsTold, IsToldOf, IsWritten, named_err, named_out};

use crate::answer::{Answer, DEVICE_LINE, MEMORY_LINE, Status};
use crate::explain::{Asked, failure_note, note_on_failure};
use std::alloc::{AllocError, Global};
use std::io::{self, ErrorKind, Write};

/// What goes to each of the two streams.
#[derive(Drop)]
struct Lines {
    out: Vec<u8>,
    err: Vec<u8>,
}

/// Writes the bytes whole, in one write where the writer takes them so, and flushes; of no bytes the writer hears nothing.
/// Where the writer fails a beginning of them stands there.
pub fn write_whole<W: Write>(bytes: &[u8], writer: &mut W) -> io::Result<()>
    ensures whole { OnOk result (Appends (W.contents writer.old) (W.contents writer.new) bytes.now) }
    ensures beginning { Begins (W.contents writer.old) (W.contents writer.new) bytes.now }
    ensures untouched { bytes.now ≡ [] → writer.new ≡ writer.old }
{
    if bytes.is_empty() {
        return Ok(());
    }
    write_some(bytes, writer)?;
    writer.flush()
}

/// Writes the bytes, trying again after an interruption.
fn write_some<W: Write>(bytes: &[u8], writer: &mut W) -> io::Result<()>
    ensures whole { OnOk result (Appends (W.contents writer.old) (W.contents writer.new) bytes.now) }
    ensures beginning { Begins (W.contents writer.old) (W.contents writer.new) bytes.now }
{
    let mut done = 0;
    for _ in 0..u64::MAX {
        if done >= bytes.len() {
            return Ok(());
        }
        match writer.write(&bytes[done..]) {
            Ok(0) => return Err(ErrorKind::WriteZero.into()),
            Ok(n) => done += n,
            Err(error) => {
                if error.kind() != ErrorKind::Interrupted {
                    return Err(error);
                }
            }
        }
    }
    Err(ErrorKind::Interrupted.into())
}

/// What goes to the two streams of an answer and its explanation, which stands on standard error.
fn lines_of(
    alloc: Global,
    answer: Answer,
    note: Result<String, AllocError>,
) -> Result<Lines, AllocError>
    ensures noted { OnOk result (IsOk note) }
    ensures out { IfOk result (λ lines. lines.out.items ≡ out_text answer) }
    ensures err { IfOk result (λ lines. IfOk note (λ n. lines.err.items ≡ err_text answer ++ string_bytes n)) }
{
    let note = note?;
    let status = answer.status();
    let mut text = answer.text(alloc)?;
    match status {
        Status::Clean | Status::Unclean => Ok(Lines {
            out: text,
            err: note.into_bytes(),
        }),
        Status::Unreadable | Status::Unanswered => {
            text.extend_from_slice(note.as_bytes())?;
            Ok(Lines {
                out: Vec::new(alloc),
                err: text,
            })
        }
    }
}

/// Why standard output failed.
fn output_note(alloc: Global, error: io::Error) -> Result<String, AllocError>
    ensures { IfOk result (λ note. IsPlainNote Answer.Device (string_bytes note)) }
{
    let note = failure_note(alloc, "standard output", error)?;
    Ok(note)
}

/// Tells that standard output failed, and why; where that fails too, the status alone tells of it. A pipe that nobody reads any more is
/// no failure that somebody has to be told of: there the status alone tells of it.
fn tell_output_failure<E: Write>(alloc: Global, error: io::Error, err: &mut E) -> Status
    ensures status { result ≡ Status.Unanswered }
    ensures told { (note : List ℕ) × IsPlainNote Answer.Device note × Begins (E.contents err.old) (E.contents err.new) (device_line ++ note) }
    ensures quiet { error_kind error ≡ BrokenPipe → err.new ≡ err.old }
{
    if error.kind() == ErrorKind::BrokenPipe {
        return Status::Unanswered;
    }
    let note = output_note(alloc, error);
    let written = match lines_of(alloc, Answer::Device, note) {
        Ok(lines) => write_whole(&lines.err, err),
        Err(_) => write_whole(DEVICE_LINE.as_bytes(), err),
    };
    let _ = written;
    Status::Unanswered
}

/// Writes the texts for the two streams, and says how the program ends.
fn write_lines<O: Write, E: Write>(
    alloc: Global,
    status: Status,
    lines: &Lines,
    out: &mut O,
    err: &mut E,
) -> Status
    ensures written { IsWritten status lines.now.out.items lines.now.err.items result (O.contents out.old) (O.contents out.new) (E.contents err.old) (E.contents err.new) }
    ensures out { lines.now.out.items ≡ [] → out.new ≡ out.old }
    ensures err { lines.now.err.items ≡ [] → (result ≡ Status.Unanswered) ⊎ (err.new ≡ err.old) }
{
    if let Err(error) = write_whole(&lines.out, out) {
        return tell_output_failure(alloc, error, err);
    }
    match write_whole(&lines.err, err) {
        Ok(()) => status,
        Err(_) => Status::Unanswered,
    }
}

/// Tells that memory is wanted.
fn tell_memory<E: Write>(err: &mut E) -> Status
    ensures status { result ≡ Status.Unanswered }
    ensures told { Begins (E.contents err.old) (E.contents err.new) memory_line }
{
    let _ = write_whole(MEMORY_LINE.as_bytes(), err);
    Status::Unanswered
}

/// Writes an answer whole to its stream and what explains it to standard error, and says how the program ends. Where memory is
/// wanted for that, this is told in its place.
pub fn tell<O: Write, E: Write>(
    alloc: Global,
    explains: bool,
    answer: Answer,
    note: Result<String, AllocError>,
    out: &mut O,
    err: &mut E,
) -> Status
    requires { IfOk note (λ n. IsNote explains answer (string_bytes n)) }
    ensures told { IsTold explains answer result (O.contents out.old) (O.contents out.new) (E.contents err.old) (E.contents err.new)
        ⊎ IsTold explains Answer.Memory result (O.contents out.old) (O.contents out.new) (E.contents err.old) (E.contents err.new) }
    ensures out { goes_out (status_of answer) ≡ false → out.new ≡ out.old }
    ensures err { explains ≡ false → goes_out result ≡ true → err.new ≡ err.old }
{
    let status = answer.status();
    match lines_of(alloc, answer, note) {
        Ok(lines) => write_lines(alloc, status, &lines, out, err),
        Err(_) => tell_memory(err),
    }
}

/// Tells which input can't be opened or read, and why, and says how the program ends.
pub fn tell_failure<O: Write, E: Write>(
    alloc: Global,
    asked: &Asked,
    error: io::Error,
    out: &mut O,
    err: &mut E,
) -> Status
    ensures told { IsTold asked.now.explains (answer_of_kind (error_kind error)) result (O.contents out.old) (O.contents out.new) (E.contents err.old) (E.contents err.new)
        ⊎ IsTold asked.now.explains Answer.Memory result (O.contents out.old) (O.contents out.new) (E.contents err.old) (E.contents err.new) }
    ensures status { result ≡ Status.Unanswered }
    ensures out { out.new ≡ out.old }
{
    let note = note_on_failure(alloc, asked, error);
    tell(alloc, asked.explains, Answer::from(error), note, out, err)
}

/// A text with the name of its input before it.
fn headed(alloc: Global, name: &str, text: &[u8]) -> Result<Vec<u8>, AllocError>
    ensures { IfOk result (λ line. line.items ≡ (name.now ++ codes ": ") ++ text.now) }
{
    let mut line = format!(in alloc; "{name}: ")?.into_bytes();
    line.extend_from_slice(text)?;
    Ok(line)
}

/// What goes to the two streams of the answer to one of several inputs, and of its explanation.
fn named_lines(
    alloc: Global,
    name: &str,
    answer: Answer,
    note: Result<String, AllocError>,
) -> Result<Lines, AllocError>
    ensures noted { OnOk result (IsOk note) }
    ensures out { IfOk result (λ lines. lines.out.items ≡ named_out name.now answer) }
    ensures err { IfOk result (λ lines. IfOk note (λ n. lines.err.items ≡ named_err name.now answer ++ string_bytes n)) }
{
    let note = note?;
    let status = answer.status();
    let text = answer.text(alloc)?;
    let mut line = headed(alloc, name, &text)?;
    match status {
        Status::Clean | Status::Unclean => Ok(Lines {
            out: line,
            err: note.into_bytes(),
        }),
        Status::Unreadable | Status::Unanswered => {
            line.extend_from_slice(note.as_bytes())?;
            Ok(Lines {
                out: Vec::new(alloc),
                err: line,
            })
        }
    }
}

/// Writes the answer to one of several inputs whole to its stream, the input's name before it, and what explains it to standard
/// error; its status. An error is that memory is wanted for that, or that a stream failed, so that more answers can't be told.
pub fn tell_named<O: Write, E: Write>(
    alloc: Global,
    asked: &Asked,
    answer: Answer,
    note: Result<String, AllocError>,
    out: &mut O,
    err: &mut E,
) -> io::Result<Status>
    requires { IfOk note (λ n. IsNote asked.now.explains answer (string_bytes n)) }
    ensures { IsToldOf asked.now.input.now asked.now.explains answer result (O.contents out.old) (O.contents out.new) (E.contents err.old) (E.contents err.new) }
{
    let status = answer.status();
    let lines = named_lines(alloc, asked.input, answer, note)?;
    write_whole(&lines.out, out)?;
    write_whole(&lines.err, err)?;
    Ok(status)
}
