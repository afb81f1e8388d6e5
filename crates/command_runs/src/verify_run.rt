//! Verifies a certificate beside a trace, and writes the answer.
ghost use Rattle.std.specs.Prelude.{Some, ◌≡◌, ◌⊎◌, false, true, IfOk, IsErr, string_bytes};
ghost use Rattle.answers.specs.Answers.{goes_out};
ghost use Rattle.answers.specs.Inputs.{opened};
ghost use Rattle.answers.specs.Telling.{IsNote, IsTold};
ghost use Rattle.command_runs.specs.VerifyAnswers.{IsUncertified, IsVerdictBeside, IsVerifyAnswer};

use crate::read_note::note_as_read;
use crate::reading::leases_of;
use crate::recorded::Recorded;
use crate::stream_answers::verified_answer;
use answers::{Answer, Asked, Status, note_on_certificate, tell, tell_failure};
use certificate::Unread;
use ring_knowledge::Lease;
use std::alloc::{AllocError, Global};
use std::io::{self, Read, Seek, Write};

/// Verifies the certificate that `certificate` holds beside the trace of the input that `open_trace` opens, once the certificate was
/// read; where it is none, the trace isn't opened. Of the certificate its leases are kept, and not its bytes; the rows are judged as
/// they are read, and aren't kept. `yes` or `no` goes to `out`, and what hinders it to `err`. `beside` is how the certificate is called in
/// messages.
pub fn run_verify<C, R, F, O: Write, E: Write>(
    alloc: Global,
    asked: &Asked,
    beside: &str,
    certificate: io::Result<C>,
    open_trace: F,
    out: &mut O,
    err: &mut E,
) -> Status
where
    C: Read + Drop,
    R: Read + Seek + Drop,
    F: FnOnce() -> io::Result<R> + Drop,
    requires { F.pre open_trace }
    ensures told { (answer : Answer) × (IsUncertified (opened C.remaining certificate) answer
        ⊎ ((trace : _) × F.post open_trace trace × IsVerifyAnswer (opened C.remaining certificate) (opened R.remaining trace) answer))
        × IsTold asked.now.explains answer result (O.contents out.old) (O.contents out.new) (E.contents err.old) (E.contents err.new) }
    ensures out { result ≡ Status.Unreadable → out.new ≡ out.old }
    ensures err { asked.now.explains ≡ false → goes_out result ≡ true → err.new ≡ err.old }
    ensures uncertified { IsErr certificate → out.new ≡ out.old }
    ensures unverified { IsErr certificate → goes_out result ≡ false }
    ensures unopened { ((trace : _) → F.post open_trace trace → IsErr trace) → out.new ≡ out.old }
    ensures unanswered { ((trace : _) → F.post open_trace trace → IsErr trace) → goes_out result ≡ false }
{
    match leases_of(alloc, certificate) {
        Ok(leases) => verify_beside(alloc, asked, &leases, open_trace(), out, err),
        Err(Unread::Bytes(why)) => {
            let answer = Answer::from(why.fault());
            let note = note_on_certificate(alloc, asked, &why, &answer);
            tell(alloc, asked.explains, answer, note, out, err)
        }
        Err(Unread::Failed(error)) => {
            let read = asked.of(beside);
            tell_failure(alloc, &read, error, out, err)
        }
    }
}

/// Verifies leases beside the trace that an input holds, as it is read.
fn verify_beside<R: Read + Seek + Drop, O: Write, E: Write>(
    alloc: Global,
    asked: &Asked,
    leases: &[Lease],
    trace: io::Result<R>,
    out: &mut O,
    err: &mut E,
) -> Status
    ensures told { (answer : Answer) × IsVerdictBeside leases.now (opened R.remaining trace) answer
        × IsTold asked.now.explains answer result (O.contents out.old) (O.contents out.new) (E.contents err.old) (E.contents err.new) }
    ensures out { result ≡ Status.Unreadable → out.new ≡ out.old }
    ensures err { asked.now.explains ≡ false → goes_out result ≡ true → err.new ≡ err.old }
    ensures unopened { IsErr trace → out.new ≡ out.old }
    ensures unanswered { IsErr trace → goes_out result ≡ false }
{
    match trace {
        Ok(trace) => {
            let mut source = Recorded::new(alloc, trace, asked.explains);
            let answer = verified_answer(alloc, leases, &mut source);
            let note = note_beside(alloc, asked, leases, source, &answer);
            tell(alloc, asked.explains, answer, note, out, err)
        }
        Err(error) => tell_failure(alloc, asked, error, out, err),
    }
}

/// What a person is told of an answer to leases beside a trace.
fn note_beside<R: Read + Seek + Drop>(
    alloc: Global,
    asked: &Asked,
    leases: &[Lease],
    input: Recorded<R>,
    answer: &Answer,
) -> Result<String, AllocError>
    ensures { IfOk result (λ note. IsNote asked.now.explains answer.now (string_bytes note)) }
{
    let told = note_as_read(alloc, asked, leases, input, answer)?;
    Ok(told.text)
}
