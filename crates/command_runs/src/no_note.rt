//! What is told of an answer to a trace, alone or beside a certificate.
ghost use Rattle.std.specs.Prelude.{IfOk, string_bytes};
ghost use Rattle.answers.specs.Telling.{IsNote};

use crate::version_note::{explain_check, note_on_check};
use crate::why_no::{WhyNo, why_no};
use answers::{Answer, Asked, broken, note_on_leases};
use diagnostics::Explanation;
use ring_knowledge::Lease;
use std::alloc::{AllocError, Global};

/// What a person is told of an answer to the text of a trace, or to leases beside it. Where that is no: the row that breaks a rule,
/// or else the first lease that isn't the trace's; nothing where it would be yes.
pub fn note_on_verdict(
    alloc: Global,
    asked: &Asked,
    leases: &[Lease],
    text: &[u8],
    answer: &Answer,
) -> Result<Explanation, AllocError>
    ensures { IfOk result (λ note. IsNote asked.now.explains answer.now (string_bytes note.text)) }
{
    match answer {
        Answer::Verified { holds: false } => {
            let note = note_on_no(alloc, asked, leases, text, answer)?;
            Ok(broken(note))
        }
        _ => explain_check(alloc, asked, text, answer),
    }
}

/// What a person is told of leases that aren't those of their trace.
fn note_on_no(
    alloc: Global,
    asked: &Asked,
    leases: &[Lease],
    text: &[u8],
    answer: &Answer,
) -> Result<String, AllocError>
    ensures { IfOk result (λ note. IsNote asked.now.explains answer.now (string_bytes note)) }
{
    if !asked.explains {
        return Ok(String::new(alloc));
    }
    match why_no(alloc, leases, text)? {
        WhyNo::Row { row, refusal } => {
            let refused = Answer::Refused { row, refusal };
            note_on_check(alloc, asked, text, &refused)
        }
        WhyNo::Leases(own) => note_on_leases(alloc, asked, leases, &own, answer),
        WhyNo::Nothing => Ok(String::new(alloc)),
    }
}
