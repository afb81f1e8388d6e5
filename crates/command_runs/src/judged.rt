//! An answer with what is told beside it.
ghost use Rattle.std.specs.IoError.{error_kind};
ghost use Rattle.std.specs.Prelude.{◌≡◌, Bool, IfOk, string_bytes};
ghost use Rattle.answers.specs.Answers.{answer_of_kind};
ghost use Rattle.answers.specs.Telling.{IsNote};

use answers::{Answer, Asked, note_on_failure};
use diagnostics::{Class, Explanation};
use std::alloc::{AllocError, Global};
use std::io;

/// An answer, and what a person is told beside it, or that memory was wanted for that; and the class of a refusal.
#[derive(Drop)]
pub struct Judged {
    pub answer: Answer,
    pub note: Result<String, AllocError>,
    pub class: Class,
}

impl Judged {
    /// An answer with what explains it.
    pub fn of(answer: Answer, explained: Result<Explanation, AllocError>) -> Judged
        ensures answer { result.answer ≡ answer }
        ensures noted { (explains : Bool) → IfOk explained (λ it. IsNote explains answer (string_bytes it.text)) → IfOk result.note (λ note. IsNote explains result.answer (string_bytes note)) }
        ensures class { IfOk explained (λ it. result.class ≡ it.class) }
    {
        match explained {
            Ok(explained) => Judged {
                answer,
                note: Ok(explained.text),
                class: explained.class,
            },
            Err(error) => Judged {
                answer,
                note: Err(error),
                class: Class::Broken,
            },
        }
    }
}

/// That an input can't be read.
pub fn unread(alloc: Global, asked: &Asked, error: io::Error) -> Judged
    ensures answer { result.answer ≡ answer_of_kind (error_kind error) }
    ensures noted { IfOk result.note (λ note. IsNote asked.now.explains result.answer (string_bytes note)) }
{
    Judged {
        answer: Answer::from(error),
        note: note_on_failure(alloc, asked, error),
        class: Class::Broken,
    }
}

/// That a certificate can't be written.
pub fn unkept(alloc: Global, asked: &Asked, error: io::Error) -> Judged
    ensures answer { result.answer ≡ answer_of_kind (error_kind error) }
    ensures noted { IfOk result.note (λ note. IsNote asked.now.explains result.answer (string_bytes note)) }
{
    let kept = asked.of("the certificate");
    unread(alloc, &kept, error)
}
