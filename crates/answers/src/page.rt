//! Tells of a rule, of what is wrong with a file, or of a harm.
ghost use Rattle.answers.specs.Answers.{IsPageAnswer, goes_out};
ghost use Rattle.answers.specs.Telling.{IsTold};
ghost use Rattle.std.specs.Prelude.{◌≡◌, false, true};

use crate::answer::{Answer, Status};
use crate::telling::tell;
use rule_pages::{Subject, page};
use std::alloc::Global;
use std::io::Write;

/// Writes the page on a subject to `out`.
pub fn run_explain<O: Write, E: Write>(
    alloc: Global,
    explains: bool,
    subject: Subject,
    out: &mut O,
    err: &mut E,
) -> Status
    ensures told { (answer : Answer) × IsPageAnswer subject answer × IsTold explains answer result (O.contents out.old) (O.contents out.new) (E.contents err.old) (E.contents err.new) }
    ensures err { explains ≡ false → goes_out result ≡ true → err.new ≡ err.old }
{
    let answer = page_answer(subject);
    tell(alloc, explains, answer, Ok(String::new(alloc)), out, err)
}

/// The answer to the question for a page.
fn page_answer(subject: Subject) -> Answer
    ensures { IsPageAnswer subject result }
{
    Answer::Explained {
        subject,
        page: page(subject),
    }
}
