//! Tells what a block says.
ghost use Rattle.std.specs.Prelude.{◌≡◌, false, true};
ghost use Rattle.answers.specs.Answers.{IsBlockAnswer, goes_out};
ghost use Rattle.answers.specs.Telling.{IsTold};

use crate::answer::{Answer, Status};
use crate::explain::note_on_words;
use crate::telling::tell;
use block_text::BlockWords;
use std::alloc::Global;
use std::io::Write;

/// Writes what the block of four words says to `out`, and to `err` that one of them isn't 8 hex digits.
pub fn run_decode<O: Write, E: Write>(
    alloc: Global,
    explains: bool,
    words: &BlockWords,
    out: &mut O,
    err: &mut E,
) -> Status
    ensures told { (answer : Answer) × IsBlockAnswer words.now.first.now words.now.second.now words.now.third.now words.now.fourth.now answer
        × IsTold explains answer result (O.contents out.old) (O.contents out.new) (E.contents err.old) (E.contents err.new) }
    ensures out { result ≡ Status.Unreadable → out.new ≡ out.old }
    ensures err { explains ≡ false → goes_out result ≡ true → err.new ≡ err.old }
{
    let answer = block_answer(words);
    let note = note_on_words(alloc, explains, words, &answer);
    tell(alloc, explains, answer, note, out, err)
}

/// The answer to four words.
fn block_answer(words: &BlockWords) -> Answer
    ensures { IsBlockAnswer words.now.first.now words.now.second.now words.now.third.now words.now.fourth.now result }
{
    match words.block() {
        Some(block) => Answer::Decoded { block },
        None => Answer::BadWord,
    }
}
