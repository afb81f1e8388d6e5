//! The lines of a header, and what a driver may ask between them.
use crate::lines::{Lines, say};
use crate::question::Question;
use std::alloc::Global;
use std::io::{self, Read, Write};

/// The text of a header, with the line of the first row behind it, where there is one.
#[derive(Drop)]
pub struct HeaderText {
    pub text: Vec<u8>,
    pub has_row: bool,
}

/// The words with which a line of a header begins.
const WORDS: [&[u8]; 3] = [b"xtrace ", b"ctx ", b"ring "];

/// Reads the lines of a header. Before the rows no controller runs, so nothing was written, no event comes, and HCHalted is 1.
pub fn read_header<R: Read + Drop, O: Write>(
    alloc: Global,
    lines: &mut Lines<R>,
    out: &mut O,
) -> io::Result<HeaderText> {
    let mut header = HeaderText {
        text: Vec::new(alloc),
        has_row: false,
    };
    for _ in 0..u64::MAX {
        let Some(line) = lines.next_line()? else {
            return Ok(header);
        };
        if let Some(question) = Question::of(&line) {
            say(question.end(false, true), out)?;
        } else {
            header.text.extend_from_slice(&line)?;
            if !is_of_header(&line) {
                header.has_row = true;
                return Ok(header);
            }
        }
    }
    Ok(header)
}

fn is_of_header(line: &[u8]) -> bool {
    WORDS.iter().any(|word| line.starts_with(word))
}
