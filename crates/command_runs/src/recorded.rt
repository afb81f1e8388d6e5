//! An input that is judged as it is read, and the text that an answer to it is explained from.
ghost use Rattle.std.specs.Prelude.{◌≡◌};

use crate::reading::first_lines;
use std::alloc::{AllocError, Global};
use std::io::{self, ErrorKind, Read, Seek};
use std::mem;
use trace_reader::{Counted, Failed, Source};

/// So many bytes of a text are kept at most.
const MOST_KEPT: usize = 1 << 23;

/// An input, and what was read of it: where nothing is explained this isn't kept, nor where it got too long.
#[derive(Drop)]
pub struct Recorded<R> {
    input: Counted<R>,
    text: Result<Option<Vec<u8>>, AllocError>,
}

/// The text that an answer is explained from.
#[derive(Drop)]
pub enum Text {
    /// It was kept.
    Kept(Vec<u8>),
    /// It was too long to be kept, and its first lines were read once more.
    ReadAgain(Vec<u8>),
    /// It was too long to be kept, and the input can't be read once more.
    Gone,
}

impl<R: Read> Recorded<R> {
    /// An input of which nothing was read yet.
    pub fn new(alloc: Global, reader: R, keeps: bool) -> Recorded<R>
        ensures { ⟦<Recorded<R> as Source>⟧.held result ≡ R.remaining reader }
    {
        Recorded {
            input: Counted::new(reader),
            text: Ok(keeps.then_some(Vec::new(alloc))),
        }
    }
}

impl<R: Read + Seek + Drop> Recorded<R> {
    /// How the input failed last.
    pub fn into_error(self) -> Option<io::Error> {
        let Recorded { input, .. } = self;
        input.into_parts().1
    }

    /// The text that an answer is explained from; where it has to be read once more, its first so many lines.
    pub fn into_text(self, alloc: Global, lines: u32) -> Result<Text, AllocError> {
        let Recorded { input, text } = self;
        match text? {
            Some(text) => Ok(Text::Kept(text)),
            None => read_again(alloc, input.into_parts().0, lines),
        }
    }
}

impl<R: Read> Source for Recorded<R> {
    ghost held = { λ s. ⟦<Counted<R> as Source>⟧.held s.input };

    ghost failed = { λ s. ⟦<Counted<R> as Source>⟧.failed s.input };

    fn read(&mut self, buffer: &mut [u8]) -> Result<usize, Failed> {
        let count = self.input.read(buffer)?;
        self.text = match mem::replace(&mut self.text, Ok(None)) {
            Ok(Some(text)) => extended(text, &buffer[..count]),
            unkept => unkept,
        };
        Ok(count)
    }

    fn failures(&self) -> u64 {
        self.input.failures()
    }
}

/// A text with a piece behind it; none where it gets too long to be kept.
fn extended(mut text: Vec<u8>, piece: &[u8]) -> Result<Option<Vec<u8>>, AllocError> {
    if piece.len() > MOST_KEPT.saturating_sub(text.len()) {
        return Ok(None);
    }
    text.extend_from_slice(piece)?;
    Ok(Some(text))
}

/// The first so many lines of an input that is read from its beginning once more.
fn read_again<R: Read + Seek + Drop>(
    alloc: Global,
    mut reader: R,
    lines: u32,
) -> Result<Text, AllocError> {
    if reader.rewind().is_err() {
        return Ok(Text::Gone);
    }
    match first_lines(alloc, &mut reader, lines) {
        Ok(text) => Ok(Text::ReadAgain(text)),
        Err(error) if error.kind() == ErrorKind::OutOfMemory => Err(AllocError),
        Err(_) => Ok(Text::Gone),
    }
}
