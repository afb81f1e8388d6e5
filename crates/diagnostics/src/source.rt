//! The lines of a text, as they are quoted.
ghost use Rattle.std.specs.Prelude.{◌≡◌, IfOk};

use crate::diagnostic::Quote;
use memchr::memchr_iter;
use std::alloc::{AllocError, Global};

/// How many bytes of a line are quoted.
const QUOTED: usize = 76;

/// The first so many lines of a text, with their line feeds.
pub fn lines_to(text: &[u8], lines: u32) -> &[u8] {
    let Some(before) = lines.checked_sub(1) else {
        return &[];
    };
    match memchr_iter(b'\n', text).nth(before as usize) {
        Some(at) => text.get(..=at).unwrap_or(text),
        None => text,
    }
}

/// The bytes of a line, which is counted from 1, without its line feed.
pub(crate) fn line_at(text: &[u8], line: u32) -> &[u8] {
    let before = lines_to(text, line.saturating_sub(1)).len();
    let rest = text.get(before..).unwrap_or(&[]);
    rest.split(|b| *b == b'\n').next().unwrap_or(&[])
}

/// A line of a text, with what it has to do with the matter.
pub fn quote(alloc: Global, text: &[u8], line: u32, label: String) -> Result<Quote, AllocError>
    ensures { IfOk result (λ quote. quote.line ≡ line) }
{
    let bytes = line_at(text, line);
    let shown = &bytes[..bytes.len().min(QUOTED)];
    let dots = if shown.len() < bytes.len() { ".." } else { "" };
    let row = shown.escape_ascii();
    let text = format!(in alloc; "{row}{dots}")?;
    Ok(Quote { line, text, label })
}
