ghost use Rattle.std.specs.Prelude.{◌≡◌, ◌∷◌, ◌++◌, ◌<◌, All, false, length};
ghost use Rattle.line_text.specs.Lines.{behind_content, is_line_feed, lines_of};

use memchr::memchr;
use std::marker::Model;

/// A line of a text, without its line feed. Contracts see its bytes and whether a line feed ends it.
#[derive(Drop)]
pub struct Line<'a> {
    content: &'a [u8],
    is_ended: bool,
}

impl<'a> Model for Line<'a> {
    ghost use Rattle.line_text.specs.Lines.{TextLine};

    ghost Value = { TextLine };

    ghost view = { λ l. record { content = l.content.now; is_ended = l.is_ended } };
}

impl<'a> Line<'a> {
    /// The bytes before the line feed.
    pub fn content(&self) -> &'a [u8]
        ensures { result.now ≡ self.now.content }
    {
        self.content
    }

    /// A line feed ends the line.
    pub fn is_ended(&self) -> bool
        ensures { result ≡ self.now.is_ended }
    {
        self.is_ended
    }
}

/// The first line of a text that isn't empty, and the text behind it.
pub fn first_line(text: &[u8]) -> (Line<'_>, &[u8])
    requires { 0 < length text.now }
    ensures lines { lines_of text.now ≡ result.0 ∷ lines_of result.1.now }
    ensures whole { text.now ≡ result.0.content ++ behind_content result.0.is_ended result.1.now }
    ensures one { All (λ byte. is_line_feed byte ≡ false) result.0.content }
    ensures shorter { length result.1.now < length text.now }
{
    match memchr(b'\n', text) {
        Some(end) => (
            Line {
                content: &text[..end],
                is_ended: true,
            },
            &text[end + 1..],
        ),
        None => (
            Line {
                content: text,
                is_ended: false,
            },
            &text[text.len()..],
        ),
    }
}
