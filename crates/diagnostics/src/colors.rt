//! The colours of what is told, as rustc has them.
ghost use Rattle.std.specs.Prelude.{◌≡◌, IfOk, string_bytes};
ghost use Rattle.diagnostics.specs.Colors.{begin_of, colored, painted};

use std::alloc::{AllocError, Global};

/// Whether what is told is coloured, by the escape sequences of terminals.
#[derive(Clone, Copy, Debug, PartialEq, Eq)]
pub enum Colors {
    Plain,
    Ansi,
}

/// What is coloured alike.
#[derive(Clone, Copy, Debug, PartialEq, Eq)]
pub enum Part {
    /// The word `error`, and the marks below a refused line.
    Error,
    /// What is wrong, and the word `note` behind `=`.
    Head,
    /// Numbers of lines, `-->`, `|`, `=`, `...`, and the marks below an earlier line.
    Frame,
    /// The word `help`.
    Help,
}

impl Part {
    /// The escape sequence that begins the part's colour.
    fn begin(self) -> &'static str
        ensures { result.now ≡ begin_of self }
    {
        match self {
            Part::Error => "\x1b[1;91m",
            Part::Head => "\x1b[1m",
            Part::Frame => "\x1b[1;94m",
            Part::Help => "\x1b[1;96m",
        }
    }
}

impl Colors {
    /// A text as such a part, in its colour where there are colours.
    pub fn paint(self, alloc: Global, part: Part, text: &str) -> Result<String, AllocError>
        ensures { IfOk result (λ all. string_bytes all ≡ painted self part text.now) }
    {
        match self {
            Colors::Plain => String::from_str(alloc, text),
            Colors::Ansi => colored(alloc, part.begin(), text),
        }
    }
}

/// A text between the escape sequence that begins a colour, and the one that ends it.
fn colored(alloc: Global, begin: &str, text: &str) -> Result<String, AllocError>
    ensures { IfOk result (λ all. string_bytes all ≡ colored begin.now text.now) }
{
    format!(in alloc; "{begin}{text}\x1b[0m")
}
