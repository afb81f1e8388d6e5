//! Whether what is told of a line is a break of a rule.
ghost use Rattle.std.specs.Prelude.{◌≡◌};
ghost use Rattle.diagnostics.specs.Classes.{class_of};

use crate::diagnostic::Diagnostic;

/// What is told of a line, for one who counts.
#[derive(Clone, Copy, Debug, PartialEq, Eq)]
pub enum Class {
    /// It breaks a rule, or isn't read.
    Broken,
    /// xHCI allows it: the profile, or the version of the trace's format, alone refuses it.
    Unjudged,
}

impl Diagnostic {
    /// Whether the line breaks a rule, or the profile alone refuses it.
    pub fn class(&self) -> Class
        ensures { result ≡ class_of self.now.unjudged }
    {
        if self.unjudged {
            Class::Unjudged
        } else {
            Class::Broken
        }
    }
}
