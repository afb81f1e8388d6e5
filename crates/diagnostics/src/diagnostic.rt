//! A diagnostic: what is told of a line.
use crate::class::Class;
use crate::colors::Colors;
use ownership_rules::Refusal;
use trace_reader::LineFault;
use world_state::Harm;

/// How a diagnostic is shown.
#[derive(Clone, Copy, Debug)]
pub struct View<'a> {
    /// How the file is called.
    pub path: &'a str,
    pub colors: Colors,
}

/// What is told of a line, as it is shown, and its class.
#[derive(Debug, Drop)]
pub struct Explanation {
    pub text: String,
    pub class: Class,
}

/// A row that is quoted, and what it has to do with what is wrong.
#[derive(Debug, Drop)]
pub struct Quote {
    /// The row's line, from 1.
    pub line: u32,
    pub text: String,
    pub label: String,
}

/// What a diagnostic is about.
#[derive(Clone, Copy, Debug, PartialEq, Eq)]
pub enum Matter {
    /// A row breaks this rule.
    Rule(Refusal),
    /// A line has this fault.
    Fault(LineFault),
    /// A step of a schedule does this harm.
    Harm(Harm),
    /// No controller makes a step of a schedule.
    NotPossible,
    /// A line of a plan gives back what isn't the driver's.
    NotGiven,
}

/// What is wrong with a line.
#[derive(Debug, Drop)]
pub struct Diagnostic {
    /// The rule that a row breaks, the fault of a line, or what a step does.
    pub matter: Matter,
    /// What is wrong, in the standard's words.
    pub head: String,
    /// The line.
    pub refused: Quote,
    /// The earlier line that matters most, where there is one.
    pub earlier: Option<Quote>,
    /// What was found and what was expected.
    pub notes: Vec<String>,
    /// What helps.
    pub help: Option<String>,
    /// Whether xHCI allows the line, and the profile alone refuses it: then a note says so.
    pub unjudged: bool,
}
