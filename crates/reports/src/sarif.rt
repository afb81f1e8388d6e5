//! A SARIF log (OASIS, version 2.1.0): what is wrong at the rows of traces, as code hosts read it.
use crate::outcome::{Cause, Numbered, Outcome, Verdict};
use crate::parts::{Mark, MarkKind, Parts};
use crate::report::Report;
use crate::sections::{Section, sections_of};
use percent_encoding::{AsciiSet, NON_ALPHANUMERIC, utf8_percent_encode};
use serde_json::{Map, Value, json, put};
use std::alloc::{AllocError, Global};

/// The log that is written where memory is wanted: it needs none.
pub const MEMORY_LOG: &str =
    "{\"$schema\":\"https://json.schemastore.org/sarif-2.1.0.json\",\"runs\":[{\"invocations\":[{\"executionSuccessful\":false,\"toolExecutionNotifications\":[{\"level\":\"error\",\"message\":{\"text\":\"30 Memory\"}}]}],\"results\":[],\"tool\":{\"driver\":{\"name\":\"xhcitrace\",\"version\":\"1.0\"}}}],\"version\":\"2.1.0\"}\n";

/// Where the schema of a log is.
const SCHEMA: &str = "https://json.schemastore.org/sarif-2.1.0.json";

/// The version of the program.
const VERSION: &str = "1.0";

/// What a path has no place for in a URI.
const ESCAPED: AsciiSet = AsciiSet {
    mask: NON_ALPHANUMERIC.mask & !(1 << b'/' | 1 << b'-' | 1 << b'.' | 1 << b'_' | 1 << b'~'),
};

/// A log of one run, as it grows.
#[derive(Debug, Drop)]
pub struct Sarif {
    /// The rules and faults that results name, each once.
    rules: Vec<Numbered>,
    results: Vec<Value>,
    notifications: Vec<Value>,
}

/// A rule or a fault, and where it stands among those that results name.
#[derive(Clone, Copy, Debug)]
struct RuleAt {
    number: u8,
    index: usize,
}

impl Sarif {
    /// A log of no trace yet.
    pub fn new(alloc: Global) -> Sarif {
        Sarif {
            rules: Vec::new(alloc),
            results: Vec::new(alloc),
            notifications: Vec::new(alloc),
        }
    }

    /// Adds what a report has: a row that is refused, or a bad line, as a result; a failure as a notification.
    pub fn add(&mut self, alloc: Global, report: &Report) -> Result<(), AllocError> {
        let Outcome {
            verdict,
            row,
            cause,
            class,
        } = report.outcome;
        match (verdict, cause, row) {
            (Verdict::Refused | Verdict::Unreadable, Some(cause), Some(row)) => {
                let index = self.index_of(cause)?;
                let rule = RuleAt {
                    number: cause.number,
                    index,
                };
                self.results
                    .push(result_of(alloc, report, rule, class, row)?)?;
                Ok(())
            }
            (Verdict::Failed, _, _) => {
                self.notifications.push(notification(alloc, report)?)?;
                Ok(())
            }
            _ => Ok(()),
        }
    }

    /// Where a rule or a fault stands among those that results name.
    fn index_of(&mut self, cause: Numbered) -> Result<usize, AllocError> {
        match self
            .rules
            .iter()
            .position(|rule| rule.number == cause.number)
        {
            Some(index) => Ok(index),
            None => {
                self.rules.push(cause)?;
                Ok(self.rules.len() - 1)
            }
        }
    }

    /// The text of the log: a JSON object on a line.
    pub fn text(self, alloc: Global) -> Result<Vec<u8>, AllocError> {
        let Sarif {
            rules,
            results,
            notifications,
        } = self;
        let mut run = Map::new(alloc);
        let invocations = invocations_value(alloc, notifications)?;
        put(&mut run, alloc, "invocations", invocations)?;
        put(&mut run, alloc, "results", Value::Array(results))?;
        put(&mut run, alloc, "tool", tool_value(alloc, &rules)?)?;
        let mut text = log_value(alloc, Value::Object(run))?.to_string(alloc)?;
        text.push_str("\n")?;
        Ok(text.into_bytes())
    }
}

/// The log of one run.
fn log_value(alloc: Global, run: Value) -> Result<Value, AllocError> {
    let mut log = Map::new(alloc);
    put(
        &mut log,
        alloc,
        "$schema",
        Value::try_from_str(alloc, SCHEMA)?,
    )?;
    put(&mut log, alloc, "runs", list_of(alloc, run)?)?;
    put(
        &mut log,
        alloc,
        "version",
        Value::try_from_str(alloc, "2.1.0")?,
    )?;
    Ok(Value::Object(log))
}

/// How the run went: what failed, if anything.
fn invocations_value(alloc: Global, notifications: Vec<Value>) -> Result<Value, AllocError> {
    let mut invocation = Map::new(alloc);
    let successful = Value::Bool(notifications.is_empty());
    put(&mut invocation, alloc, "executionSuccessful", successful)?;
    let notifications = Value::Array(notifications);
    put(
        &mut invocation,
        alloc,
        "toolExecutionNotifications",
        notifications,
    )?;
    list_of(alloc, Value::Object(invocation))
}

/// The program, and the rules and faults that results name.
fn tool_value(alloc: Global, rules: &[Numbered]) -> Result<Value, AllocError> {
    let mut driver = Map::new(alloc);
    put(
        &mut driver,
        alloc,
        "name",
        Value::try_from_str(alloc, "xhcitrace")?,
    )?;
    put(&mut driver, alloc, "rules", rules_value(alloc, rules)?)?;
    put(
        &mut driver,
        alloc,
        "version",
        Value::try_from_str(alloc, VERSION)?,
    )?;
    let mut tool = Map::new(alloc);
    put(&mut tool, alloc, "driver", Value::Object(driver))?;
    Ok(Value::Object(tool))
}

/// A list of one.
fn list_of(alloc: Global, value: Value) -> Result<Value, AllocError> {
    let mut list = Vec::new(alloc);
    list.push(value)?;
    Ok(Value::Array(list))
}

/// A text as SARIF has them.
fn text_value(alloc: Global, text: &str) -> Result<Value, AllocError> {
    let mut object = Map::new(alloc);
    put(
        &mut object,
        alloc,
        "text",
        Value::try_from_str(alloc, text)?,
    )?;
    Ok(Value::Object(object))
}

/// The rules and faults that results name.
fn rules_value(alloc: Global, rules: &[Numbered]) -> Result<Value, AllocError> {
    let mut items = Vec::new(alloc);
    for rule in rules {
        items.push(rule_value(alloc, *rule)?)?;
    }
    Ok(Value::Array(items))
}

/// A rule or a fault, with what its page says.
fn rule_value(alloc: Global, rule: Numbered) -> Result<Value, AllocError> {
    let id = format!(in alloc; "{}", rule.number)?;
    let sections = sections_of(alloc, rule.page)?;
    let full = first_lines(alloc, sections.get(1))?;
    let mut object = Map::new(alloc);
    put(
        &mut object,
        alloc,
        "fullDescription",
        text_value(alloc, &full)?,
    )?;
    put(&mut object, alloc, "help", text_value(alloc, rule.page)?)?;
    put(&mut object, alloc, "id", Value::String(id))?;
    put(
        &mut object,
        alloc,
        "name",
        Value::try_from_str(alloc, rule.name)?,
    )?;
    put(
        &mut object,
        alloc,
        "shortDescription",
        text_value(alloc, head_of(&sections))?,
    )?;
    Ok(Value::Object(object))
}

/// The head of the first section.
fn head_of(sections: &[Section]) -> &str {
    match sections.first() {
        Some(section) => section.head.as_str(),
        None => "",
    }
}

/// The lines of a section as one text.
fn first_lines(alloc: Global, section: Option<&Section>) -> Result<String, AllocError> {
    let mut text = String::new(alloc);
    let Some(section) = section else {
        return Ok(text);
    };
    for line in &section.lines {
        if !text.is_empty() {
            text.push_str(" ")?;
        }
        text.push_str(line)?;
    }
    Ok(text)
}

/// The result of a row that is refused, or of a bad line.
fn result_of(
    alloc: Global,
    report: &Report,
    rule: RuleAt,
    class: Option<Cause>,
    row: u32,
) -> Result<Value, AllocError> {
    let id = format!(in alloc; "{}", rule.number)?;
    let level = if class == Some(Cause::Unjudged) {
        "note"
    } else {
        "error"
    };
    let message = message_of(alloc, &report.parts)?;
    let location = location(alloc, named(report), row)?;
    let related = related(alloc, report)?;
    json!(in alloc; {
        "level": level,
        "locations": [location],
        "message": {"text": message},
        "relatedLocations": related,
        "ruleId": id,
        "ruleIndex": rule.index
    })
}

/// What is wrong, what was found, and what helps, a line for each.
fn message_of(alloc: Global, parts: &Parts) -> Result<String, AllocError> {
    let mut text = String::new(alloc);
    if let Some(head) = &parts.head {
        text.push_str(head)?;
    }
    if let Some(told) = parts.marks.iter().find(|mark| mark.kind == MarkKind::Told) {
        let label = told.quote.label.as_str();
        if !label.is_empty() {
            write!(text, ": {label}")?;
        }
    }
    for note in &parts.notes {
        write!(text, "\nnote: {note}")?;
    }
    if let Some(help) = &parts.help {
        write!(text, "\nhelp: {help}")?;
    }
    Ok(text)
}

/// The earlier lines that are quoted.
fn related(alloc: Global, report: &Report) -> Result<Value, AllocError> {
    let mut items = Vec::new(alloc);
    for mark in &report.parts.marks {
        if mark.kind == MarkKind::Earlier {
            items.push(related_location(alloc, named(report), mark)?)?;
        }
    }
    Ok(Value::Array(items))
}

/// A line that is quoted, with what it has to do with the matter.
fn related_location(alloc: Global, file: &str, mark: &Mark) -> Result<Value, AllocError> {
    let physical = physical_location(alloc, file, mark.quote.line)?;
    json!(in alloc; {
        "message": {"text": mark.quote.label.as_str()},
        "physicalLocation": physical
    })
}

fn location(alloc: Global, file: &str, line: u32) -> Result<Value, AllocError> {
    let physical = physical_location(alloc, file, line)?;
    json!(in alloc; {"physicalLocation": physical})
}

fn physical_location(alloc: Global, file: &str, line: u32) -> Result<Value, AllocError> {
    let uri = uri_of(alloc, file)?;
    json!(in alloc; {"artifactLocation": {"uri": uri}, "region": {"startLine": line}})
}

/// How the input of a report is called.
fn named<'a>(report: &Report<'a>) -> &'a str {
    report.file.unwrap_or("")
}

/// The URI of a path: a relative one stays so.
fn uri_of(alloc: Global, path: &str) -> Result<String, AllocError> {
    let mut uri = String::new(alloc);
    if path.starts_with('/') {
        uri.push_str("file://")?;
    }
    utf8_percent_encode(path, ESCAPED).append_to(&mut uri)?;
    Ok(uri)
}

/// That an input couldn't be judged, and why.
fn notification(alloc: Global, report: &Report) -> Result<Value, AllocError> {
    let file = named(report);
    let text = match (&report.parts.head, report.outcome.cause) {
        (Some(head), _) => format!(in alloc; "{file}: {head}")?,
        (None, Some(cause)) => format!(in alloc; "{file}: {} {}", cause.number, cause.name)?,
        (None, None) => String::from_str(alloc, file)?,
    };
    let uri = uri_of(alloc, file)?;
    json!(in alloc; {
        "level": "error",
        "locations": [{"physicalLocation": {"artifactLocation": {"uri": uri}}}],
        "message": {"text": text}
    })
}
