//! A report, and the JSON object that it is written as.
ghost use Rattle.std.specs.Prelude.{◌≡◌, IfOk, OnOk, option_map, string_bytes};
ghost use Rattle.serde_json.specs.View.{members_view, view};
ghost use Rattle.reports.specs.Objects.{IsLineOf, object_of_place, place_data, report_data, with_outcome, with_parts, word_data};
ghost use Rattle.reports.specs.Verdicts.{cause_word};

use crate::outcome::Outcome;
use crate::own::{Own, put_own};
use crate::parts::Parts;
use crate::values::{marks, number_or_null, texts};
use serde_json::{Map, Value, put};
use std::alloc::{AllocError, Global};

/// The line that is written where memory is wanted: it needs none.
pub const MEMORY_REPORT: &str =
    "{\"class\":\"memory\",\"name\":\"Memory\",\"number\":30,\"verdict\":\"failed\"}\n";

/// A file, and a line of it, from 1, where one is told of.
#[derive(Clone, Copy, Debug)]
pub struct Place<'a> {
    pub file: &'a str,
    pub line: Option<u32>,
}

/// What is answered of an input, and what explains it.
#[derive(Debug, Drop)]
pub struct Report<'a> {
    /// How the input is called, where there is one.
    pub file: Option<&'a str>,
    pub outcome: Outcome,
    /// Where that lies that is told of.
    pub place: Option<Place<'a>>,
    pub parts: Parts,
    pub own: Own<'a>,
}

impl<'a> Report<'a> {
    /// The line of a report: a JSON object, and its line feed.
    pub fn line(&self, alloc: Global) -> Result<Vec<u8>, AllocError>
        ensures { IfOk result (λ line. IsLineOf self.now line.items) }
    {
        let value = self.value(alloc)?;
        let mut line = value.to_string(alloc)?;
        line.push_str("\n")?;
        Ok(line.into_bytes())
    }

    /// The JSON object of a report. What isn't there is null.
    fn value(&self, alloc: Global) -> Result<Value, AllocError>
        ensures { IfOk result (λ value. view value ≡ report_data self.now) }
    {
        let mut object = Map::new(alloc);
        put_outcome(alloc, &mut object, &self.outcome)?;
        put(&mut object, alloc, "file", file_value(alloc, self)?)?;
        put(
            &mut object,
            alloc,
            "place",
            place_value(alloc, &self.place)?,
        )?;
        put_parts(alloc, &mut object, &self.parts)?;
        put_own(alloc, &mut object, &self.own)?;
        Ok(Value::Object(object))
    }
}

/// Puts what is answered.
fn put_outcome(
    alloc: Global,
    object: &mut Map<String, Value>,
    outcome: &Outcome,
) -> Result<(), AllocError>
    ensures { OnOk result (members_view object.new.entries ≡ with_outcome outcome.now (members_view object.old.entries)) }
{
    let verdict = outcome.verdict.word();
    put(
        object,
        alloc,
        "verdict",
        Value::try_from_str(alloc, verdict)?,
    )?;
    put(object, alloc, "row", number_or_null(row_of(outcome)))?;
    put(object, alloc, "number", number_or_null(number_of(outcome)))?;
    put(object, alloc, "name", name_value(alloc, outcome)?)?;
    put(object, alloc, "class", class_value(alloc, outcome)?)
}

/// The row that is told of.
fn row_of(outcome: &Outcome) -> Option<u64>
    ensures { result ≡ outcome.now.row }
{
    match outcome.row {
        Some(row) => Some(u64::from(row)),
        None => None,
    }
}

/// The number that is printed.
fn number_of(outcome: &Outcome) -> Option<u64>
    ensures { result ≡ option_map (λ cause. cause.number) outcome.now.cause }
{
    match outcome.cause {
        Some(cause) => Some(u64::from(cause.number)),
        None => None,
    }
}

/// The name that is printed.
fn name_value(alloc: Global, outcome: &Outcome) -> Result<Value, AllocError>
    ensures { IfOk result (λ value. view value ≡ word_data (option_map (λ cause. cause.name.now) outcome.now.cause)) }
{
    match &outcome.cause {
        Some(cause) => Value::try_from_str(alloc, cause.name),
        None => Ok(Value::Null),
    }
}

/// The word for the class.
fn class_value(alloc: Global, outcome: &Outcome) -> Result<Value, AllocError>
    ensures { IfOk result (λ value. view value ≡ word_data (option_map cause_word outcome.now.class)) }
{
    match outcome.class {
        Some(class) => Value::try_from_str(alloc, class.word()),
        None => Ok(Value::Null),
    }
}

/// How the input is called.
fn file_value(alloc: Global, report: &Report) -> Result<Value, AllocError>
    ensures { IfOk result (λ value. view value ≡ word_data (option_map (λ file. file.now) report.now.file)) }
{
    match &report.file {
        Some(file) => Value::try_from_str(alloc, file),
        None => Ok(Value::Null),
    }
}

/// Puts what explains it.
fn put_parts(
    alloc: Global,
    object: &mut Map<String, Value>,
    parts: &Parts,
) -> Result<(), AllocError>
    ensures { OnOk result (members_view object.new.entries ≡ with_parts parts.now (members_view object.old.entries)) }
{
    put(object, alloc, "head", text_or_null(alloc, &parts.head)?)?;
    put(object, alloc, "marks", marks(alloc, &parts.marks)?)?;
    put(object, alloc, "notes", texts(alloc, &parts.notes)?)?;
    put(object, alloc, "help", text_or_null(alloc, &parts.help)?)
}

/// A text; null where there is none.
fn text_or_null(alloc: Global, text: &Option<String>) -> Result<Value, AllocError>
    ensures { IfOk result (λ value. view value ≡ word_data (option_map string_bytes text.now)) }
{
    match text {
        Some(text) => Value::try_from_str(alloc, text.as_str()),
        None => Ok(Value::Null),
    }
}

/// A file, and a line of it.
fn place_value(alloc: Global, place: &Option<Place>) -> Result<Value, AllocError>
    ensures { IfOk result (λ value. view value ≡ place_data place.now) }
{
    match place {
        Some(place) => object_of_place(alloc, place),
        None => Ok(Value::Null),
    }
}

fn object_of_place(alloc: Global, place: &Place) -> Result<Value, AllocError>
    ensures { IfOk result (λ value. view value ≡ object_of_place place.now) }
{
    let line = match place.line {
        Some(line) => Some(u64::from(line)),
        None => None,
    };
    let mut object = Map::new(alloc);
    put(
        &mut object,
        alloc,
        "file",
        Value::try_from_str(alloc, place.file)?,
    )?;
    put(&mut object, alloc, "line", number_or_null(line))?;
    Ok(Value::Object(object))
}
