//! JSON of texts, of numbers and of lists of them.
ghost use Rattle.std.specs.Prelude.{◌≡◌, IfOk};
ghost use Rattle.serde_json.specs.View.{view};
ghost use Rattle.reports.specs.Objects.{mark_data, marks_data, number_data, take_data, takes_data, texts_data};

use crate::own::Take;
use crate::parts::Mark;
use serde_json::{Map, Value, put};
use std::alloc::{AllocError, Global};

/// A number; null where there is none.
pub(crate) fn number_or_null(number: Option<u64>) -> Value
    ensures { view result ≡ number_data number }
{
    match number {
        Some(number) => Value::from(number),
        None => Value::Null,
    }
}

/// Texts, in their order.
pub(crate) fn texts(alloc: Global, texts: &[String]) -> Result<Value, AllocError>
    ensures { IfOk result (λ value. view value ≡ texts_data texts.now) }
{
    let mut items = Vec::new(alloc);
    for text in texts {
        items.push(Value::try_from_str(alloc, text.as_str())?)?;
    }
    Ok(Value::Array(items))
}

/// The lines that are quoted: each with its number, what stands there, what it has to do with the matter, and why it is quoted.
pub(crate) fn marks(alloc: Global, marks: &[Mark]) -> Result<Value, AllocError>
    ensures { IfOk result (λ value. view value ≡ marks_data marks.now) }
{
    let mut items = Vec::new(alloc);
    for mark in marks {
        items.push(mark_value(alloc, mark)?)?;
    }
    Ok(Value::Array(items))
}

fn mark_value(alloc: Global, mark: &Mark) -> Result<Value, AllocError>
    ensures { IfOk result (λ value. view value ≡ mark_data mark.now) }
{
    let mut object = Map::new(alloc);
    put(
        &mut object,
        alloc,
        "kind",
        Value::try_from_str(alloc, mark.kind.word())?,
    )?;
    put(
        &mut object,
        alloc,
        "label",
        Value::try_from_str(alloc, &mark.quote.label)?,
    )?;
    put(&mut object, alloc, "row", Value::from(mark.quote.line))?;
    put(
        &mut object,
        alloc,
        "text",
        Value::try_from_str(alloc, &mark.quote.text)?,
    )?;
    Ok(Value::Object(object))
}

/// What the controller took, in its order.
pub(crate) fn takes(alloc: Global, takes: &[Take]) -> Result<Value, AllocError>
    ensures { IfOk result (λ value. view value ≡ takes_data takes.now) }
{
    let mut items = Vec::new(alloc);
    for take in takes {
        items.push(take_value(alloc, take)?)?;
    }
    Ok(Value::Array(items))
}

fn take_value(alloc: Global, take: &Take) -> Result<Value, AllocError>
    ensures { IfOk result (λ value. view value ≡ take_data take.now) }
{
    let mut object = Map::new(alloc);
    put(
        &mut object,
        alloc,
        "address",
        Value::try_from_str(alloc, &take.address)?,
    )?;
    put(
        &mut object,
        alloc,
        "ring",
        Value::try_from_str(alloc, &take.ring)?,
    )?;
    put(&mut object, alloc, "words", texts(alloc, &take.words)?)?;
    Ok(Value::Object(object))
}
