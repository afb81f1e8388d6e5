//! The sections of a page.
ghost use Rattle.std.specs.Prelude.{◌≡◌, IfOk};
ghost use Rattle.serde_json.specs.View.{view};
ghost use Rattle.reports.specs.Objects.{section_data, sections_data};

use crate::values::texts;
use serde_json::{Map, Value, put};
use std::alloc::{AllocError, Global};

/// How far lines are indented below a head.
const INDENT: &str = "  ";

/// A line at the margin of a page, and the indented ones below it, without this indent.
#[derive(Debug, Drop)]
pub struct Section {
    pub head: String,
    pub lines: Vec<String>,
}

/// The sections of a page: a line that begins with another character than a space begins one. Empty lines are kept between two lines
/// of a section alone.
pub fn sections_of(alloc: Global, page: &str) -> Result<Vec<Section>, AllocError> {
    let mut sections: Vec<Section> = Vec::new(alloc);
    let mut behind_empty = false;
    for line in page.lines() {
        if line.starts_with(' ') {
            if let Some(section) = sections.last_mut() {
                add_line(alloc, section, behind_empty, line)?;
            }
        } else if !line.is_empty() {
            let head = String::from_str(alloc, line)?;
            let lines = Vec::new(alloc);
            sections.push(Section { head, lines })?;
        }
        behind_empty = line.is_empty();
    }
    Ok(sections)
}

/// Adds a line to a section, and an empty one before it where there was one and this isn't the section's first.
fn add_line(
    alloc: Global,
    section: &mut Section,
    behind_empty: bool,
    line: &str,
) -> Result<(), AllocError> {
    if behind_empty && !section.lines.is_empty() {
        section.lines.push(String::new(alloc))?;
    }
    let line = line.strip_prefix(INDENT).unwrap_or(line);
    section.lines.push(String::from_str(alloc, line)?)?;
    Ok(())
}

/// The JSON of sections, in their order.
pub(crate) fn sections_value(alloc: Global, sections: &[Section]) -> Result<Value, AllocError>
    ensures { IfOk result (λ value. view value ≡ sections_data sections.now) }
{
    let mut items = Vec::new(alloc);
    for section in sections {
        items.push(section_value(alloc, section)?)?;
    }
    Ok(Value::Array(items))
}

fn section_value(alloc: Global, section: &Section) -> Result<Value, AllocError>
    ensures { IfOk result (λ value. view value ≡ section_data section.now) }
{
    let mut object = Map::new(alloc);
    put(
        &mut object,
        alloc,
        "head",
        Value::try_from_str(alloc, &section.head)?,
    )?;
    put(&mut object, alloc, "lines", texts(alloc, &section.lines)?)?;
    Ok(Value::Object(object))
}
