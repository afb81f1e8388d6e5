//! How a diagnostic is shown.
ghost use Rattle.std.specs.Prelude.{◌≡◌, ◌++◌, IfOk, OnOk, codes, decimal, length, string_bytes};
ghost use Rattle.std.specs.List.{flat_map, repeat};
ghost use Rattle.diagnostics.specs.Classes.{class_of};
ghost use Rattle.diagnostics.specs.Colors.{painted};
ghost use Rattle.diagnostics.specs.Layout.{
  bar_text,
  earlier_text,
  error_text,
  head_text,
  help_text,
  helps_text,
  lines_text,
  marks_text,
  matter_text,
  note_text,
  place_text,
  quote_text,
  remark_text,
  remarks_text,
  row_text,
  spaced,
  spaces,
  told_text,
};

use crate::colors::{Colors, Part};
use crate::diagnostic::{Diagnostic, Explanation, Matter, Quote, View};
use std::alloc::{AllocError, Global};

impl Diagnostic {
    /// The diagnostic of a line of a file, as it is shown.
    pub fn told(&self, alloc: Global, view: &View) -> Result<String, AllocError>
        ensures { IfOk result (λ told. string_bytes told ≡ told_text view.now self.now) }
    {
        let width = format!(in alloc; "{}", self.refused.line)?.len();
        let head = head(alloc, width, view, self)?;
        let lines = lines(alloc, view.colors, width, self)?;
        let remarks = remarks(alloc, view.colors, width, self)?;
        format!(in alloc; "{head}{lines}{remarks}")
    }

    /// The same, with its class.
    pub fn explained(&self, alloc: Global, view: &View) -> Result<Explanation, AllocError>
        ensures text { IfOk result (λ it. string_bytes it.text ≡ told_text view.now self.now) }
        ensures class { IfOk result (λ it. it.class ≡ class_of self.now.unjudged) }
    {
        Ok(Explanation {
            text: self.told(alloc, view)?,
            class: self.class(),
        })
    }
}

/// What a diagnostic is about.
fn matter(alloc: Global, matter: Matter) -> Result<String, AllocError>
    ensures { IfOk result (λ text. string_bytes text ≡ matter_text matter) }
{
    match matter {
        Matter::Rule(refusal) => {
            let (number, name) = (refusal.number(), refusal.name());
            format!(in alloc; "{number} {name}")
        }
        Matter::Fault(fault) => {
            let (number, name) = (fault.number(), fault.name());
            format!(in alloc; "{number} {name}")
        }
        Matter::Harm(harm) => {
            let number = harm.number();
            format!(in alloc; "harm {number}")
        }
        Matter::NotPossible => String::from_str(alloc, "not possible"),
        Matter::NotGiven => String::from_str(alloc, "26 NotGiven"),
    }
}

/// What is wrong, and where.
fn head(alloc: Global, width: usize, view: &View, it: &Diagnostic) -> Result<String, AllocError>
    ensures { IfOk result (λ text. string_bytes text ≡ head_text width view.now it.now) }
{
    let matter = matter(alloc, it.matter)?;
    let error = error_line(alloc, view.colors, matter.as_str(), it.head.as_str())?;
    let place = place(alloc, view, width, it.refused.line)?;
    format!(in alloc; "{error}{place}")
}

/// What is wrong with what is named before it: a line, with its line feed.
pub fn error_line(
    alloc: Global,
    colors: Colors,
    name: &str,
    head: &str,
) -> Result<String, AllocError>
    ensures { IfOk result (λ text. string_bytes text ≡ error_text colors name.now head.now) }
{
    let error = format!(in alloc; "error[{name}]")?;
    let error = colors.paint(alloc, Part::Error, error.as_str())?;
    let head = format!(in alloc; ": {head}")?;
    let head = colors.paint(alloc, Part::Head, head.as_str())?;
    format!(in alloc; "{error}{head}\n")
}

/// Where it is.
fn place(alloc: Global, view: &View, width: usize, line: u32) -> Result<String, AllocError>
    ensures { IfOk result (λ text. string_bytes text ≡ place_text view.now.colors width view.now.path.now line) }
{
    let column = " ".repeat(alloc, width)?;
    let arrow = view.colors.paint(alloc, Part::Frame, "-->")?;
    let path = view.path;
    format!(in alloc; "{column}{arrow} {path}:{line}\n")
}

/// The lines, each with what it has to do with the matter.
fn lines(alloc: Global, colors: Colors, width: usize, it: &Diagnostic) -> Result<String, AllocError>
    ensures { IfOk result (λ text. string_bytes text ≡ lines_text colors width it.now) }
{
    let bar = bar(alloc, colors, width)?;
    let earlier = earlier(alloc, colors, width, it.refused.line, &it.earlier)?;
    let refused = quoted(alloc, colors, Part::Error, width, "^", &it.refused)?;
    format!(in alloc; "{bar}{earlier}{refused}{bar}")
}

/// The bar that the quoted lines stand at.
fn bar(alloc: Global, colors: Colors, width: usize) -> Result<String, AllocError>
    ensures { IfOk result (λ text. string_bytes text ≡ bar_text colors width) }
{
    let column = " ".repeat(alloc, width)?;
    let bar = colors.paint(alloc, Part::Frame, "|")?;
    format!(in alloc; "{column} {bar}\n")
}

/// The earlier line, and dots where others stand between it and the refused one.
fn earlier(
    alloc: Global,
    colors: Colors,
    width: usize,
    line: u32,
    earlier: &Option<Quote>,
) -> Result<String, AllocError>
    ensures { IfOk result (λ text. string_bytes text ≡ earlier_text colors width line earlier.now) }
{
    match earlier {
        Some(it) => {
            let quoted = quoted(alloc, colors, Part::Frame, width, "-", it)?;
            if line.saturating_sub(it.line) > 1 {
                let dots = colors.paint(alloc, Part::Frame, "...")?;
                format!(in alloc; "{quoted}{dots}\n")
            } else {
                Ok(quoted)
            }
        }
        None => Ok(String::new(alloc)),
    }
}

/// A line with its number, and below it marks and a label.
fn quoted(
    alloc: Global,
    colors: Colors,
    part: Part,
    width: usize,
    mark: &str,
    it: &Quote,
) -> Result<String, AllocError>
    ensures { IfOk result (λ text. string_bytes text ≡ quote_text colors part width mark.now it.now) }
{
    let row = row(alloc, colors, width, it)?;
    let marks = marks(alloc, colors, part, width, mark, it)?;
    format!(in alloc; "{row}{marks}")
}

/// A line behind its number.
fn row(alloc: Global, colors: Colors, width: usize, it: &Quote) -> Result<String, AllocError>
    ensures { IfOk result (λ text. string_bytes text ≡ row_text colors width it.now) }
{
    let number = format!(in alloc; "{}", it.line)?;
    let pad = " ".repeat(alloc, width.saturating_sub(number.len()))?;
    let number = format!(in alloc; "{number} |")?;
    let number = colors.paint(alloc, Part::Frame, number.as_str())?;
    let text = behind_a_space(alloc, it.text.as_str())?;
    format!(in alloc; "{pad}{number}{text}\n")
}

/// Marks below a line, and a label.
fn marks(
    alloc: Global,
    colors: Colors,
    part: Part,
    width: usize,
    mark: &str,
    it: &Quote,
) -> Result<String, AllocError>
    ensures { IfOk result (λ text. string_bytes text ≡ marks_text colors part width mark.now it.now) }
{
    let column = " ".repeat(alloc, width)?;
    let bar = colors.paint(alloc, Part::Frame, "|")?;
    let marks = mark.repeat(alloc, it.text.len())?;
    let marks = behind_a_space(alloc, marks.as_str())?;
    let label = behind_a_space(alloc, it.label.as_str())?;
    let marks = format!(in alloc; "{marks}{label}")?;
    let marks = colors.paint(alloc, part, marks.as_str())?;
    format!(in alloc; "{column} {bar}{marks}\n")
}

/// A text behind a space, unless it is empty.
fn behind_a_space(alloc: Global, text: &str) -> Result<String, AllocError>
    ensures { IfOk result (λ it. string_bytes it ≡ spaced text.now) }
{
    if text.is_empty() {
        return Ok(String::new(alloc));
    }
    format!(in alloc; " {text}")
}

/// The notes, and what helps.
fn remarks(
    alloc: Global,
    colors: Colors,
    width: usize,
    it: &Diagnostic,
) -> Result<String, AllocError>
    ensures { IfOk result (λ text. string_bytes text ≡ remarks_text colors width it.now) }
{
    let notes = notes(alloc, colors, width, it.notes.as_slice())?;
    let help = helps(alloc, colors, width, &it.help)?;
    format!(in alloc; "{notes}{help}")
}

/// The notes.
fn notes(
    alloc: Global,
    colors: Colors,
    width: usize,
    notes: &[String],
) -> Result<String, AllocError>
    ensures { IfOk result (λ text. string_bytes text ≡ flat_map (λ note. note_text colors width (string_bytes note)) notes.now) }
{
    let mut text = String::new(alloc);
    for note in notes {
        let remark = note_line(alloc, colors, width, note.as_str())?;
        text.push_str(remark.as_str())?;
    }
    Ok(text)
}

/// What helps, if anything does.
fn helps(
    alloc: Global,
    colors: Colors,
    width: usize,
    help: &Option<String>,
) -> Result<String, AllocError>
    ensures { IfOk result (λ text. string_bytes text ≡ helps_text colors width help.now) }
{
    match help {
        Some(help) => help_line(alloc, colors, width, help.as_str()),
        None => Ok(String::new(alloc)),
    }
}

/// A note below what is quoted, under a number of that width: a line, with its line feed.
pub fn note_line(
    alloc: Global,
    colors: Colors,
    width: usize,
    text: &str,
) -> Result<String, AllocError>
    ensures { IfOk result (λ line. string_bytes line ≡ note_text colors width text.now) }
{
    remark(alloc, colors, Part::Head, width, "note", text)
}

/// What helps, likewise.
pub fn help_line(
    alloc: Global,
    colors: Colors,
    width: usize,
    text: &str,
) -> Result<String, AllocError>
    ensures { IfOk result (λ line. string_bytes line ≡ help_text colors width text.now) }
{
    remark(alloc, colors, Part::Help, width, "help", text)
}

fn remark(
    alloc: Global,
    colors: Colors,
    part: Part,
    width: usize,
    kind: &str,
    text: &str,
) -> Result<String, AllocError>
    ensures { IfOk result (λ remark. string_bytes remark ≡ remark_text colors part width kind.now text.now) }
{
    let column = " ".repeat(alloc, width)?;
    let bar = colors.paint(alloc, Part::Frame, "=")?;
    let kind = colors.paint(alloc, part, kind)?;
    format!(in alloc; "{column} {bar} {kind}: {text}\n")
}
