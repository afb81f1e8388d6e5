//! What is told of the first bad line of a trace, a plan or a schedule: the one condition that it breaks.
ghost use Rattle.std.specs.Prelude.{◌≡◌, IfOk, string_bytes};
ghost use Rattle.diagnostics.specs.Layout.{IsToldOf};

use crate::diagnostic::{Diagnostic, Matter, View};
use crate::fields::{Field, TextKind, first_field, number_fault, word_count};
use crate::ring_lines::{plan_ring_fault, ring_fault};
use crate::source::{line_at, quote};
use std::alloc::{AllocError, Global};
use trace_reader::{LineFault, most_bytes_of};
use traces::Version;

/// What some editors write before a text.
const BYTE_ORDER_MARK: &[u8] = b"\xef\xbb\xbf";

/// Why a line is bad.
#[derive(Drop)]
pub(crate) struct Why {
    pub(crate) head: String,
    /// An earlier line that has to do with it, and what that is.
    pub(crate) earlier: Option<(u32, &'static str)>,
    pub(crate) note: Option<&'static str>,
    pub(crate) help: &'static str,
}

impl Why {
    /// A reason that stands so.
    pub(crate) fn plain(alloc: Global, head: &str, help: &'static str) -> Result<Why, AllocError> {
        Ok(Why {
            head: String::from_str(alloc, head)?,
            earlier: None,
            note: None,
            help,
        })
    }
}

/// What is told of the first bad line of a trace's text.
pub fn explain_bad_line(
    alloc: Global,
    view: &View,
    text: &[u8],
    line: u32,
    fault: LineFault,
) -> Result<String, AllocError>
    ensures { IfOk result (λ told. IsToldOf view.now (Matter.Fault fault) line (string_bytes told)) }
{
    told_of_line(alloc, view, text, line, fault, TextKind::Trace)
}

/// What is told of the first bad line of a plan's text.
pub fn explain_plan_line(
    alloc: Global,
    view: &View,
    text: &[u8],
    line: u32,
    fault: LineFault,
) -> Result<String, AllocError>
    ensures { IfOk result (λ told. IsToldOf view.now (Matter.Fault fault) line (string_bytes told)) }
{
    told_of_line(alloc, view, text, line, fault, TextKind::Plan)
}

/// What is told of the first bad line of a text of this kind.
fn told_of_line(
    alloc: Global,
    view: &View,
    text: &[u8],
    line: u32,
    fault: LineFault,
    kind: TextKind,
) -> Result<String, AllocError>
    ensures { IfOk result (λ told. IsToldOf view.now (Matter.Fault fault) line (string_bytes told)) }
{
    let diagnostic = diagnostic_of_text(alloc, text, line, fault, kind)?;
    diagnostic.told(alloc, view)
}

/// The diagnostic of the first bad line of a trace's text.
pub fn diagnostic_of_line(
    alloc: Global,
    text: &[u8],
    line: u32,
    fault: LineFault,
) -> Result<Diagnostic, AllocError>
    ensures fault { IfOk result (λ diagnostic. diagnostic.matter ≡ Matter.Fault fault) }
    ensures line { IfOk result (λ diagnostic. diagnostic.refused.line ≡ line) }
{
    diagnostic_of_text(alloc, text, line, fault, TextKind::Trace)
}

/// The diagnostic of the first bad line of a schedule's text.
pub fn diagnostic_of_schedule_line(
    alloc: Global,
    text: &[u8],
    line: u32,
    fault: LineFault,
) -> Result<Diagnostic, AllocError>
    ensures fault { IfOk result (λ diagnostic. diagnostic.matter ≡ Matter.Fault fault) }
    ensures line { IfOk result (λ diagnostic. diagnostic.refused.line ≡ line) }
{
    diagnostic_of_text(alloc, text, line, fault, TextKind::Schedule)
}

/// The diagnostic of the first bad line of such a text.
fn diagnostic_of_text(
    alloc: Global,
    text: &[u8],
    line: u32,
    fault: LineFault,
    kind: TextKind,
) -> Result<Diagnostic, AllocError>
    ensures fault { IfOk result (λ diagnostic. diagnostic.matter ≡ Matter.Fault fault) }
    ensures line { IfOk result (λ diagnostic. diagnostic.refused.line ≡ line) }
{
    let why = condition(alloc, text, line, fault, kind)?;
    let here = String::from_str(alloc, "")?;
    let earlier = match why.earlier {
        Some((line, label)) => Some(quote(alloc, text, line, String::from_str(alloc, label)?)?),
        None => None,
    };
    let mut notes = Vec::new(alloc);
    if let Some(note) = why.note {
        notes.push(String::from_str(alloc, note)?)?;
    }
    Ok(Diagnostic {
        matter: Matter::Fault(fault),
        head: why.head,
        refused: quote(alloc, text, line, here)?,
        earlier,
        notes,
        help: Some(String::from_str(alloc, why.help)?),
        unjudged: false,
    })
}

/// The condition that a bad line breaks.
fn condition(
    alloc: Global,
    text: &[u8],
    line: u32,
    fault: LineFault,
    kind: TextKind,
) -> Result<Why, AllocError> {
    let bytes = line_at(text, line);
    if bytes.ends_with(b"\r") {
        return Why::plain(
            alloc,
            "the line ends in a carriage return",
            "save the file with line feeds alone",
        );
    }
    match fault {
        LineFault::Header if bytes.starts_with(BYTE_ORDER_MARK) => Why::plain(
            alloc,
            "a byte order mark stands before the first word",
            "save the file as UTF-8 without a byte order mark",
        ),
        LineFault::Header => header_fault(alloc, text, bytes, line, kind),
        LineFault::Row => row_fault(alloc, text, bytes, line, kind),
        LineFault::Number => number_fault(alloc, bytes),
        LineFault::Limit => limit_fault(alloc, text, bytes, line, kind),
        LineFault::Shape => match kind {
            TextKind::Plan => plan_ring_fault(alloc, bytes),
            TextKind::Trace | TextKind::Schedule => ring_fault(alloc, text, bytes, line),
        },
    }
}

/// A bad line of those that every text begins with.
fn header_fault(
    alloc: Global,
    text: &[u8],
    bytes: &[u8],
    line: u32,
    kind: TextKind,
) -> Result<Why, AllocError> {
    let begins = match kind {
        TextKind::Trace =>
            "a trace begins with `xtrace 1`, 2, 3 or 4 and `ctx 20` or `ctx 40`, a line each",
        TextKind::Plan =>
            "a plan begins with `xplan 1`, and its second line is `ring ID cmd|xfer BASE:COUNT ..`",
        TextKind::Schedule =>
            "a schedule begins with `xsched 1`, and has a step in each further line",
    };
    if bytes.is_empty() {
        return Why::plain(
            alloc,
            "the line is empty, or the text ends before it",
            begins,
        );
    }
    if is_header(bytes, line, kind) && is_unended(text, line) {
        return unended(alloc, bytes, line, kind);
    }
    if line == 1 {
        return Why::plain(
            alloc,
            "the first line names no version of the format",
            begins,
        );
    }
    Why::plain(
        alloc,
        "the second line is the size of a context, in hex",
        "write `ctx 20` (32 bytes) or `ctx 40` (64 bytes), as CSZ of HCCPARAMS1 says",
    )
}

/// Whether a line is one of those that such a text begins with.
fn is_header(bytes: &[u8], line: u32, kind: TextKind) -> bool {
    match kind {
        TextKind::Trace => if line == 1 {
            bytes == b"xtrace 1".as_slice()
                || bytes == b"xtrace 2".as_slice()
                || bytes == b"xtrace 3".as_slice()
                || bytes == b"xtrace 4".as_slice()
        } else {
            bytes == b"ctx 20".as_slice() || bytes == b"ctx 40".as_slice()
        },
        TextKind::Plan => bytes == b"xplan 1".as_slice(),
        TextKind::Schedule => bytes == b"xsched 1".as_slice(),
    }
}

/// Whether a line is the last one of a text, and has no line feed.
fn is_unended(text: &[u8], line: u32) -> bool {
    text.split(|b| *b == b'\n').count() == line as usize
}

/// A line whose fields are none of its text's, or that has no line feed.
fn row_fault(
    alloc: Global,
    text: &[u8],
    bytes: &[u8],
    line: u32,
    kind: TextKind,
) -> Result<Why, AllocError> {
    if is_unended(text, line) {
        return unended(alloc, bytes, line, kind);
    }
    if bytes.is_empty() {
        return Why::plain(alloc, "the line is empty", "leave the line out");
    }
    if bytes.starts_with(b"#") {
        let head = match kind {
            TextKind::Trace => "a trace has no comments",
            TextKind::Plan => "a plan has no comments",
            TextKind::Schedule => "a schedule has no comments",
        };
        return Why::plain(alloc, head, "leave the line out");
    }
    if bytes.split(|b| *b == b' ').any(|field| field.is_empty()) {
        return Why::plain(
            alloc,
            "the line has an empty field",
            "write one space between fields, and none at the ends",
        );
    }
    match first_field(bytes) {
        Some(form) => form_fault(alloc, text, bytes, line, kind, form),
        None => unknown_word(alloc, text, line, kind),
    }
}

/// A last line without a line feed.
fn unended(alloc: Global, bytes: &[u8], line: u32, kind: TextKind) -> Result<Why, AllocError> {
    if bytes.is_empty() {
        return Why::plain(
            alloc,
            "the text ends before this line",
            "behind `xplan 1` a plan has the line of its ring: `ring ID cmd|xfer BASE:COUNT ..`",
        );
    }
    let help = match kind {
        TextKind::Trace if line > 2 =>
            "end the file with a line feed; where the recording was cut off, leave the line out",
        _ => "end the file with a line feed",
    };
    Why::plain(alloc, "the last line has no line feed", help)
}

/// A line that begins with a word of no line of its text.
fn unknown_word(alloc: Global, text: &[u8], line: u32, kind: TextKind) -> Result<Why, AllocError> {
    match kind {
        TextKind::Trace => {
            let begins = if has_runs(text) {
                "rows begin with sub, w, reg, rd, db, ev, ring, free or nop"
            } else if has_ring_rows(text) {
                "rows begin with sub, w, reg, db, ev, ring, free or nop"
            } else {
                "rows begin with sub, w, reg, db or ev, and `ring` lines stand before them"
            };
            Why::plain(alloc, "no row begins with this word", begins)
        }
        TextKind::Plan => if line == 2 {
            Why::plain(
                alloc,
                "the second line of a plan is that of its ring",
                "write `ring ID cmd|xfer BASE:COUNT ..`",
            )
        } else {
            Why::plain(
                alloc,
                "no line of a plan begins with this word here",
                "behind the line of its ring a plan has `sub ID W W W W ..` and `ret P`",
            )
        },
        TextKind::Schedule => Why::plain(
            alloc,
            "no step begins with this word",
            "steps begin with row, look, report, finish, other, scrib or halt",
        ),
    }
}

/// A line that begins with a word of some text's lines.
fn form_fault(
    alloc: Global,
    text: &[u8],
    bytes: &[u8],
    line: u32,
    kind: TextKind,
    form: Field,
) -> Result<Why, AllocError> {
    let is_ring = form == Field::Ring;
    if !form.is_in(kind) || (kind == TextKind::Plan && is_ring != (line == 2)) {
        return unknown_word(alloc, text, line, kind);
    }
    let comes = is_ring && kind == TextKind::Trace && !is_header_line(text, line);
    if (comes || form == Field::Free || form == Field::Nop) && !has_ring_rows(text) {
        return row_of_later_versions(alloc, form);
    }
    if form == Field::RegRead && !has_runs(text) {
        return Why::plain(
            alloc,
            "versions before 4 have no `rd` rows",
            "begin the trace with `xtrace 4`, where the controller halts and runs again",
        );
    }
    if !word_count(form, bytes) {
        return Why::plain(
            alloc,
            "the line has too few fields, or too many",
            form.form(),
        );
    }
    if is_ring {
        return ring_kind_fault(alloc, bytes, kind, comes && !has_runs(text));
    }
    let help = if form == Field::RegRead {
        "write `rd usbsts VALUE`; leave out reads of other registers"
    } else {
        "registers are usbcmd, usbsts, dnctrl, crcr, dcbaap, config, iman, imod, erstsz, erstba and erdp; leave out writes of others"
    };
    Why::plain(alloc, "no register has this name", help)
}

/// Whether the rows of a trace may have rings that come and go, and TDs that are withdrawn: its version is 2 or a later one.
fn has_ring_rows(text: &[u8]) -> bool {
    text.starts_with(b"xtrace 2\n") || has_many_lines(text)
}

/// Whether a trace may have more lines than are kept: its version is 3 or 4.
fn has_many_lines(text: &[u8]) -> bool {
    text.starts_with(b"xtrace 3\n") || text.starts_with(b"xtrace 4\n")
}

/// Whether a register may be read, and a Command or Event Ring come between rows: the trace's version is 4.
fn has_runs(text: &[u8]) -> bool {
    text.starts_with(b"xtrace 4\n")
}

/// A row of a trace of version 1 that only later versions have.
fn row_of_later_versions(alloc: Global, form: Field) -> Result<Why, AllocError> {
    match form {
        Field::Free => Why::plain(
            alloc,
            "version 1 has no `free` rows",
            "begin the trace with `xtrace 3`, where rings come and go between rows",
        ),
        Field::Nop => Why::plain(
            alloc,
            "version 1 has no `nop` rows",
            "begin the trace with `xtrace 3`, where TDs are withdrawn",
        ),
        _ => Why::plain(
            alloc,
            "a `ring` line stands behind a row",
            "write all `ring` lines before the first row, or begin the trace with `xtrace 3`, where Transfer Rings come between rows",
        ),
    }
}

/// A line of a ring with a kind that the ring can't be of; it may have to be a Transfer Ring.
fn ring_kind_fault(
    alloc: Global,
    bytes: &[u8],
    kind: TextKind,
    is_transfer_ring: bool,
) -> Result<Why, AllocError> {
    let word = bytes.split(|b| *b == b' ').nth(2).unwrap_or(&[]);
    if is_transfer_ring && (word == b"cmd".as_slice() || word == b"evt".as_slice()) {
        return Why::plain(
            alloc,
            "only a Transfer Ring comes between rows",
            "write the `ring` lines of cmd and evt before the first row, or begin the trace with `xtrace 4`",
        );
    }
    let help = match kind {
        TextKind::Plan => "the ring of a plan is cmd or xfer",
        _ if is_transfer_ring => "a ring that comes between rows is xfer",
        _ => "rings are cmd, evt or xfer",
    };
    Why::plain(alloc, "no ring is of this kind", help)
}

/// Whether all lines before a line, behind the first two, are of rings.
pub(crate) fn is_header_line(text: &[u8], line: u32) -> bool {
    let many = (line as usize).saturating_sub(3);
    text.split(|b| *b == b'\n')
        .skip(2)
        .take(many)
        .all(|line| line.starts_with(b"ring "))
}

/// A line past a limit.
fn limit_fault(
    alloc: Global,
    text: &[u8],
    bytes: &[u8],
    line: u32,
    kind: TextKind,
) -> Result<Why, AllocError> {
    if bytes.len() > most_bytes(text, kind) {
        return long_line(alloc, text, kind);
    }
    match kind {
        TextKind::Schedule => Why::plain(
            alloc,
            "a schedule has at most 4194304 lines",
            "replay the first ones: head -n 4194304",
        ),
        TextKind::Plan if line > 1048576 => Why::plain(
            alloc,
            "a plan has at most 1048576 lines",
            "take the first ones: head -n 1048576",
        ),
        TextKind::Trace if line > 1048576 => too_many_lines(alloc, text, line),
        TextKind::Plan => Why::plain(
            alloc,
            "a `sub` row has at most 256 TRBs",
            "write a `sub` row for each TD",
        ),
        TextKind::Trace => many_trbs(alloc, text),
    }
}

/// How many bytes a line has at most.
fn most_bytes(text: &[u8], kind: TextKind) -> usize {
    match kind {
        TextKind::Trace if has_runs(text) => most_bytes_of(Version::Four),
        _ => most_bytes_of(Version::Three),
    }
}

fn long_line(alloc: Global, text: &[u8], kind: TextKind) -> Result<Why, AllocError> {
    match kind {
        TextKind::Trace if has_runs(text) => Why::plain(
            alloc,
            "the line has more than 163840 bytes",
            "no line that says something is so long: a ring has at most 64 segments, a TD 4096 TRBs",
        ),
        TextKind::Trace => Why::plain(
            alloc,
            "the line has more than 16384 bytes",
            "no line that says something is so long: a ring has at most 64 segments, a TD 256 TRBs, or 4096 with `xtrace 4` in line 1",
        ),
        _ => Why::plain(
            alloc,
            "the line has more than 16384 bytes",
            "no line that says something is so long",
        ),
    }
}

fn many_trbs(alloc: Global, text: &[u8]) -> Result<Why, AllocError> {
    if has_runs(text) {
        return Why::plain(
            alloc,
            "a `sub` row has at most 4096 TRBs",
            "write a `sub` row for each TD",
        );
    }
    Why::plain(
        alloc,
        "a `sub` row has at most 256 TRBs",
        "write a `sub` row for each TD; with `xtrace 4` in line 1 it has at most 4096 TRBs",
    )
}

/// A trace of more lines than its version has, or than a command takes that keeps its rows.
fn too_many_lines(alloc: Global, text: &[u8], line: u32) -> Result<Why, AllocError> {
    if !has_many_lines(text) {
        return Ok(Why {
            head: String::from_str(alloc, "a trace of version 1 or 2 has at most 1048576 lines")?,
            earlier: None,
            note: Some(
                "`check`, `verify` and `show` take up to 4294967294 lines of version 3 or 4",
            ),
            help: "begin the trace with `xtrace 3`, or take the first lines: head -n 1048576",
        });
    }
    if line > 4294967294 {
        return Why::plain(
            alloc,
            "a trace has at most 4294967294 lines",
            "take the first ones: head -n 4294967294",
        );
    }
    Ok(Why {
        head: String::from_str(
            alloc,
            "this command keeps all rows, and takes at most 1048576 lines",
        )?,
        earlier: None,
        note: Some(
            "`check`, `verify`, `show` and tools/picture take up to 4294967294 lines of version 3 or 4",
        ),
        help: "take the first ones: head -n 1048576",
    })
}
