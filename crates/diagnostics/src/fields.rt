//! The fields of the lines of traces, plans and schedules, and numbers that are none.
use crate::faults::Why;
use std::alloc::{AllocError, Global};
use std::str::from_utf8;

/// What a text is.
#[derive(Clone, Copy, PartialEq, Eq)]
pub(crate) enum TextKind {
    Trace,
    Plan,
    Schedule,
}

/// The kind of a line, by its first word.
#[derive(Clone, Copy, PartialEq, Eq)]
pub(crate) enum Field {
    Ring,
    Sub,
    Write,
    Reg,
    Bell,
    Event,
    /// A ring goes.
    Free,
    /// A TD is withdrawn.
    Nop,
    /// A register was read.
    RegRead,
    /// TRBs of a plan's ring come back.
    Ret,
    /// The driver's next row.
    Row,
    Look,
    /// A step of the controller with an event.
    Post,
    /// The controller changes a word.
    Scrib,
    Halt,
}

impl Field {
    /// What such a line is.
    pub(crate) fn form(self) -> &'static str {
        match self {
            Field::Ring => "write `ring ID cmd|evt|xfer BASE:COUNT ..`",
            Field::Sub => "write `sub ID W W W W ..`, four words for each TRB",
            Field::Write => "write `w ADDR WORD`",
            Field::Reg => "write `reg NAME VALUE`",
            Field::Bell => "write `db SLOT TARGET`",
            Field::Event => "write `ev W W W W`",
            Field::Free => "write `free ID`",
            Field::Nop => "write `nop ID POSITION`",
            Field::RegRead => "write `rd NAME VALUE`",
            Field::Ret => "write `ret P`",
            Field::Row => "write `row` alone",
            Field::Look => "write `look ID`",
            Field::Post =>
                "write the four words of the event: `report W W W W`, `finish W W W W` or `other W W W W`",
            Field::Scrib => "write `scrib ADDR WORD`",
            Field::Halt => "write `halt` alone",
        }
    }

    /// Whether a text has such lines.
    pub(crate) fn is_in(self, kind: TextKind) -> bool {
        match self {
            Field::Ring | Field::Sub => kind != TextKind::Schedule,
            Field::Ret => kind == TextKind::Plan,
            Field::Row | Field::Look | Field::Post | Field::Scrib | Field::Halt => {
                kind == TextKind::Schedule
            }
            _ => kind == TextKind::Trace,
        }
    }

    /// How many digits the field with this number has, from 1; 0 where it isn't a number.
    fn digits(self, number: usize) -> usize {
        if number == 1 {
            return 0;
        }
        match self {
            Field::Ring => if number == 2 { 2 } else { 0 },
            Field::Sub => if number == 2 { 2 } else { 8 },
            Field::Write | Field::Scrib => if number == 2 { 16 } else { 8 },
            Field::Reg | Field::RegRead => if number == 2 { 0 } else { 16 },
            Field::Nop => if number == 2 { 2 } else { 16 },
            Field::Bell | Field::Look | Field::Free => 2,
            Field::Event | Field::Post => 8,
            Field::Ret => 16,
            Field::Row | Field::Halt => 0,
        }
    }
}

/// The kind of a line.
pub(crate) fn first_field(line: &[u8]) -> Option<Field> {
    let word = line.split(|b| *b == b' ').next().unwrap_or(&[]);
    match from_utf8(word).unwrap_or("") {
        "ring" => Some(Field::Ring),
        "sub" => Some(Field::Sub),
        "w" => Some(Field::Write),
        "reg" => Some(Field::Reg),
        "db" => Some(Field::Bell),
        "ev" => Some(Field::Event),
        "free" => Some(Field::Free),
        "nop" => Some(Field::Nop),
        "rd" => Some(Field::RegRead),
        "ret" => Some(Field::Ret),
        "row" => Some(Field::Row),
        "look" => Some(Field::Look),
        "report" | "finish" | "other" => Some(Field::Post),
        "scrib" => Some(Field::Scrib),
        "halt" => Some(Field::Halt),
        _ => None,
    }
}

/// Whether a line has as many fields as its kind must have.
pub(crate) fn word_count(form: Field, line: &[u8]) -> bool {
    let count = line.split(|b| *b == b' ').count();
    match form {
        Field::Ring => count > 3,
        Field::Sub => count > 5 && count % 4 == 2,
        Field::Write | Field::Reg | Field::RegRead | Field::Bell | Field::Scrib | Field::Nop =>
            count == 3,
        Field::Event | Field::Post => count == 5,
        Field::Ret | Field::Look | Field::Free => count == 2,
        Field::Row | Field::Halt => count == 1,
    }
}

/// A line with a number that isn't one, or doesn't fit its place.
pub(crate) fn number_fault(alloc: Global, line: &[u8]) -> Result<Why, AllocError> {
    let Some(form) = first_field(line) else {
        return Why::plain(alloc, "a number of the line is none", DIGITS);
    };
    for (index, field) in line.split(|b| *b == b' ').enumerate() {
        let number = index.saturating_add(1);
        if let Some(why) = field_fault(alloc, form, number, field)? {
            return Ok(why);
        }
    }
    match form {
        Field::Write | Field::Scrib => Why::plain(
            alloc,
            "the address isn't a multiple of 4",
            "name a word by the address of its first byte, a line for each word",
        ),
        _ => Why::plain(
            alloc,
            "the value is greater than the register",
            "a register of 32 bits has at most 00000000ffffffff; only crcr, dcbaap, erstba and erdp have 64",
        ),
    }
}

/// What is wrong with one field of a line; they count from 1.
fn field_fault(
    alloc: Global,
    form: Field,
    number: usize,
    field: &[u8],
) -> Result<Option<Why>, AllocError> {
    let shown = from_utf8(field).unwrap_or("");
    if form == Field::Ring && number > 3 && !is_segment(field) {
        return Ok(Some(Why {
            head: format!(in alloc; "field {number}, `{shown}`, isn't BASE:COUNT")?,
            earlier: None,
            note: None,
            help: "write an address of 16 hex digits, a colon, and the segment's TRBs in 4 hex digits",
        }));
    }
    let wanted = form.digits(number);
    if wanted == 0 {
        return Ok(None);
    }
    let count = field.len();
    if count != wanted {
        let noun = if count == 1 { "digit" } else { "digits" };
        return Ok(Some(Why {
            head: format!(in alloc;
                "field {number}, `{shown}`, has {count} {noun}, and must have {wanted}"
            )?,
            earlier: None,
            note: None,
            help: "write numbers in hex, with zeros before them, without `0x`",
        }));
    }
    if !field.iter().all(|b| b.is_ascii_hexdigit()) {
        return Ok(Some(Why {
            head: format!(in alloc; "field {number}, `{shown}`, isn't a number in hex")?,
            earlier: None,
            note: None,
            help: DIGITS,
        }));
    }
    Ok(None)
}

/// Whether a field is a segment, an address and a count.
fn is_segment(field: &[u8]) -> bool {
    match field.split_at_checked(16) {
        Some((base, rest)) => match rest.split_first() {
            Some((colon, count)) => {
                *colon == b':'
                    && count.len() == 4
                    && base.iter().all(|b| b.is_ascii_hexdigit())
                    && count.iter().all(|b| b.is_ascii_hexdigit())
            }
            None => false,
        },
        None => false,
    }
}

const DIGITS: &str = "write the digits 0 to 9 and a to f";
