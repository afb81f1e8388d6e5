//! A refused row, what stands before it, and what was found of it, before its lines are quoted.
use crate::areas::{Area, AreaKind, NoArea};
use crate::known::{Behind, Dropper, Known};
use crate::rows::last_register;
use crate::running::mark_reset;
use crate::unfinished::Unfinished;
use crate::words::{NOT_JUDGED, Ordinal, command_name, endpoint_state_name, type_name};
use commands::Command;
use ring_knowledge::RingRecord;
use segments::Segment;
use std::alloc::{AllocError, Global};
use std::fmt;
use traces::{Header, Register, Ring, Row};
use trb::Block;

/// A number or a name that stands in a text where that has `{}`.
#[derive(Clone, Copy)]
pub enum Shown<'a> {
    Number(u64),
    Small(u8),
    /// A number in hexadecimal digits, as few as it takes.
    Hex(u64),
    /// The line of a row.
    Line(u32),
    /// A slot, and the DCI of one of its endpoints.
    Endpoint(u8, u8),
    /// A command, and the endpoint or the slot that it names.
    Command(Command),
    /// The ID of a ring.
    Id(u8),
    /// A word of memory.
    Word(u32),
    /// An address, or the position of a TRB as a `nop` row names it.
    Address(u64),
    /// The number of a TRB among those of a row or a TD, from 1 on.
    Nth(u64),
    /// A TRB of a ring, and where it lies.
    Trb {
        position: u64,
        ring: u8,
        address: u64,
    },
    /// The words of a TRB.
    Words(Block),
    /// The words of a pointer.
    Pointer(u64),
    /// The types of TRBs, in their order; of many the first six.
    Types(&'a [Block]),
    /// A TR Dequeue Pointer and its Dequeue Cycle State (DCS).
    Dequeue(u64, bool),
    /// A segment, as the line of a ring names it.
    Segment(Segment),
    /// What the controller has beside rings.
    Area(AreaKind),
    /// Why an area of the driver may not lie where it does.
    NoArea(NoArea),
    Name(&'a str),
}

impl fmt::Display for Shown<'_> {
    fn fmt<W: fmt::Write>(&self, f: &mut fmt::Formatter<W>) -> fmt::Result {
        match *self {
            Shown::Number(number) => write!(f, "{number}"),
            Shown::Small(number) => write!(f, "{number}"),
            Shown::Hex(number) => write!(f, "{number:x}"),
            Shown::Line(line) => write!(f, "{line}"),
            Shown::Endpoint(slot, endpoint) => write!(f, "slot {slot}, DCI {endpoint}"),
            Shown::Command(command) => write_command(f, command),
            Shown::Id(id) => write!(f, "{id:02x}"),
            Shown::Word(word) => write!(f, "{word:08x}"),
            Shown::Address(address) => write!(f, "{address:016x}"),
            Shown::Nth(number) => {
                let ordinal = Ordinal(number);
                write!(f, "{ordinal}")
            }
            Shown::Trb {
                position,
                ring,
                address,
            } => write!(f, "TRB {position} of ring {ring:02x}, at {address:016x}"),
            Shown::Words(block) => {
                let [w0, w1, w2, w3] = block.w;
                write!(f, "{w0:08x} {w1:08x} {w2:08x} {w3:08x}")
            }
            Shown::Pointer(pointer) => {
                let (low, high) = (pointer % 0x1_0000_0000, pointer >> 32);
                write!(f, "{low:08x} and {high:08x}")
            }
            Shown::Dequeue(pointer, cycle) => {
                let dcs = u8::from(cycle);
                write!(f, "{pointer:016x}, DCS {dcs}")
            }
            Shown::Types(blocks) => write_types(f, blocks),
            Shown::Segment(Segment { base, count }) => write!(f, "{base:016x}:{count:04x}"),
            Shown::Area(kind) => write!(f, "{kind}"),
            Shown::NoArea(why) => write!(f, "{why}"),
            Shown::Name(name) => f.write_str(name),
        }
    }
}

fn write_command<W: fmt::Write>(f: &mut fmt::Formatter<W>, command: Command) -> fmt::Result {
    let name = command_name(command);
    match (command.endpoint(), command.slot()) {
        (Some((slot, endpoint)), _) => write!(f, "{name} of slot {slot}, DCI {endpoint}"),
        (None, Some(slot)) => write!(f, "{name} of slot {slot}"),
        (None, None) => f.write_str(name),
    }
}

fn write_types<W: fmt::Write>(f: &mut fmt::Formatter<W>, blocks: &[Block]) -> fmt::Result {
    for (index, block) in blocks.iter().enumerate() {
        if index == 6 {
            return f.write_str(" + ..");
        }
        if index > 0 {
            f.write_str(" + ")?;
        }
        f.write_str(type_name(block.kind()))?;
    }
    Ok(())
}

/// A text, with these numbers and names where it has `{}`.
pub fn text_with(alloc: Global, text: &str, shown: &[Shown]) -> Result<String, AllocError> {
    let mut all = String::new(alloc);
    for (index, piece) in text.split("{}").enumerate() {
        if index > 0 {
            if let Some(value) = shown.get(index - 1) {
                let value = format!(in alloc; "{value}")?;
                all.push_str(value.as_str())?;
            }
        }
        all.push_str(piece)?;
    }
    Ok(all)
}

/// An earlier row, by its index, and what it has to do with the refused one.
#[derive(Drop)]
pub struct Mark {
    pub index: usize,
    pub label: String,
}

/// What was found of a refused row.
#[derive(Drop)]
pub struct Finding {
    pub head: String,
    /// What the refused row is.
    pub here: String,
    pub earlier: Option<Mark>,
    pub notes: Vec<String>,
    pub help: Option<String>,
    /// Whether xHCI allows the row, and the profile alone refuses it.
    pub unjudged: bool,
}

/// A refused row, what stands before it, and what was found of it so far. Where memory lacks for a text, `finding` says so.
#[derive(Drop)]
pub struct Case<'a> {
    alloc: Global,
    /// The rings that are there.
    pub header: &'a Header,
    /// The line of the first row.
    pub first: u32,
    /// The rows before the refused one.
    pub before: &'a [Row],
    /// What is known behind them.
    pub known: &'a Known,
    /// The unfinished commands, in the order of their positions.
    pub unfinished: &'a [Unfinished],
    /// What the controller has beside rings.
    pub(crate) areas: &'a [Area],
    found: Finding,
    failed: Option<AllocError>,
}

impl<'a> Case<'a> {
    /// Nothing is found yet.
    pub fn new(alloc: Global, first: u32, before: &'a [Row], behind: &'a Behind) -> Case<'a> {
        Case {
            alloc,
            header: &behind.header,
            first,
            before,
            known: &behind.known,
            unfinished: behind.unfinished.as_slice(),
            areas: behind.areas.as_slice(),
            found: Finding {
                head: String::new(alloc),
                here: String::new(alloc),
                earlier: None,
                notes: Vec::new(alloc),
                help: None,
                unjudged: false,
            },
            failed: None,
        }
    }

    /// The rows behind the last reset.
    pub fn rows_since_reset(&self) -> &'a [Row] {
        let since = self.known.controller.since().min(self.before.len());
        &self.before[since..]
    }

    /// A row, where the controller wasn't reset behind it.
    pub fn since_reset(&self, row: Option<usize>) -> Option<usize> {
        row.filter(|row| *row >= self.known.controller.since())
    }

    /// The value that was written to a register last, and counts: behind the last reset, and of CRCR behind the `ring` row of the
    /// Command Ring that is there.
    pub fn register(&self, register: Register) -> Option<u64> {
        self.known.controller.registers.value(register)
    }

    /// The row that wrote that value.
    pub fn register_row(&self, register: Register) -> Option<usize> {
        let _value = self.register(register)?;
        last_register(self.before, register)
    }

    /// What was found.
    pub fn finding(self) -> Result<Finding, AllocError> {
        match self.failed {
            Some(error) => Err(error),
            None => Ok(self.found),
        }
    }

    /// A text of the finding; an empty one where memory lacks.
    fn text(&mut self, text: &str, shown: &[Shown]) -> String {
        match text_with(self.alloc, text, shown) {
            Ok(text) => text,
            Err(error) => {
                self.failed = Some(error);
                String::new(self.alloc)
            }
        }
    }

    /// Says what is wrong.
    pub fn head(&mut self, text: &str, shown: &[Shown]) {
        self.found.head = self.text(text, shown);
    }

    /// Says what the refused row is.
    pub fn here(&mut self, text: &str, shown: &[Shown]) {
        self.found.here = self.text(text, shown);
    }

    /// Adds a note.
    pub fn note(&mut self, text: &str, shown: &[Shown]) {
        let note = self.text(text, shown);
        if let Err(error) = self.found.notes.push(note) {
            self.failed = Some(error.into());
        }
    }

    /// Adds a note that stands so.
    pub fn say(&mut self, note: &str) {
        self.note(note, &[]);
    }

    /// Goes on with the last note.
    pub fn go_on(&mut self, text: &str, shown: &[Shown]) {
        let more = self.text(text, shown);
        if let Some(note) = self.found.notes.last_mut() {
            if let Err(error) = note.push_str(more.as_str()) {
                self.failed = Some(error);
            }
        }
    }

    /// Notes that the profile alone refuses the row.
    pub fn not_judged(&mut self) {
        self.note(NOT_JUDGED, &[]);
        self.found.unjudged = true;
    }

    /// Leaves out the notes so far.
    pub fn forget_notes(&mut self) {
        self.found.notes = Vec::new(self.alloc);
    }

    /// Says what helps.
    pub fn help(&mut self, text: &str, shown: &[Shown]) {
        self.found.help = Some(self.text(text, shown));
    }

    /// Says what helps, in words that stand so.
    pub fn advise(&mut self, help: &str) {
        self.help(help, &[]);
    }

    /// Whether it says what helps.
    pub fn has_help(&self) -> bool {
        self.found.help.is_some()
    }

    /// Points at an earlier row, where there is one.
    pub fn mark(&mut self, index: Option<usize>, text: &str, shown: &[Shown]) {
        if let Some(index) = index {
            let label = self.text(text, shown);
            self.found.earlier = Some(Mark { index, label });
        }
    }

    /// Whether it points at an earlier row.
    pub fn has_mark(&self) -> bool {
        self.found.earlier.is_some()
    }

    /// Points at the row that gave a command.
    pub fn mark_unfinished(&mut self, given: Unfinished) {
        let name = Shown::Command(given.command);
        self.mark(given.row, "{}, unfinished", &[name]);
    }
}

/// Notes which command, or which reset, disabled an endpoint that had a ring, and points at its row where nothing else is pointed at.
/// Whether there is one.
pub fn note_dropped(case: &mut Case, slot: u8, endpoint: u8) -> bool {
    let Some(dropping) = case.known.dropping_of(slot, endpoint) else {
        return false;
    };
    let place = Shown::Endpoint(slot, endpoint);
    let state = endpoint_state_name(case.known.devices.endpoint_state(slot, endpoint));
    let (state, line) = (
        Shown::Name(state),
        Shown::Line(line_of(case.first, dropping.row)),
    );
    let has_mark = case.has_mark();
    match dropping.by {
        Dropper::Command(command) => {
            let name = Shown::Name(command_name(command));
            case.note(
                "{} is {}: the {} that completed at row {} disabled it",
                &[place, state, name, line],
            );
            if !has_mark {
                case.mark(
                    Some(dropping.row),
                    "this completion of {} disabled the endpoint",
                    &[name],
                );
            }
        }
        Dropper::Reset => {
            case.note(
                "{} is {}: the reset of row {} disabled it",
                &[place, state, line],
            );
            if !has_mark {
                mark_reset(case);
            }
        }
    }
    true
}

/// Points at the completion by which an endpoint got its ring, where it has one.
pub fn mark_adding(case: &mut Case, slot: u8, endpoint: u8) {
    if let Some(id) = case.known.devices.ring_of(slot, endpoint) {
        case.mark(
            case.known.bound_by(id, slot, endpoint),
            "this completion added the endpoint",
            &[],
        );
    }
}

/// The line of a row, by its index.
pub fn line_of(first: u32, index: usize) -> u32 {
    first.saturating_add(u32::try_from(index).unwrap_or(u32::MAX))
}

/// The ring with this ID, and what is known of it.
pub fn ring_known<'a>(case: &Case<'a>, id: u8) -> Option<(&'a Ring, &'a RingRecord)> {
    let rings = case.header.rings.as_slice();
    let number = rings.iter().position(|ring| ring.id == id)?;
    let ring = rings.get(number)?;
    let known = case.known.rings.get(number)?;
    Some((ring, known))
}

/// The ring that has the word at an address, and what is known of it.
pub fn ring_at<'a>(case: &Case<'a>, address: u64) -> Option<(&'a Ring, &'a RingRecord)> {
    let rings = case.header.rings.as_slice();
    let number = rings
        .iter()
        .position(|ring| ring.shape.place_at(address).is_some())?;
    let ring = rings.get(number)?;
    let known = case.known.rings.get(number)?;
    Some((ring, known))
}
