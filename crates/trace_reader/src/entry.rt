ghost use Rattle.std.specs.Prelude.{◌≡◌, ◌≤◌, ◌∷◌, [], Some, None, length, map, IfOk, IfErr, IfSome, IfNone};
ghost use Rattle.segments.specs.ShapeValue.{segment_of};
ghost use Rattle.trace_reader.specs.declared.fault.LineFault.{LineFault};
ghost use Rattle.trace_reader.specs.Entries.{Answers, IfFault, form_if, ring_form, said_by, said_by_fields, said_of_ring, word_named};
ghost use Rattle.trace_reader.specs.Forms.{kind_among, kind_named, named, register_named};
ghost use Rattle.trace_reader.specs.Grammar.{Byte, Event, KindOfRing, RegisterValue, Segments, form_as};
ghost use Rattle.trace_reader.specs.TraceLines.{bell_line, comes_line, event_line, goes_line, reg_line, reg_read_line, ring_line, sub_line, withdraws_line, write_line};
ghost use Rattle.traces.specs.Versions.{has_ring_rows, has_runs};
ghost use Rattle.trace_reader.specs.LineAnswers.{AnswersBy, fields_say};
ghost use Rattle.trace_reader.specs.Values.{SaysRow, block_of, blocks_of, cons, register_value_of, segments_of, word_address_of};
ghost use Rattle.trace_reader.specs.Values as values;

use crate::fault::{LineError, LineFault};
use crate::plain_row::PlainRow;
use guest_memory::Addr;
use line_text::{Fields, two_words_of, u8_of, u16_of, u32_of, u64_of};
use std::alloc::Global;
use traces::{Register, Row, Version};
use trb::{Block, Blocks, RingKind};

/// What a line behind the header says.
#[derive(Drop)]
pub enum Entry {
    Row(RowEntry),
    Ring(RingEntry),
}

/// What the line of a row says; where a ring comes, its segments may make none.
#[derive(Drop)]
pub enum RowEntry {
    Plain(PlainRow),
    Comes(RingEntry),
}

/// What the line of a ring says; its segments may make no ring.
#[derive(Drop)]
pub struct RingEntry {
    pub id: u8,
    pub kind: RingKind,
    pub segments: Vec<(u64, u16)>,
}

/// The entry of a line with these fields, of which there are `count`. The line of a ring is one of the header where no row has
/// `begun` the rows; else it is a row, where the version has such rows.
pub fn entry_of(
    alloc: Global,
    version: Version,
    begun: bool,
    count: usize,
    mut fields: Fields,
) -> Result<Entry, LineError>
    requires { count ≡ length fields }
    ensures { Answers result (said_by_fields version begun fields.entry) }
{
    let Some(word) = fields.next() else {
        return Err(LineFault::Row.into());
    };
    match word_named(word) {
        Some(FirstWord::Sub) => sub_entry(alloc, count - 1, fields),
        Some(FirstWord::W) => write_entry(fields),
        Some(FirstWord::Reg) => reg_entry(fields),
        Some(FirstWord::Db) => bell_entry(fields),
        Some(FirstWord::Ev) => read_entry(fields),
        Some(FirstWord::Ring) => ring_entry(alloc, version, begun, count - 1, fields),
        Some(FirstWord::Free) => goes_entry(version, fields),
        Some(FirstWord::Nop) => withdraws_entry(version, fields),
        Some(FirstWord::Rd) => reg_read_entry(version, fields),
        None => Err(LineFault::Row.into()),
    }
}

/// What a line behind the header begins with.
#[derive(Clone, Copy)]
enum FirstWord {
    Sub,
    W,
    Reg,
    Db,
    Ev,
    Ring,
    Free,
    Nop,
    Rd,
}

#[tactic(auto, unfolding(crate::specs::Entries::word_named))]
fn word_named(word: &[u8]) -> Option<FirstWord>
    ensures { result ≡ word_named word.now }
{
    if word == b"sub".as_slice() {
        Some(FirstWord::Sub)
    } else if word == b"w".as_slice() {
        Some(FirstWord::W)
    } else if word == b"reg".as_slice() {
        Some(FirstWord::Reg)
    } else if word == b"db".as_slice() {
        Some(FirstWord::Db)
    } else if word == b"ev".as_slice() {
        Some(FirstWord::Ev)
    } else if word == b"ring".as_slice() {
        Some(FirstWord::Ring)
    } else if word == b"free".as_slice() {
        Some(FirstWord::Free)
    } else if word == b"nop".as_slice() {
        Some(FirstWord::Nop)
    } else if word == b"rd".as_slice() {
        Some(FirstWord::Rd)
    } else {
        None
    }
}

#[tactic(auto, unfolding(crate::specs::TraceLines::said_of))]
fn sub_entry(alloc: Global, count: usize, mut fields: Fields) -> Result<Entry, LineError>
    requires { count ≡ length fields }
    ensures { Answers result (said_by (form_as sub_line fields.entry)) }
{
    let Some(ring) = fields.next() else {
        return Err(LineFault::Row.into());
    };
    if count == 1 || count % 4 != 1 {
        return Err(LineFault::Row.into());
    }
    let ring = u8_of(ring).ok_or(LineFault::Number)?;
    let blocks = blocks_of(alloc, fields)?;
    let blocks = Blocks::new(blocks);
    let row = PlainRow {
        row: Row::Sub { ring, blocks },
    };
    Ok(Entry::Row(RowEntry::Plain(row)))
}

#[tactic(auto, unfolding(crate::specs::TraceLines::said_of))]
fn write_entry(mut fields: Fields) -> Result<Entry, LineError>
    ensures { Answers result (said_by (form_as write_line fields.entry)) }
{
    let (Some(address), Some(word), None) = (fields.next(), fields.next(), fields.next()) else {
        return Err(LineFault::Row.into());
    };
    let at = word_address_of(address).ok_or(LineFault::Number)?;
    let word = u32_of(word).ok_or(LineFault::Number)?;
    let row = PlainRow {
        row: Row::Write { at, word },
    };
    Ok(Entry::Row(RowEntry::Plain(row)))
}

#[tactic(auto, unfolding(crate::specs::TraceLines::said_of))]
fn reg_entry(fields: Fields) -> Result<Entry, LineError>
    ensures { Answers result (said_by (form_as reg_line fields.entry)) }
{
    let (register, value) = register_behind(fields)?;
    let row = PlainRow {
        row: Row::Reg { register, value },
    };
    Ok(Entry::Row(RowEntry::Plain(row)))
}

/// A register and its value.
fn register_behind(mut fields: Fields) -> Result<(Register, u64), LineError>
    ensures { AnswersBy (λ said. said) result (fields_say [] RegisterValue fields.entry) }
{
    let (Some(name), Some(value), None) = (fields.next(), fields.next(), fields.next()) else {
        return Err(LineFault::Row.into());
    };
    let register = register_named(name).ok_or(LineFault::Row)?;
    let value = register_value_of(register, value).ok_or(LineFault::Number)?;
    Ok((register, value))
}

#[tactic(auto, unfolding(crate::specs::TraceLines::said_of))]
fn bell_entry(mut fields: Fields) -> Result<Entry, LineError>
    ensures { Answers result (said_by (form_as bell_line fields.entry)) }
{
    let (Some(slot), Some(target), None) = (fields.next(), fields.next(), fields.next()) else {
        return Err(LineFault::Row.into());
    };
    let slot = u8_of(slot).ok_or(LineFault::Number)?;
    let target = u8_of(target).ok_or(LineFault::Number)?;
    let row = PlainRow {
        row: Row::Bell { slot, target },
    };
    Ok(Entry::Row(RowEntry::Plain(row)))
}

#[tactic(auto, unfolding(crate::specs::TraceLines::said_of))]
fn read_entry(fields: Fields) -> Result<Entry, LineError>
    ensures { Answers result (said_by (form_as event_line fields.entry)) }
{
    let event = event_behind(fields)?;
    let row = PlainRow {
        row: Row::Read { event },
    };
    Ok(Entry::Row(RowEntry::Plain(row)))
}

/// The block of exactly four words.
pub fn event_behind(mut fields: Fields) -> Result<Block, LineError>
    ensures { AnswersBy (λ event. event) result (fields_say [] Event fields.entry) }
{
    let words = (fields.next(), fields.next(), fields.next(), fields.next());
    let (Some(a), Some(b), Some(c), Some(d)) = words else {
        return Err(LineFault::Row.into());
    };
    if fields.next().is_some() {
        return Err(LineFault::Row.into());
    }
    let event = block_of(a, b, c, d).ok_or(LineFault::Number)?;
    Ok(event)
}

fn ring_entry(
    alloc: Global,
    version: Version,
    begun: bool,
    count: usize,
    fields: Fields,
) -> Result<Entry, LineError>
    requires { count ≡ length fields }
    ensures { Answers result (said_by (ring_form version begun fields.entry)) }
{
    if !begun {
        return header_ring(alloc, count, fields);
    }
    if !version.has_ring_rows() {
        return Err(LineFault::Row.into());
    }
    comes_entry(alloc, version.has_runs(), count, fields)
}

/// A ring of the header.
#[tactic(auto, unfolding(crate::specs::TraceLines::said_of))]
fn header_ring(alloc: Global, count: usize, fields: Fields) -> Result<Entry, LineError>
    requires { count ≡ length fields }
    ensures { Answers result (said_by (form_as ring_line fields.entry)) }
{
    Ok(Entry::Ring(ring_behind(alloc, true, count, fields)?))
}

/// A ring that comes: of any kind, or a transfer ring alone.
#[tactic(auto, unfolding(crate::specs::TraceLines::said_of))]
fn comes_entry(alloc: Global, any: bool, count: usize, fields: Fields) -> Result<Entry, LineError>
    requires { count ≡ length fields }
    ensures { Answers result (said_by (form_as (comes_line any) fields.entry)) }
{
    let ring = ring_behind(alloc, any, count, fields)?;
    Ok(Entry::Row(RowEntry::Comes(ring)))
}

#[tactic(auto, unfolding(crate::specs::TraceLines::said_of))]
fn goes_entry(version: Version, mut fields: Fields) -> Result<Entry, LineError>
    ensures { Answers result (said_by (form_if (has_ring_rows version) goes_line fields.entry)) }
{
    if !version.has_ring_rows() {
        return Err(LineFault::Row.into());
    }
    let (Some(id), None) = (fields.next(), fields.next()) else {
        return Err(LineFault::Row.into());
    };
    let id = u8_of(id).ok_or(LineFault::Number)?;
    let row = PlainRow {
        row: Row::Free { ring: id },
    };
    Ok(Entry::Row(RowEntry::Plain(row)))
}

#[tactic(auto, unfolding(crate::specs::TraceLines::said_of))]
fn withdraws_entry(version: Version, mut fields: Fields) -> Result<Entry, LineError>
    ensures { Answers result (said_by (form_if (has_ring_rows version) withdraws_line fields.entry)) }
{
    if !version.has_ring_rows() {
        return Err(LineFault::Row.into());
    }
    let (Some(id), Some(position), None) = (fields.next(), fields.next(), fields.next()) else {
        return Err(LineFault::Row.into());
    };
    let ring = u8_of(id).ok_or(LineFault::Number)?;
    let position = u64_of(position).ok_or(LineFault::Number)?;
    let row = PlainRow {
        row: Row::Nop { ring, position },
    };
    Ok(Entry::Row(RowEntry::Plain(row)))
}

/// A register was read.
#[tactic(auto, unfolding(crate::specs::TraceLines::said_of))]
fn reg_read_entry(version: Version, fields: Fields) -> Result<Entry, LineError>
    ensures { Answers result (said_by (form_if (has_runs version) reg_read_line fields.entry)) }
{
    if !version.has_runs() {
        return Err(LineFault::Row.into());
    }
    let (register, value) = register_behind(fields)?;
    let row = PlainRow {
        row: Row::RegRead { register, value },
    };
    Ok(Entry::Row(RowEntry::Plain(row)))
}

/// The ring of the fields behind the word `ring`: of any kind, or a transfer ring alone.
pub fn ring_behind(
    alloc: Global,
    any: bool,
    count: usize,
    mut fields: Fields,
) -> Result<RingEntry, LineError>
    requires { count ≡ length fields }
    ensures { AnswersBy said_of_ring result (fields_say (Byte ∷ KindOfRing any ∷ []) Segments fields.entry) }
{
    let (Some(id), Some(kind)) = (fields.next(), fields.next()) else {
        return Err(LineFault::Row.into());
    };
    if count < 3 {
        return Err(LineFault::Row.into());
    }
    let kind = kind_among(any, kind).ok_or(LineFault::Row)?;
    let id = u8_of(id).ok_or(LineFault::Number)?;
    let segments = segments_of(alloc, fields)?;
    Ok(RingEntry { id, kind, segments })
}

/// The kind of a ring by its word: any kind, or that of a transfer ring alone.
fn kind_among(any: bool, word: &[u8]) -> Option<RingKind>
    ensures { result ≡ kind_among any word.now }
{
    if any {
        return kind_named(word);
    }
    (word == b"xfer".as_slice()).then_some(RingKind::Xfer)
}

#[tactic(auto, unfolding(crate::specs::Forms::kind_named))]
fn kind_named(word: &[u8]) -> Option<RingKind>
    ensures { result ≡ kind_named word.now }
{
    if word == b"cmd".as_slice() {
        Some(RingKind::Cmd)
    } else if word == b"evt".as_slice() {
        Some(RingKind::Evt)
    } else if word == b"xfer".as_slice() {
        Some(RingKind::Xfer)
    } else {
        None
    }
}

#[tactic(auto, unfolding(crate::specs::Forms::register_named))]
fn register_named(word: &[u8]) -> Option<Register>
    ensures { result ≡ register_named word.now }
{
    named(word, &Register::ALL)
}

/// The first of these registers that has this word.
fn named(word: &[u8], registers: &[Register]) -> Option<Register>
    ensures { result ≡ named word.now registers.now }
{
    for register in registers {
        if word == register.name().as_bytes() {
            return Some(*register);
        }
    }
    None
}

/// The address of a word.
#[tactic(auto, unfolding(crate::specs::Values::word_address_of))]
#[inline(always)]
pub fn word_address_of(field: &[u8]) -> Option<Addr>
    ensures { result ≡ word_address_of field.now }
{
    Addr::new(u64_of(field)?)
}

/// The value of a register: it is below 2^32, where the register has 32 bits.
#[tactic(auto, unfolding(crate::specs::Values::register_value_of))]
#[inline(always)]
pub fn register_value_of(register: Register, field: &[u8]) -> Option<u64>
    ensures { result ≡ register_value_of register field.now }
{
    let value = u64_of(field)?;
    if !register.is_wide() && value > u64::from(u32::MAX) {
        return None;
    }
    Some(value)
}

/// The block of four words, each in 8 hex digits of either case.
#[tactic(auto, unfolding(crate::specs::Values::block_of))]
#[inline(always)]
pub fn block_of(a: &[u8], b: &[u8], c: &[u8], d: &[u8]) -> Option<Block>
    ensures { result ≡ block_of a.now b.now c.now d.now }
{
    let (first, second) = two_words_of(a, b)?;
    let (third, fourth) = two_words_of(c, d)?;
    Some(Block {
        w: [first, second, third, fourth],
    })
}

/// The block of a word and the next three.
#[tactic(auto, unfolding(crate::specs::Values::blocks_of))]
fn next_block(a: &[u8], fields: &mut Fields) -> Option<Block>
    ensures some { IfSome result (λ block. blocks_of (a.now ∷ fields.old) ≡ cons (Some block) (blocks_of fields.new)) }
    ensures none { IfNone result (blocks_of (a.now ∷ fields.old) ≡ None) }
    ensures fewer { length fields.new ≤ length fields.old }
{
    block_of(a, fields.next()?, fields.next()?, fields.next()?)
}

/// The blocks of words, four for each.
pub fn blocks_of(alloc: Global, mut fields: Fields) -> Result<Vec<Block>, LineError>
    ensures ok { IfOk result (λ blocks. blocks_of fields.entry ≡ Some blocks.items) }
    ensures err { IfErr result (λ e. IfFault e (λ f. (f ≡ LineFault.Number) × (blocks_of fields.entry ≡ None))) }
{
    let mut blocks = Vec::new(alloc);
    while let Some(word) = fields.next() {
        let block = next_block(word, &mut fields).ok_or(LineFault::Number)?;
        blocks.push(block)?;
    }
    Ok(blocks)
}

/// A segment, `BASE:COUNT`.
#[tactic(auto, unfolding(crate::specs::Values::segment_of))]
fn segment_of(field: &[u8]) -> Option<(u64, u16)>
    ensures some { IfSome result (λ pair. values.segment_of field.now ≡ Some (segment_of pair)) }
    ensures none { IfNone result (values.segment_of field.now ≡ None) }
{
    if field.len() != 21 || field[16] != b':' {
        return None;
    }
    Some((u64_of(&field[..16])?, u16_of(&field[17..])?))
}

#[tactic(auto, using(crate::proofs::Prefixes::one_mapped), unfolding(crate::specs::Values::segments_of))]
fn segments_of(alloc: Global, mut fields: Fields) -> Result<Vec<(u64, u16)>, LineError>
    ensures ok { IfOk result (λ segments. segments_of fields.entry ≡ Some (map segment_of segments.items)) }
    ensures err { IfErr result (λ e. IfFault e (λ f. (f ≡ LineFault.Number) × (segments_of fields.entry ≡ None))) }
{
    let mut segments = Vec::new(alloc);
    while let Some(field) = fields.next() {
        let segment = segment_of(field).ok_or(LineFault::Number)?;
        segments.push(segment)?;
    }
    Ok(segments)
}
