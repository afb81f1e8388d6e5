ghost use Rattle.std.specs.Prelude.{◌≡◌, ◌∷◌, ◌++◌, ◌≤◌, [], ℕ, List, Ok, Bool, false, length, codes, IfOk, IfSome};
ghost use Rattle.trace_reader.specs.Entries.{SaysAlone, said_alone};
ghost use Rattle.trace_reader.specs.RowsAhead.{BeginsWithRow};
ghost use Rattle.trace_reader.specs.Values.{SaysRow};
ghost use Rattle.traces.specs.Register.{register_name};
ghost use Rattle.traces.specs.declared.register.Register.TheVariants.{Erdp};
ghost use Rattle.traces.specs.declared.row.Row.{Row};
ghost use Rattle.traces.specs.declared.version.Version.{Version};

use crate::declarations::quick_declarations;
use crate::entry::{block_of, register_value_of, word_address_of};
use crate::plain_row::PlainRow;
use guest_memory::Addr;
use line_text::{Line, u8_of, u32_of};
use std::alloc::Global;
use traces::{Register, Row};
use trb::{Block, Blocks};

/// The row of a line of a frequent form, by the places of its fields. Where it answers none, the line may still say one.
pub fn quick_row(alloc: Global, line: &Line) -> Option<PlainRow>
    ensures { IfSome result (λ plain. (version : Version) (begun : Bool) → said_alone version begun line.now ≡ Ok (SaysRow plain.row)) }
{
    if !line.is_ended() {
        return None;
    }
    let content = line.content();
    match content.len() {
        27 if content[0] == b'w' => write_of(content),
        38 => event_of(content),
        8 => bell_of(content),
        25 | 27 => register_of(content),
        42 => declaration_of(content),
        _ => declarations_of(alloc, content),
    }
}

/// The address and the word of a text's first line, where that is `w`, an address and a word: with its line feed the line takes 28 bytes,
/// and no line feed is looked for. Where it answers none, the line may still say a row.
#[inline(always)]
pub fn write_ahead(text: &[u8]) -> Option<(Addr, u32)>
    ensures { IfSome result (λ said. BeginsWithRow (Row.Write said.0 said.1) 28 text.now) }
{
    quick_write(content_ahead(text, 27)?)
}

/// The words of a text's first line, where that is `ev` and the four words of a block: it takes 39 bytes.
#[inline(always)]
pub fn event_ahead(text: &[u8]) -> Option<Block>
    ensures { IfSome result (λ event. BeginsWithRow (Row.Read event) 39 text.now) }
{
    quick_event(content_ahead(text, 38)?)
}

/// The slot and the target of a text's first line, where that is `db` and these: it takes 9 bytes.
#[inline(always)]
pub fn bell_ahead(text: &[u8]) -> Option<(u8, u8)>
    ensures { IfSome result (λ said. BeginsWithRow (Row.Bell said.0 said.1) 9 text.now) }
{
    quick_bell(content_ahead(text, 8)?)
}

/// The value of a text's first line, where that is `reg erdp` and a value: it takes 26 bytes.
#[inline(always)]
pub fn erdp_ahead(text: &[u8]) -> Option<u64>
    ensures { IfSome result (λ value. BeginsWithRow (Row.Reg Erdp value) 26 text.now) }
{
    quick_erdp(content_ahead(text, 25)?)
}

/// The register and the value of a text's first line, where that is `reg` and these, and the register is ERDP, IMAN, USBSTS or USBCMD; and
/// how many bytes it takes.
pub fn register_ahead(text: &[u8]) -> Option<(Register, u64, usize)>
    ensures { IfSome result (λ said. BeginsWithRow (Row.Reg said.0 said.1) said.2 text.now) }
{
    if let Some(content) = content_ahead(text, 25) {
        let (register, value) = quick_register(content)?;
        return Some((register, value, 26));
    }
    let (register, value) = quick_register(content_ahead(text, 27)?)?;
    Some((register, value, 28))
}

/// The ring and the block of a text's first line, where that is `sub` and these: it takes 43 bytes.
#[inline(always)]
pub fn declaration_ahead(text: &[u8]) -> Option<(u8, Block)>
    ensures { IfSome result (λ said. BeginsWithRow (Row.Sub said.0 (said.1 ∷ [])) 43 text.now) }
{
    quick_declaration(content_ahead(text, 42)?)
}

/// The first bytes of a text, so many, where a line feed stands behind them.
#[inline(always)]
fn content_ahead(text: &[u8], count: usize) -> Option<&[u8]>
    ensures { IfSome result (λ content. (length content.now ≡ count) × ((rest : List ℕ) × (text.now ≡ content.now ++ 10 ∷ rest))) }
{
    if text.len() <= count || text[count] != b'\n' {
        return None;
    }
    Some(&text[..count])
}

/// `w`, an address and a word.
fn write_of(content: &[u8]) -> Option<PlainRow>
    requires { length content.now ≡ 27 }
    ensures { IfSome result (λ plain. SaysAlone plain.row content.now) }
{
    let (at, word) = quick_write(content)?;
    let row = Row::Write { at, word };
    Some(PlainRow { row })
}

/// The address and the word of a `w` line.
#[inline(always)]
fn quick_write(content: &[u8]) -> Option<(Addr, u32)>
    requires { length content.now ≡ 27 }
    ensures { IfSome result (λ said. SaysAlone (Row.Write said.0 said.1) content.now) }
{
    if content[0] != b'w' || content[1] != b' ' || content[18] != b' ' {
        return None;
    }
    let at = word_address_of(&content[2..18])?;
    let word = u32_of(&content[19..27])?;
    Some((at, word))
}

/// `ev` and the four words of a block.
fn event_of(content: &[u8]) -> Option<PlainRow>
    requires { length content.now ≡ 38 }
    ensures { IfSome result (λ plain. SaysAlone plain.row content.now) }
{
    let event = quick_event(content)?;
    let row = Row::Read { event };
    Some(PlainRow { row })
}

/// What such a line says.
#[inline(always)]
fn quick_event(content: &[u8]) -> Option<Block>
    requires { length content.now ≡ 38 }
    ensures { IfSome result (λ event. SaysAlone (Row.Read event) content.now) }
{
    if content[0] != b'e' || content[1] != b'v' || content[2] != b' ' {
        return None;
    }
    if content[11] != b' ' || content[20] != b' ' || content[29] != b' ' {
        return None;
    }
    block_of(
        &content[3..11],
        &content[12..20],
        &content[21..29],
        &content[30..38],
    )
}

/// `db`, a slot and a target.
fn bell_of(content: &[u8]) -> Option<PlainRow>
    requires { length content.now ≡ 8 }
    ensures { IfSome result (λ plain. SaysAlone plain.row content.now) }
{
    let (slot, target) = quick_bell(content)?;
    let row = Row::Bell { slot, target };
    Some(PlainRow { row })
}

/// What such a line says.
#[inline(always)]
fn quick_bell(content: &[u8]) -> Option<(u8, u8)>
    requires { length content.now ≡ 8 }
    ensures { IfSome result (λ said. SaysAlone (Row.Bell said.0 said.1) content.now) }
{
    if content[0] != b'd' || content[1] != b'b' || content[2] != b' ' || content[5] != b' ' {
        return None;
    }
    let slot = u8_of(&content[3..5])?;
    let target = u8_of(&content[6..8])?;
    Some((slot, target))
}

/// The value of a `reg erdp` line.
#[inline(always)]
fn quick_erdp(content: &[u8]) -> Option<u64>
    requires { length content.now ≡ 25 }
    ensures { IfSome result (λ value. SaysAlone (Row.Reg Erdp value) content.now) }
{
    register_value_of(Register::Erdp, content.strip_prefix(b"reg erdp ")?)
}

/// `reg`, a register and a value.
fn register_of(content: &[u8]) -> Option<PlainRow>
    requires { length content.now ≤ 27 }
    ensures { IfSome result (λ plain. SaysAlone plain.row content.now) }
{
    let (register, value) = quick_register(content)?;
    let row = Row::Reg { register, value };
    Some(PlainRow { row })
}

/// What such a line says, where the register is ERDP, IMAN, USBSTS or USBCMD.
fn quick_register(content: &[u8]) -> Option<(Register, u64)>
    requires { length content.now ≤ 27 }
    ensures { IfSome result (λ said. SaysAlone (Row.Reg said.0 said.1) content.now) }
{
    let (register, field) = register_field(content)?;
    let value = register_value_of(register, field)?;
    Some((register, value))
}

/// The register of such a line, and the field of its value.
fn register_field(content: &[u8]) -> Option<(Register, &[u8])>
    ensures { IfSome result (λ said. content.now ≡ (codes "reg " ++ register_name said.0 ++ 32 ∷ []) ++ said.1.now) }
{
    if content.len() == 25 {
        if let Some(field) = content.strip_prefix(b"reg erdp ") {
            return Some((Register::Erdp, field));
        }
        return Some((Register::Iman, content.strip_prefix(b"reg iman ")?));
    }
    if let Some(field) = content.strip_prefix(b"reg usbsts ") {
        return Some((Register::Usbsts, field));
    }
    Some((Register::Usbcmd, content.strip_prefix(b"reg usbcmd ")?))
}

/// `sub`, a ring and the four words of one block.
fn declaration_of(content: &[u8]) -> Option<PlainRow>
    requires { length content.now ≡ 42 }
    ensures { IfSome result (λ plain. SaysAlone plain.row content.now) }
{
    let (ring, block) = quick_declaration(content)?;
    let blocks = Blocks::one(block);
    let row = Row::Sub { ring, blocks };
    Some(PlainRow { row })
}

/// `sub`, a ring and the words of any number of blocks.
fn declarations_of(alloc: Global, content: &[u8]) -> Option<PlainRow>
    ensures { IfSome result (λ plain. SaysAlone plain.row content.now) }
{
    let (ring, blocks) = quick_declarations(alloc, content)?;
    let row = Row::Sub { ring, blocks };
    Some(PlainRow { row })
}

/// The ring and the block of a `sub` line.
#[inline(always)]
fn quick_declaration(content: &[u8]) -> Option<(u8, Block)>
    requires { length content.now ≡ 42 }
    ensures { IfSome result (λ said. SaysAlone (Row.Sub said.0 (said.1 ∷ [])) content.now) }
{
    if content[0] != b's' || content[1] != b'u' || content[2] != b'b' || content[3] != b' ' {
        return None;
    }
    if content[6] != b' ' || content[15] != b' ' || content[24] != b' ' || content[33] != b' ' {
        return None;
    }
    let ring = u8_of(&content[4..6])?;
    let block = block_of(
        &content[7..15],
        &content[16..24],
        &content[25..33],
        &content[34..42],
    )?;
    Some((ring, block))
}
