ghost use Rattle.std.specs.Prelude.{◌≡◌, ◌+◌, ◌≤◌, ◌++◌, ◌∷◌, [], Bool, Ok, length, map, OnOk, IfOk};
ghost use Rattle.std.specs.List.{flat_map};
ghost use Rattle.traces.specs.declared.row.Row.TheVariants.{Sub, Write};
ghost use Rattle.std.specs.Int.{w64};
ghost use Rattle.line_text.specs.Numbers.{digits_of};
ghost use Rattle.traces.specs.Register.{register_name};
ghost use Rattle.trace_reader.specs.Entries.{text_of};
ghost use Rattle.trace_reader.specs.Reading.{trace_of};
ghost use Rattle.traces.specs.Limits.{most_lines_of};
ghost use Rattle.trace_reader.specs.Spelling.{block_fields, printed, printed_line, printed_trace, ring_fields, row_fields, segment_field, size_fields, version_fields};
ghost use Rattle.trace_reader.specs.Printing.{in_a_row, spaced};

use contexts::ContextSize;
use guest_memory::Addr;
use line_text::{push_u8, push_u16, push_u32, push_u64};
use segments::Segment;
use std::alloc::{AllocError, Global};
use traces::{Header, Register, Ring, Row, Trace, Version};
use trb::Block;

/// The text of a trace, with its numbers in lower case.
pub fn print_trace(alloc: Global, trace: &Trace) -> Result<Vec<u8>, AllocError>
    ensures printed { IfOk result (λ out. out.items ≡ printed_trace (text_of trace.now)) }
    // What is printed is read as the same trace, where one may have so many lines.
    ensures reread { IfOk result (λ out. (keeps : Bool) → trace.now.first + length trace.now.rows ≤ most_lines_of keeps trace.now.header.version + 1 →
        trace_of keeps out.items ≡ Ok (text_of trace.now)) }
{
    let mut out = Vec::new(alloc);
    push_header(&mut out, &trace.header)?;
    push_rows(&mut out, trace.rows.as_slice())?;
    Ok(out)
}

/// A text with the line of a ring behind it.
pub fn with_ring(text: Vec<u8>, ring: &Ring) -> Result<Vec<u8>, AllocError>
    ensures { IfOk result (λ longer. longer.items ≡ text.items ++ printed_line (ring_fields ring.now)) }
{
    let mut longer = text;
    push_ring(&mut longer, ring)?;
    Ok(longer)
}

/// A text with the line of a row behind it.
pub fn with_row(text: Vec<u8>, row: &Row) -> Result<Vec<u8>, AllocError>
    ensures { IfOk result (λ longer. longer.items ≡ text.items ++ printed_line (row_fields row.now)) }
{
    let mut longer = text;
    push_row(&mut longer, row)?;
    Ok(longer)
}

/// A text with the line of a declaration behind it.
pub fn with_sub(text: Vec<u8>, ring: u8, blocks: &[Block]) -> Result<Vec<u8>, AllocError>
    ensures { IfOk result (λ longer. longer.items ≡ text.items ++ printed_line (row_fields (Sub ring blocks.now))) }
{
    let mut longer = text;
    push_sub(&mut longer, ring, blocks)?;
    Ok(longer)
}

/// A text with the line of a write behind it.
pub fn with_write(text: Vec<u8>, at: Addr, word: u32) -> Result<Vec<u8>, AllocError>
    ensures { IfOk result (λ longer. longer.items ≡ text.items ++ printed_line (row_fields (Write at word))) }
{
    let mut longer = text;
    push_write(&mut longer, at, word)?;
    Ok(longer)
}

/// Appends the lines before the rows.
fn push_header(out: &mut Vec<u8>, header: &Header) -> Result<(), AllocError>
    ensures { OnOk result (out.new.items ≡ out.old.items ++ printed_line (version_fields header.now.version) ++ printed_line (size_fields header.now.context_size) ++ flat_map printed_line (map ring_fields header.now.rings)) }
{
    push_version(out, header.version)?;
    push_size(out, header.context_size)?;
    push_rings(out, header.rings.as_slice())
}

#[tactic(auto, using(crate::proofs::LinePieces::line_of))]
fn push_version(out: &mut Vec<u8>, version: Version) -> Result<(), AllocError>
    ensures { OnOk result (out.new.items ≡ out.old.items ++ printed_line (version_fields version)) }
{
    match version {
        Version::One => out.extend_from_slice(b"xtrace 1\n"),
        Version::Two => out.extend_from_slice(b"xtrace 2\n"),
        Version::Three => out.extend_from_slice(b"xtrace 3\n"),
        Version::Four => out.extend_from_slice(b"xtrace 4\n"),
    }
}

#[tactic(auto, using(crate::proofs::LinePieces::line_of))]
fn push_size(out: &mut Vec<u8>, size: ContextSize) -> Result<(), AllocError>
    ensures { OnOk result (out.new.items ≡ out.old.items ++ printed_line (size_fields size)) }
{
    match size {
        ContextSize::Bytes32 => out.extend_from_slice(b"ctx 20\n"),
        ContextSize::Bytes64 => out.extend_from_slice(b"ctx 40\n"),
    }
}

fn push_rings(out: &mut Vec<u8>, rings: &[Ring]) -> Result<(), AllocError>
    ensures { OnOk result (out.new.items ≡ out.old.items ++ flat_map printed_line (map ring_fields rings.now)) }
{
    for ring in rings {
        push_ring(out, ring)?;
    }
    Ok(())
}

fn push_rows(out: &mut Vec<u8>, rows: &[Row]) -> Result<(), AllocError>
    ensures { OnOk result (out.new.items ≡ out.old.items ++ flat_map printed_line (map row_fields rows.now)) }
{
    for row in rows {
        push_row(out, row)?;
    }
    Ok(())
}

/// Appends the line of a ring.
#[tactic(auto, using(crate::proofs::LinePieces::line_of))]
fn push_ring(out: &mut Vec<u8>, ring: &Ring) -> Result<(), AllocError>
    ensures { OnOk result (out.new.items ≡ out.old.items ++ printed_line (ring_fields ring.now)) }
{
    push_ring_fields(out, ring)?;
    out.extend_from_slice(b"\n")?;
    Ok(())
}

/// Appends the fields of a ring's line, with a space between each two.
#[tactic(auto, unfolding(crate::specs::Spelling::ring_fields))]
fn push_ring_fields(out: &mut Vec<u8>, ring: &Ring) -> Result<(), AllocError>
    ensures { OnOk result (out.new.items ≡ out.old.items ++ in_a_row (ring_fields ring.now)) }
{
    out.extend_from_slice(b"ring ")?;
    push_u8(out, ring.id)?;
    out.extend_from_slice(b" ")?;
    out.extend_from_slice(ring.shape.kind().name().as_bytes())?;
    push_segments(out, ring.shape.segments())
}

/// Appends the line of a row.
fn push_row(out: &mut Vec<u8>, row: &Row) -> Result<(), AllocError>
    ensures { OnOk result (out.new.items ≡ out.old.items ++ printed_line (row_fields row.now)) }
{
    push_row_fields(out, row)?;
    out.extend_from_slice(b"\n")?;
    Ok(())
}

/// Appends the fields of a row, with a space between each two.
#[tactic(auto, unfolding(crate::specs::Spelling::row_fields))]
fn push_row_fields(out: &mut Vec<u8>, row: &Row) -> Result<(), AllocError>
    ensures { OnOk result (out.new.items ≡ out.old.items ++ in_a_row (row_fields row.now)) }
{
    match row {
        Row::Sub { ring, blocks } => push_sub_fields(out, *ring, blocks.as_slice()),
        Row::Write { at, word } => push_write_fields(out, *at, *word),
        Row::Reg { register, value } => {
            out.extend_from_slice(b"reg ")?;
            push_register(out, *register, *value)
        }
        Row::Bell { slot, target } => {
            out.extend_from_slice(b"db ")?;
            push_u8(out, *slot)?;
            out.extend_from_slice(b" ")?;
            push_u8(out, *target)
        }
        Row::Read { event } => {
            out.extend_from_slice(b"ev")?;
            push_block(out, event)
        }
        Row::Ring { ring } => push_ring_fields(out, ring.as_ring()),
        Row::Free { ring } => {
            out.extend_from_slice(b"free ")?;
            push_u8(out, *ring)
        }
        Row::Nop { ring, position } => {
            out.extend_from_slice(b"nop ")?;
            push_u8(out, *ring)?;
            out.extend_from_slice(b" ")?;
            push_u64(out, *position)
        }
        Row::RegRead { register, value } => {
            out.extend_from_slice(b"rd ")?;
            push_register(out, *register, *value)
        }
    }
}

/// Appends the name of a register and a value, with a space between them.
fn push_register(out: &mut Vec<u8>, register: Register, value: u64) -> Result<(), AllocError>
    ensures { OnOk result (out.new.items ≡ out.old.items ++ register_name register ++ 32 ∷ digits_of w64 value) }
{
    out.extend_from_slice(register.name().as_bytes())?;
    out.extend_from_slice(b" ")?;
    push_u64(out, value)
}

/// Appends the line of a declaration.
fn push_sub(out: &mut Vec<u8>, ring: u8, blocks: &[Block]) -> Result<(), AllocError>
    ensures { OnOk result (out.new.items ≡ out.old.items ++ printed_line (row_fields (Sub ring blocks.now))) }
{
    push_sub_fields(out, ring, blocks)?;
    out.extend_from_slice(b"\n")?;
    Ok(())
}

/// Appends the line of a write.
fn push_write(out: &mut Vec<u8>, at: Addr, word: u32) -> Result<(), AllocError>
    ensures { OnOk result (out.new.items ≡ out.old.items ++ printed_line (row_fields (Write at word))) }
{
    push_write_fields(out, at, word)?;
    out.extend_from_slice(b"\n")?;
    Ok(())
}

/// Appends the fields of a declaration, with a space between each two.
#[tactic(auto, unfolding(crate::specs::Spelling::row_fields))]
fn push_sub_fields(out: &mut Vec<u8>, ring: u8, blocks: &[Block]) -> Result<(), AllocError>
    ensures { OnOk result (out.new.items ≡ out.old.items ++ in_a_row (row_fields (Sub ring blocks.now))) }
{
    out.extend_from_slice(b"sub ")?;
    push_u8(out, ring)?;
    push_blocks(out, blocks)
}

/// Appends the fields of a write, with a space between each two.
#[tactic(auto, unfolding(crate::specs::Spelling::row_fields))]
fn push_write_fields(out: &mut Vec<u8>, at: Addr, word: u32) -> Result<(), AllocError>
    ensures { OnOk result (out.new.items ≡ out.old.items ++ in_a_row (row_fields (Write at word))) }
{
    out.extend_from_slice(b"w ")?;
    push_u64(out, at.get())?;
    out.extend_from_slice(b" ")?;
    push_u32(out, word)
}

/// Appends the words of blocks, each behind a space.
fn push_blocks(out: &mut Vec<u8>, blocks: &[Block]) -> Result<(), AllocError>
    ensures { OnOk result (out.new.items ≡ out.old.items ++ spaced (flat_map block_fields blocks.now)) }
{
    for block in blocks {
        push_block(out, block)?;
    }
    Ok(())
}

/// Appends the words of a block, each behind a space.
pub fn push_block(out: &mut Vec<u8>, block: &Block) -> Result<(), AllocError>
    ensures { OnOk result (out.new.items ≡ out.old.items ++ spaced (block_fields block.now)) }
{
    for word in &block.w {
        out.extend_from_slice(b" ")?;
        push_u32(out, *word)?;
    }
    Ok(())
}

/// Appends segments, `BASE:COUNT` each behind a space.
fn push_segments(out: &mut Vec<u8>, segments: &[Segment]) -> Result<(), AllocError>
    ensures { OnOk result (out.new.items ≡ out.old.items ++ spaced (map segment_field segments.now)) }
{
    for segment in segments {
        push_segment(out, *segment)?;
    }
    Ok(())
}

fn push_segment(out: &mut Vec<u8>, segment: Segment) -> Result<(), AllocError>
    ensures { OnOk result (out.new.items ≡ out.old.items ++ 32 ∷ printed (segment_field segment)) }
{
    out.extend_from_slice(b" ")?;
    push_u64(out, segment.base)?;
    out.extend_from_slice(b":")?;
    push_u16(out, segment.count)
}
