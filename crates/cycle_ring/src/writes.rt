//! The words of a descriptor in the order in which they are written.

ghost use Rattle.std.specs.Prelude.{◌≡◌, ◌+◌, ◌*◌, ◌%◌, ◌^◌, ◌<◌, ◌≤◌, ◌++◌, [], ◌∷◌, length, OnOk, IfOk, if◌then◌else◌};
ghost use Rattle.segments.specs.Places.{address_of, links};
ghost use Rattle.segments.specs.Shape.{IsShape};
ghost use Rattle.cycle_ring.specs.Links.{link_block, link_control};
ghost use Rattle.cycle_ring.specs.Writes.{low_writes, control_write, block_writes, block_at_position, way_writes, later_writes, writes_of};

use guest_memory::Addr;
use segments::RingShape;
use std::alloc::{AllocError, Global};
use trb::{Block, BlockKind};

/// A word with the address at which it is written.
pub(crate) type Write = (Addr, u32);

fn push_word(out: &mut Vec<Write>, at: u64, word: u32) -> Result<(), AllocError>
    requires { at % 4 ≡ 0 }
    ensures { OnOk result (out.new.items ≡ out.old.items ++ (at, word) ∷ []) }
{
    out.push((Addr::new(at).unwrap(), word))?;
    Ok(())
}

/// Words 0 to 2 of the block at an address.
fn push_low_words(out: &mut Vec<Write>, at: u64, block: Block) -> Result<(), AllocError>
    requires aligned { at % 16 ≡ 0 }
    requires end { at + 16 ≤ 2 ^ 64 }
    ensures { OnOk result (out.new.items ≡ out.old.items ++ low_writes at block) }
{
    let [parameter_low, parameter_high, status, _] = block.w;
    push_word(out, at, parameter_low)?;
    push_word(out, at + 4, parameter_high)?;
    push_word(out, at + 8, status)
}

/// Word 3, with the Cycle bit.
fn push_control_word(out: &mut Vec<Write>, at: u64, block: Block) -> Result<(), AllocError>
    requires aligned { at % 16 ≡ 0 }
    requires end { at + 16 ≤ 2 ^ 64 }
    ensures { OnOk result (out.new.items ≡ out.old.items ++ control_write at block) }
{
    push_word(out, at + 12, block.w[3])
}

fn push_block(out: &mut Vec<Write>, at: u64, block: Block) -> Result<(), AllocError>
    requires aligned { at % 16 ≡ 0 }
    requires end { at + 16 ≤ 2 ^ 64 }
    ensures { OnOk result (out.new.items ≡ out.old.items ++ block_writes at block) }
{
    push_low_words(out, at, block)?;
    push_control_word(out, at, block)
}

/// The control word of a Link (xHCI 6.4.4.1).
fn link_control(cycle: bool, toggle: bool, chain: bool) -> u32
    ensures { result ≡ link_control (if cycle then 1 else 0) toggle chain }
{
    u32::from(BlockKind::Link.number()) << 10
        | u32::from(chain) << 4
        | u32::from(toggle) << 1
        | u32::from(cycle)
}

/// The Link of a segment.
fn link_block(shape: &RingShape, segment: u32, cycle: bool, chain: bool) -> Block
    requires { segment < length (links shape.now) }
    ensures { result ≡ link_block shape.now segment (if cycle then 1 else 0) chain }
{
    let target = shape.target(segment);
    let low = (target & 0xffff_ffff) as u32;
    let high = (target >> 32) as u32;
    let control = link_control(cycle, shape.toggles(segment), chain);
    Block {
        w: [low, high, 0, control],
    }
}

/// The Link that is crossed on the way to a position, if one is.
fn push_way(
    out: &mut Vec<Write>,
    shape: &RingShape,
    position: u64,
    chain: bool,
) -> Result<(), AllocError>
    requires { IsShape shape.now }
    ensures { OnOk result (out.new.items ≡ out.old.items ++ way_writes shape.now position chain) }
{
    let Some(segment) = shape.crossing(position) else {
        return Ok(());
    };
    let link = link_block(shape, segment, shape.cycle(position - 1), chain);
    push_block(out, shape.link(segment), link)
}

/// The block with the Cycle bit of its position.
fn block_at(shape: &RingShape, position: u64, block: Block) -> Block
    ensures { result ≡ block_at_position shape.now position block }
{
    block.with_cycle(shape.cycle(position))
}

/// The blocks behind a descriptor's first one, from this position on.
fn push_later_blocks(
    out: &mut Vec<Write>,
    shape: &RingShape,
    position: u64,
    blocks: &[Block],
) -> Result<(), AllocError>
    requires shape { IsShape shape.now }
    requires end { position + length blocks.now < 2 ^ 64 }
    ensures { OnOk result (out.new.items ≡ out.old.items ++ later_writes shape.now position blocks.now) }
{
    for (i, block) in blocks.iter().enumerate() {
        let position = position + i as u64;
        push_way(out, shape, position, true)?;
        let block = block_at(shape, position, *block);
        push_block(out, shape.address(position), block)?;
    }
    Ok(())
}

/// The words of a descriptor from position `first` on. The control word of the first block comes last: until then the
/// controller does not look past it.
pub(crate) fn writes_of(
    alloc: Global,
    shape: &RingShape,
    first: u64,
    blocks: &[Block],
) -> Result<Vec<Write>, AllocError>
    requires shape { IsShape shape.now }
    requires end { first + length blocks.now < 2 ^ 64 }
    ensures { IfOk result (λ writes. writes.items ≡ writes_of shape.now first blocks.now) }
{
    let mut writes = Vec::new(alloc);
    if let [head, later @ ..] = blocks {
        let at = shape.address(first);
        let head = block_at(shape, first, *head);
        push_way(&mut writes, shape, first, false)?;
        push_low_words(&mut writes, at, head)?;
        push_later_blocks(&mut writes, shape, first + 1, later)?;
        push_control_word(&mut writes, at, head)?;
    }
    Ok(writes)
}
