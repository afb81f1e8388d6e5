//! A block (TRB) as text: the four words that it is given by, and the line that tells what it says.
#![tactic(auto)]

ghost use Rattle.std.specs.Prelude.{◌≡◌, ◌++◌, ◌∷◌, [], OnOk, IfOk};
ghost use Rattle.block_text.specs.Decoding.{bit_text, decoded_text, event_text, kind_text};
ghost use Rattle.trace_reader.specs.Values.{block_of};

use line_text::{push_u8, push_u64};
use std::alloc::{AllocError, Global};
use trace_reader::block_of;
use trb::Block;

/// The words of a block as they are given.
#[derive(Drop)]
pub struct BlockWords<'a> {
    pub first: &'a str,
    pub second: &'a str,
    pub third: &'a str,
    pub fourth: &'a str,
}

impl<'a> BlockWords<'a> {
    /// The block that the words spell, each in 8 hex digits; none where one of them isn't such digits.
    pub fn block(&self) -> Option<Block>
        ensures { result ≡ block_of self.now.first.now self.now.second.now self.now.third.now self.now.fourth.now }
    {
        block_of(
            self.first.as_bytes(),
            self.second.as_bytes(),
            self.third.as_bytes(),
            self.fourth.as_bytes(),
        )
    }
}

/// The line of a block, with its line feed.
#[tactic(auto, unfolding(crate::specs::Decoding::decoded_text))]
pub fn line_of(alloc: Global, block: Block) -> Result<Vec<u8>, AllocError>
    ensures { IfOk result (λ line. line.items ≡ decoded_text block ++ 10 ∷ []) }
{
    let mut line = Vec::new(alloc);
    push_kind(alloc, &mut line, block)?;
    line.extend_from_slice(b" cycle ")?;
    push_bit(&mut line, block.cycle())?;
    line.extend_from_slice(b" chain ")?;
    push_bit(&mut line, block.chain())?;
    push_event_fields(&mut line, block)?;
    line.extend_from_slice(b"\n")?;
    Ok(line)
}

/// Appends the number and the name of a block's type.
fn push_kind(alloc: Global, line: &mut Vec<u8>, block: Block) -> Result<(), AllocError>
    ensures { OnOk result (line.new.items ≡ line.old.items ++ kind_text block) }
{
    let kind = block.kind();
    let number = kind.number();
    let text = format!(in alloc; "{number} {kind}")?;
    line.extend_from_slice(text.as_bytes())
}

/// Appends words 1 and 0 and the fields of an event.
fn push_event_fields(line: &mut Vec<u8>, block: Block) -> Result<(), AllocError>
    ensures { OnOk result (line.new.items ≡ line.old.items ++ event_text block) }
{
    line.extend_from_slice(b" pointer ")?;
    push_u64(line, block.pointer())?;
    line.extend_from_slice(b" code ")?;
    push_u8(line, block.code())?;
    line.extend_from_slice(b" slot ")?;
    push_u8(line, block.slot())?;
    line.extend_from_slice(b" endpoint ")?;
    push_u8(line, block.endpoint())
}

fn push_bit(line: &mut Vec<u8>, bit: bool) -> Result<(), AllocError>
    ensures { OnOk result (line.new.items ≡ line.old.items ++ bit_text bit) }
{
    if bit {
        line.extend_from_slice(b"1")
    } else {
        line.extend_from_slice(b"0")
    }
}
