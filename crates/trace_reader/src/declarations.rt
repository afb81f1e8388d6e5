//! Declarations of several blocks, as many as a row of each version may have, read by the places of their words.
ghost use Rattle.std.specs.Prelude.{◌≡◌, ◌≤◌, ◌∷◌, ◌++◌, ℕ, List, length, IfSome};
ghost use Rattle.trace_reader.specs.Entries.{SaysAlone};
ghost use Rattle.trace_reader.specs.RowsAhead.{AreBlocks, BeginsWithBlock, BeginsWithRow};
ghost use Rattle.traces.specs.Limits.{most_declared};
ghost use Rattle.traces.specs.declared.row.Row.{Row};

use crate::entry::block_of;
use line_text::u8_of;
use std::alloc::Global;
use traces::MOST_DECLARED;
use trb::{Block, Blocks};

/// Bytes that a block's words take in a line, with a space before each.
const BLOCK: usize = 36;

/// Bytes of a line before the words of its blocks.
const FRONT: usize = 6;

/// The ring and the blocks of a text's first line, where that is `sub` and these, of which there are at least two; and how many bytes it
/// takes. Where it answers none, the line may still say a row, and memory may have been wanting.
pub fn declarations_ahead(alloc: Global, text: &[u8]) -> Option<(u8, Blocks, usize)>
    ensures { IfSome result (λ said. BeginsWithRow (Row.Sub said.0 said.1) said.2 text.now) }
{
    let content = declaring_content(text)?;
    let (ring, blocks) = quick_declarations(alloc, content)?;
    Some((ring, blocks, content.len() + 1))
}

/// The first bytes of a text, where they are as many as a declaration of several blocks has and a line feed stands behind them.
fn declaring_content(text: &[u8]) -> Option<&[u8]>
    ensures { IfSome result (λ content. (rest : List ℕ) × (text.now ≡ content.now ++ 10 ∷ rest)) }
{
    if text.is_empty() || text[0] != b's' {
        return None;
    }
    for count in 2..MOST_DECLARED + 1 {
        let end = FRONT + BLOCK * count;
        if text.len() <= end {
            return None;
        }
        if text[end] == b'\n' {
            return Some(&text[..end]);
        }
        if text[end] != b' ' {
            return None;
        }
    }
    None
}

/// The ring and the blocks of a `sub` line of at most as many blocks as one of each version may have.
pub fn quick_declarations(alloc: Global, content: &[u8]) -> Option<(u8, Blocks)>
    ensures says { IfSome result (λ said. SaysAlone (Row.Sub said.0 said.1) content.now) }
    ensures within { IfSome result (λ said. length said.1 ≤ most_declared) }
{
    if content.len() <= FRONT || content.len() > FRONT + BLOCK * MOST_DECLARED {
        return None;
    }
    if content[0] != b's' || content[1] != b'u' || content[2] != b'b' || content[3] != b' ' {
        return None;
    }
    let ring = u8_of(&content[4..6])?;
    let blocks = blocks_at(alloc, &content[6..])?;
    Some((ring, Blocks::new(blocks)))
}

/// The blocks whose words stand there and nothing else, each word behind a space.
fn blocks_at(alloc: Global, words: &[u8]) -> Option<Vec<Block>>
    ensures { IfSome result (λ blocks. AreBlocks blocks.items words.now) }
{
    let mut blocks = Vec::with_capacity(alloc, words.len() / BLOCK).ok()?;
    let mut rest = words;
    while !rest.is_empty() {
        let block = block_at(rest)?;
        blocks.push(block).ok()?;
        rest = &rest[BLOCK..];
    }
    Some(blocks)
}

/// The block whose words stand first there, each behind a space.
#[inline(always)]
fn block_at(words: &[u8]) -> Option<Block>
    ensures { IfSome result (λ block. BeginsWithBlock block words.now) }
{
    if words.len() < BLOCK {
        return None;
    }
    if words[0] != b' ' || words[9] != b' ' || words[18] != b' ' || words[27] != b' ' {
        return None;
    }
    block_of(&words[1..9], &words[10..18], &words[19..27], &words[28..36])
}
