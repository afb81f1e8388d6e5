//! The rules of a crossing that a write gives: xHCI 4.11.5.1.
ghost use Rattle.std.specs.Prelude.{◌≡◌, ◌<◌, [], ◌∷◌, not, length};
ghost use Rattle.trb.specs.Bits.{is_set};
ghost use Rattle.trb.specs.Block.{word};
ghost use Rattle.trb.specs.Kind.{is_link};
ghost use Rattle.segments.specs.Places.{links};
ghost use Rattle.segments.specs.Givings.{is_wrong_link, link_of, same};
ghost use Rattle.ownership_rules.specs.FirstBroken.{first_broken};
ghost use Rattle.driver_rows.specs.MemoryWrites.WriteTests.{IsDriver, crossing_tests};

use crate::writes::blocks::block_after;
use guest_memory::{Addr, WordMemory};
use ownership_rules::Refusal;
use segments::RingShape;
use trb::{Block, BlockFlags, BlockKind, Flags};

/// Which rule of its ring a write breaks first that gives a crossing; `awaits` tells whether the ring awaits its binding.
pub fn crossing_refusal<M: WordMemory>(
    shape: &RingShape,
    memory: &M,
    at: Addr,
    word: u32,
    awaits: bool,
    crossing: u64,
) -> Option<Refusal>
    requires { IsDriver shape.now }
    ensures { result ≡ first_broken (crossing_tests shape.now (M.words memory.now) at word awaits (crossing ∷ [])) }
{
    let segment = link_crossed(shape, crossing);
    let link = block_after(memory, at, word, shape.link(segment));
    if is_wrong_link(shape, segment, link) {
        return Some(Refusal::LinkFault);
    }
    if awaits {
        return Some(Refusal::Busy);
    }
    if has_interrupt(link) {
        return Some(Refusal::NotInProfile);
    }
    None
}

/// The segment whose Link is crossed on the way to a position.
fn link_crossed(shape: &RingShape, crossing: u64) -> u32
    requires { IsDriver shape.now }
    ensures value { result ≡ link_of shape.now crossing }
    ensures within { result < length (links shape.now) }
{
    shape.crossing(crossing).unwrap_or(0)
}

/// The block doesn't lead from a segment to the next one, or toggles the cycle elsewhere than at the ring's end.
fn is_wrong_link(shape: &RingShape, segment: u32, link: Block) -> bool
    requires { segment < length (links shape.now) }
    ensures { result ≡ is_wrong_link shape.now segment link }
{
    if link.pointer() / 16 * 16 != shape.target(segment) {
        return true;
    }
    if !is_link(link.kind()) {
        return true;
    }
    differ(has_toggle(link), shape.toggles(segment))
}

fn is_link(kind: BlockKind) -> bool
    ensures { result ≡ is_link kind }
{
    matches!(kind, BlockKind::Link)
}

/// Toggle Cycle (TC).
fn has_toggle(link: Block) -> bool
    ensures { result ≡ is_set (word link 3) 1 }
{
    link.flags().contains(BlockFlags::TOGGLE)
}

/// Interrupt On Completion (IOC).
fn has_interrupt(block: Block) -> bool
    ensures { result ≡ is_set (word block 3) 5 }
{
    block.flags().contains(BlockFlags::IOC)
}

fn differ(a: bool, b: bool) -> bool
    ensures { result ≡ not (same a b) }
{
    a != b
}
