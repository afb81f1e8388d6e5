//! The rules of a position that a write gives: xHCI 4.9.2, 4.11.
ghost use Rattle.std.specs.Prelude.{◌≡◌, ◌≤◌, [], ◌∷◌};
ghost use Rattle.trb.specs.Block.{same_words};
ghost use Rattle.segments.specs.RingView.{RingView, floor_number};
ghost use Rattle.segments.specs.Shape.{IsShape};
ghost use Rattle.ring_knowledge.specs.RingRecords.{FollowsRing};
ghost use Rattle.ownership_rules.specs.FirstBroken.{first_broken};
ghost use Rattle.driver_rows.specs.MemoryWrites.WriteTests.{position_tests};

use crate::writes::blocks::block_after;
use guest_memory::{Addr, WordMemory};
use ownership_rules::Refusal;
use ring_knowledge::RingRecord;
use segments::RingShape;
use trb::Block;

/// Which rule of its ring a write breaks first that gives a position, which isn't below the floor.
pub fn position_refusal<M: WordMemory>(
    shape: &RingShape,
    known: &RingRecord,
    memory: &M,
    at: Addr,
    word: u32,
    position: u64,
) -> Option<Refusal>
    requires { IsShape shape.now }
    ensures { (v : RingView) → FollowsRing shape.now v known.now → floor_number v ≤ position →
        result ≡ first_broken (position_tests shape.now v (M.words memory.now) at word (position ∷ [])) }
{
    let Some(declared) = known.declared(position) else {
        return Some(Refusal::NotDeclared);
    };
    let given = block_after(memory, at, word, shape.address(position));
    if !have_same_words(given, declared.with_cycle(shape.cycle(position))) {
        return Some(Refusal::NotAsSubmitted);
    }
    if !known.is_whole(shape, position) {
        return Some(Refusal::NotWhole);
    }
    None
}

/// The same four words.
fn have_same_words(a: Block, b: Block) -> bool
    ensures { result ≡ same_words a b }
{
    a.w[0] == b.w[0] && a.w[1] == b.w[1] && a.w[2] == b.w[2] && a.w[3] == b.w[3]
}
