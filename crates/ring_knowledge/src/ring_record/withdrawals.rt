ghost use Rattle.std.specs.Prelude.{◌≡◌, ◌+◌, ◌-◌, ◌%◌, ◌<◌, ◌≤◌, ◌^◌, ◌==◌, ◌&&◌, ◌||◌, not, ℕ, nat_le, true, false, length, slice_get, slice_index, slice_set, if◌then◌else◌, IfOk, IfSome, OnOk, OnErr};
ghost use Rattle.std.specs.BTreeSet.{contains};
ghost use Rattle.std.specs.List.{list_any, range_with_len};
ghost use Rattle.std.specs.Ordering.{nat_cmp};
ghost use Rattle.trb.specs.Block.{block_at, same_words};
ghost use Rattle.segments.specs.Descriptors.{no_ops};
ghost use Rattle.segments.specs.Givings.{descriptor_length, flips_passed, is_declared_as, is_not_restored, unrestored};
ghost use Rattle.segments.specs.Places.{address_of, cycle_of, is_in, place_count, place_of};
ghost use Rattle.segments.specs.RingKeeps.{IsRestored};
ghost use Rattle.segments.specs.RingView.{RingView, Restores, Withdraws, changed, floor_number, is_handed_over};
ghost use Rattle.segments.specs.Shape.{IsShape};
ghost use Rattle.segments.specs.ShapeValue.{Shape};
ghost use Rattle.segments.specs.Spots.{number};
ghost use Rattle.ring_knowledge.specs.BesideFree.{is_unrestored, stands_beside_free};
ghost use Rattle.ring_knowledge.specs.Marks.{is_noted};

use super::spots::crossing_behind;
use super::{RingRecord, has_cycle_of, is_marked, is_noted, number};
use guest_memory::{Addr, WordMemory};
use segments::{Place, RingShape};
use std::alloc::{AllocError, Global};
use std::collections::BTreeSet;
use trb::Block;

/// A No Op as it is declared (xHCI 6.4.1.4.1).
const NO_OP: Block = Block {
    w: [0, 0, 0, 0x2000],
};

impl RingRecord {
    ghost use Rattle.ring_knowledge.specs.RingRecords.{FollowsRing, IsNotPassed};

    /// How many blocks the descriptor has that begins at a position, which the floor hasn't passed whole; 0 where none begins.
    pub fn descriptor_length(&self, position: u64) -> u32
        ensures { (shape : Shape) (v : RingView) → FollowsRing shape v self.now → IsNotPassed v position → result ≡ descriptor_length v position }
    {
        self.length_at(position)
    }

    /// Whether the floor has passed whole the descriptor that begins at a position; where none begins, whether the position isn't behind the floor.
    pub fn has_passed(&self, position: u64) -> bool
        ensures { (shape : Shape) (v : RingView) → FollowsRing shape v self.now → result ≡ nat_le (position + descriptor_length v position) (floor_number v) }
    {
        let floor = number(self.floor);
        if position > floor {
            return false;
        }
        position + u64::from(self.length_at(position)) <= floor
    }

    /// Whether a descriptor begins at a position, which the floor hasn't passed whole, and none of its blocks was withdrawn before.
    pub fn may_withdraw(&self, position: u64) -> bool
        ensures { (shape : Shape) (v : RingView) → FollowsRing shape v self.now → IsNotPassed v position →
            result ≡ not (descriptor_length v position == 0 || list_any v.withdrawn (range_with_len position (descriptor_length v position))) }
    {
        let count = u64::from(self.length_at(position));
        count != 0 && !has_some(&self.withdrawn, position, count)
    }

    /// Notes that the descriptor that begins at a position is withdrawn, which the floor hasn't passed whole (xHCI 4.6.9): No Ops stand in place of its
    /// blocks, and those that were given are free. Want of memory changes nothing of what is known where none of its blocks was withdrawn before.
    pub fn withdraw(&mut self, shape: &RingShape, position: u64) -> Result<(), AllocError>
        ensures ok { OnOk result ((v : RingView) → FollowsRing shape.now v self.old → IsNotPassed v position → FollowsRing shape.now (changed shape.now v (Withdraws position)) self.new) }
        ensures err { OnErr result ((v : RingView) → FollowsRing shape.now v self.old → IsNotPassed v position →
            list_any v.withdrawn (range_with_len position (descriptor_length v position)) ≡ false → FollowsRing shape.now v self.new) }
    {
        let count = u64::from(self.length_at(position));
        let floor = number(self.floor);
        if let Err(refused) = add_numbers(&mut self.withdrawn, position, count) {
            remove_numbers(&mut self.withdrawn, position, count);
            return Err(refused);
        }
        if let Err(refused) = add_given(
            &mut self.free,
            shape,
            &self.given,
            floor,
            position,
            count,
        ) {
            remove_numbers(&mut self.withdrawn, position, count);
            remove_numbers(&mut self.free, position, count);
            return Err(refused);
        }
        let at = position.saturating_sub(self.forgotten);
        put_no_ops(&mut self.blocks, at, count);
        put_ones(&mut self.lengths, at, count);
        Ok(())
    }

    /// Notes that all that was free is the controller's again.
    pub fn restore(&mut self)
        ensures { (shape : Shape) (v : RingView) → FollowsRing shape v self.old → FollowsRing shape (changed shape v Restores) self.new }
    {
        self.free.clear();
    }

    /// Whether a free position of the ring is left.
    pub fn has_free(&self) -> bool
        ensures none { (shape : Shape) (v : RingView) → FollowsRing shape v self.now → result ≡ false → IsRestored v }
        ensures some { (shape : Shape) (v : RingView) → FollowsRing shape v self.now → result ≡ true → (p : ℕ) × (v.free p ≡ true) }
    {
        !self.free.is_empty()
    }

    /// Whether a position is given, and its words aren't the driver's again.
    pub fn is_handed_over(&self, shape: &RingShape, position: u64) -> bool
        ensures { (v : RingView) → FollowsRing shape.now v self.now → result ≡ is_handed_over v position }
    {
        let places = u64::from(shape.places());
        is_noted(
            number(self.floor),
            places,
            &self.given,
            shape.place(position) as usize,
            position,
        ) && !self.free.contains(&position)
    }

    /// The free positions from the floor on, in ascending order.
    pub fn free_positions(&self, alloc: Global) -> Result<Vec<u64>, AllocError>
        ensures { IfOk result (λ positions. (shape : Shape) (v : RingView) → FollowsRing shape v self.now → positions.items ≡ unrestored shape v) }
    {
        let floor = number(self.floor);
        let mut positions = Vec::new(alloc);
        for position in &self.free {
            if floor <= *position {
                positions.push(*position)?;
            }
        }
        Ok(positions)
    }

    /// Whether a free position from the floor on doesn't stand in memory as it is declared now.
    pub fn is_not_restored<M: WordMemory>(&self, shape: &RingShape, memory: &M) -> bool
        requires { IsShape shape.now }
        ensures { (v : RingView) → FollowsRing shape.now v self.now → result ≡ is_not_restored shape.now v (M.words memory.now) }
    {
        let floor = number(self.floor);
        for position in &self.free {
            if floor <= *position && !self.stands_declared(shape, memory, *position) {
                return true;
            }
        }
        false
    }

    /// Whether a position stands in memory as it is declared, with its cycle.
    fn stands_declared<M: WordMemory>(&self, shape: &RingShape, memory: &M, position: u64) -> bool
        requires { IsShape shape.now }
        ensures { self.now.forgotten ≤ position → result ≡ is_declared_as (block_at (M.words memory.now) (address_of shape.now position)) (cycle_of shape.now position) (slice_get self.now.blocks.items (position - self.now.forgotten)) }
    {
        let Some(declared) = self.declared_block(position) else {
            return true;
        };
        let standing = block_of(memory, shape.address(position));
        have_same_words(standing, declared.with_cycle(shape.cycle(position)))
    }

    /// The block that is declared at a position, if it isn't forgotten.
    pub(super) fn declared_block(&self, position: u64) -> Option<Block>
        ensures kept { self.now.forgotten ≤ position → result ≡ slice_get self.now.blocks.items (position - self.now.forgotten) }
        ensures few { IfSome result (λ block. position + 1 < 2 ^ 63) }
    {
        if position < self.forgotten {
            return None;
        }
        let at = (position - self.forgotten) as usize;
        self.blocks.get(at).copied()
    }

    /// Whether the write of a word flips the Cycle bit of a free position that the controller may have passed.
    #[tactic(auto, using(segments::proofs::DataPlaces::place_count_most))]
    pub fn flips_passed(&self, shape: &RingShape, at: Addr, word: u32) -> bool
        ensures { (v : RingView) → FollowsRing shape.now v self.now → result ≡ flips_passed shape.now v at word }
    {
        if self.free.is_empty() {
            return false;
        }
        match shape.place_at(at.get()) {
            Some(Place::Data { place, word: index }) => {
                if index != 3 {
                    return false;
                }
                let position = shape.next_at(number(self.floor), place);
                if !self.free.contains(&position) {
                    return false;
                }
                if position >= self.ceiling() {
                    return false;
                }
                !has_cycle_of(shape, position, word)
            }
            Some(Place::Link { .. }) => false,
            None => false,
        }
    }

    /// Whether the word at an address is the control word of a Link under lease that stands beside a free position (xHCI 4.11.5.1).
    pub fn stands_beside_free(&self, shape: &RingShape, at: Addr) -> bool
        ensures { (v : RingView) → FollowsRing shape.now v self.now → result ≡ stands_beside_free shape.now v at }
    {
        match shape.place_at(at.get()) {
            Some(
                Place::Link {
                    segment,
                    word: index,
                },
            ) => {
                if index != 3 {
                    return false;
                }
                if !is_marked(&self.crossed, segment as usize) {
                    return false;
                }
                let passed = number(self.floor).saturating_sub(1);
                let crossing = crossing_behind(shape, passed, segment);
                self.is_unrestored(crossing - 1) || self.is_unrestored(crossing)
            }
            Some(Place::Data { .. }) => false,
            None => false,
        }
    }

    /// Whether a position from the floor on is free.
    fn is_unrestored(&self, position: u64) -> bool
        ensures { (shape : Shape) (v : RingView) → FollowsRing shape v self.now → result ≡ is_unrestored v position }
    {
        number(self.floor) <= position && self.free.contains(&position)
    }

    /// Whether the block of a data place that is given is the controller's: its due position isn't free.
    #[inline(always)]
    #[tactic(auto, using(segments::proofs::DataPlaces::place_count_most))]
    pub(super) fn is_kept(&self, shape: &RingShape, place: u32) -> bool
        requires allowed { IsShape shape.now }
        requires place { place < place_count shape.now }
        ensures { (p : ℕ) → number self.now.floor ≤ p → p < number self.now.floor + place_count shape.now → place_of shape.now p ≡ place →
            result ≡ not (contains nat_cmp self.now.free p) }
    {
        if self.free.is_empty() {
            return true;
        }
        let position = shape.next_at(number(self.floor), place);
        !self.free.contains(&position)
    }
}

/// The block at an address of memory.
fn block_of<M: WordMemory>(memory: &M, base: u64) -> Block
    requires { base % 16 ≡ 0 }
    ensures { result ≡ block_at (M.words memory.now) base }
{
    Block {
        w: memory.block(Addr::new(base).unwrap()),
    }
}

/// The same four words.
fn have_same_words(a: Block, b: Block) -> bool
    ensures { result ≡ same_words a b }
{
    a.w[0] == b.w[0] && a.w[1] == b.w[1] && a.w[2] == b.w[2] && a.w[3] == b.w[3]
}

/// One of the numbers from one on is in the set.
fn has_some(set: &BTreeSet<u64>, from: u64, count: u64) -> bool
    requires { from + count < 2 ^ 64 }
    ensures { result ≡ list_any (λ q. contains nat_cmp set.now q) (range_with_len from count) }
{
    for number in from..from + count {
        if set.contains(&number) {
            return true;
        }
    }
    false
}

/// Adds the numbers from one on. At want of memory some of them may be in the set.
fn add_numbers(set: &mut BTreeSet<u64>, from: u64, count: u64) -> Result<(), AllocError>
    requires { from + count < 2 ^ 64 }
    ensures all { OnOk result ((q : ℕ) → contains nat_cmp set.new q ≡ (contains nat_cmp set.old q || is_in q from count)) }
    ensures elsewhere { (q : ℕ) → is_in q from count ≡ false → contains nat_cmp set.new q ≡ contains nat_cmp set.old q }
{
    for number in from..from + count {
        set.insert(number)?;
    }
    Ok(())
}

/// Adds those positions from one on that are given. At want of memory some of them may be in the set.
fn add_given(
    set: &mut BTreeSet<u64>,
    shape: &RingShape,
    given: &[bool],
    floor: u64,
    from: u64,
    count: u64,
) -> Result<(), AllocError>
    requires fits { from + count < 2 ^ 64 }
    requires least { floor < 2 ^ 63 }
    ensures all { OnOk result ((q : ℕ) → contains nat_cmp set.new q ≡ (contains nat_cmp set.old q || (is_in q from count && is_noted floor (place_count shape.now) given.now (place_of shape.now q) q))) }
    ensures elsewhere { (q : ℕ) → is_in q from count ≡ false → contains nat_cmp set.new q ≡ contains nat_cmp set.old q }
{
    let places = u64::from(shape.places());
    for position in from..from + count {
        if is_noted(
            floor,
            places,
            given,
            shape.place(position) as usize,
            position,
        ) {
            set.insert(position)?;
        }
    }
    Ok(())
}

/// Removes the numbers from one on.
pub(super) fn remove_numbers(set: &mut BTreeSet<u64>, from: u64, count: u64)
    requires { from + count < 2 ^ 64 }
    ensures { (q : ℕ) → contains nat_cmp set.new q ≡ (contains nat_cmp set.old q && not (is_in q from count)) }
{
    for number in from..from + count {
        set.remove(&number);
    }
}

/// Puts No Ops in place of the blocks from a position on.
fn put_no_ops(blocks: &mut Vec<Block>, from: u64, count: u64)
    requires { from + count < 2 ^ 64 }
    ensures { blocks.new.items ≡ no_ops blocks.old.items from count }
{
    for position in from..from + count {
        put_block(blocks, position as usize, NO_OP);
    }
}

/// Puts a block in place of another.
fn put_block(blocks: &mut Vec<Block>, at: usize, block: Block)
    ensures { blocks.new.items ≡ slice_set blocks.old.items at block }
{
    if let Some(place) = blocks.get_mut(at) {
        *place = block;
    }
}

/// Makes the lengths of the positions from one on 1.
fn put_ones(lengths: &mut Vec<u32>, from: u64, count: u64)
    requires { from + count < 2 ^ 64 }
    ensures as_many { length lengths.new.items ≡ length lengths.old.items }
    ensures ones { (q : ℕ) → q < length lengths.old.items → slice_index lengths.new.items q ≡ (if is_in q from count then 1 else slice_index lengths.old.items q) }
{
    for position in from..from + count {
        if let Some(length) = lengths.get_mut(position as usize) {
            *length = 1;
        }
    }
}
