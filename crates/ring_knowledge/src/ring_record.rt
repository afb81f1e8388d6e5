ghost use Rattle.std.specs.Prelude.{◌≡◌, ◌+◌, ◌-◌, ◌%◌, ◌<◌, ◌≤◌, ◌^◌, ◌==◌, ◌||◌, not, ℕ, max, true, false, [], ◌∷◌, length, slice_get, slice_index, slice_index_or, slice_set, IfOk, IfSome, OnOk, OnErr};
ghost use Rattle.std.specs.List.{list_any};
ghost use Rattle.trb.specs.Descriptor.{most_blocks};
ghost use Rattle.segments.specs.Spots.{number};
ghost use Rattle.segments.specs.ShapeValue.{Shape};
ghost use Rattle.segments.specs.Places.{address_of, cycle_of, ends, link_address, link_crossed, links, overlap, place_count, place_of};
ghost use Rattle.segments.specs.PlaceAt.{place_at};
ghost use Rattle.segments.specs.Shape.{IsShape};
ghost use Rattle.segments.specs.Ceiling.{ceiling, given_count, is_open, is_step_given};
ghost use Rattle.segments.specs.Moves.{is_reached};
ghost use Rattle.segments.specs.Givings.{has_no_room, is_not_whole};
ghost use Rattle.segments.specs.RingView.{RingView, Declares, Holds, Opens, Reaches, Writes, changed, crossings_given, declared, floor_number, gives, gives_crossing, leased_crossings, leased_positions, new_ring, positions_given};
ghost use Rattle.ring_knowledge.specs.Marks.{AreCleared, is_noted};

mod changes;
mod forgetting;
mod moves;
mod resets;
mod spots;
mod withdrawals;

use guest_memory::Addr;
pub use moves::is_data_below;
use segments::{Place, RingShape, Spot};
use spots::crossing_behind;
use std::alloc::{AllocError, Global};
use std::collections::BTreeSet;
use trb::Block;

/// More positions than a ring ever has.
const MOST_DECLARED: usize = 1 << 62;

/// What a write gives of one ring (xHCI 4.9.2).
#[derive(Clone, Copy, Debug, PartialEq, Eq)]
pub enum RingGiving {
    /// A declared position.
    Position(u64),
    /// A crossing: the position to which its Link leads.
    Crossing(u64),
}

/// How a word of a command or transfer ring stands.
#[derive(Clone, Copy, Debug, PartialEq, Eq)]
pub struct WordStanding {
    /// The controller may own it: it lies in a block or a Link that is given and that the controller may not have passed.
    pub is_lent: bool,
    /// What its write gives of the ring, if it gives anything.
    pub giving: Option<RingGiving>,
}

/// What one pass over a trace keeps of a command or transfer ring: what is declared, what is given, and how far its
/// controller's dequeue pointer has surely come. Contracts compare it with the `RingView` that it follows.
#[derive(Drop)]
pub struct RingRecord {
    /// So many positions are forgotten, which the floor has passed.
    forgotten: u64,
    /// The blocks that are declared behind them.
    blocks: Vec<Block>,
    /// Of each of these: how many blocks the descriptor has that begins there; 0 where none begins.
    lengths: Vec<u32>,
    /// By data place: its due position is given.
    given: Vec<bool>,
    /// By segment: the due crossing of its Link is given.
    crossed: Vec<bool>,
    /// The positions that hold a No Op in place of a block that was withdrawn.
    withdrawn: BTreeSet<u64>,
    /// Those of them that were given before and aren't restored yet: their words are the driver's.
    free: BTreeSet<u64>,
    floor: Spot,
    held: Option<u64>,
    /// The least number at which the position, or the crossing to it, isn't given.
    count: u64,
    ghost floor_fits: { number floor < 2 ^ 63 },
    ghost forgotten_fits: { forgotten ≤ 2 ^ 61 },
    ghost end_fits: { forgotten + length blocks.items ≤ 2 ^ 62 + most_blocks },
}

impl RingRecord {
    ghost use Rattle.ring_knowledge.specs.RingRecords.{FollowsMarks, FollowsRing, crossings_of, is_the, positions_of};

    /// The record before anything happens on the ring.
    pub fn new(alloc: Global, shape: &RingShape) -> Result<RingRecord, AllocError>
        ensures { IfOk result (λ r. FollowsRing shape.now new_ring r) }
    {
        let places = shape.places() as usize;
        let segments = shape.segments().len();
        Ok(RingRecord {
            forgotten: 0,
            blocks: Vec::new(alloc),
            lengths: Vec::new(alloc),
            given: vec![in alloc; false; places]?,
            crossed: vec![in alloc; false; segments]?,
            withdrawn: BTreeSet::new(alloc),
            free: BTreeSet::new(alloc),
            floor: Spot::Data(0),
            held: Some(0),
            count: 0,
        })
    }

    /// Whether the ring has room for this many blocks more: one place stays empty.
    pub fn has_room(&self, shape: &RingShape, count: usize) -> bool
        ensures { (v : RingView) → FollowsRing shape.now v self.now → result ≡ not (has_no_room shape.now v count) }
    {
        let most = u64::from(shape.places()) - 1 + number(self.floor);
        count as u64 <= most.saturating_sub(self.end() as u64)
    }

    /// Adds the blocks of one descriptor, for which there is room, to what is declared. Want of memory changes nothing
    /// of what is known.
    pub fn declare(&mut self, blocks: &[Block]) -> Result<(), AllocError>
        requires some { 0 < length blocks.now }
        requires few { length blocks.now ≤ most_blocks }
        ensures ok { OnOk result ((shape : Shape) (v : RingView) → FollowsRing shape v self.old →
            has_no_room shape v (length blocks.now) ≡ false → FollowsRing shape (changed shape v (Declares blocks.now)) self.new) }
        ensures err { OnErr result ((shape : Shape) (v : RingView) → FollowsRing shape v self.old → FollowsRing shape v self.new) }
    {
        // no trace has so many lines
        if self.end() > MOST_DECLARED {
            return Err(AllocError);
        }
        match blocks {
            [block] => self.declare_one(*block),
            _ => self.declare_several(blocks),
        }
    }

    /// The same of a descriptor of one block, as most are.
    fn declare_one(&mut self, block: Block) -> Result<(), AllocError>
        requires room { self.old.forgotten + length self.old.blocks.items ≤ 2 ^ 62 }
        ensures ok { OnOk result ((shape : Shape) (v : RingView) → FollowsRing shape v self.old →
            has_no_room shape v 1 ≡ false → FollowsRing shape (changed shape v (Declares (block ∷ []))) self.new) }
        ensures err { OnErr result ((shape : Shape) (v : RingView) → FollowsRing shape v self.old → FollowsRing shape v self.new) }
    {
        let end = self.lengths.len();
        self.lengths.push(1)?;
        if let Err(refused) = self.blocks.push(block) {
            self.lengths.truncate(end);
            return Err(refused.into());
        }
        Ok(())
    }

    /// The same of a descriptor of any blocks.
    #[inline(never)]
    fn declare_several(&mut self, blocks: &[Block]) -> Result<(), AllocError>
        requires room { self.old.forgotten + length self.old.blocks.items ≤ 2 ^ 62 }
        requires some { 0 < length blocks.now }
        requires few { length blocks.now ≤ most_blocks }
        ensures ok { OnOk result ((shape : Shape) (v : RingView) → FollowsRing shape v self.old →
            has_no_room shape v (length blocks.now) ≡ false → FollowsRing shape (changed shape v (Declares blocks.now)) self.new) }
        ensures err { OnErr result ((shape : Shape) (v : RingView) → FollowsRing shape v self.old → FollowsRing shape v self.new) }
    {
        let start = self.lengths.len();
        self.lengths.resize(start + blocks.len(), 0)?;
        if let Err(refused) = self.blocks.extend_from_slice(blocks) {
            self.lengths.truncate(start);
            return Err(refused);
        }
        self.lengths[start] = blocks.len() as u32;
        Ok(())
    }

    /// How the word at an address stands, and what its write gives.
    #[inline(always)]
    pub fn look(&self, shape: &RingShape, at: Addr, word: u32) -> WordStanding
        ensures lent { (v : RingView) → FollowsRing shape.now v self.now → result.is_lent ≡
            (list_any (λ p. overlap at 4 (address_of shape.now p) 16) (leased_positions shape.now v)
            || list_any (λ q. overlap at 4 (link_address shape.now q) 16) (leased_crossings shape.now v)) }
        ensures positions { (v : RingView) → FollowsRing shape.now v self.now → positions_given shape.now v at word ≡ positions_of result.giving }
        ensures crossings { (v : RingView) → FollowsRing shape.now v self.now → crossings_given shape.now v at word ≡ crossings_of result.giving }
    {
        match shape.place_at(at.get()) {
            Some(Place::Data { place, word: index }) => {
                if is_marked(&self.given, place as usize) {
                    return WordStanding {
                        is_lent: self.is_kept(shape, place),
                        giving: None,
                    };
                }
                let position = self.position_by(shape, at, place, index, word);
                WordStanding {
                    is_lent: false,
                    giving: position.map(RingGiving::Position),
                }
            }
            Some(
                Place::Link {
                    segment,
                    word: index,
                },
            ) => {
                if is_marked(&self.crossed, segment as usize) {
                    return WordStanding {
                        is_lent: true,
                        giving: None,
                    };
                }
                let crossing = self.crossing_by(shape, at, segment, index, word);
                WordStanding {
                    is_lent: false,
                    giving: crossing.map(RingGiving::Crossing),
                }
            }
            None => WordStanding {
                is_lent: false,
                giving: None,
            },
        }
    }

    /// The position that the write of a word of a data place would give, were it not given yet.
    #[inline(always)]
    #[tactic(auto, using(segments::proofs::DataPlaces::place_count_most))]
    fn position_by(
        &self,
        shape: &RingShape,
        at: Addr,
        place: u32,
        index: u8,
        word: u32,
    ) -> Option<u64>
        requires at { place_at shape.now at ≡ Some (Place.Data place index) }
        requires allowed { IsShape shape.now }
        ensures gives { (p : ℕ) → gives shape.now self.now.floor p at word ≡ is_the result p }
        ensures due { IfSome result (λ p. (number self.now.floor ≤ p) × (p < number self.now.floor + place_count shape.now) × (place_of shape.now p ≡ place)) }
    {
        if index != 3 {
            return None;
        }
        let position = shape.next_at(number(self.floor), place);
        if has_cycle_of(shape, position, word) {
            Some(position)
        } else {
            None
        }
    }

    /// The crossing that the write of a word of a Link would give, were it not given yet.
    #[inline(never)]
    fn crossing_by(
        &self,
        shape: &RingShape,
        at: Addr,
        segment: u32,
        index: u8,
        word: u32,
    ) -> Option<u64>
        requires at { place_at shape.now at ≡ Some (Place.Link segment index) }
        requires allowed { IsShape shape.now }
        ensures gives { (q : ℕ) → gives_crossing shape.now self.now.floor q at word ≡ is_the result q }
        ensures due { IfSome result (λ q. (max (number self.now.floor) 1 ≤ q) × (q < max (number self.now.floor) 1 + place_count shape.now)
            × (link_crossed shape.now q ≡ Some segment)) }
    {
        if index != 3 {
            return None;
        }
        let crossing = crossing_behind(shape, number(self.floor).saturating_sub(1), segment);
        if has_cycle_of(shape, crossing - 1, word) {
            Some(crossing)
        } else {
            None
        }
    }

    /// How many blocks are declared.
    pub fn declared_count(&self) -> usize
        ensures { (shape : Shape) (v : RingView) → FollowsRing shape v self.now → result ≡ declared v }
    {
        self.end()
    }

    /// The number behind all positions that are declared.
    fn end(&self) -> usize
        ensures value { result ≡ self.now.forgotten + length self.now.blocks.items }
        ensures few { result < 2 ^ 63 }
    {
        self.forgotten as usize + self.blocks.len()
    }

    /// The block that is declared at a position from the floor on.
    pub fn declared(&self, position: u64) -> Option<Block>
        ensures value { (shape : Shape) (v : RingView) → FollowsRing shape v self.now → floor_number v ≤ position → result ≡ slice_get v.queue position }
        ensures few { IfSome result (λ block. position + 1 < 2 ^ 63) }
    {
        self.declared_block(position)
    }

    /// Whether no descriptor begins at a position from the floor on, or all its further blocks, and the crossings between its blocks, are given.
    pub fn is_whole(&self, shape: &RingShape, position: u64) -> bool
        ensures { (v : RingView) → FollowsRing shape.now v self.now → floor_number v ≤ position → result ≡ not (is_not_whole shape.now v position) }
    {
        let length = self.length_at(position);
        for offset in 1..length {
            if !self.is_step_given(shape, position + u64::from(offset)) {
                return false;
            }
        }
        true
    }

    /// How many blocks the descriptor has that begins at a position that isn't forgotten; 0 where none begins.
    fn length_at(&self, position: u64) -> u32
        ensures value { self.now.forgotten ≤ position → result ≡ slice_index self.now.lengths.items (position - self.now.forgotten) }
        ensures fits { 0 < result → (self.now.forgotten ≤ position) × (position < 2 ^ 63) }
    {
        if position < self.forgotten {
            return 0;
        }
        let at = (position - self.forgotten) as usize;
        self.lengths.get(at).copied().unwrap_or(0)
    }

    /// A position, and the crossing on the way to it, are given.
    fn is_step_given(&self, shape: &RingShape, q: u64) -> bool
        ensures { (v : RingView) → FollowsMarks shape.now v self.now → result ≡ is_step_given shape.now v q }
    {
        let places = u64::from(shape.places());
        let floor = number(self.floor);
        if !is_noted(floor, places, &self.given, shape.place(q) as usize, q) {
            return false;
        }
        match shape.crossing(q) {
            None => true,
            Some(segment) => is_noted(floor.max(1), places, &self.crossed, segment as usize, q),
        }
    }

    /// Notes what the write of a word gives of the ring, if it gives anything.
    #[inline(always)]
    pub fn note_giving(&mut self, shape: &RingShape, giving: Option<RingGiving>)
        ensures { (v : RingView) (at word : ℕ) → FollowsRing shape.now v self.old →
            positions_given shape.now v at word ≡ positions_of giving → crossings_given shape.now v at word ≡ crossings_of giving →
            FollowsRing shape.now (changed shape.now v (Writes at word)) self.new }
    {
        match giving {
            None => {}
            Some(RingGiving::Position(position)) => {
                set_mark(&mut self.given, shape.place(position) as usize, true);
                self.count = self.first_not_given(shape, self.count);
            }
            Some(RingGiving::Crossing(crossing)) => {
                if let Some(segment) = shape.crossing(crossing) {
                    set_mark(&mut self.crossed, segment as usize, true);
                    self.count = self.first_not_given(shape, self.count);
                }
            }
        }
    }

    /// The least number from another one on at which the position, or the crossing to it, isn't given.
    fn first_not_given(&self, shape: &RingShape, from: u64) -> u64
        ensures steps { (v : RingView) → FollowsMarks shape.now v self.now → (q : ℕ) → from ≤ q → q < result → is_step_given shape.now v q ≡ true }
        ensures stop { (v : RingView) → FollowsMarks shape.now v self.now → is_step_given shape.now v result ≡ false }
    {
        let end = number(self.floor) + u64::from(shape.places());
        for q in from..end {
            if !self.is_step_given(shape, q) {
                return q;
            }
        }
        end
    }

    /// How many positions are given without a gap, with the crossings to them.
    pub fn given_count(&self) -> u64
        ensures { (shape : Shape) (v : RingView) → FollowsRing shape v self.now → result ≡ given_count shape v }
    {
        self.count
    }

    /// Up to which number the controller may have gone: all that is given where the ring is open, else where it is held.
    pub fn ceiling(&self) -> u64
        ensures { (shape : Shape) (v : RingView) → FollowsRing shape v self.now → result ≡ ceiling shape v }
    {
        self.held.unwrap_or(self.count)
    }

    /// Whether the ring is open.
    pub fn is_open(&self) -> bool
        ensures { (shape : Shape) (v : RingView) → FollowsRing shape v self.now → result ≡ is_open v }
    {
        self.held.is_none()
    }

    /// The spot that the controller's dequeue pointer has surely reached.
    pub fn floor(&self) -> Spot
        ensures { (shape : Shape) (v : RingView) → FollowsRing shape v self.now → result ≡ v.floor }
    {
        self.floor
    }

    /// The number of that spot: the position that the controller finishes next.
    pub fn floor_number(&self) -> u64
        ensures value { (shape : Shape) (v : RingView) → FollowsRing shape v self.now → result ≡ floor_number v }
        ensures fits { result < 2 ^ 63 }
    {
        number(self.floor)
    }

    /// Opens the ring.
    pub fn open(&mut self)
        ensures { (shape : Shape) (v : RingView) → FollowsRing shape v self.old → FollowsRing shape (changed shape v Opens) self.new }
    {
        self.held = None;
    }

    /// Holds the ring at a number.
    pub fn hold(&mut self, number: u64)
        ensures { (shape : Shape) (v : RingView) → FollowsRing shape v self.old → FollowsRing shape (changed shape v (Holds number)) self.new }
    {
        self.held = Some(number);
    }

    /// Notes that the controller's dequeue pointer has reached a spot, before which all is given: the places that it has
    /// passed may be given anew.
    pub fn reach(&mut self, shape: &RingShape, spot: Spot)
        requires { number spot < 2 ^ 63 }
        ensures { (v : RingView) → FollowsRing shape.now v self.old → floor_number v ≤ number spot → is_reached shape.now v spot ≡ true →
            FollowsRing shape.now (changed shape.now v (Reaches spot)) self.new }
    {
        let passed = number(self.floor);
        clear_places(&mut self.given, shape, passed, number(spot));
        clear_links(&mut self.crossed, shape, passed, number(spot));
        self.floor = spot;
        self.forget_passed(u64::from(shape.places()));
    }
}

/// The number of a spot.
fn number(spot: Spot) -> u64
    ensures { result ≡ number spot }
{
    match spot {
        Spot::Data(position) => position,
        Spot::Link(position) => position,
    }
}

/// The mark is set.
fn is_marked(marks: &[bool], at: usize) -> bool
    ensures { result ≡ slice_index_or marks.now at false }
{
    marks.get(at).copied().unwrap_or(false)
}

/// Sets a mark, or clears it.
fn set_mark(marks: &mut Vec<bool>, at: usize, is_set: bool)
    ensures { marks.new.items ≡ slice_set marks.old.items at is_set }
{
    if let Some(mark) = marks.get_mut(at) {
        *mark = is_set;
    }
}

/// Clears the marks of the places of the positions from one to another.
fn clear_places(marks: &mut Vec<bool>, shape: &RingShape, from: u64, to: u64)
    ensures { from ≤ to → AreCleared (λ p i. place_of shape.now p ≡ i) marks.old.items marks.new.items from to }
{
    for position in from..to {
        set_mark(marks, shape.place(position) as usize, false);
    }
}

/// Clears the marks of the Links that are crossed on the way to the positions from one to another.
fn clear_links(marks: &mut Vec<bool>, shape: &RingShape, from: u64, to: u64)
    ensures { from ≤ to → AreCleared (λ q j. link_crossed shape.now q ≡ Some j) marks.old.items marks.new.items from to }
{
    for position in from..to {
        if let Some(segment) = shape.crossing(position) {
            set_mark(marks, segment as usize, false);
        }
    }
}

/// A number is given: it lies below the least due one, or it is due and its mark is set.
#[tactic(auto, unfolding(crate::specs::Marks::is_noted))]
fn is_noted(least: u64, count: u64, marks: &[bool], at: usize, number: u64) -> bool
    requires { least + count < 2 ^ 64 }
    ensures { result ≡ is_noted least count marks.now at number }
{
    number < least || number < least + count && is_marked(marks, at)
}

/// The data place before the Link of a segment.
#[inline(never)]
fn place_before(shape: &RingShape, segment: u32) -> u32
    requires allowed { IsShape shape.now }
    requires segment { segment < length (links shape.now) }
    ensures end { result + 1 ≡ slice_index (ends shape.now) segment }
    ensures place { result < place_count shape.now }
{
    match shape.place_at(shape.link(segment) - 16) {
        Some(Place::Data { place, .. }) => place,
        Some(Place::Link { .. }) => unreachable!(),
        None => unreachable!(),
    }
}

/// The word has the Cycle bit of a position.
fn has_cycle_of(shape: &RingShape, position: u64, word: u32) -> bool
    ensures { result ≡ (word % 2 == cycle_of shape.now position) }
{
    shape.cycle(position) == (word % 2 == 1)
}
