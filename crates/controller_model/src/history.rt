ghost use Rattle.std.specs.Prelude.{◌≡◌, ℕ, ◌+◌, ◌-◌, ◌==◌, ◌∷◌, ◌&&◌, ◌^◌, [], List, Option, Some, None, length, OnOk, IsTrue, IfSome, true, false, ◌≤◌, ◌<◌, option_map};
ghost use Rattle.trb.specs.Block.{same_words};
ghost use Rattle.trb.specs.declared.block.Block.{Block};
ghost use Rattle.segments.specs.ShapeValue.{Shape};
ghost use Rattle.segments.specs.Places.{address_of, is_crossing, link_address, place_count, place_of};
ghost use Rattle.world_state.specs.World.{RingEvent, Took, Placed};
ghost use Rattle.world_state.specs.Takes.{takes_of, first_at, is_as_declared, is_place};
ghost use Rattle.world_state.specs.Harms.{is_end, is_right_place};
ghost use Rattle.controller_model.specs.Declarations.{as_declared};
ghost use Rattle.controller_model.specs.Histories.{Keeps, ShowsHarms};

use crate::declared::Declared;
use crate::takes::take_of;
use segments::{Place, RingShape};
use std::alloc::{AllocError, Global};
use std::collections::VecDeque;
use trb::Block;
use world_state::Take;

/// What happened on a ring, as far as it decides harms and later steps.
#[derive(Drop)]
pub struct History {
    /// The position of the next take.
    next: u64,
    /// The pointer was set, and nothing was taken since.
    was_placed: bool,
    /// The last take isn't the last block of its descriptor, and the pointer wasn't set since.
    is_inside: bool,
    /// Some take was out of order, or of other words than the declared ones.
    out_of_order: bool,
    other_words: bool,
    /// The takes that weren't reported, the oldest first.
    unreported: VecDeque<Take>,
}

/// Whether an address names the place of a position, by its block or by the Link before it.
#[tactic(auto, unfolding(world_state::specs::Takes::is_place))]
fn is_place(shape: &RingShape, address: u64, position: u64) -> bool
    ensures { result ≡ is_place shape.now address position }
{
    shape.address(position) == address || leads_over(shape, address, position)
}

/// Whether a Link at this address is crossed on the way to a position.
fn leads_over(shape: &RingShape, address: u64, position: u64) -> bool
    ensures { result ≡ (is_crossing shape.now position && link_address shape.now position == address) }
{
    match shape.crossing(position) {
        None => false,
        Some(segment) => shape.link(segment) == address,
    }
}

/// The number of the data place at an address: of each position that lies there.
fn data_place(shape: &RingShape, address: u64) -> Option<u32>
    ensures place { (p : ℕ) → address_of shape.now p ≡ address → result ≡ Some (place_of shape.now p) }
    ensures below { IfSome result (λ place. place < place_count shape.now) }
{
    let _ = shape.places();
    match shape.place_at(address) {
        Some(Place::Data { place, .. }) => Some(place),
        Some(Place::Link { .. }) => None,
        None => None,
    }
}

/// The number of the data place that an address names, by its block or by the Link before it: of each position there.
#[tactic(auto, using(crate::proofs::NamedPlaces::names, crate::proofs::NamedPlaces::at_crossing, crate::proofs::NamedPlaces::at_block))]
fn place_named(shape: &RingShape, address: u64) -> Option<u32>
    ensures place { (p : ℕ) → is_place shape.now address p ≡ true → result ≡ Some (place_of shape.now p) }
    ensures below { IfSome result (λ place. place < place_count shape.now) }
{
    let _ = shape.places();
    match shape.place_at(address) {
        Some(Place::Data { .. }) => data_place(shape, address),
        Some(Place::Link { segment, .. }) => data_place(shape, shape.target(segment)),
        None => None,
    }
}

/// The least position from `from` on at the place that an address names; `from` where there is none.
fn first_at(shape: &RingShape, address: u64, from: u64) -> u64
    requires { from + place_count shape.now < 2 ^ 64 }
    ensures { result ≡ first_at shape.now address from }
{
    let place = match place_named(shape, address) {
        None => return from,
        Some(place) => place,
    };
    let position = shape.next_at(from, place);
    if is_place(shape, address, position) {
        position
    } else {
        from
    }
}

/// Whether two blocks have the same words.
pub(crate) fn same_words(a: &Block, b: &Block) -> bool
    ensures { result ≡ same_words a.now b.now }
{
    a.w[0] == b.w[0] && a.w[1] == b.w[1] && a.w[2] == b.w[2] && a.w[3] == b.w[3]
}

/// Whether a block was declared that begins a descriptor where it has to.
#[tactic(auto, unfolding(world_state::specs::Harms::is_right_place))]
fn is_right_place(is_first: bool, declared: Option<Declared>) -> bool
    ensures { result ≡ is_right_place is_first (option_map as_declared declared) }
{
    match declared {
        None => false,
        Some(declared) => !is_first || declared.begins,
    }
}

/// Whether a block was declared that ends a descriptor.
#[tactic(auto, unfolding(world_state::specs::Harms::is_end))]
fn is_end(declared: Option<Declared>) -> bool
    ensures { result ≡ is_end (option_map as_declared declared) }
{
    match declared {
        None => false,
        Some(declared) => declared.ends,
    }
}

/// Whether the words are those declared at a position, with its Cycle bit.
#[tactic(auto, using(crate::proofs::HistoryLemmas::as_bit), unfolding(world_state::specs::Takes::is_as_declared))]
fn is_as_declared(
    shape: &RingShape,
    declared: Option<Declared>,
    position: u64,
    block: &Block,
) -> bool
    ensures { result ≡ is_as_declared shape.now (option_map as_declared declared) position block.now }
{
    match declared {
        None => false,
        Some(declared) => {
            let wanted = declared.block.with_cycle(shape.cycle(position));
            same_words(block, &wanted)
        }
    }
}

impl History {
    /// Nothing happened.
    pub(crate) fn new(alloc: Global) -> History
        ensures keeps { (shape : Shape) → Keeps shape [] 0 result }
        ensures harms { (shape : Shape) → ShowsHarms shape [] result }
    {
        History {
            next: 0,
            was_placed: false,
            is_inside: false,
            out_of_order: false,
            other_words: false,
            unreported: VecDeque::new(alloc),
        }
    }

    /// Nothing happened after all.
    pub(crate) fn clear(&mut self)
        ensures keeps { (shape : Shape) → Keeps shape [] 0 self.new }
        ensures harms { (shape : Shape) → ShowsHarms shape [] self.new }
    {
        self.next = 0;
        self.was_placed = false;
        self.is_inside = false;
        self.out_of_order = false;
        self.other_words = false;
        self.unreported.clear();
    }

    /// The position of the next take.
    pub(crate) fn next(&self) -> u64
        ensures { result ≡ self.now.next }
    {
        self.next
    }

    /// The last take isn't the last block of its descriptor, and the pointer wasn't set since.
    pub(crate) fn is_inside(&self) -> bool
        ensures { result ≡ self.now.is_inside }
    {
        self.is_inside
    }

    /// Some take was out of order.
    pub(crate) fn is_out_of_order(&self) -> bool
        ensures { result ≡ self.now.out_of_order }
    {
        self.out_of_order
    }

    /// Some take was of other words than the declared ones.
    pub(crate) fn has_other_words(&self) -> bool
        ensures { result ≡ self.now.other_words }
    {
        self.other_words
    }

    /// A block is taken, with what is declared at its position.
    pub(crate) fn take(
        &mut self,
        shape: &RingShape,
        address: u64,
        block: &Block,
        declared: Option<Declared>,
    ) -> Result<(), AllocError>
        ensures keeps { OnOk result ((events : List RingEvent) (reported : ℕ) → Keeps shape.now events reported self.old →
            Keeps shape.now (Took address block.now (option_map as_declared declared) ∷ events) reported self.new) }
        ensures harms { OnOk result ((events : List RingEvent) (reported : ℕ) → Keeps shape.now events reported self.old → ShowsHarms shape.now events self.old →
            ShowsHarms shape.now (Took address block.now (option_map as_declared declared) ∷ events) self.new) }
    {
        let is_right = is_right_place(self.was_placed, declared);
        let is_there = shape.address(self.next) == address;
        let is_same = is_as_declared(shape, declared, self.next, block);
        self.take_anywhere(address, block, declared)?;
        self.out_of_order = !is_right | !is_there | self.out_of_order;
        self.other_words = !is_same | self.other_words;
        Ok(())
    }

    /// A block is taken, wherever the ring's places are; which harm that is isn't asked.
    pub(crate) fn take_anywhere(
        &mut self,
        address: u64,
        block: &Block,
        declared: Option<Declared>,
    ) -> Result<(), AllocError>
        ensures keeps { OnOk result ((shape : Shape) (events : List RingEvent) (reported : ℕ) → Keeps shape events reported self.old →
            Keeps shape (Took address block.now (option_map as_declared declared) ∷ events) reported self.new) }
        ensures order { self.new.out_of_order ≡ self.old.out_of_order }
        ensures words { self.new.other_words ≡ self.old.other_words }
    {
        let next = self.next.checked_add(1).ok_or(AllocError)?;
        self.unreported.push_back(take_of(address, block))?;
        self.is_inside = !is_end(declared);
        self.was_placed = false;
        self.next = next;
        Ok(())
    }

    /// The pointer is set to an address, with a shape that has a block there; all takes count as reported.
    pub(crate) fn place(&mut self, shape: &RingShape, address: u64) -> Result<(), AllocError>
        ensures keeps { OnOk result ((events : List RingEvent) (reported : ℕ) → Keeps shape.now events reported self.old →
            Keeps shape.now (Placed address ∷ events) (length (takes_of events)) self.new) }
        ensures harms { OnOk result ((events : List RingEvent) → ShowsHarms shape.now events self.old → ShowsHarms shape.now (Placed address ∷ events) self.new) }
    {
        self.next
            .checked_add(u64::from(shape.places()))
            .ok_or(AllocError)?;
        self.next = first_at(shape, address, self.next);
        self.was_placed = true;
        self.is_inside = false;
        self.unreported.clear();
        Ok(())
    }

    /// So many takes more are reported, the oldest first.
    pub(crate) fn report_first(&mut self, count: usize)
        ensures keeps { (shape : Shape) (events : List RingEvent) (reported : ℕ) → count ≤ length self.old.unreported.items →
            Keeps shape events reported self.old → Keeps shape events (reported + count) self.new }
        ensures harms { (shape : Shape) (events : List RingEvent) → ShowsHarms shape events self.old → ShowsHarms shape events self.new }
    {
        for _ in 0..count {
            let _ = self.unreported.pop_front();
        }
    }

    /// The takes that weren't reported, the oldest first.
    pub(crate) fn unreported_takes(&self) -> &VecDeque<Take>
        ensures { result.now ≡ self.now.unreported }
    {
        &self.unreported
    }

    /// How many takes weren't reported.
    pub(crate) fn unreported(&self) -> usize
        ensures { result ≡ length self.now.unreported.items }
    {
        self.unreported.len()
    }
}
