ghost use Rattle.std.specs.Prelude.{◌≡◌, ℕ, ◌+◌, ◌<◌, ◌%◌, ◌≤◌, ◌^◌, ◌==◌, ◌&&◌, ◌||◌, not, false, true, if◌then◌else◌, length, is_some, Option, Some, None};
ghost use Rattle.commands.specs.declared.command.Command.{Command};
ghost use Rattle.commands.specs.declared.command.Command.TheVariants.{ConfigureEndpoint};
ghost use Rattle.commands.specs.Changes.{changes};
ghost use Rattle.contexts.specs.Contexts.{input_context_bytes};
ghost use Rattle.traces.specs.declared.header.Header.{Header as HeaderValue};
ghost use Rattle.traces.specs.Header.{is_ring};
ghost use Rattle.world_state.specs.World.{World};
ghost use Rattle.world_state.specs.Bindings.{changed_by_all, is_had_by_another};
ghost use Rattle.controller_model.specs.Trials.{GoesOnAs, Sees, has_own, is_elsewhere, own_ring};
ghost use Rattle.controller_model.specs.Following.{Follows, named_by};
ghost use Rattle.world_state.specs.PlacingCommands.{HasRoom, places_from};

use crate::bindings::ring_having;
use crate::disabling::{Named, is_named};
use crate::endpoints::endpoint_of;
use crate::inputs::{adds, context_of};
use crate::kept::{Holder, Kept};
use crate::memory::block_at;
use crate::rings::ring_state;
use guest_memory::WordMemory;
use traces::Header;

/// Whether an endpoint of another slot has the ring.
fn is_elsewhere(holder: Option<Holder>, slot: u8) -> bool
    ensures { result ≡ is_elsewhere holder slot }
{
    match holder {
        None => false,
        Some(holder) => holder.slot != slot,
    }
}

fn is_ring(ring: u8, other: Option<u8>) -> bool
    ensures { result ≡ is_ring ring other }
{
    match other {
        None => false,
        Some(other) => other == ring,
    }
}

/// The ring of one of a slot's endpoints.
fn own_ring(rings: &[Option<u8>], index: u8) -> Option<u8>
    ensures { result ≡ own_ring rings.now index }
{
    match rings.get(usize::from(index)) {
        None => None,
        Some(ring) => *ring,
    }
}

/// Whether one of a slot's endpoints has the ring, and is another one.
fn is_other_with(rings: &[Option<u8>], other: u8, index: u8, ring: u8) -> bool
    ensures { result ≡ (not (other == index) && is_ring ring (own_ring rings.now other)) }
{
    other != index && is_ring(ring, own_ring(rings, other))
}

/// Whether another one of a slot's endpoints has the ring.
fn has_own(rings: &[Option<u8>], index: u8, ring: u8) -> bool
    ensures { result ≡ has_own rings.now index ring }
{
    for other in 1..32u8 {
        if is_other_with(rings, other, index, ring) {
            return true;
        }
    }
    false
}

/// Whether another endpoint has the ring, where those of a slot have these.
fn is_held(kept: &Kept, rings: &[Option<u8>], slot: u8, index: u8, ring: u8) -> bool
    ensures { (h : HeaderValue) (words : ℕ → ℕ) (w v : World) → Follows h words kept.now w → Sees rings.now slot w v →
        result ≡ is_had_by_another v slot index ring }
{
    let elsewhere = is_elsewhere(ring_state(kept, ring).holder, slot);
    let own = has_own(rings, index, ring);
    elsewhere | (slot != 0) & own
}

/// An endpoint would get its ring, where the input context adds it; whether it can.
#[tactic(auto, using(world_state::proofs::AddedEndpoints::adds_later, world_state::proofs::AddedEndpoints::adds_next), unfolding(world_state::specs::Bindings::changed_by, world_state::specs::Bindings::changed_by_all, world_state::specs::Bindings::placed_on))]
fn try_added<M: WordMemory>(
    header: &Header,
    memory: &M,
    kept: &Kept,
    rings: &mut [Option<u8>],
    slot: u8,
    context: u64,
    index: u8,
) -> bool
    requires many { length rings.old ≡ 32 }
    requires aligned { context % 16 ≡ 0 }
    requires end { context + input_context_bytes header.now.context_size ≤ 2 ^ 64 }
    requires first { 1 ≤ index }
    requires last { index < 32 }
    ensures refused { (h : HeaderValue) (words : ℕ → ℕ) (c : Command) (w v : World) → result ≡ false → Follows h words kept.now w → Sees rings.old slot w v →
        changed_by_all header.now c v (places_from header.now.context_size (M.words memory.now) slot context index) ≡ None }
    ensures made { (h : HeaderValue) (words : ℕ → ℕ) (c : Command) (w v : World) → result ≡ true → Follows h words kept.now w → Sees rings.old slot w v →
        GoesOnAs rings.new slot w
        (changed_by_all header.now c v (places_from header.now.context_size (M.words memory.now) slot context index))
        (λ u. changed_by_all header.now c u (places_from header.now.context_size (M.words memory.now) slot context (index + 1))) }
{
    if !adds(memory, header.context_size, context, index) {
        return true;
    }
    let pointer = context_of(memory, header.context_size, context, index).pointer;
    let ring = match ring_having(header, pointer) {
        None => return false,
        Some(ring) => ring,
    };
    if is_held(kept, rings, slot, index, ring) {
        return false;
    }
    rings[usize::from(index)] = Some(ring);
    true
}

/// Whether the endpoints that the input context adds can get their rings, in order, where those of the slot have these.
pub(crate) fn can_add_all<M: WordMemory>(
    header: &Header,
    memory: &M,
    kept: &Kept,
    rings: &mut [Option<u8>],
    slot: u8,
    context: u64,
) -> bool
    requires many { length rings.old ≡ 32 }
    requires aligned { context % 16 ≡ 0 }
    requires end { context + input_context_bytes header.now.context_size ≤ 2 ^ 64 }
    ensures { (h : HeaderValue) (words : ℕ → ℕ) (c : Command) (w v : World) → Follows h words kept.now w → Sees rings.old slot w v →
        result ≡ is_some (changed_by_all header.now c v (places_from header.now.context_size (M.words memory.now) slot context 2)) }
{
    for index in 2..32 {
        if !try_added(header, memory, kept, rings, slot, context, index) {
            return false;
        }
    }
    true
}

/// The ring that an endpoint has behind the drops of a command.
fn left_at(kept: &Kept, slot: u8, named: Named, index: u8) -> Option<u8>
    requires { index < 32 }
    ensures { (h : HeaderValue) (words : ℕ → ℕ) (w : World) → Follows h words kept.now w →
        result ≡ (if named_by named index then None else w.ring_of slot index) }
{
    if is_named(named, index) {
        None
    } else {
        endpoint_of(kept, slot, index).ring
    }
}

/// The rings that a slot's endpoints have behind the drops of a command.
fn left(kept: &Kept, slot: u8, named: Named) -> [Option<u8>; 32]
    ensures { (h : HeaderValue) (words : ℕ → ℕ) (w : World) → Follows h words kept.now w →
        (j : ℕ) → j < 32 → own_ring result j ≡ (if named_by named j then None else w.ring_of slot j) }
{
    let mut rings = [None; 32];
    for index in 0..32u8 {
        rings[usize::from(index)] = left_at(kept, slot, named, index);
    }
    rings
}

/// Whether a Configure Endpoint can succeed by its rings (xHCI 4.6.6).
pub(crate) fn can_configure<M: WordMemory>(
    header: &Header,
    memory: &M,
    kept: &Kept,
    slot: u8,
    deconfigure: bool,
    context: u64,
) -> bool
    requires aligned { context % 16 ≡ 0 }
    requires end { HasRoom header.now.context_size (ConfigureEndpoint slot deconfigure context) }
    ensures { (h : HeaderValue) (words : ℕ → ℕ) (c : Command) (n : ℕ) (w : World) → Follows h words kept.now w →
        result ≡ is_some (changed_by_all header.now c w (changes header.now.context_size (M.words memory.now) n (ConfigureEndpoint slot deconfigure context))) }
{
    if deconfigure {
        return true;
    }
    let flags = block_at(memory, context).w[0];
    let mut rings = left(kept, slot, Named::Dropped(flags));
    can_add_all(header, memory, kept, &mut rings, slot, context)
}
