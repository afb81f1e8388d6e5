ghost use Rattle.std.specs.Prelude.{◌≡◌, ◌≢◌, ℕ, ◌&&◌, ◌==◌, ◌-◌, ◌%◌, if◌then◌else◌, List, ◌||◌, IsSome, Some, true, false, nat_le, nat_lt};
ghost use Rattle.trb.specs.Block.{block_at, cycle as cycle_bit};
ghost use Rattle.traces.specs.declared.header.Header.{Header as HeaderValue};
ghost use Rattle.traces.specs.declared.row.Row.{Row as RowValue};
ghost use Rattle.traces.specs.Header.{event_size, shape_of, ring_with};
ghost use Rattle.world_state.specs.World.{World};
ghost use Rattle.world_state.specs.Harms.{harm_of, has_changed_context, has_other_words, is_inside_descriptor, is_out_of_order, waits};
ghost use Rattle.traces.specs.declared.step.Step.TheVariants.{Look};
ghost use Rattle.world_state.specs.Replays.{stepped};
ghost use Rattle.world_state.specs.Scenes.{Scene, step_made};
ghost use Rattle.controller_model.specs.Following.{Follows, FollowsRing, ring_held};
ghost use Rattle.controller_model.specs.RingHarms.{BringsNone, FollowsScene, HasRingHarms, TakesNothing, may_be_inside};

use crate::kept::{Kept, RingState};
use crate::life::Rings;
use crate::looks::{command_of, input_words};
use crate::memory::word_at;
use crate::posts::event_ring;
use crate::rows_left::RowsLeft;
use guest_memory::WordMemory;
use traces::{Header, Row, Step};
use world_state::Harm;

/// Which rings may be within a descriptor: a controller has taken some of its blocks, and not the last one.
#[derive(Clone, Copy)]
pub enum Inside {
    Nowhere,
    On(u8),
    Anywhere,
}

impl Inside {
    /// The ring may be within a descriptor too, where it is.
    fn with(self, ring: u8, is_inside: bool) -> Inside
        ensures here { is_inside ≡ true → may_be_inside result ring ≡ true }
        ensures others { (r : ℕ) → may_be_inside self r ≡ true → may_be_inside result r ≡ true }
    {
        if !is_inside {
            return self;
        }
        match self {
            Inside::Nowhere => Inside::On(ring),
            Inside::On(other) if other == ring => self,
            Inside::On(_) | Inside::Anywhere => Inside::Anywhere,
        }
    }

    /// The ring isn't within a descriptor.
    fn without(self, ring: u8) -> Inside
        ensures { (r : ℕ) → r ≢ ring → may_be_inside self r ≡ true → may_be_inside result r ≡ true }
    {
        match self {
            Inside::On(other) if other == ring => Inside::Nowhere,
            Inside::Nowhere | Inside::On(_) | Inside::Anywhere => self,
        }
    }
}

/// Which harms the takes and the waiting of some ring show, and which rings are within a descriptor.
#[derive(Clone, Copy)]
pub struct RingHarms {
    out_of_order: bool,
    other_words: bool,
    waits_inside: bool,
    inside: Inside,
}

/// The harms of all rings.
pub(crate) fn ring_harms<M: WordMemory>(header: &Header, memory: &M, kept: &Kept) -> RingHarms
    ensures { (w : World) → Follows header.now (M.words memory.now) kept.now w → HasRingHarms header.now w result }
{
    let mut harms = RingHarms {
        out_of_order: false,
        other_words: false,
        waits_inside: false,
        inside: Inside::Nowhere,
    };
    for ring in header.rings.as_slice() {
        let state = &kept.rings[usize::from(ring.id)];
        harms.out_of_order |= state.history.is_out_of_order();
        harms.other_words |= state.history.has_other_words();
        harms.waits_inside |= waits_inside(memory, state);
        harms.inside = harms.inside.with(ring.id, state.history.is_inside());
    }
    harms
}

/// Whether the Cycle bit of the block at an address is a cycle state; the block's other words aren't read.
fn shows<M: WordMemory>(memory: &M, address: u64, cycle: bool) -> bool
    requires { address % 16 ≡ 0 }
    ensures { (n : ℕ) → n ≡ (if cycle then 1 else 0) → result ≡ (cycle_bit (block_at (M.words memory.now) address) == n) }
{
    let bit = memory.word(word_at(address, 12)) % 2 == 1;
    if cycle { bit } else { !bit }
}

/// Whether a ring is active and within a descriptor, and the block at its pointer shows the other cycle.
fn waits_inside<M: WordMemory>(memory: &M, state: &RingState) -> bool
    ensures { (h : HeaderValue) (r : ℕ) (w : World) → FollowsRing h r (ring_held w r) state.now → M.words memory.now ≡ w.memory →
        result ≡ (waits w r && is_inside_descriptor (w.events r)) }
{
    if !state.is_active {
        return false;
    }
    if !state.history.is_inside() {
        return false;
    }
    !shows(memory, state.pointer, state.cycle)
}

/// Whether the controller posted over an unread event, or where no event ring was (xHCI 4.9.4).
#[tactic(auto, using(crate::proofs::SafetyLemmas::posts_nowhere, crate::proofs::SafetyLemmas::posts_there), unfolding(traces::specs::Header::event_shape))]
fn posts_over_unread(header: &Header, kept: &Kept) -> bool
    ensures { (words : ℕ → ℕ) (w : World) → Follows header.now words kept.now w →
        result ≡ (w.posted_nowhere || (nat_lt 0 (event_size header.now) && nat_le (event_size header.now) (w.posted - w.reads))) }
{
    if kept.posted_nowhere {
        return true;
    }
    match event_ring(header) {
        None => false,
        Some(ring) => {
            let places = u64::from(ring.shape.places());
            kept.events.posted.saturating_sub(kept.events.reads) >= places
        }
    }
}

/// Whether the input context of the command under way was changed since its control word was last written (xHCI 4.6, 6.2.5).
#[tactic(auto, using(crate::proofs::SafetyLemmas::context_idle, crate::proofs::SafetyLemmas::context_of_none, crate::proofs::SafetyLemmas::context_unnamed))]
fn has_changed_context(header: &Header, kept: &Kept) -> bool
    ensures { (words : ℕ → ℕ) (w : World) → Follows header.now words kept.now w →
        result ≡ has_changed_context header.now w w.under_way }
{
    let pending = match kept.under_way {
        None => return false,
        Some(pending) => pending,
    };
    let command = match command_of(&pending.block) {
        None => return false,
        Some(command) => command,
    };
    let context = match command.input_context() {
        None => return false,
        Some(context) => context,
    };
    kept.stamps
        .is_context_changed(pending.address, context, input_words(header))
}

/// Whether a ring shows one of these harms.
fn shows_harm<M: WordMemory>(memory: &M, state: &RingState) -> bool
    ensures order { (h : HeaderValue) (r : ℕ) (w : World) → FollowsRing h r (ring_held w r) state.now → IsSome (ring_with h r) → result ≡ false →
        is_out_of_order (shape_of h r) (w.events r) ≡ false }
    ensures words { (h : HeaderValue) (r : ℕ) (w : World) → FollowsRing h r (ring_held w r) state.now → IsSome (ring_with h r) → result ≡ false →
        has_other_words (shape_of h r) (w.events r) ≡ false }
    ensures waits { (h : HeaderValue) (r : ℕ) (w : World) → FollowsRing h r (ring_held w r) state.now → M.words memory.now ≡ w.memory → result ≡ false →
        (waits w r && is_inside_descriptor (w.events r)) ≡ false }
{
    state.history.is_out_of_order()
        || state.history.has_other_words()
        || waits_inside(memory, state)
}

/// Whether there is one of these harms.
fn is_any(harms: RingHarms) -> bool
    ensures { result ≡ (harms.out_of_order || (harms.other_words || harms.waits_inside)) }
{
    harms.out_of_order || harms.other_words || harms.waits_inside
}

/// The harms of all rings after a look at one of them, which may not be listed. Where there was no harm before and that ring shows none, there
/// is none.
fn harms_after_look<M: WordMemory>(
    header: &Header,
    memory: &M,
    kept: &Kept,
    before: RingHarms,
    ring: u8,
) -> RingHarms
    ensures { (live : HeaderValue) (w v : World) → HasRingHarms header.now w before → stepped header.now live w (Look ring) ≡ Some v →
        Follows header.now (M.words memory.now) kept.now v → HasRingHarms header.now v result }
{
    let state = &kept.rings[usize::from(ring)];
    if is_any(before) || shows_harm(memory, state) {
        return ring_harms(header, memory, kept);
    }
    let others = before.inside.without(ring);
    let inside = others.with(ring, state.history.is_inside());
    RingHarms { inside, ..before }
}

/// Whether one of the rings that may be within a descriptor may wait there.
fn may_wait_inside<M: WordMemory>(memory: &M, kept: &Kept, inside: Inside) -> bool
    ensures { (h : HeaderValue) (w : World) → Follows h (M.words memory.now) kept.now w → result ≡ false → (r : ℕ) → may_be_inside inside r ≡ true →
        (waits w r && is_inside_descriptor (w.events r)) ≡ false }
{
    match inside {
        Inside::Nowhere => false,
        Inside::On(ring) => waits_inside(memory, &kept.rings[usize::from(ring)]),
        Inside::Anywhere => true,
    }
}

/// The harms of all rings after a step by which nothing is taken and no ring comes: where there was none, the rings alone that are within a descriptor
/// may show one, and only by waiting there.
fn harms_after_others<M: WordMemory>(
    header: &Header,
    memory: &M,
    kept: &Kept,
    before: RingHarms,
) -> RingHarms
    ensures { (w v : World) → HasRingHarms header.now w before → TakesNothing w v → Follows header.now (M.words memory.now) kept.now v →
        HasRingHarms header.now v result }
{
    if is_any(before) || may_wait_inside(memory, kept, before.inside) {
        return ring_harms(header, memory, kept);
    }
    before
}

/// The harms of all rings after a step; `comes` says whether it was the row of a ring that comes.
pub(crate) fn harms_after<M: WordMemory>(
    rings: &Rings,
    memory: &M,
    kept: &Kept,
    before: RingHarms,
    step: &Step,
    comes: bool,
) -> RingHarms
    ensures { (rows : List RowValue) (x y : Scene) → HasRingHarms x.header x.world before → step_made x step.now ≡ Some y →
        (comes ≡ false → BringsNone step.now x.rows) →
        FollowsScene rings.now rows (M.words memory.now) kept.now y → HasRingHarms y.header y.world result }
{
    let header = &rings.declared;
    if comes {
        return ring_harms(header, memory, kept);
    }
    match step {
        Step::Look { ring } => harms_after_look(header, memory, kept, before, *ring),
        _ => harms_after_others(header, memory, kept, before),
    }
}

/// Whether the next step is the row of a ring that comes.
pub(crate) fn brings_ring(left: &RowsLeft, step: &Step) -> bool
    ensures { result ≡ false → BringsNone step.now left.now }
{
    match step {
        Step::NextRow => matches!(left.first(), Some(Row::Ring { .. })),
        _ => false,
    }
}

/// The least harm of a world with these harms of its rings.
#[tactic(auto, using(crate::proofs::SafetyLemmas::harm_is))]
pub(crate) fn harm_of(header: &Header, kept: &Kept, rings: RingHarms) -> Option<Harm>
    ensures { (words : ℕ → ℕ) (w : World) → Follows header.now words kept.now w → HasRingHarms header.now w rings →
        result ≡ harm_of header.now w }
{
    if rings.out_of_order {
        return Some(Harm::TakenOutOfOrder);
    }
    if rings.other_words {
        return Some(Harm::TakenOtherWords);
    }
    if rings.waits_inside {
        return Some(Harm::WaitsInsideDescriptor);
    }
    if kept.looked_outside {
        return Some(Harm::LooksOutside);
    }
    if posts_over_unread(header, kept) {
        return Some(Harm::PostsOverUnread);
    }
    if has_changed_context(header, kept) {
        return Some(Harm::InputContextChanged);
    }
    None
}
