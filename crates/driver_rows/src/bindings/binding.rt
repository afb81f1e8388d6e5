ghost use Rattle.std.specs.Prelude.{◌≡◌, ◌<◌, ◌&&◌, ◌||◌, ℕ, [], ◌∷◌, List, Some, false, not, true};
ghost use Rattle.traces.specs.AllowedHeaders.{IsHeader};
ghost use Rattle.traces.specs.declared.header.Header.{Header as HeaderValue};
ghost use Rattle.trace_record.specs.RingFinder.Finding.{IsFinder};
ghost use Rattle.contexts.specs.Contexts.{has_flag};
ghost use Rattle.commands.specs.declared.command.Command.{Command as CommandValue};
ghost use Rattle.ring_knowledge.specs.Known.{Known};
ghost use Rattle.trace_record.specs.DeviceSlots.Devices.{FollowsDevices};
ghost use Rattle.ownership_rules.specs.Moves.{binds, binds_again, binds_ring};
ghost use Rattle.safety.specs.Keeps.{DriverKeeps};
ghost use Rattle.trace_record.specs.FollowsTrace.{FollowsTrace};
ghost use Rattle.trace_record.specs.Premises.{FitsMemory};
ghost use Rattle.driver_rows.specs.RingBindings.Contexts.{HasBound, HoldsContexts};
ghost use Rattle.driver_rows.specs.RingBindings.Bindings.{are_bad, binding_at, binding_of, bindings_from, is_misplaced, is_to, was_bound};
ghost use Rattle.driver_rows.specs.RingBindings.Dropped.{HoldsDropped};
ghost use Rattle.trace_record.specs.RingSets.{has};
ghost use Rattle.driver_rows.specs.declared.bindings.binding.RingBinding.{RingBinding as BindingValue};

use crate::bindings::context::{Bound, Dequeue, bound_by, dequeue_in, next_bound};
use crate::bindings::dropped::{is_kept, note_ring};
use crate::bindings::placements::may_be_bound;
use commands::Command;
use guest_memory::WordMemory;
use trace_record::{DeviceRecord, Finder, RingSet, TraceRecord};
use traces::Header;

/// The transfer ring that an endpoint is bound to, where the pointer names a block of one, and where on it.
#[derive(Clone, Copy)]
pub(crate) struct RingBinding {
    pub(crate) ring: Option<u8>,
    pub(crate) dequeue: Dequeue,
}

/// The binding to the ring that has the block which a pointer names.
fn binding_of(header: &Header, finder: &Finder, dequeue: Dequeue) -> RingBinding
    requires headed { IsHeader header.now }
    requires found { IsFinder header.now.rings finder.now }
    ensures { result ≡ binding_of header.now dequeue }
{
    RingBinding {
        ring: finder.ring_having(header, dequeue.pointer),
        dequeue,
    }
}

/// What a command binds the endpoint of an index to, one of those that it binds.
fn binding_in<M: WordMemory>(
    header: &Header,
    finder: &Finder,
    memory: &M,
    bound: Bound,
    index: u8,
) -> RingBinding
    requires headed { IsHeader header.now }
    requires found { IsFinder header.now.rings finder.now }
    requires last { index < 32 }
    requires set { has_flag bound.flags index ≡ true }
    ensures { (k : Known) (c : CommandValue) → ((a : ℕ) → k.memory a ≡ M.words memory.now a) → HasBound header.now k c bound → binding_at header.now k c index ≡ Some result }
{
    binding_of(
        header,
        finder,
        dequeue_in(memory, header.context_size, bound.context, index),
    )
}

/// Whether the command is one that may add endpoints.
pub(crate) fn adds_endpoints(command: &Command) -> bool
    ensures { (h : HeaderValue) (k : Known) → result ≡ false → binds h k command.now ≡ [] }
{
    matches!(
        *command,
        Command::AddressDevice { .. } | Command::ConfigureEndpoint { .. }
    )
}

/// Notes the rings that a command binds.
pub fn note_bound<M: WordMemory>(
    header: &Header,
    finder: &Finder,
    devices: &DeviceRecord,
    memory: &M,
    command: &Command,
    rings: &mut RingSet,
)
    requires headed { IsHeader header.now }
    requires found { IsFinder header.now.rings finder.now }
    ensures { (k : Known) → HoldsContexts k devices.now (M.words memory.now) → FitsMemory header.now.context_size command.now →
        (r : ℕ) → has rings.new r ≡ (has rings.old r || binds_ring header.now k r command.now) }
{
    let bound = bound_by(devices, memory, command);
    let mut index = next_bound(bound, 1);
    while index < 32 {
        let binding = binding_in(header, finder, memory, bound, index);
        note_ring(rings, binding.ring);
        index = next_bound(bound, index + 1);
    }
}

/// Forgets the rings that a command binds.
pub fn forget_bound<M: WordMemory>(
    header: &Header,
    finder: &Finder,
    devices: &DeviceRecord,
    memory: &M,
    command: &Command,
    rings: &mut RingSet,
)
    requires headed { IsHeader header.now }
    requires found { IsFinder header.now.rings finder.now }
    ensures { (k : Known) → HoldsContexts k devices.now (M.words memory.now) → FitsMemory header.now.context_size command.now →
        (r : ℕ) → has rings.new r ≡ (has rings.old r && not (binds_ring header.now k r command.now)) }
{
    let bound = bound_by(devices, memory, command);
    let mut index = next_bound(bound, 1);
    while index < 32 {
        let binding = binding_in(header, finder, memory, bound, index);
        forget(rings, binding);
        index = next_bound(bound, index + 1);
    }
}

/// Forgets the ring of a binding.
fn forget(rings: &mut RingSet, binding: RingBinding)
    ensures { (r : ℕ) → has rings.new r ≡ (not (is_to r binding) && has rings.old r) }
{
    match binding.ring {
        None => {}
        Some(ring) => rings.remove(ring),
    }
}

/// Takes the ring of a binding, unless an endpoint keeps it, or it's taken, or it doesn't stand still there: whether it does.
/// `dropped` has the rings of the endpoints that the command drops.
fn take(
    header: &Header,
    finder: &Finder,
    t: &TraceRecord,
    dropped: &RingSet,
    binding: RingBinding,
    taken: &mut RingSet,
) -> bool
    requires headed { IsHeader header.now }
    requires found { IsFinder header.now.rings finder.now }
    ensures { (k : Known) (memory : ℕ → ℕ) (c : CommandValue) → FollowsTrace header.now k t.now memory → DriverKeeps header.now k → HoldsDropped k c dropped.now →
        binding ≡ binding_of header.now binding.dequeue → (rest : List BindingValue) →
        are_bad (is_misplaced header.now k c) taken.old (binding ∷ rest) ≡ (not result || are_bad (is_misplaced header.now k c) taken.new rest) }
{
    let Some(ring) = binding.ring else {
        return false;
    };
    if is_kept(&t.devices, dropped, ring) {
        return false;
    }
    if taken.contains(ring) {
        return false;
    }
    if !may_be_bound(header, finder, t, ring, binding.dequeue) {
        return false;
    }
    taken.insert(ring);
    true
}

/// Whether a command binds a ring that an endpoint keeps, or that an unfinished command binds, or elsewhere than where the ring stands
/// still, or one ring twice. `dropped` has the rings of the endpoints that the command drops.
pub(crate) fn binds_badly<M: WordMemory>(
    header: &Header,
    finder: &Finder,
    t: &TraceRecord,
    memory: &M,
    command: &Command,
    dropped: &RingSet,
) -> bool
    requires headed { IsHeader header.now }
    requires found { IsFinder header.now.rings finder.now }
    ensures { (k : Known) → FollowsTrace header.now k t.now (M.words memory.now) → DriverKeeps header.now k → FitsMemory header.now.context_size command.now →
        HoldsDropped k command.now dropped.now →
        result ≡ are_bad (is_misplaced header.now k command.now) t.now.bound (bindings_from header.now k command.now 1) }
{
    let bound = bound_by(&t.devices, memory, command);
    let mut taken = t.bound;
    let mut index = next_bound(bound, 1);
    while index < 32 {
        let binding = binding_in(header, finder, memory, bound, index);
        if !take(header, finder, t, dropped, binding, &mut taken) {
            return true;
        }
        index = next_bound(bound, index + 1);
    }
    false
}

/// Whether a command binds a ring that was bound before.
pub fn binds_again<M: WordMemory>(
    header: &Header,
    finder: &Finder,
    devices: &DeviceRecord,
    memory: &M,
    command: &Command,
) -> bool
    requires headed { IsHeader header.now }
    requires found { IsFinder header.now.rings finder.now }
    ensures { (k : Known) → HoldsContexts k devices.now (M.words memory.now) → FitsMemory header.now.context_size command.now →
        result ≡ binds_again header.now k command.now }
{
    let bound = bound_by(devices, memory, command);
    let mut index = next_bound(bound, 1);
    while index < 32 {
        if was_bound(devices, binding_in(header, finder, memory, bound, index)) {
            return true;
        }
        index = next_bound(bound, index + 1);
    }
    false
}

/// Whether the ring of a binding was bound before.
fn was_bound(devices: &DeviceRecord, binding: RingBinding) -> bool
    ensures { (k : Known) → FollowsDevices k devices.now → result ≡ was_bound k binding }
{
    match binding.ring {
        None => false,
        Some(ring) => devices.was_bound(ring),
    }
}
