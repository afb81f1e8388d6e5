ghost use Rattle.std.specs.Prelude.{◌≡◌, ◌==◌, ◌<◌, ℕ, length, position, IfSome};
ghost use Rattle.commands.specs.States.{is_at_rest};
ghost use Rattle.traces.specs.AllowedHeaders.{IsHeader};
ghost use Rattle.ring_knowledge.specs.Known.{Known};
ghost use Rattle.trace_record.specs.RingFinder.Finding.{IsFinder};
ghost use Rattle.ownership_rules.specs.Moves.{is_bad_dequeue, is_bad_move, is_bad_stay};
ghost use Rattle.safety.specs.Keeps.{DriverKeeps};
ghost use Rattle.trace_record.specs.FollowsTrace.{FollowsTrace};
ghost use Rattle.trace_record.specs.Premises.{FitsMemory};

use crate::bindings::context::{Dequeue, dequeue_in};
use commands::{Command, EndpointState, is_off};
use guest_memory::WordMemory;
use trace_record::{Finder, TraceRecord};
use traces::Header;

/// Whether the command is a Set TR Dequeue Pointer or a second Address Device that moves a ring to where it may not be moved
/// (xHCI 4.6.5, 4.6.10).
pub fn is_bad_move<M: WordMemory>(
    header: &Header,
    finder: &Finder,
    t: &TraceRecord,
    memory: &M,
    command: &Command,
) -> bool
    requires headed { IsHeader header.now }
    requires found { IsFinder header.now.rings finder.now }
    ensures { (k : Known) → FollowsTrace header.now k t.now (M.words memory.now) → DriverKeeps header.now k → FitsMemory header.now.context_size command.now →
        result ≡ is_bad_move header.now k command.now }
{
    match *command {
        Command::SetTrDequeue {
            slot,
            endpoint,
            dequeue,
            cycle,
        } => {
            if !is_at_rest(t.devices.endpoint_state(slot, endpoint)) {
                return true;
            }
            let dequeue = Dequeue {
                pointer: dequeue,
                cycle,
            };
            is_bad_dequeue(header, finder, t, slot, endpoint, dequeue)
        }
        Command::AddressDevice {
            slot,
            input_context,
            ..
        } => {
            if is_off(t.devices.endpoint_state(slot, 1)) {
                return false;
            }
            let dequeue = dequeue_in(memory, header.context_size, input_context, 1);
            is_bad_stay(header, finder, t, slot, dequeue)
        }
        _ => false,
    }
}

/// Whether the endpoint does nothing on its ring (xHCI 4.6.10).
fn is_at_rest(state: EndpointState) -> bool
    ensures { result ≡ is_at_rest state }
{
    matches!(state, EndpointState::Stopped | EndpointState::Error)
}

/// Whether an endpoint's ring may not be moved on to where a Set TR Dequeue Pointer puts it (xHCI 4.6.10).
fn is_bad_dequeue(
    header: &Header,
    finder: &Finder,
    t: &TraceRecord,
    slot: u8,
    endpoint: u8,
    dequeue: Dequeue,
) -> bool
    requires headed { IsHeader header.now }
    requires found { IsFinder header.now.rings finder.now }
    ensures { (k : Known) (memory : ℕ → ℕ) → FollowsTrace header.now k t.now memory → DriverKeeps header.now k →
        result ≡ is_bad_dequeue header.now k (k.ring_of slot endpoint) dequeue.pointer dequeue.cycle }
{
    let Some(id) = t.devices.ring_of(slot, endpoint) else {
        return true;
    };
    let Some(number) = number_of(header, finder, t, id) else {
        return true;
    };
    let rings = header.rings.as_slice();
    let ring = &rings[number];
    !t.rings[number].may_move_on(&ring.shape, dequeue.pointer, dequeue.cycle)
}

/// Whether something is left on the ring of a slot's default control endpoint, or a second Address Device moves its pointer
/// (xHCI 4.6.5).
fn is_bad_stay(
    header: &Header,
    finder: &Finder,
    t: &TraceRecord,
    slot: u8,
    dequeue: Dequeue,
) -> bool
    requires headed { IsHeader header.now }
    requires found { IsFinder header.now.rings finder.now }
    ensures { (k : Known) (memory : ℕ → ℕ) → FollowsTrace header.now k t.now memory → DriverKeeps header.now k →
        result ≡ is_bad_stay header.now k (k.ring_of slot 1) (record { pointer = dequeue.pointer; cycle = dequeue.cycle }) }
{
    let Some(id) = t.devices.ring_of(slot, 1) else {
        return true;
    };
    let Some(number) = number_of(header, finder, t, id) else {
        return true;
    };
    let rings = header.rings.as_slice();
    let ring = &rings[number];
    let known = &t.rings[number];
    if known.declared_count() as u64 != known.floor_number() {
        return true;
    }
    !known.may_stay(&ring.shape, dequeue.pointer, dequeue.cycle)
}

/// The number of the ring with this ID, where there is a record of it.
fn number_of(header: &Header, finder: &Finder, t: &TraceRecord, id: u8) -> Option<usize>
    requires { IsFinder header.now.rings finder.now }
    ensures number { length t.now.rings.items ≡ length header.now.rings → result ≡ position (λ ring. ring.id == id) header.now.rings }
    ensures kept { IfSome result (λ number. (number < length header.now.rings) × (number < length t.now.rings.items)) }
{
    let Some(number) = number_in(header, finder, id) else {
        return None;
    };
    if number < t.rings.len() {
        Some(number)
    } else {
        None
    }
}

/// The number of the ring with this ID.
fn number_in(header: &Header, finder: &Finder, id: u8) -> Option<usize>
    requires { IsFinder header.now.rings finder.now }
    ensures { result ≡ position (λ ring. ring.id == id) header.now.rings }
{
    finder.ring_named(id)
}
