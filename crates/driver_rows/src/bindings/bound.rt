ghost use Rattle.std.specs.Prelude.{◌≡◌, ℕ};
ghost use Rattle.segments.specs.ShapeValue.{Shape};
ghost use Rattle.traces.specs.AllowedHeaders.{IsHeader};
ghost use Rattle.traces.specs.declared.header.Header.{Header as HeaderValue};
ghost use Rattle.trace_record.specs.RingFinder.Finding.{IsFinder};
ghost use Rattle.ring_knowledge.specs.Known.{Known};
ghost use Rattle.ring_knowledge.specs.RingRecords.{FollowsRing};
ghost use Rattle.ownership_rules.specs.Moves.{awaits_binding, is_bad_binding};
ghost use Rattle.safety.specs.Keeps.{DriverKeeps};
ghost use Rattle.trace_record.specs.FollowsTrace.{FollowsTrace};
ghost use Rattle.trace_record.specs.Premises.{FitsMemory};

use crate::bindings::binding::{adds_endpoints, binds_badly};
use crate::bindings::dropped::rings_dropped;
use commands::Command;
use guest_memory::WordMemory;
use ring_knowledge::RingRecord;
use trace_record::{Finder, TraceRecord};
use traces::Header;

/// Whether an unfinished command binds the ring, and the ring is open, as `known` has it.
pub fn awaits_binding(t: &TraceRecord, ring: u8, known: &RingRecord) -> bool
    ensures { (h : HeaderValue) (k : Known) (shape : Shape) (memory : ℕ → ℕ) → FollowsTrace h k t.now memory → FollowsRing shape (k.ring ring) known.now →
        result ≡ awaits_binding h k ring }
{
    if !known.is_open() {
        return false;
    }
    t.bound.contains(ring)
}

/// Whether a command binds an endpoint elsewhere than where a transfer ring stands still, or to a ring that an endpoint keeps
/// or another command binds, or two to one ring (xHCI 4.6.5, 4.6.6).
pub fn is_bad_binding<M: WordMemory>(
    header: &Header,
    finder: &Finder,
    t: &TraceRecord,
    memory: &M,
    command: &Command,
) -> bool
    requires headed { IsHeader header.now }
    requires found { IsFinder header.now.rings finder.now }
    ensures { (k : Known) → FollowsTrace header.now k t.now (M.words memory.now) → DriverKeeps header.now k → FitsMemory header.now.context_size command.now →
        result ≡ is_bad_binding header.now k command.now }
{
    if !adds_endpoints(command) {
        return false;
    }
    adds_badly(header, finder, t, memory, command)
}

/// The same of a command that may add endpoints. It stays out of `is_bad_binding`, where sets of rings would be made for every command.
#[inline(never)]
fn adds_badly<M: WordMemory>(
    header: &Header,
    finder: &Finder,
    t: &TraceRecord,
    memory: &M,
    command: &Command,
) -> bool
    requires headed { IsHeader header.now }
    requires found { IsFinder header.now.rings finder.now }
    ensures { (k : Known) → FollowsTrace header.now k t.now (M.words memory.now) → DriverKeeps header.now k → FitsMemory header.now.context_size command.now →
        result ≡ is_bad_binding header.now k command.now }
{
    let dropped = rings_dropped(header, &t.devices, memory, command);
    binds_badly(header, finder, t, memory, command, &dropped)
}
