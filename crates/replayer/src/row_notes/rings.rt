//! What is kept of single rings.
ghost use Rattle.std.specs.Prelude.{◌≡◌, ◌+◌, ℕ, Some, true, is_some};
ghost use Rattle.segments.specs.Ceiling.{is_open};
ghost use Rattle.traces.specs.declared.header.Header.{Header as HeaderValue};
ghost use Rattle.traces.specs.Header.{command_id, command_ring};
ghost use Rattle.traces.specs.AllowedHeaders.{IsHeader};
ghost use Rattle.ring_knowledge.specs.Known.{Known};
ghost use Rattle.ring_knowledge.specs.Rings.{next_command};
ghost use Rattle.trace_record.specs.RingFinder.Finding.{IsFinder};
ghost use Rattle.safety.specs.Keeps.{IsTransferRing};
ghost use Rattle.trace_record.specs.FollowsTrace.{FollowsTrace};

use segments::Spot;
use trace_record::{Finder, TraceRecord};
use traces::Header;

/// The ID of the command ring, and the position behind the command that is finished next (xHCI 4.6).
#[derive(Clone, Copy)]
pub(crate) struct CommandPlace {
    pub(crate) ring: u8,
    pub(crate) behind: u64,
}

/// Where the command ring has the command that is finished next.
pub(crate) fn next_place(
    header: &Header,
    finder: &Finder,
    kept: &TraceRecord,
) -> Option<CommandPlace>
    requires headed { IsHeader header.now }
    requires found { IsFinder header.now.rings finder.now }
    ensures { (k : Known) (m : ℕ → ℕ) → FollowsTrace header.now k kept.now m → is_some (command_ring header.now) ≡ true →
        result ≡ Some (record { ring = command_id header.now; behind = next_command header.now k + 1 }) }
{
    let Some(number) = finder.commands else {
        return None;
    };
    let Some(known) = kept.rings.get(number) else {
        return None;
    };
    let rings = header.rings.as_slice();
    Some(CommandPlace {
        ring: rings[number].id,
        behind: known.floor_number() + 1,
    })
}

/// Whether the transfer ring with this ID is open.
pub(crate) fn is_open(finder: &Finder, kept: &TraceRecord, id: u8) -> bool
    ensures { (h : HeaderValue) (k : Known) (m : ℕ → ℕ) → IsHeader h → IsFinder h.rings finder.now → FollowsTrace h k kept.now m → IsTransferRing h id →
        result ≡ is_open (k.ring id) }
{
    let Some(number) = finder.ring_named(id) else {
        return false;
    };
    let Some(known) = kept.rings.get(number) else {
        return false;
    };
    known.is_open()
}

/// The spot that the controller's pointer has surely reached on the transfer ring with this ID.
pub(crate) fn floor_of(finder: &Finder, kept: &TraceRecord, id: u8) -> Spot
    ensures { (h : HeaderValue) (k : Known) (m : ℕ → ℕ) → IsHeader h → IsFinder h.rings finder.now → FollowsTrace h k kept.now m → IsTransferRing h id →
        result ≡ (k.ring id).floor }
{
    let Some(number) = finder.ring_named(id) else {
        return Spot::Data(0);
    };
    let Some(known) = kept.rings.get(number) else {
        return Spot::Data(0);
    };
    known.floor()
}
