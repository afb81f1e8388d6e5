//! What completions do to one ring of the records (xHCI 4.6.5, 4.6.9, 4.6.10).
ghost use Rattle.std.specs.Prelude.{◌≡◌, ◌<◌, ℕ, Bool, Option, IfSome, length};
ghost use Rattle.segments.specs.RingView.{RingView};
ghost use Rattle.segments.specs.Moves.{target};
ghost use Rattle.traces.specs.AllowedHeaders.{IsHeader};
ghost use Rattle.ring_knowledge.specs.Completions.{held_at_ceiling, moved};
ghost use Rattle.ring_knowledge.specs.Known.{Known};
ghost use Rattle.ring_knowledge.specs.RingRecords.{FollowsRing};
ghost use Rattle.trace_record.specs.RingFinder.Finding.{IsFinder};
ghost use Rattle.trace_record.specs.RingFinder.RecordsOfRings.{FollowsRings};
ghost use Rattle.event_rows.specs.CommandCompletions.OneRing.{MayMoveTo, ReachesTarget, number_in, set_on};

use ring_knowledge::RingRecord;
use segments::RingShape;
use trace_record::Finder;
use traces::Header;

/// The number of the ring with this ID.
fn number_of(header: &Header, finder: &Finder, id: Option<u8>) -> Option<usize>
    requires found { IsFinder header.now.rings finder.now }
    ensures value { result ≡ number_in header.now.rings id }
    ensures inside { IfSome result (λ number. number < length header.now.rings) }
{
    match id {
        None => None,
        Some(id) => finder.ring_named(id),
    }
}

/// The pointer of a ring is set to the spot that a pointer and a cycle state name, and the ring is held there.
pub(crate) fn move_ring(
    header: &Header,
    finder: &Finder,
    rings: &mut Vec<RingRecord>,
    id: Option<u8>,
    pointer: u64,
    cycle: bool,
)
    requires headed { IsHeader header.now }
    requires found { IsFinder header.now.rings finder.now }
    ensures { (k : Known) → FollowsRings header.now k rings.old.items → MayMoveTo header.now k id pointer cycle → FollowsRings header.now (moved header.now k id pointer cycle) rings.new.items }
{
    let Some(number) = number_of(header, finder, id) else {
        return;
    };
    let all = header.rings.as_slice();
    let ring = &all[number];
    if let Some(known) = rings.get_mut(number) {
        move_to_target(&ring.shape, known, pointer, cycle);
    }
}

/// The same of the record of the ring.
fn move_to_target(shape: &RingShape, known: &mut RingRecord, pointer: u64, cycle: bool)
    ensures { (v : RingView) → FollowsRing shape.now v known.old → ReachesTarget shape.now v pointer cycle →
        FollowsRing shape.now (set_on shape.now v (target shape.now v pointer cycle)) known.new }
{
    if let Some(spot) = known.target(shape, pointer, cycle) {
        known.set_to(shape, spot);
    }
}

/// The ring of a stopped endpoint is held at its ceiling.
pub(crate) fn hold_ring(
    header: &Header,
    finder: &Finder,
    rings: &mut Vec<RingRecord>,
    id: Option<u8>,
)
    requires headed { IsHeader header.now }
    requires found { IsFinder header.now.rings finder.now }
    ensures { (k : Known) → FollowsRings header.now k rings.old.items → FollowsRings header.now (held_at_ceiling header.now k id) rings.new.items }
{
    let Some(number) = number_of(header, finder, id) else {
        return;
    };
    if let Some(known) = rings.get_mut(number) {
        known.hold_at_ceiling();
    }
}
