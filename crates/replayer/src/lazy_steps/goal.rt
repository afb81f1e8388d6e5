ghost use Rattle.std.specs.Prelude.{◌≡◌};
ghost use Rattle.segments.specs.Spots.{number};
ghost use Rattle.traces.specs.Header.{shape_of};
ghost use Rattle.trace_record.specs.RingFinder.Finding.{IsFinder};
ghost use Rattle.ring_knowledge.specs.Resets.{behind_blocks};
ghost use Rattle.safety.specs.LazyRuns.Lazy.{stop_goal, taken_up_to};
ghost use Rattle.replayer.specs.LazySteps.Goals.{place_of};
ghost use Rattle.replayer.specs.LazySteps.Shapes.{shape_behind};

use crate::lazy_steps::looks::spot_behind;
use segments::{RingShape, Spot};
use trace_record::Finder;
use traces::Header;

/// A spot to which the controller has to come on a ring.
#[derive(Clone, Copy)]
pub(crate) struct Goal {
    pub ring: u8,
    pub spot: Spot,
}

/// The shape of the ring with this ID, if there is one.
pub(crate) fn ring_shape<'h>(header: &'h Header, finder: &Finder, ring: u8) -> Option<&'h RingShape>
    requires found { IsFinder header.now.rings finder.now }
    ensures { shape_behind result ≡ shape_of header.now ring }
{
    let rings = header.rings.as_slice();
    match finder.ring_named(ring) {
        None => None,
        Some(number) => Some(&rings[number].shape),
    }
}

/// A ring is looked at until so many blocks are taken.
pub(crate) fn taken_up_to(header: &Header, finder: &Finder, ring: u8, blocks: u64) -> Goal
    requires found { IsFinder header.now.rings finder.now }
    ensures { place_of result ≡ taken_up_to header.now ring blocks }
{
    let shape = ring_shape(header, finder, ring);
    Goal {
        ring,
        spot: spot_taken(shape, blocks),
    }
}

/// Where a ring stops: at the spot that is named, or behind its block where the success of that one is needed (xHCI 4.6.9).
pub(crate) fn stop_goal(header: &Header, finder: &Finder, at: Goal, need: u64) -> Goal
    requires found { IsFinder header.now.rings finder.now }
    ensures { place_of result ≡ stop_goal header.now (place_of at) need }
{
    if need > 0 && need - 1 == at.spot.number() {
        taken_up_to(header, finder, at.ring, need)
    } else {
        at
    }
}

/// The spot at which a pointer stands when so many blocks are taken (xHCI 4.9.2).
fn spot_taken(shape: Option<&RingShape>, blocks: u64) -> Spot
    ensures { result ≡ behind_blocks (shape_behind shape.entry) blocks }
{
    if blocks == 0 {
        Spot::Data(0)
    } else {
        spot_behind(shape, blocks)
    }
}
