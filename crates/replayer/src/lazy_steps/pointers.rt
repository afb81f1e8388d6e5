ghost use Rattle.std.specs.Prelude.{◌≡◌, ◌++◌, OnOk, length};
ghost use Rattle.guest_memory.specs.Memory.{put};
ghost use Rattle.trace_record.specs.RingFinder.Finding.{IsFinder};
ghost use Rattle.safety.specs.LazyRuns.Lazy.{further, looks_to};
ghost use Rattle.replayer.specs.LazySteps.Goals.{place_of};
ghost use Rattle.replayer.specs.LazySteps.Tables.{spot_in};

use crate::lazy_steps::goal::{Goal, ring_shape};
use crate::lazy_steps::looks::{is_before, push_looks};
use segments::Spot;
use std::alloc::AllocError;
use trace_record::Finder;
use traces::{Header, Step};

/// Adds the looks that bring a ring from its pointer, in a table by ring ID, to a goal.
pub(crate) fn look_towards(
    header: &Header,
    finder: &Finder,
    goal: Goal,
    pointers: &[Spot],
    steps: &mut Vec<Step>,
) -> Result<(), AllocError>
    requires found { IsFinder header.now.rings finder.now }
    requires size { length pointers.now ≡ 256 }
    ensures { OnOk result (steps.new.items ≡ steps.old.items ++ looks_to header.now (spot_in pointers.now) (place_of goal)) }
{
    let shape = ring_shape(header, finder, goal.ring);
    let from = pointers[usize::from(goal.ring)];
    push_looks(shape, goal.ring, from, goal.spot, steps)
}

/// A ring's pointer stands at a goal, if it did not come further before.
pub(crate) fn move_on(pointers: &mut [Spot], goal: Goal)
    requires { length pointers.old ≡ 256 }
    ensures size { length pointers.new ≡ 256 }
    ensures moved { spot_in pointers.new ≡ put (spot_in pointers.old) goal.ring (further (spot_in pointers.old goal.ring) goal.spot) }
{
    let from = pointers[usize::from(goal.ring)];
    if is_before(from, goal.spot) {
        pointers[usize::from(goal.ring)] = goal.spot;
    }
}

/// A ring's pointer stands at a spot, wherever it stood before.
pub(crate) fn place(pointers: &mut [Spot], ring: u8, spot: Spot)
    requires { length pointers.old ≡ 256 }
    ensures size { length pointers.new ≡ 256 }
    ensures placed { spot_in pointers.new ≡ put (spot_in pointers.old) ring spot }
{
    pointers[usize::from(ring)] = spot;
}
