ghost use Rattle.std.specs.Prelude.{◌≡◌, ◌+◌, ◌<◌, ◌^◌, ◌++◌, OnOk, if◌then◌else◌, map, nat_lt};
ghost use Rattle.segments.specs.Places.{is_crossing};
ghost use Rattle.segments.specs.declared.spot.Spot.TheVariants.{Data, Link};
ghost use Rattle.segments.specs.Spots.{next, rank};
ghost use Rattle.traces.specs.declared.step.Step.TheVariants.{Look};
ghost use Rattle.safety.specs.LazyRuns.Lazy.{spots_before};
ghost use Rattle.replayer.specs.LazySteps.Shapes.{shape_behind};

use segments::{RingShape, Spot};
use std::alloc::AllocError;
use traces::Step;

/// Adds a look at a ring for each spot from the first one on before the other (xHCI 4.9.2).
pub(crate) fn push_looks(
    shape: Option<&RingShape>,
    ring: u8,
    from: Spot,
    to: Spot,
    steps: &mut Vec<Step>,
) -> Result<(), AllocError>
    ensures { OnOk result (steps.new.items ≡ steps.old.items ++ map (λ t. Look ring) (spots_before (shape_behind shape.entry) from to)) }
{
    let mut at = from;
    while is_before(at, to) {
        steps.push(Step::Look { ring })?;
        at = next_spot(shape, at);
    }
    Ok(())
}

/// A controller comes to the first spot before it comes to the second.
pub(crate) fn is_before(first: Spot, second: Spot) -> bool
    ensures { result ≡ nat_lt (rank first) (rank second) }
{
    match (first, second) {
        (Spot::Data(p), Spot::Data(q)) => p < q,
        (Spot::Data(p), Spot::Link(q)) => p < q,
        (Spot::Link(p), Spot::Data(q)) => p <= q,
        (Spot::Link(p), Spot::Link(q)) => p < q,
    }
}

/// The spot that comes next (xHCI 4.9.2.1).
fn next_spot(shape: Option<&RingShape>, spot: Spot) -> Spot
    requires { rank spot + 1 < 2 ^ 65 }
    ensures { result ≡ next (shape_behind shape.entry) spot }
{
    match spot {
        Spot::Data(position) => spot_behind(shape, position + 1),
        Spot::Link(crossing) => Spot::Data(crossing),
    }
}

/// The spot at which a controller stands that has taken so many blocks.
pub(crate) fn spot_behind(shape: Option<&RingShape>, blocks: u64) -> Spot
    ensures { result ≡ (if is_crossing (shape_behind shape.entry) blocks then Link blocks else Data blocks) }
{
    if is_crossing(shape, blocks) {
        Spot::Link(blocks)
    } else {
        Spot::Data(blocks)
    }
}

/// A Link is crossed on the way to a position (xHCI 4.11.5.1).
fn is_crossing(shape: Option<&RingShape>, position: u64) -> bool
    ensures { result ≡ is_crossing (shape_behind shape.entry) position }
{
    match shape {
        None => false,
        Some(shape) => shape.crossing(position).is_some(),
    }
}
