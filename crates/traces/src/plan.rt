ghost use Rattle.std.specs.Prelude.{◌≡◌, ◌≢◌, ◌+◌, ◌<◌, ◌≤◌, length};
ghost use Rattle.segments.specs.Shape.{IsShape};
ghost use Rattle.trb.specs.declared.ring_kind.RingKind.TheVariants.{Evt};
ghost use Rattle.traces.specs.Limits.{most_lines};
ghost use Rattle.traces.specs.PlanLines.{ArePlanLines, plan_lines_are_fact};

use crate::ring::Ring;
use std::marker::Model;
use trb::Blocks;

/// A line of a plan behind that of its ring.
#[derive(Debug, Drop)]
pub enum PlanLine {
    /// The driver declares the blocks of one descriptor, and writes them.
    Sub { ring: u8, blocks: Blocks },
    /// The driver knows that the controller has passed the first `upto` blocks.
    Ret { upto: u64 },
}

/// The lines of a plan behind that of its ring, in their order. Contracts see the list.
#[derive(Debug, Drop)]
pub struct PlanLines {
    lines: Vec<PlanLine>,
}

impl Model for PlanLines {
    ghost use Rattle.std.specs.Prelude.{List};
    ghost use Rattle.traces.specs.declared.plan.PlanLine.{PlanLine};

    ghost Value = { List PlanLine };

    ghost view = { λ p. p.lines.items };
}

impl PlanLines {
    /// The lines of a vector.
    pub fn new(lines: Vec<PlanLine>) -> PlanLines
        ensures { result ≡ lines.items }
    {
        PlanLines { lines }
    }

    /// The lines, in their order.
    pub fn as_slice(&self) -> &[PlanLine]
        ensures { result.now ≡ self.now }
    {
        self.lines.as_slice()
    }
}

/// A plan that was read: a command or transfer ring, and what is done on it. The ring's shape is allowed, and the lines
/// are within the limit.
#[derive(Debug, Drop)]
pub struct Plan {
    pub ring: Ring,
    /// The lines from the third on.
    pub lines: PlanLines,
    pub ghost named: { ring.id < 256 },
    pub ghost allowed: { IsShape ring.shape },
    pub ghost driven: { ring.shape.kind ≢ Evt },
    pub ghost fitting: { ArePlanLines lines } by { plan_lines_are_fact lines },
    pub ghost within: { length lines + 2 ≤ most_lines },
}
