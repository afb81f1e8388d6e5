ghost use Rattle.std.specs.Prelude.{◌≡◌, ◌+◌, ◌≤◌, length};
ghost use Rattle.traces.specs.Limits.{most_schedule_lines};
ghost use Rattle.traces.specs.Rows.{AreSteps, steps_are_fact};

use crate::step::Step;
use std::marker::Model;

/// The steps of a run, in their order. Contracts see the list.
#[derive(Debug, Drop)]
pub struct Steps {
    steps: Vec<Step>,
}

impl Model for Steps {
    ghost use Rattle.std.specs.Prelude.{List};
    ghost use Rattle.traces.specs.declared.step.Step.{Step};

    ghost Value = { List Step };

    ghost view = { λ s. s.steps.items };
}

impl Steps {
    /// The steps of a vector.
    pub fn new(steps: Vec<Step>) -> Steps
        ensures { result ≡ steps.items }
    {
        Steps { steps }
    }

    /// The steps, in their order.
    pub fn as_slice(&self) -> &[Step]
        ensures { result.now ≡ self.now }
    {
        self.steps.as_slice()
    }
}

/// A schedule that was read: the steps of a run, one a line. Its lines are within the limit.
#[derive(Debug, Drop)]
pub struct Schedule {
    pub steps: Steps,
    pub ghost fitting: { AreSteps steps } by { steps_are_fact steps },
    pub ghost within: { length steps + 1 ≤ most_schedule_lines },
}
