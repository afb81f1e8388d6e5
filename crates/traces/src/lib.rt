//! Traces, schedules and plans: what they say, without their texts. Their types keep the limits.
#![tactic(auto)]

mod boxed_ring;
mod halt;
mod header;
mod plan;
mod register;
mod ring;
mod row;
mod schedule;
mod step;
mod trace;
mod version;

pub use boxed_ring::BoxedRing;
pub use halt::Halt;
pub use header::{Header, Rings};
pub use plan::{Plan, PlanLine, PlanLines};
pub use register::Register;
pub use ring::Ring;
pub use row::Row;
pub use schedule::{Schedule, Steps};
pub use step::Step;
pub use trace::{Rows, Trace};
pub use version::{MOST_DECLARED, Version};
