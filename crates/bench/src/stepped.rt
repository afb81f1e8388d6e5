ghost use Rattle.std.specs.Prelude.{◌≡◌, true, All, IfSome, [], ◌∷◌};
ghost use Rattle.trb.specs.Block.{IsBlock};
ghost use Rattle.traces.specs.Steps.{IsStep};

use traces::{Schedule, Step, Steps};
use trb::Block;

/// Most lines of a schedule.
const MOST_LINES: usize = 4_194_304;

/// The schedule of these steps; none of more than a schedule has.
pub(crate) fn schedule_of(steps: Vec<Step>) -> Option<Schedule>
    ensures { IfSome result (λ schedule. schedule.steps ≡ steps.items) }
{
    if steps.len() < MOST_LINES && are_steps(steps.as_slice()) {
        Some(Schedule {
            steps: Steps::new(steps),
        })
    } else {
        None
    }
}

/// Lines of a schedule can say the steps.
fn are_steps(steps: &[Step]) -> bool
    ensures { result ≡ true → All IsStep steps.now }
{
    for step in steps {
        if !is_step(step) {
            return false;
        }
    }
    true
}

/// A line of a schedule can say the step.
fn is_step(step: &Step) -> bool
    ensures { result ≡ true → IsStep step.now }
{
    match step {
        Step::NextRow => true,
        Step::Look { ring } => u32::from(*ring) < 256,
        Step::Report { event } => is_event(event),
        Step::Finish { event } => is_event(event),
        Step::Other { event } => is_event(event),
        Step::Scribble { at, word } => at.get() % 4 == 0 && u64::from(*word) < 1 << 32,
        Step::Halt => true,
    }
}

/// Its words are words.
fn is_event(event: &Block) -> bool
    ensures { result ≡ true → IsBlock event.now }
{
    let [first, second, third, fourth] = event.w;
    are_words(event, first, second, third, fourth)
}

/// The words are those of the event.
#[tactic(auto, using(crate::proofs::FourWords::words_below))]
fn are_words(event: &Block, first: u32, second: u32, third: u32, fourth: u32) -> bool
    ensures { result ≡ true → event.now.w ≡ first ∷ second ∷ third ∷ fourth ∷ [] → IsBlock event.now }
{
    event.w[0] == first
}
