ghost use Rattle.std.specs.Prelude.{List, OnOk};
ghost use Rattle.traces.specs.declared.header.Header.{Header};
ghost use Rattle.traces.specs.declared.row.Row.{Row};
ghost use Rattle.bench.specs.Benches.{HasBench, IsBenchOf, IsJudging};

use crate::adversary::{Adversary, Moment};
use crate::bench::Bench;
use crate::fault::BenchFault;
use guest_memory::WordMemory;
use traces::Step;

/// More steps than these aren't tried at once.
const MOST_TRIES: u32 = 1 << 20;

/// Has the controller do what an adversary chooses at a moment, up to the first harm.
pub fn go_on<M: WordMemory + Drop>(
    bench: &mut Bench<M>,
    adversary: &mut Adversary,
    moment: Moment,
) -> Result<(), BenchFault>
    requires so_far { HasBench M.words bench.old }
    ensures rows { (h : Header) (past : List Row) → IsBenchOf M.words h past bench.old → OnOk result (IsBenchOf M.words h past bench.new) }
    ensures judging { IsJudging bench.old → OnOk result (IsJudging bench.new) }
{
    adversary.begin(moment);
    for _ in 0..MOST_TRIES {
        if bench.safe().is_err() {
            return Ok(());
        }
        let Some(step) = adversary.next(bench.controller()) else {
            return Ok(());
        };
        try_step(bench, adversary, &step)?;
    }
    Ok(())
}

/// Makes a step, where it is possible, and tells the adversary what came of it.
fn try_step<M: WordMemory + Drop>(
    bench: &mut Bench<M>,
    adversary: &mut Adversary,
    step: &Step,
) -> Result<(), BenchFault>
    ensures rows { (h : Header) (past : List Row) → IsBenchOf M.words h past bench.old → OnOk result (IsBenchOf M.words h past bench.new) }
    ensures judging { IsJudging bench.old → OnOk result (IsJudging bench.new) }
{
    match bench.step(step) {
        Ok(seen) => {
            adversary.learn(Some(seen));
            Ok(())
        }
        Err(BenchFault::NotPossible { .. }) => {
            adversary.learn(None);
            Ok(())
        }
        Err(fault) => Err(fault),
    }
}
