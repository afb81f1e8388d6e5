ghost use Rattle.std.specs.Prelude.{◌≡◌, ℕ, ◌+◌, Err, List, OnOk};
ghost use Rattle.traces.specs.declared.row.Row.{Row as RowValue};
ghost use Rattle.controller_model.specs.declared.seen.Seen.TheVariants.{Row as RowSeen};
ghost use Rattle.controller_model.specs.RingHarms.{FollowsScene};
ghost use Rattle.traces.specs.TraceRows.{IsTraceRow};
ghost use Rattle.world_state.specs.Scenes.{Scene, row_made, row_next};
ghost use Rattle.controller_model.specs.Following.{IsStep};

use crate::bells::ring_bell;
use crate::fault::StepFault;
use crate::kept::Kept;
use crate::life::Rings;
use crate::posts::read_event;
use crate::registers::{read_register, write_register};
use crate::ring_rows::{add_ring, end_life, withdraw};
use crate::rows::{declare, write};
use crate::rows_left::RowsLeft;
use crate::seen::Seen;
use crate::steps::count;
use guest_memory::WordMemory;
use traces::Row;

/// What a row does to the rings that are there, to memory and to the controller.
fn make_row<M: WordMemory>(
    rings: &mut Rings,
    memory: &mut M,
    kept: &mut Kept,
    row: &Row,
    step: u64,
) -> Result<Seen, StepFault>
    requires number { step ≡ kept.old.progress.steps + 1 }
    requires row { IsTraceRow row.now }
    ensures step { (rows : List RowValue) (x : Scene) → FollowsScene rings.old rows (M.words memory.old) kept.old x →
        IsStep result (row_made x row.now) RowSeen (FollowsScene rings.new rows (M.words memory.new) kept.new) }
    ensures refused { result ≡ Err StepFault.NotPossible → kept.new ≡ kept.old }
    ensures memory { result ≡ Err StepFault.NotPossible → M.words memory.new ≡ M.words memory.old }
    ensures rings { result ≡ Err StepFault.NotPossible → rings.new ≡ rings.old }
{
    let header = &rings.declared;
    match row {
        Row::Sub { ring, blocks } => declare(kept, *ring, blocks.as_slice())?,
        Row::Write { at, word } => write(memory, kept, *at, *word, step)?,
        Row::Reg { register, value } => write_register(header, kept, *register, *value)?,
        Row::Bell { slot, target } => ring_bell(header, kept, *slot, *target),
        Row::Read { event } => return read_event(header, memory, kept, event),
        Row::Ring { ring } => add_ring(rings, kept, ring.as_ring())?,
        Row::Free { ring: id } => end_life(rings, *id),
        Row::Nop { ring, position } => withdraw(kept, *ring, *position),
        Row::RegRead { register, value } => return read_register(kept, *register, *value),
    }
    Ok(Seen::Row)
}

/// The next row is made, if there is one.
#[tactic(auto, using(crate::proofs::NextRowLemmas::nothing_left))]
pub(crate) fn next_row<M: WordMemory>(
    rings: &mut Rings,
    left: &mut RowsLeft,
    memory: &mut M,
    kept: &mut Kept,
    step: u64,
) -> Result<Seen, StepFault>
    requires { step ≡ kept.old.progress.steps + 1 }
    ensures step { (x : Scene) → FollowsScene rings.old left.old (M.words memory.old) kept.old x →
        IsStep result (row_next x x.rows) RowSeen (FollowsScene rings.new left.new (M.words memory.new) kept.new) }
    ensures refused { result ≡ Err StepFault.NotPossible → kept.new ≡ kept.old }
    ensures memory { result ≡ Err StepFault.NotPossible → M.words memory.new ≡ M.words memory.old }
    ensures rings { result ≡ Err StepFault.NotPossible → rings.new ≡ rings.old }
    ensures left { result ≡ Err StepFault.NotPossible → left.new ≡ left.old }
{
    let row = match left.first() {
        None => return Err(StepFault::NotPossible),
        Some(row) => row,
    };
    let seen = make_row(rings, memory, kept, row, step)?;
    left.pass();
    count(kept)?;
    Ok(seen)
}
