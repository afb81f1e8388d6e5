//! An example: the controller's model as a test bench (xHCI 4.9.2). Beside the rows of the trace on standard input an eager
//! controller looks at each ring behind each row, as often as it may, and halts once a row tells of it; printed is each TRB that it takes, and the
//! first harm.
#![tactic(auto)]

ghost use Rattle.std.specs.Prelude.{◌≡◌, IfErr, Some};
ghost use Rattle.world_state.specs.Harms.{harm_of};
ghost use Rattle.world_state.specs.Scenes.{Scene};
ghost use Rattle.controller_model.specs.Worlds.{StandsFor};

use controller_model::{Seen, World};
use guest_memory::{SparseMemory, WordMemory};
use std::io::{self, Read};
use trace_reader::read_trace;
use traces::{Step, Trace};
use trb::Block;
use world_state::Harm;

/// More looks in a row than these the bench doesn't make.
const MOST_LOOKS: u32 = 64;

/// A look at a ring, where the controller may look there now: the TRB that it takes, if it takes one.
fn look<M: WordMemory + Drop>(
    world: &mut World<'_, M>,
    ring: u8,
) -> Result<Option<(u64, Block)>, Harm>
    ensures harmful { IfErr result (λ harm. (x : Scene) → StandsFor M.words world.new x → harm_of x.header x.world ≡ Some harm) }
{
    let seen = world.step(&Step::Look { ring });
    world.safe()?;
    match seen {
        Ok(Seen::Took { at, words, .. }) => Ok(Some((at, words))),
        _ => Ok(None),
    }
}

/// Looks at each ring of the trace as long as TRBs are taken from it, and prints these.
fn look_around<M: WordMemory + Drop>(
    rt: &HostRuntime,
    trace: &Trace,
    world: &mut World<'_, M>,
) -> io::Result<Result<(), Harm>> {
    for ring in trace.header.rings.as_slice() {
        for _ in 0..MOST_LOOKS {
            match look(world, ring.id) {
                Ok(Some((at, words))) => {
                    println!(rt; "  takes {at:x} {:08x} of ring {:02x}", words.w[3], ring.id)?;
                }
                Ok(None) => {}
                Err(harm) => return Ok(Err(harm)),
            }
        }
    }
    Ok(Ok(()))
}

/// Makes the next row, if it is possible. The controller halts directly before a row that needs it: one that reads HCHalted as 1.
fn make_row<M: WordMemory + Drop>(world: &mut World<'_, M>) -> bool {
    if world.step(&Step::NextRow).is_ok() {
        return true;
    }
    world.step(&Step::Halt).is_ok() && world.step(&Step::NextRow).is_ok()
}

/// Makes the rows, and looks at the rings behind each.
fn run(rt: &HostRuntime, trace: &Trace) -> io::Result<()> {
    let memory = SparseMemory::new(rt.alloc());
    let mut world = World::new(rt.alloc(), trace, memory)?;
    for (index, _) in trace.rows.as_slice().iter().enumerate() {
        let line = u64::from(trace.first).saturating_add(index as u64);
        if !make_row(&mut world) {
            println!(rt; "row {line} can't be made here")?;
            return Ok(());
        }
        println!(rt; "row {line}")?;
        if let Err(harm) = look_around(rt, trace, &mut world)? {
            println!(rt; "harm {}", harm.number())?;
            return Ok(());
        }
    }
    Ok(())
}

fn main(rt: HostRuntime) -> io::Result<()> {
    let mut text = Vec::new(rt.alloc());
    rt.stdin().read_to_end(&mut text)?;
    match read_trace(rt.alloc(), &text) {
        Ok(trace) => run(&rt, &trace),
        Err(fault) => println!(rt; "{fault:?}"),
    }
}
