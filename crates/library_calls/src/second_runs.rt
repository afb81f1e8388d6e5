//! A trace in which the controller halts and goes on, halts again, is reset and runs with other rings, in each call that takes a trace.
ghost use Rattle.std.specs.Prelude.{◌+◌, ◌≤◌, length, IfOk};
ghost use Rattle.traces.specs.Limits.{most_lines};

use crate::ring_rows::{ADDRESSED_RUN, NEVER, lease, leases_of, text, trace_of};
use controller_model::{Seen, World};
use guest_memory::SparseMemory;
use replayer::{lazy_schedule, replay};
use std::alloc::{AllocError, Global};
use std::test::Fail;
use trace_reader::{print_schedule, print_trace, read_long_trace, read_schedule, read_trace};
use traces::Trace;

/// A descriptor is given, of which the event is read once the controller has halted and goes on.
const HALTED: &str =
    "sub 02 00000000 00000000 00000000 00002020\nw 000000000003000c 00002021\ndb 01 01\nreg usbcmd 0000000000000000\nrd usbsts 0000000000000001\nreg usbcmd 0000000000000001\nrd usbsts 0000000000000000\nev 00030000 00000000 01000000 01018001\n";

/// The controller halts and is reset, and runs with a Command Ring and an Event Ring that come.
const RESET: &str =
    "reg usbcmd 0000000000000000\nrd usbsts 0000000000000001\nreg usbcmd 0000000000000002\nfree 00\nfree 01\nw 000000000001000c 00000000\nw 000000000001001c 00000000\nring 03 cmd 0000000000010000:0010\nring 04 evt 0000000000021000:0010\nw 0000000000040000 00021000\nreg erstsz 0000000000000001\nreg erstba 0000000000040000\nreg erdp 0000000000021000\nreg crcr 0000000000010001\nreg dcbaap 0000000000050000\nreg config 0000000000000008\nreg usbcmd 0000000000000001\nsub 03 00000000 00000000 00000000 00005c00\nw 000000000001000c 00005c01\ndb 00 00\nev 00010000 00000000 01000000 00008401\n";

/// A run beside these rows, which halts as late as can be.
const RUN: &str =
    "row\nrow\nrow\nrow\nrow\nhalt\nrow\nrow\nrow\nlook 02\nreport 00030000 00000000 01000000 01018001\nrow\nrow\nhalt\nrow\nrow\nrow\nrow\nrow\nrow\nrow\nrow\nrow\nrow\nrow\nrow\nrow\nrow\nrow\nrow\nrow\nrow\nrow\nlook 03\nfinish 00010000 00000000 01000000 00008401\nrow\n";

fn text_of_runs(alloc: Global) -> Result<String, AllocError> {
    let rows = format!(in alloc; "{HALTED}{RESET}")?;
    text(alloc, 4, "0004", &rows)
}

fn runs(alloc: Global) -> Result<Trace, Fail>
    ensures { IfOk result (λ trace. trace.first + length trace.rows ≤ most_lines + 1) }
{
    trace_of(alloc, &text_of_runs(alloc)?)
}

#[test]
fn runs_are_read_and_printed(rt: HostRuntime) -> Result<(), Fail> {
    let alloc = rt.alloc();
    let text = text_of_runs(alloc)?;
    for trace in [
        read_trace(alloc, text.as_bytes())?,
        read_long_trace(alloc, text.as_bytes())?,
    ] {
        assert_eq!(rt; print_trace(alloc, &trace)?.as_slice(), text.as_bytes());
    }
    Ok(())
}

#[test]
fn leases_end_with_a_run(rt: HostRuntime) -> Result<(), Fail> {
    let trace = runs(rt.alloc())?;
    let wanted = [
        lease(2, 256, 0x20000, 0, 40),
        lease(2, 16, 0x40000, 9, 38),
        lease(0, 0, 0, 16, 18),
        lease(0, 0, 1, 25, 27),
        lease(2, 8, 0x50008, 25, 38),
        lease(2, 1024, 0x70000, 25, 38),
        lease(2, 1056, 0x60000, 25, 27),
        lease(0, 2, 0, 29, 35),
        lease(2, 256, 0x21000, 44, NEVER),
        lease(2, 16, 0x40000, 47, NEVER),
        lease(0, 3, 0, 54, 56),
    ];
    assert_eq!(rt;
        leases_of(&rt, rt.alloc(), &trace)?.as_slice(),
        wanted.as_slice()
    );
    Ok(())
}

#[test]
fn halts_late(rt: HostRuntime) -> Result<(), Fail> {
    let alloc = rt.alloc();
    let trace = runs(alloc)?;
    let schedule = lazy_schedule(alloc, &trace)?;
    let wanted = format!(in alloc; "{ADDRESSED_RUN}{RUN}")?;
    assert_eq!(rt;
        print_schedule(alloc, &schedule)?.as_slice(),
        wanted.as_bytes()
    );
    let seen = replay(alloc, &trace, &schedule)?;
    assert_eq!(rt; seen.len(), schedule.steps.as_slice().len());
    assert_eq!(rt;
        seen.iter().filter(|seen| **seen == Seen::Halted).count(),
        2
    );
    Ok(())
}

#[test]
fn a_world_is_reset(rt: HostRuntime) -> Result<(), Fail> {
    let alloc = rt.alloc();
    let trace = runs(alloc)?;
    let text = format!(in alloc; "{ADDRESSED_RUN}{RUN}")?;
    let schedule = read_schedule(alloc, text.as_bytes())?;
    let mut world = World::new(alloc, &trace, SparseMemory::new(alloc))?;
    for step in schedule.steps.as_slice() {
        assert!(rt; world.step(step).is_ok());
        assert_eq!(rt; world.safe(), Ok(()));
    }
    Ok(())
}
