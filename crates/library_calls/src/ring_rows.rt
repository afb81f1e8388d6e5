//! Traces between whose rows rings come and go, and descriptors are withdrawn, in each call that takes a trace.
ghost use Rattle.std.specs.Prelude.{◌+◌, ◌≤◌, length, IfOk};
ghost use Rattle.traces.specs.Limits.{most_lines};

use controller_model::{Seen, World};
use guest_memory::SparseMemory;
use ownership_checker::{CheckFault, check, check_in};
use ownership_rules::Refusal;
use replayer::{
    ReplayFault, ScheduleFault, Search, harmful_run, harmful_schedule, lazy_schedule, replay,
};
use ring_knowledge::Lease;
use std::alloc::{AllocError, Global};
use std::process::Abort;
use std::test::Fail;
use trace_reader::{print_schedule, print_trace, read_long_trace, read_schedule, read_trace};
use traces::Trace;
use verifier::verify;
use world_state::Harm;

/// A slot is enabled and addressed: its Default Control Endpoint has ring 2.
const ADDRESSED: &str =
    "w 0000000000040000 00020000\nw 0000000000040008 00000010\nreg erstsz 0000000000000001\nreg erstba 0000000000040000\nreg erdp 0000000000020000\nreg crcr 0000000000010001\nreg dcbaap 0000000000050000\nreg config 0000000000000008\nreg usbcmd 0000000000000001\nsub 00 00000000 00000000 00000000 00002400\nw 000000000001000c 00002401\ndb 00 00\nev 00010000 00000000 01000000 01008401\nw 0000000000050008 00070000\nw 0000000000060004 00000003\nw 0000000000060044 00000020\nw 0000000000060048 00030001\nsub 00 00060000 00000000 00000000 01002c00\nw 0000000000010010 00060000\nw 000000000001001c 01002c01\ndb 00 00\nev 00010010 00000000 01000000 01008401\n";

/// The slot is disabled, and another ring comes where ring 2 was.
const FREED: &str =
    "sub 00 00000000 00000000 00000000 01002800\nw 000000000001002c 01002801\ndb 00 00\nev 00010020 00000000 01000000 01008401\nfree 02\nring 03 xfer 0000000000030000:0004\nsub 03 00000000 00000000 00000000 00002020\nw 000000000003000c 00002021\n";

/// Two descriptors are given, and the endpoint is stopped.
const STOPPED: &str =
    "sub 02 00000000 00000000 00000000 00000420\nsub 02 00001000 00000000 00000008 00000420\nw 000000000003000c 00000421\nw 0000000000030010 00001000\nw 0000000000030018 00000008\nw 000000000003001c 00000421\ndb 01 01\nsub 00 00000000 00000000 00000000 01013c00\nw 000000000001002c 01013c01\ndb 00 00\nev 00030000 00000000 1a000000 01018001\nev 00010020 00000000 01000000 01008401\n";

/// The second is withdrawn, a No Op stands in its place, and the ring goes on.
const WITHDRAWN: &str =
    "nop 02 0000000000000001\nw 0000000000030010 00000000\nw 0000000000030018 00000000\nw 000000000003001c 00002001\ndb 01 01\n";

/// The same, but that its Interrupt On Completion flag is set: not the No Op that it has to be.
const NOT_RESTORED: &str =
    "nop 02 0000000000000001\nw 0000000000030010 00000000\nw 0000000000030018 00000000\nw 000000000003001c 00002021\ndb 01 01\n";

/// The first is withdrawn, though the controller may have taken it; that breaks a rule of version 2.
const WITHDRAWN_BELOW: &str =
    "nop 02 0000000000000000\nw 000000000003000c 00002001\ndb 01 01\nev 00030000 00000000 01000000 01018001\nev 00030010 00000000 01000000 01018001\n";

/// The Command Ring goes.
const COMMANDS_FREED: &str =
    "sub 00 00000000 00000000 00000000 00005c00\nw 000000000001002c 00005c01\ndb 00 00\nsub 00 00000000 00000000 00000000 00005c00\nw 000000000001003c 00005c01\nfree 00\n";

/// A run beside the rows by which the slot is addressed.
pub const ADDRESSED_RUN: &str =
    "xsched 1\nrow\nrow\nrow\nrow\nrow\nrow\nrow\nrow\nrow\nrow\nrow\nrow\nlook 00\nfinish 00010000 00000000 01000000 01008401\nrow\nrow\nrow\nrow\nrow\nrow\nrow\nrow\nrow\nlook 00\nfinish 00010010 00000000 01000000 01008401\n";

/// On with the slot that is disabled.
const FREED_RUN: &str =
    "row\nrow\nrow\nrow\nlook 00\nfinish 00010020 00000000 01000000 01008401\nrow\nrow\nrow\nrow\nrow\n";

/// On with a withdrawal.
const WITHDRAWN_RUN: &str =
    "row\nrow\nrow\nrow\nrow\nrow\nrow\nrow\nrow\nrow\nrow\nlook 00\nreport 00030000 00000000 1a000000 01018001\nrow\nfinish 00010020 00000000 01000000 01008401\nrow\nrow\nrow\nrow\nrow\nrow\n";

/// On until the Command Ring goes, and into its memory.
const COMMANDS_FREED_RUN: &str = "row\nrow\nrow\nrow\nrow\nrow\nrow\nlook 00\n";

/// A lease without end.
pub const NEVER: u32 = u32::MAX;

pub fn lease(kind: u32, ring: u32, pos: u64, from: u32, to: u32) -> Lease {
    Lease {
        kind,
        ring,
        pos,
        from,
        to,
    }
}

/// The text of a trace: the rings, ring 2 with so many TRBs and a Link TRB, the rows by which the slot is addressed, and these.
pub fn text(alloc: Global, version: u8, trbs: &str, rows: &str) -> Result<String, AllocError> {
    format!(in alloc;
        "xtrace {version}\nctx 20\nring 00 cmd 0000000000010000:0010\nring 01 evt 0000000000020000:0010\nring 02 xfer 0000000000030000:{trbs}\n{ADDRESSED}{rows}"
    )
}

/// The trace of a text.
pub fn trace_of(alloc: Global, text: &str) -> Result<Trace, Fail>
    ensures { IfOk result (λ trace. trace.first + length trace.rows ≤ most_lines + 1) }
{
    Ok(read_trace(alloc, text.as_bytes())?)
}

fn freed(alloc: Global) -> Result<Trace, Fail>
    ensures { IfOk result (λ trace. trace.first + length trace.rows ≤ most_lines + 1) }
{
    trace_of(alloc, &text(alloc, 2, "0004", FREED)?)
}

/// Behind the stopped endpoint these rows.
fn stopped(alloc: Global, version: u8, rows: &str) -> Result<Trace, Fail>
    ensures { IfOk result (λ trace. trace.first + length trace.rows ≤ most_lines + 1) }
{
    let rows = format!(in alloc; "{STOPPED}{rows}")?;
    trace_of(alloc, &text(alloc, version, "0008", &rows)?)
}

/// The leases of the trace by both checks, which a verifier finds to be its own, and none fewer.
pub fn leases_of(rt: &impl Abort, alloc: Global, trace: &Trace) -> Result<Vec<Lease>, Fail> {
    let leases = check(alloc, trace)?.leases;
    let again = check_in(alloc, trace, SparseMemory::new(alloc))?.leases;
    assert_eq!(rt; again.as_slice(), leases.as_slice());
    assert_eq!(rt; verify(alloc, trace, &leases), Ok(true));
    assert_eq!(rt;
        verify(alloc, trace, leases.get(1..).ok_or("no lease")?),
        Ok(false)
    );
    Ok(leases)
}

#[test]
fn traces_of_both_versions_are_read_and_printed(rt: HostRuntime) -> Result<(), Fail> {
    let alloc = rt.alloc();
    let withdrawn = format!(in alloc; "{STOPPED}{WITHDRAWN_BELOW}")?;
    let texts = [
        text(alloc, 2, "0004", FREED)?,
        text(alloc, 3, "0004", FREED)?,
        text(alloc, 2, "0008", &withdrawn)?,
        text(alloc, 3, "0008", &withdrawn)?,
    ];
    for text in &texts {
        let trace = read_trace(alloc, text.as_bytes())?;
        assert_eq!(rt; print_trace(alloc, &trace)?.as_slice(), text.as_bytes());
        let long = read_long_trace(alloc, text.as_bytes())?;
        assert_eq!(rt; print_trace(alloc, &long)?.as_slice(), text.as_bytes());
    }
    Ok(())
}

#[test]
fn leases_end_where_a_ring_goes(rt: HostRuntime) -> Result<(), Fail> {
    let trace = freed(rt.alloc())?;
    let wanted = [
        lease(2, 256, 0x20000, 0, NEVER),
        lease(2, 16, 0x40000, 9, NEVER),
        lease(0, 0, 0, 16, 18),
        lease(0, 0, 1, 25, 27),
        lease(2, 8, 0x50008, 25, 31),
        lease(2, 1024, 0x70000, 25, 31),
        lease(2, 1056, 0x60000, 25, 27),
        lease(0, 0, 2, 29, 31),
        lease(0, 3, 0, 35, NEVER),
    ];
    assert_eq!(rt;
        leases_of(&rt, rt.alloc(), &trace)?.as_slice(),
        wanted.as_slice()
    );
    Ok(())
}

#[test]
fn leases_end_where_a_descriptor_is_withdrawn(rt: HostRuntime) -> Result<(), Fail> {
    let trace = stopped(rt.alloc(), 3, WITHDRAWN_BELOW)?;
    let wanted = [
        lease(2, 256, 0x20000, 0, NEVER),
        lease(2, 16, 0x40000, 9, NEVER),
        lease(0, 0, 0, 16, 18),
        lease(0, 0, 1, 25, 27),
        lease(2, 8, 0x50008, 25, NEVER),
        lease(2, 1024, 0x70000, 25, NEVER),
        lease(2, 1056, 0x60000, 25, 27),
        lease(0, 2, 0, 30, 40),
        lease(0, 2, 1, 33, 44),
        lease(0, 0, 2, 36, 39),
        lease(0, 2, 0, 42, 43),
    ];
    assert_eq!(rt;
        leases_of(&rt, rt.alloc(), &trace)?.as_slice(),
        wanted.as_slice()
    );
    Ok(())
}

#[test]
fn an_older_version_refuses_the_withdrawal(rt: HostRuntime) -> Result<(), Fail> {
    let alloc = rt.alloc();
    let trace = stopped(alloc, 2, WITHDRAWN_BELOW)?;
    let refusal = Refusal::BadWithdraw;
    let refused = CheckFault::Refused { row: 40, refusal };
    assert_eq!(rt; check(alloc, &trace), Err(refused));
    assert_eq!(rt; verify(alloc, &trace, &[]), Ok(false));
    match lazy_schedule(alloc, &trace) {
        Ok(_) => Err("a schedule of a refused trace".into()),
        Err(fault) => {
            assert_eq!(rt; fault, ScheduleFault::Refused { row: 40, refusal });
            Ok(())
        }
    }
}

#[test]
fn looks_late_beside_rings_that_come_and_go(rt: HostRuntime) -> Result<(), Fail> {
    let alloc = rt.alloc();
    let schedule = lazy_schedule(alloc, &freed(alloc)?)?;
    let wanted = format!(in alloc; "{ADDRESSED_RUN}{FREED_RUN}")?;
    assert_eq!(rt;
        print_schedule(alloc, &schedule)?.as_slice(),
        wanted.as_bytes()
    );
    let schedule = lazy_schedule(alloc, &stopped(alloc, 2, WITHDRAWN)?)?;
    let wanted = format!(in alloc; "{ADDRESSED_RUN}{WITHDRAWN_RUN}")?;
    assert_eq!(rt;
        print_schedule(alloc, &schedule)?.as_slice(),
        wanted.as_bytes()
    );
    Ok(())
}

#[test]
fn a_replay_tells_of_what_was_not_restored(rt: HostRuntime) -> Result<(), Fail> {
    let alloc = rt.alloc();
    let text = format!(in alloc; "{ADDRESSED_RUN}{WITHDRAWN_RUN}look 02\nlook 02\nlook 02\n")?;
    let schedule = read_schedule(alloc, text.as_bytes())?;
    let seen = replay(alloc, &stopped(alloc, 2, WITHDRAWN)?, &schedule)?;
    assert_eq!(rt; seen.len(), schedule.steps.as_slice().len());
    assert_eq!(rt; seen.last(), Some(&Seen::Waited));
    match replay(alloc, &stopped(alloc, 2, NOT_RESTORED)?, &schedule) {
        Err(ReplayFault::Harmful { step, harm, .. }) => {
            assert_eq!(rt; (step, harm), (48, Harm::TakenOtherWords));
            Ok(())
        }
        _ => Err("no harm is told".into()),
    }
}

#[test]
fn harm_is_found_of_a_command_ring_that_goes(rt: HostRuntime) -> Result<(), Fail> {
    let alloc = rt.alloc();
    let trace = trace_of(alloc, &text(alloc, 2, "0008", COMMANDS_FREED)?)?;
    let refusal = Refusal::BadFree;
    let refused = CheckFault::Refused { row: 33, refusal };
    assert_eq!(rt; check(alloc, &trace), Err(refused));
    let schedule = harmful_schedule(alloc, &trace, 33)?.ok_or("no harm is found")?;
    let wanted = format!(in alloc; "{ADDRESSED_RUN}{COMMANDS_FREED_RUN}")?;
    assert_eq!(rt;
        print_schedule(alloc, &schedule)?.as_slice(),
        wanted.as_bytes()
    );
    let run = harmful_run(alloc, &trace, 33, Search::Wide)?.ok_or("no run does harm")?;
    assert_eq!(rt;
        print_schedule(alloc, &run.schedule)?.as_slice(),
        wanted.as_bytes()
    );
    Ok(())
}

#[test]
fn a_world_makes_each_row(rt: HostRuntime) -> Result<(), Fail> {
    let alloc = rt.alloc();
    for (trace, run) in [
        (freed(alloc)?, FREED_RUN),
        (stopped(alloc, 2, WITHDRAWN)?, WITHDRAWN_RUN),
    ] {
        let text = format!(in alloc; "{ADDRESSED_RUN}{run}")?;
        let schedule = read_schedule(alloc, text.as_bytes())?;
        let mut world = World::new(alloc, &trace, SparseMemory::new(alloc))?;
        let mut rows = 0usize;
        for step in schedule.steps.as_slice() {
            if world.step(step) == Ok(Seen::Row) {
                rows = rows.saturating_add(1);
            }
            assert_eq!(rt; world.safe(), Ok(()));
        }
        assert_eq!(rt; rows, trace.rows.as_slice().len());
    }
    Ok(())
}
