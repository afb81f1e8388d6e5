//! An example: a driver's side of a Transfer Ring (xHCI 4.9.2). It hands over No Op TDs until the ring is full, takes two of them
//! back, and hands over two more, in the ring's next lap; printed are the words in the order in which a driver has to write them.
#![tactic(auto)]

ghost use Rattle.std.specs.Prelude.{◌≡◌, ◌≢◌, ◌+◌, false, IfOk};
ghost use Rattle.cycle_ring.specs.Progress.{has_room};

use cycle_ring::{EnqueueFault, Producer};
use guest_memory::Addr;
use segments::RingShape;
use std::alloc::Global;
use std::io;
use trb::{Block, RingKind};

/// Enqueues TDs of this one TRB until the ring has no room for another, or until there are so many; how many were enqueued.
fn fill(
    producer: &mut Producer,
    td: Block,
    most: u64,
    writes: &mut Vec<(Addr, u32)>,
) -> Result<u64, EnqueueFault>
    ensures counted { IfOk result (λ taken. producer.new.enqueued ≡ producer.old.enqueued + taken) }
    ensures full { IfOk result (λ taken. taken ≢ most → has_room producer.new 1 ≡ false) }
{
    let mut taken = 0;
    while taken < most {
        match producer.enqueue(&[td], writes) {
            Ok(()) => taken += 1,
            Err(EnqueueFault::RingFull) => return Ok(taken),
            Err(fault) => return Err(fault),
        }
    }
    Ok(taken)
}

/// The words of a driver that fills a ring of four TRBs, of which the last is the Link TRB, in its first lap and its second.
fn two_laps(alloc: Global) -> Result<Vec<(Addr, u32)>, EnqueueFault> {
    let Ok(shape) = RingShape::new(alloc, RingKind::Xfer, &[(0x30000, 4)]) else {
        return Err(EnqueueFault::Memory);
    };
    let mut producer = Producer::new(shape);
    let mut writes = Vec::new(alloc);
    let no_op = Block {
        w: [0, 0, 0, 0x2020],
    };
    let first = fill(&mut producer, no_op, 16, &mut writes)?;
    // its events were read: the controller has passed these TDs
    if producer.retire(first).is_err() {
        return Ok(writes);
    }
    fill(&mut producer, no_op, 16, &mut writes)?;
    Ok(writes)
}

fn main(rt: HostRuntime) -> io::Result<()> {
    let alloc = rt.alloc();
    let Ok(writes) = two_laps(alloc) else {
        println!(rt; "memory was refused")?;
        return Ok(());
    };
    for (at, word) in &writes {
        println!(rt; "w {:016x} {word:08x}", at.get())?;
    }
    Ok(())
}
