use controller_model::{StepFault, World};
use guest_memory::{Addr, SparseMemory, WordMemory};
use std::alloc::{AllocError, Global};
use std::test::Fail;
use trace_reader::{read_schedule, read_trace};
use traces::Step;

/// Memory that takes so many writes, and refuses each one behind them.
#[derive(Drop)]
struct Few<M> {
    memory: M,
    left: u32,
}

impl<M: WordMemory> WordMemory for Few<M> {
    ghost words = { λ few. M.words few.memory };

    fn word(&self, at: Addr) -> u32 {
        self.memory.word(at)
    }

    fn set(&mut self, at: Addr, value: u32) -> Result<(), AllocError> {
        if self.left == 0 {
            return Err(AllocError);
        }
        self.left -= 1;
        self.memory.set(at, value)
    }
}

/// A slot is enabled and addressed, and two descriptors are declared on its ring, of which one is taken and reported.
const TRACE: &[u8] = b"xtrace 1\n\
ctx 20\n\
ring 00 cmd 0000000000010000:0010\n\
ring 01 evt 0000000000020000:0010\n\
ring 02 xfer 0000000000030000:0004\n\
w 0000000000040000 00020000\n\
w 0000000000040008 00000010\n\
reg erstsz 0000000000000001\n\
reg erstba 0000000000040000\n\
reg erdp 0000000000020000\n\
reg crcr 0000000000010001\n\
reg dcbaap 0000000000050000\n\
reg config 0000000000000008\n\
reg usbcmd 0000000000000001\n\
sub 00 00000000 00000000 00000000 00002400\n\
w 000000000001000c 00002401\n\
db 00 00\n\
ev 00010000 00000000 01000000 01008401\n\
w 0000000000050008 00070000\n\
w 0000000000060004 00000003\n\
w 0000000000060044 00000020\n\
w 0000000000060048 00030001\n\
sub 00 00060000 00000000 00000000 01002c00\n\
w 0000000000010010 00060000\n\
w 000000000001001c 01002c01\n\
db 00 00\n\
ev 00010010 00000000 01000000 01008401\n\
sub 02 00000000 00000000 00000000 00002020\n\
w 000000000003000c 00002021\n\
sub 02 00000000 00000000 00000000 00002020\n\
w 000000000003001c 00002021\n\
db 01 01\n\
ev 00030000 00000000 01000000 01018001\n\
sub 02 00000000 00000000 00000000 00002020\n\
w 000000000003002c 00002021\n";

/// Beside it steps of each kind.
const SCHEDULE: &[u8] = b"xsched 1\n\
row\n\
row\n\
row\n\
row\n\
row\n\
row\n\
row\n\
row\n\
row\n\
row\n\
row\n\
row\n\
look 00\n\
finish 00010000 00000000 01000000 01008401\n\
row\n\
row\n\
row\n\
row\n\
row\n\
row\n\
row\n\
row\n\
row\n\
look 00\n\
finish 00010010 00000000 01000000 01008401\n\
row\n\
row\n\
row\n\
row\n\
row\n\
row\n\
look 02\n\
report 00030000 00000000 01000000 01018001\n\
row\n\
row\n\
row\n\
scrib 0000000000070000 00000001\n\
other 01000000 00000000 01000000 00008801\n";

/// How many words the rows and the controller write.
const WRITES: u32 = 29;

/// The fault of the first step that isn't made.
fn first_fault<M: WordMemory + Drop>(world: &mut World<M>, steps: &[Step]) -> Option<StepFault> {
    for step in steps {
        if let Err(fault) = world.step(step) {
            return Some(fault);
        }
    }
    None
}

#[test]
fn each_refused_write_is_told_and_then_no_step_is_made(rt: HostRuntime) -> Result<(), Fail> {
    let alloc: Global = rt.alloc();
    let trace = read_trace(alloc, TRACE)?;
    let schedule = read_schedule(alloc, SCHEDULE)?;
    let steps = schedule.steps.as_slice();
    for left in 0..WRITES {
        let memory = SparseMemory::new(alloc);
        let mut world = World::new(alloc, &trace, Few { memory, left })?;
        assert_eq!(rt;
            first_fault(&mut world, steps),
            Some(StepFault::Memory),
            "{left}"
        );
        for step in steps {
            assert_eq!(rt; world.step(step), Err(StepFault::Spent), "{left}");
        }
    }
    let memory = SparseMemory::new(alloc);
    let mut world = World::new(
        alloc,
        &trace,
        Few {
            memory,
            left: WRITES,
        },
    )?;
    assert_eq!(rt; first_fault(&mut world, steps), None);
    Ok(())
}
