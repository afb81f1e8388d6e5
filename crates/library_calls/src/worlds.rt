use controller_model::{Seen, StepFault, World};
use guest_memory::{Addr, SparseMemory, WordMemory};
use std::alloc::AllocError;
use std::test::Fail;
use trace_reader::read_trace;
use traces::Step;

/// Memory that refuses each write.
#[derive(Drop)]
struct Refusing {
    word: u32,
}

impl WordMemory for Refusing {
    ghost words = { λ memory at. memory.word };

    fn word(&self, _at: Addr) -> u32 {
        self.word
    }

    fn set(&mut self, _at: Addr, _value: u32) -> Result<(), AllocError> {
        Err(AllocError)
    }
}

/// The trace of one write, on a transfer ring alone.
const ONE_WRITE: &[u8] =
    b"xtrace 1\nctx 20\nring 02 xfer 0000000000030000:0004\nw 000000000003000c 00002021\n";

#[test]
fn makes_a_row_and_no_more(rt: HostRuntime) -> Result<(), Fail> {
    let alloc = rt.alloc();
    let trace = read_trace(alloc, ONE_WRITE)?;
    let mut world = World::new(alloc, &trace, SparseMemory::new(alloc))?;
    assert_eq!(rt;
        world.step(&Step::Look { ring: 2 }),
        Err(StepFault::NotPossible)
    );
    assert_eq!(rt; world.step(&Step::NextRow), Ok(Seen::Row));
    assert_eq!(rt; world.step(&Step::NextRow), Err(StepFault::NotPossible));
    assert_eq!(rt; world.safe(), Ok(()));
    Ok(())
}

#[test]
fn is_spent_after_want_of_memory(rt: HostRuntime) -> Result<(), Fail> {
    let alloc = rt.alloc();
    let trace = read_trace(alloc, ONE_WRITE)?;
    let mut world = World::new(alloc, &trace, Refusing { word: 0 })?;
    assert_eq!(rt; world.step(&Step::NextRow), Err(StepFault::Memory));
    assert_eq!(rt; world.step(&Step::NextRow), Err(StepFault::Spent));
    assert_eq!(rt; world.step(&Step::Look { ring: 2 }), Err(StepFault::Spent));
    Ok(())
}
