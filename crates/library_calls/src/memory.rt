ghost use Rattle.std.specs.Prelude.{◌≡◌, ℕ};

use guest_memory::{Addr, SparseMemory, WordMemory};
use std::test::Fail;

fn at(value: u64) -> Result<Addr, Fail> {
    Ok(Addr::new(value).ok_or("no address of a word")?)
}

/// Writes one word by the bound alone, and says what then stands there and on either side.
fn around<M: WordMemory>(
    memory: &mut M,
    below: Addr,
    here: Addr,
    above: Addr,
) -> Result<[u32; 3], Fail> {
    memory.set(here, 0xffff_ffff)?;
    Ok([memory.word(below), memory.word(here), memory.word(above)])
}

/// A word of memory that a caller knows, by the bound alone, to be zero.
fn word_of_zeros<M: WordMemory>(memory: &M, at: Addr) -> u32
    requires { (a : ℕ) → M.words memory.now a ≡ 0 }
    ensures { result ≡ 0 }
{
    memory.word(at)
}

#[test]
fn reads_back_what_was_written(rt: HostRuntime) -> Result<(), Fail> {
    let mut memory = SparseMemory::new(rt.alloc());
    assert_eq!(rt; word_of_zeros(&memory, at(0x30000)?), 0);
    let words = around(&mut memory, at(0x2fffc)?, at(0x30000)?, at(0x30004)?)?;
    assert_eq!(rt; words, [0, 0xffff_ffff, 0]);
    memory.set(at(0x30000)?, 7)?;
    assert_eq!(rt; memory.word(at(0x30000)?), 7);
    Ok(())
}

#[test]
fn a_page_ends_where_the_next_begins(rt: HostRuntime) -> Result<(), Fail> {
    let mut memory = SparseMemory::new(rt.alloc());
    memory.set(at(0x30ffc)?, 1)?;
    for other in [0x31000, 0x30ff8, 0x2fffc] {
        assert_eq!(rt; memory.word(at(other)?), 0);
    }
    Ok(())
}

#[test]
fn has_a_last_word(rt: HostRuntime) -> Result<(), Fail> {
    let mut memory = SparseMemory::new(rt.alloc());
    let last = at(0xffff_ffff_ffff_fffc)?;
    memory.set(last, 7)?;
    assert_eq!(rt; memory.word(last), 7);
    assert_eq!(rt; memory.word(at(0xffff_ffff_ffff_fff8)?), 0);
    assert_eq!(rt; memory.word(at(0)?), 0);
    Ok(())
}
