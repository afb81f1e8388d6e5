use contexts::{ContextSize, EndpointContext, InputContext};
use guest_memory::{Addr, SparseMemory, WordMemory};
use std::test::Fail;

/// Where the input context lies.
const AT: u64 = 0x60000;

/// Memory with these words, each by its address.
fn memory(rt: &HostRuntime, words: &[(u64, u32)]) -> Result<SparseMemory, Fail> {
    let mut memory = SparseMemory::new(rt.alloc());
    for &(at, word) in words {
        memory.set(Addr::new(at).ok_or("no address of a word")?, word)?;
    }
    Ok(memory)
}

#[test]
fn reads_the_flags_and_the_first_endpoint(rt: HostRuntime) -> Result<(), Fail> {
    let memory = memory(&rt, &[(0x60004, 3), (0x60044, 0x20), (0x60048, 0x30001)])?;
    let input = InputContext::at(&memory, AT, ContextSize::Bytes32).ok_or("past the end")?;
    assert!(rt; input.adds(0));
    assert!(rt; input.adds(1));
    assert!(rt; !input.adds(2));
    assert!(rt; !input.drops(1));
    let wanted = EndpointContext {
        pointer: 0x30000,
        dcs: true,
        ep_type: 4,
        streams: 0,
    };
    assert_eq!(rt; input.endpoint(1), wanted);
    assert_eq!(rt; input.range(), (AT, 33 * 32));
    Ok(())
}

#[test]
fn ends_with_the_address_space(rt: HostRuntime) -> Result<(), Fail> {
    let memory = SparseMemory::new(rt.alloc());
    let last = [
        (ContextSize::Bytes32, 0xffff_ffff_ffff_fbe0),
        (ContextSize::Bytes64, 0xffff_ffff_ffff_f7c0),
    ];
    for (size, at) in last {
        assert!(rt; InputContext::at(&memory, at, size).is_some());
        assert!(rt; InputContext::at(&memory, at + 16, size).is_none());
    }
    Ok(())
}
