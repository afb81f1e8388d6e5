ghost use Rattle.std.specs.Prelude.{◌≡◌, ◌+◌, ◌*◌, ◌%◌, ◌^◌, ◌<◌, ◌≤◌, [], ◌∷◌};
ghost use Rattle.guest_memory.specs.Memory.{long_at};
ghost use Rattle.contexts.specs.declared.size.ContextSize.{ContextSize as Size};
ghost use Rattle.contexts.specs.Contexts.{bytes_of, endpoint_streams, endpoint_type, input_context_bytes, input_endpoint};

use crate::ContextSize;
use guest_memory::{Addr, WordMemory};

/// The word so many bytes behind an address; 0 where none lies there.
fn word_behind<M: WordMemory>(memory: &M, address: u64, behind: u64) -> u32
    ensures { address % 4 ≡ 0 → behind % 4 ≡ 0 → address + behind < 2 ^ 64 → result ≡ M.words memory.now (address + behind) }
{
    let Some(at) = address.checked_add(behind) else {
        return 0;
    };
    match Addr::new(at) {
        Some(at) => memory.word(at),
        None => 0,
    }
}

/// The four words so many bytes behind an address; zeros where none lie there. On a block they are found at once.
fn block_behind<M: WordMemory>(memory: &M, address: u64, behind: u64) -> [u32; 4]
    ensures { address % 4 ≡ 0 → behind % 4 ≡ 0 → address + behind + 16 ≤ 2 ^ 64 →
        result ≡ M.words memory.now (address + behind) ∷ M.words memory.now (address + behind + 4) ∷ M.words memory.now (address + behind + 8) ∷ M.words memory.now (address + behind + 12) ∷ [] }
{
    let Some(base) = address.checked_add(behind) else {
        return [0; 4];
    };
    if base % 16 == 0 {
        return match Addr::new(base) {
            Some(at) => memory.block(at),
            None => [0; 4],
        };
    }
    [
        word_behind(memory, base, 0),
        word_behind(memory, base, 4),
        word_behind(memory, base, 8),
        word_behind(memory, base, 12),
    ]
}

/// The Drop Context flags of the input context at an address (xHCI 6.2.5.1).
pub fn drop_flags<M: WordMemory>(memory: &M, address: u64) -> u32
    ensures { (size : Size) → address % 4 ≡ 0 → address + input_context_bytes size ≤ 2 ^ 64 → result ≡ M.words memory.now address }
{
    word_behind(memory, address, 0)
}

/// The Add Context flags of the input context at an address (xHCI 6.2.5.1).
pub fn add_flags<M: WordMemory>(memory: &M, address: u64) -> u32
    ensures { (size : Size) → address % 4 ≡ 0 → address + input_context_bytes size ≤ 2 ^ 64 → result ≡ M.words memory.now (address + 4) }
{
    word_behind(memory, address, 4)
}

/// How many bytes behind the address of an input context the context of an endpoint begins, by its index (xHCI 6.2.5).
fn endpoint_start(size: ContextSize, index: u8) -> u64
    requires { index < 32 }
    ensures value { result ≡ (index + 1) * bytes_of size }
    ensures aligned { result % 32 ≡ 0 }
    ensures inside { result + 32 ≤ input_context_bytes size }
{
    (u64::from(index) + 1) * size.bytes()
}

/// EP Type of an endpoint in the input context at an address (xHCI 6.2.3).
pub fn endpoint_type<M: WordMemory>(memory: &M, size: ContextSize, address: u64, index: u8) -> u8
    requires { index < 32 }
    ensures { address % 4 ≡ 0 → address + input_context_bytes size ≤ 2 ^ 64 →
        result ≡ endpoint_type (M.words memory.now) (input_endpoint size address index) }
{
    let word = word_behind(memory, address, endpoint_start(size, index) + 4);
    ((word >> 3) % 8) as u8
}

/// EP Type and MaxPStreams of an endpoint in the input context at an address (xHCI 6.2.3).
pub fn type_and_streams<M: WordMemory>(
    memory: &M,
    size: ContextSize,
    address: u64,
    index: u8,
) -> (u8, u8)
    requires { index < 32 }
    ensures ep_type { address % 4 ≡ 0 → address + input_context_bytes size ≤ 2 ^ 64 →
        result.0 ≡ endpoint_type (M.words memory.now) (input_endpoint size address index) }
    ensures streams { address % 4 ≡ 0 → address + input_context_bytes size ≤ 2 ^ 64 →
        result.1 ≡ endpoint_streams (M.words memory.now) (input_endpoint size address index) }
{
    let words = block_behind(memory, address, endpoint_start(size, index));
    let ep_type = ((words[1] >> 3) % 8) as u8;
    let streams = ((words[0] >> 10) % 32) as u8;
    (ep_type, streams)
}

/// The two words of an endpoint's TR Dequeue Pointer and Dequeue Cycle State in the input context at an address (xHCI 6.2.3).
pub fn dequeue_words<M: WordMemory>(memory: &M, size: ContextSize, address: u64, index: u8) -> u64
    requires { index < 32 }
    ensures { address % 4 ≡ 0 → address + input_context_bytes size ≤ 2 ^ 64 →
        result ≡ long_at (M.words memory.now) (input_endpoint size address index + 8) }
{
    let [_, _, low, high] = block_behind(memory, address, endpoint_start(size, index));
    long_of(low, high)
}

/// The 64-bit number at an address, as an entry of the Device Context Base Address Array has it (xHCI 6.1).
pub fn long_at<M: WordMemory>(memory: &M, address: u64) -> u64
    ensures { address % 4 ≡ 0 → address + 8 ≤ 2 ^ 64 → result ≡ long_at (M.words memory.now) address }
{
    match address % 16 {
        0 => {
            let words = block_behind(memory, address, 0);
            long_of(words[0], words[1])
        }
        8 => {
            let words = block_behind(memory, address - 8, 0);
            long_of(words[2], words[3])
        }
        _ => long_of(
            word_behind(memory, address, 0),
            word_behind(memory, address, 4),
        ),
    }
}

/// The number in two words, the lower one first.
fn long_of(low: u32, high: u32) -> u64
    ensures { result ≡ low + 2 ^ 32 * high }
{
    u64::from(low) + (u64::from(high) << 32)
}
