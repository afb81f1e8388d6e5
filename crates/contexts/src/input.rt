ghost use Rattle.std.specs.Prelude.{◌≡◌, ◌+◌, ◌%◌, ◌^◌, ◌<◌, ◌≤◌, ◌↔◌, IsSome, IfSome};
ghost use Rattle.contexts.specs.Contexts.{input_context_bytes, input_add_flag, input_drop_flag, input_endpoint, endpoint_pointer, endpoint_cycle, endpoint_type, endpoint_streams};

use crate::bits::{bits, has_flag, pointer};
use crate::endpoint::EndpointContext;
use crate::size::ContextSize;
use guest_memory::{Addr, WordMemory};
use std::marker::Model;

/// How many contexts an input context has: the input control context, the slot's and those of 31 endpoints.
const CONTEXTS: u64 = 33;

/// An input context in memory that is lent for as long as the view lives (xHCI 6.2.5). Nothing is copied. Contracts see
/// a `View`.
#[derive(Drop)]
pub struct InputContext<'a, M: WordMemory> {
    memory: &'a M,
    address: u64,
    size: ContextSize,
}

impl<'a, M: WordMemory> Model for InputContext<'a, M> {
    ghost use Rattle.std.specs.Prelude.{◌≡◌, ◌+◌, ◌%◌, ◌^◌, ◌≤◌};
    ghost use Rattle.contexts.specs.Contexts.{input_context_bytes};
    ghost use Rattle.contexts.specs.View.{View};

    ghost Value = { View M };

    ghost view = { λ v. record { memory = v.memory.now; address = v.address; size = v.size } };

    ghost invariant = { λ v. (v.address % 4 ≡ 0) × (v.address + input_context_bytes v.size ≤ 2 ^ 64) };
}

impl<'a, M: WordMemory> InputContext<'a, M> {
    /// The input context at this address, where it ends at or below 2^64.
    pub fn at(memory: &'a M, address: u64, size: ContextSize) -> Option<InputContext<'a, M>>
        requires { address % 4 ≡ 0 }
        ensures found { IsSome result ↔ (address + input_context_bytes size ≤ 2 ^ 64) }
        ensures view { IfSome result (λ v. v ≡ record { memory = memory.now; address = address; size = size }) }
    {
        if address <= u64::MAX - CONTEXTS * size.bytes() + 1 {
            Some(InputContext {
                memory,
                address,
                size,
            })
        } else {
            None
        }
    }

    /// The word `offset` bytes behind the first.
    fn word(&self, offset: u64) -> u32
        requires aligned { offset % 4 ≡ 0 }
        requires inside { offset < input_context_bytes self.now.size }
        ensures { result ≡ M.words self.now.memory (self.now.address + offset) }
    {
        let at = Addr::new(self.address + offset).unwrap();
        self.memory.word(at)
    }

    /// Drop Context flag `i` (xHCI 6.2.5.1).
    pub fn drops(&self, i: u8) -> bool
        requires { i < 32 }
        ensures { result ≡ input_drop_flag (M.words self.now.memory) self.now.address i }
    {
        has_flag(self.word(0), u32::from(i))
    }

    /// Add Context flag `i` (xHCI 6.2.5.1).
    pub fn adds(&self, i: u8) -> bool
        requires { i < 32 }
        ensures { result ≡ input_add_flag (M.words self.now.memory) self.now.address i }
    {
        has_flag(self.word(4), u32::from(i))
    }

    /// The endpoint context of index `i`, its Device Context Index (xHCI 4.5.1, 6.2.3).
    pub fn endpoint(&self, i: u8) -> EndpointContext
        requires first { 1 ≤ i }
        requires last { i < 32 }
        ensures pointer { result.pointer ≡ endpoint_pointer (M.words self.now.memory) (input_endpoint self.now.size self.now.address i) }
        ensures dcs { result.dcs ≡ endpoint_cycle (M.words self.now.memory) (input_endpoint self.now.size self.now.address i) }
        ensures ep_type { result.ep_type ≡ endpoint_type (M.words self.now.memory) (input_endpoint self.now.size self.now.address i) }
        ensures streams { result.streams ≡ endpoint_streams (M.words self.now.memory) (input_endpoint self.now.size self.now.address i) }
    {
        let first = (u64::from(i) + 1) * self.size.bytes();
        let dequeue = self.word(first + 8);
        EndpointContext {
            pointer: pointer(dequeue, self.word(first + 12)),
            dcs: has_flag(dequeue, 0),
            ep_type: bits(self.word(first + 4), 3, 3) as u8,
            streams: bits(self.word(first), 10, 5) as u8,
        }
    }

    /// The address of the input context and how many bytes it has.
    pub fn range(&self) -> (u64, u64)
        ensures address { result.0 ≡ self.now.address }
        ensures length { result.1 ≡ input_context_bytes self.now.size }
        ensures end { self.now.address + result.1 ≤ 2 ^ 64 }
    {
        (self.address, CONTEXTS * self.size.bytes())
    }
}
