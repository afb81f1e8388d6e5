//! Guest memory by 32-bit words.
#![tactic(auto)]

mod addr;
mod memory;
mod page;
mod sparse_memory;

pub use addr::Addr;
pub use memory::WordMemory;
pub use sparse_memory::SparseMemory;
