//! Blocks (TRBs), their fields and the forms of descriptors (TDs): xHCI 4.11, 6.4.
#![tactic(auto)]

mod bits;
mod block;
mod blocks;
mod completion_code;
mod descriptor;
mod fault;
mod flags;
mod kind;
mod profile;
mod ring_kind;

/// The methods of [`BlockFlags`], as `contains`.
pub use bitflags::Flags;
pub use block::Block;
pub use blocks::Blocks;
pub use completion_code::{
    counted_code, is_halting, is_of_service, is_stopping, is_success, is_trb_error, may_name_data,
};
pub use descriptor::{
    MAX_BLOCKS, descriptor_fault, descriptor_fault_in, is_command_left_out, is_no_command,
};
pub use fault::Fault;
pub use flags::BlockFlags;
pub use kind::BlockKind;
pub use profile::Profile;
pub use ring_kind::RingKind;
