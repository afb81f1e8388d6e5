ghost use Rattle.std.specs.Prelude.{◌≡◌, ◌==◌, ◌<◌, ◌/◌, ℕ, All, bit_and, if◌then◌else◌};

use crate::bits::{bits, is_set, with_lowest_bit};
use crate::flags::BlockFlags;
use crate::kind::BlockKind;
use bitflags::Flags;

/// A block (TRB): four little-endian 32-bit words on a 16-byte boundary (xHCI 4.11.1).
#[derive(Clone, Copy, Debug, PartialEq, Eq)]
pub struct Block {
    pub w: [u32; 4],
}

impl Block {
    ghost use Rattle.trb.specs.Bits.{is_set};
    ghost use Rattle.trb.specs.Flags.{flag_bits, all_flags, has_flag, flag_places};
    ghost use Rattle.trb.specs.Block.{word, kind, cycle, with_cycle, is_chained, pointer, code, slot, endpoint, has_event_data, data_value};

    /// The type (TRB Type, word 3 bits 15:10).
    #[inline(always)]
    pub fn kind(self) -> BlockKind
        ensures { result ≡ kind self }
    {
        BlockKind::from_number(bits(self.w[3], 10, 6) as u8)
    }

    /// Whether the Cycle bit (word 3 bit 0) is 1.
    pub fn cycle(self) -> bool
        ensures { result ≡ (cycle self == 1) }
    {
        is_set(self.w[3], 0)
    }

    /// The block with this Cycle bit, and all else as it is.
    pub fn with_cycle(self, cycle: bool) -> Block
        ensures value { result ≡ with_cycle self (if cycle then 1 else 0) }
        ensures low_words { (i : ℕ) → i < 3 → word result i ≡ word self i }
        ensures high_bits { word result 3 / 2 ≡ word self 3 / 2 }
    {
        let [parameter_low, parameter_high, status, control] = self.w;
        Block {
            w: [
                parameter_low,
                parameter_high,
                status,
                with_lowest_bit(control, cycle),
            ],
        }
    }

    /// Whether the Chain bit (CH, word 3 bit 4) is 1: the descriptor goes on with the next block.
    pub fn chain(self) -> bool
        ensures { result ≡ is_chained self }
    {
        is_set(self.w[3], 4)
    }

    /// The flags among the control bits of word 3.
    pub fn flags(self) -> BlockFlags
        ensures bits { flag_bits result ≡ bit_and (word self 3) all_flags }
        ensures contains { All (λ place. has_flag result place ≡ is_set (word self 3) place) flag_places }
    {
        BlockFlags::from_bits_truncate(self.w[3])
    }

    /// Words 1 and 0 as one number: an address, or immediate data.
    pub fn pointer(self) -> u64
        ensures { result ≡ pointer self }
    {
        u64::from(self.w[1]) << 32 | u64::from(self.w[0])
    }

    /// Event Data (ED, word 3 bit 2) of a Transfer Event: it tells the value of an Event Data block, and no address.
    #[inline(always)]
    pub fn has_event_data(self) -> bool
        ensures { result ≡ has_event_data self }
    {
        is_set(self.w[3], 2)
    }

    /// The value of an Event Data block, words 1 and 0 (xHCI 6.4.4.2).
    pub fn data_value(self) -> Option<u64>
        ensures { result ≡ data_value self }
    {
        self.kind().is_event_data().then(|| self.pointer())
    }

    /// The Completion Code of an event (word 2 bits 31:24).
    pub fn code(self) -> u8
        ensures { result ≡ code self }
    {
        bits(self.w[2], 24, 8) as u8
    }

    /// The Slot ID of a command or an event (word 3 bits 31:24).
    pub fn slot(self) -> u8
        ensures { result ≡ slot self }
    {
        bits(self.w[3], 24, 8) as u8
    }

    /// The Endpoint ID of a command or an event (word 3 bits 20:16).
    pub fn endpoint(self) -> u8
        ensures { result ≡ endpoint self }
    {
        bits(self.w[3], 16, 5) as u8
    }
}
