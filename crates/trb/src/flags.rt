ghost use Rattle.std.specs.Prelude.{⊤};

use bitflags::{Flag, Flags, bitflag_items};

/// The flags of a block, among the control bits of word 3 (xHCI 6.4.1 to 6.4.4). Contracts see their bits by `flag_bits`.
#[derive(Clone, Copy, Debug, PartialEq, Eq)]
pub struct BlockFlags(u32);

bitflag_items! {
    impl BlockFlags: u32 {
        /// C: the Cycle bit.
        const CYCLE = 0x001;
        /// TC of a Link (Toggle Cycle); ENT of a transfer block (Evaluate Next TRB).
        const TOGGLE = 0x002;
        /// ISP of a transfer block (Interrupt on Short Packet); ED of an event (Event Data).
        const SHORT = 0x004;
        /// NS (No Snoop).
        const NO_SNOOP = 0x008;
        /// CH: the descriptor goes on with the next block.
        const CHAIN = 0x010;
        /// IOC (Interrupt On Completion).
        const IOC = 0x020;
        /// IDT (Immediate Data).
        const IMMEDIATE = 0x040;
        /// BEI of a transfer block (Block Event Interrupt); BSR, DC or TSP of a command.
        const OPTION = 0x200;
    }
}

impl Flags for BlockFlags {
    ghost use Rattle.trb.specs.Flags.{flag_bits, flag_table};

    type Bits = u32;

    ghost exact = { ⊤ };

    ghost table = { flag_table };

    ghost set_of = { flag_bits };

    fn flags<'a>() -> &'a [Flag<BlockFlags>] {
        BlockFlags::FLAGS
    }

    fn bits(&self) -> u32 {
        self.0
    }

    fn from_bits_retain(bits: u32) -> BlockFlags {
        BlockFlags(bits)
    }
}
