ghost use Rattle.std.specs.Prelude.{◌≡◌, ◌≢◌, ◌<◌, ◌^◌, All, true, false};
ghost use Rattle.trb.specs.Block.{IsBlock};
ghost use Rattle.traces.specs.Header.{is_transfer_kind};
ghost use Rattle.traces.specs.Register.{is_wide};
ghost use Rattle.traces.specs.Rows.{FitsLine, IsRow, is_ring_row};
ghost use Rattle.traces.specs.TraceRows.{IsRowOf, declares_too_much, is_of_version, is_run_row};

use crate::boxed_ring::BoxedRing;
use crate::register::Register;
use crate::version::Version;
use guest_memory::Addr;
use trb::{Block, Blocks, RingKind};

/// One row of a trace: what the driver did, an event that it has read, or what it declares of its rings.
#[derive(Debug, Drop)]
pub enum Row {
    /// It declares the blocks of one descriptor, about to be put at the next positions of a ring (xHCI 4.11).
    Sub { ring: u8, blocks: Blocks },
    /// It writes a word of memory.
    Write { at: Addr, word: u32 },
    /// It writes a register, one of 64 bits in one piece (xHCI 5.4, 5.5.2).
    Reg { register: Register, value: u64 },
    /// It rings the doorbell of a slot (0: the host controller's) with a target (xHCI 4.7, 5.6).
    Bell { slot: u8, target: u8 },
    /// It has read the next event of the Event Ring (xHCI 4.9.4).
    Read { event: Block },
    /// A ring comes: from now on its memory is a ring (xHCI 4.9).
    Ring { ring: BoxedRing },
    /// The ring with this ID goes: its memory is the driver's again (xHCI 4.9).
    Free { ring: u8 },
    /// The descriptor that begins at a position of a ring is withdrawn: its blocks become No Ops (xHCI 4.6.9, 6.4.1.4.1).
    Nop { ring: u8, position: u64 },
    /// It has read a register; only USBSTS says something (xHCI 5.4.2).
    RegRead { register: Register, value: u64 },
}

impl Row {
    /// Whether a row of a trace of the version may be this one: so it is of each row that was read, and asked of one that is made by hand. A
    /// declaration has a block at least and not too many, a register of 32 bits a value of 32, a ring hasn't grown, and the version has rows of
    /// the kind. That numbers fit the fields of their types is so of every value, and told besides.
    pub fn fits(&self, version: Version) -> bool
        ensures fits { result ≡ true → IsRowOf version self.now }
        ensures unfit { IsRowOf version self.now → result ≡ true }
    {
        if !self.fits_fields() {
            return false;
        }
        self.fits_line() && self.is_of_version(version) && !self.declares_too_much(version)
    }

    /// It declares more blocks than a row of the version may.
    pub fn declares_too_much(&self, version: Version) -> bool
        ensures { result ≡ declares_too_much version self.now }
    {
        match self {
            Row::Sub { blocks, .. } => blocks.as_slice().len() > version.most_declared(),
            _ => false,
        }
    }

    /// The version has rows of this kind.
    pub fn is_of_version(&self, version: Version) -> bool
        ensures { result ≡ is_of_version version self.now }
    {
        (!self.is_ring_row() || version.has_ring_rows())
            && (!self.is_run_row() || version.has_runs())
    }

    /// A ring comes or goes, or a descriptor is withdrawn.
    #[inline(always)]
    pub fn is_ring_row(&self) -> bool
        ensures { result ≡ is_ring_row self.now }
    {
        matches!(self, Row::Ring { .. } | Row::Free { .. } | Row::Nop { .. })
    }

    /// It is of a controller that runs more than once: a register was read, or a Command Ring or an Event Ring comes.
    fn is_run_row(&self) -> bool
        ensures { result ≡ is_run_row self.now }
    {
        match self {
            Row::RegRead { .. } => true,
            Row::Ring { ring } => !matches!(ring.as_ring().shape.kind(), RingKind::Xfer),
            _ => false,
        }
    }

    /// A ring hasn't grown. Its numbers fit the fields of their types, as those of every value do: each is read, and nothing is done with it.
    fn fits_fields(&self) -> bool
        ensures fits { result ≡ true → IsRow self.now }
        ensures unfit { IsRow self.now → result ≡ true }
    {
        match self {
            Row::Sub { ring, blocks } => {
                let _ring = *ring;
                read_blocks(blocks.as_slice());
            }
            Row::Write { at, word } => {
                let _at = at.get();
                let _word = *word;
            }
            Row::Reg { value, .. } | Row::RegRead { value, .. } => {
                let _value = *value;
            }
            Row::Bell { slot, target } => {
                let _slot = *slot;
                let _target = *target;
            }
            Row::Read { event } => read_words(*event),
            Row::Ring { ring } => return ring.as_ring().fits_fields(),
            Row::Free { ring } => {
                let _ring = *ring;
            }
            Row::Nop { ring, position } => {
                let _ring = *ring;
                let _position = *position;
            }
        }
        true
    }

    /// A line can say it.
    fn fits_line(&self) -> bool
        ensures fits { result ≡ true → FitsLine self.now }
        ensures unfit { FitsLine self.now → result ≡ true }
    {
        match self {
            Row::Sub { blocks, .. } => !blocks.as_slice().is_empty(),
            Row::Reg { register, value } | Row::RegRead { register, value } => {
                register.is_wide() || *value < 1 << 32
            }
            _ => true,
        }
    }
}

/// The words of each block have 32 bits.
fn read_blocks(blocks: &[Block])
    ensures { All IsBlock blocks.now }
{
    for block in blocks {
        read_words(*block);
    }
}

/// The words of a block have 32 bits.
fn read_words(block: Block)
    ensures { IsBlock block }
{
    let [_first, _second, _third, _last] = block.w;
}
