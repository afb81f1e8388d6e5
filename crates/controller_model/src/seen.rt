use trb::Block;

/// What a step shows to someone who watches the controller.
#[derive(Clone, Copy, Debug, PartialEq, Eq)]
pub enum Seen {
    /// The trace's next row was made.
    Row,
    /// The controller looked at a ring, and waits: the Cycle bit isn't the ring's cycle state (xHCI 4.9.2).
    Waited,
    /// It followed a Link (xHCI 4.11.5.1).
    Crossed,
    /// It took a block: of which ring, where the block lies, and the words.
    Took { ring: u8, at: u64, words: Block },
    /// It posted an event at this address (xHCI 4.9.4).
    Posted { at: u64 },
    /// It wrote a word of a device context (xHCI 6.2.1).
    Scribbled,
    /// It halted (xHCI 5.4.2, HCH).
    Halted,
}
