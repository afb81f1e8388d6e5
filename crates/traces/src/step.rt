use guest_memory::Addr;
use trb::Block;

/// One step of a run: the trace's next row, or a step of the controller.
#[derive(Clone, Copy, Debug)]
pub enum Step {
    /// The next row of the trace.
    NextRow,
    /// The controller looks at a ring: one fetch of 16 bytes (xHCI 4.9.2).
    Look { ring: u8 },
    /// The controller posts a Transfer Event (xHCI 6.4.2.1).
    Report { event: Block },
    /// The controller posts a Command Completion Event, with the command's effect (xHCI 4.6, 6.4.2.2).
    Finish { event: Block },
    /// The controller posts an event of another type.
    Other { event: Block },
    /// The controller writes a word of a device context (xHCI 6.2.1).
    Scribble { at: Addr, word: u32 },
    /// The controller halts (xHCI 5.4.1.1, 5.4.2, HCH).
    Halt,
}
