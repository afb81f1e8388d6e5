use segments::Spot;
use traces::Step;

/// What a row asks of the lazy schedule. A row has some of these in a row, the steps that come before it among them.
#[derive(Clone, Copy, Debug)]
pub enum Note {
    /// The need of the ring begins anew: its doorbell is rung, or a command binds or moves it (xHCI 4.6.8, 4.6.10).
    Begun {
        ring: u8,
    },
    /// The success of the ring's block before this position is read.
    Succeeded {
        ring: u8,
        behind: u64,
    },
    /// The ring is looked at until its blocks before this position are taken.
    Taken {
        ring: u8,
        behind: u64,
    },
    /// So is the command ring, and the other ring up to where it stopped, of which so many blocks are needed (xHCI 4.6.9).
    StoppedAt {
        commands: u8,
        behind: u64,
        ring: u8,
        spot: Spot,
        need: u64,
    },
    /// So is the command ring, and the other one, which is stopped while it is open, for the blocks that are needed.
    StoppedOpen {
        commands: u8,
        behind: u64,
        ring: u8,
        need: u64,
    },
    /// The step of the controller is made.
    Made {
        step: Step,
    },
    /// The next row is made: from now on the rings are there that are there behind it.
    Next,
    /// The ring's pointer stands at this spot now.
    Placed {
        ring: u8,
        spot: Spot,
    },
}
