ghost use Rattle.std.specs.Prelude.{◌≡◌, Some};
ghost use Rattle.std.specs.Fmt.{padded};
ghost use Rattle.ownership_rules.specs.Refusal.{number_of};
ghost use Rattle.ownership_rules.specs.RuleNames.{name_of};

use std::error::Error;
use std::fmt;

/// The rule that a row breaks, in the order of the printed numbers.
#[derive(Clone, Copy, Debug, PartialEq, Eq)]
pub enum Refusal {
    /// A write into memory that the controller owns (xHCI 4.9.2).
    WriteToOwned,
    /// A block is given with other words than were declared.
    NotAsSubmitted,
    /// A ring that isn't there, or a block that wasn't declared.
    NotDeclared,
    /// A descriptor's first block is given before the rest of it (xHCI 4.11).
    NotWhole,
    /// A Link that doesn't lead to the next segment, is no Link, or toggles wrongly (xHCI 4.11.5.1).
    LinkFault,
    /// No room for the blocks of a declaration (xHCI 4.9.2).
    RingFull,
    /// Blocks that make no descriptor (xHCI 4.11).
    BadDescriptor,
    /// A register is written out of its time, or with a value that doesn't fit what was declared (xHCI 4.2, 5.4, 5.5.2).
    BadRegister,
    /// A doorbell of an endpoint that doesn't work, or that a command touches (xHCI 4.7, 4.8.3).
    BadDoorbell,
    /// A command that its slot, endpoint or input context doesn't allow (xHCI 4.5.3, 4.6).
    BadCommand,
    /// A slot with an unfinished command, or a ring that one moves.
    Busy,
    /// An event that no controller can have posted (xHCI 4.9.4, 6.4.2).
    ImpossibleEvent,
    /// ERDP names no event place up to the one that is read next (xHCI 4.9.4).
    BadErdp,
    /// A form of the standard that this project leaves out.
    NotInProfile,
    /// A row after the controller was stopped or reset (xHCI 5.4.1).
    AfterStop,
    /// A ring is bound, or moved, to where it may not be (xHCI 4.6.5, 4.6.6, 4.6.10).
    BadMove,
    /// A descriptor is withdrawn that isn't there whole, or whose endpoint doesn't rest (xHCI 4.6.9, 6.4.1.4.1).
    BadWithdraw,
    /// A ring is started or moved before the No Ops of its withdrawn descriptors stand there (xHCI 4.6.9, 4.6.10).
    NotRestored,
    /// A ring goes that is no transfer ring, that an endpoint has, or that an unfinished command binds (xHCI 4.6.6, 4.9).
    BadFree,
    /// A ring comes whose ID another has, or whose memory isn't the driver's or shows the first lap's Cycle bit (xHCI 4.9, 4.9.2).
    BadRing,
    /// A register was read with a value that it can't have had then (xHCI 5.4.2).
    ImpossibleRead,
}

impl Refusal {
    /// The number that is printed: 10 to 25, and 32 to 36.
    pub fn number(self) -> u8
        ensures { result ≡ number_of self }
    {
        match self {
            Refusal::WriteToOwned => 10,
            Refusal::NotAsSubmitted => 11,
            Refusal::NotDeclared => 12,
            Refusal::NotWhole => 13,
            Refusal::LinkFault => 14,
            Refusal::RingFull => 15,
            Refusal::BadDescriptor => 16,
            Refusal::BadRegister => 17,
            Refusal::BadDoorbell => 18,
            Refusal::BadCommand => 19,
            Refusal::Busy => 20,
            Refusal::ImpossibleEvent => 21,
            Refusal::BadErdp => 22,
            Refusal::NotInProfile => 23,
            Refusal::AfterStop => 24,
            Refusal::BadMove => 25,
            Refusal::BadWithdraw => 32,
            Refusal::NotRestored => 33,
            Refusal::BadFree => 34,
            Refusal::BadRing => 35,
            Refusal::ImpossibleRead => 36,
        }
    }

    /// The name that is printed.
    pub fn name(self) -> &'static str
        ensures { result.now ≡ name_of self }
    {
        match self {
            Refusal::WriteToOwned => "WriteToOwned",
            Refusal::NotAsSubmitted => "NotAsSubmitted",
            Refusal::NotDeclared => "NotDeclared",
            Refusal::NotWhole => "NotWhole",
            Refusal::LinkFault => "LinkFault",
            Refusal::RingFull => "RingFull",
            Refusal::BadDescriptor => "BadDescriptor",
            Refusal::BadRegister => "BadRegister",
            Refusal::BadDoorbell => "BadDoorbell",
            Refusal::BadCommand => "BadCommand",
            Refusal::Busy => "Busy",
            Refusal::ImpossibleEvent => "ImpossibleEvent",
            Refusal::BadErdp => "BadErdp",
            Refusal::NotInProfile => "NotInProfile",
            Refusal::AfterStop => "AfterStop",
            Refusal::BadMove => "BadMove",
            Refusal::BadWithdraw => "BadWithdraw",
            Refusal::NotRestored => "NotRestored",
            Refusal::BadFree => "BadFree",
            Refusal::BadRing => "BadRing",
            Refusal::ImpossibleRead => "ImpossibleRead",
        }
    }
}

impl fmt::Display for Refusal {
    ghost output = { λ refusal. Some (name_of refusal) };

    ghost styled_output = { λ refusal spec. Some (padded spec (name_of refusal)) };

    fn fmt<W: fmt::Write>(&self, f: &mut fmt::Formatter<W>) -> fmt::Result {
        f.pad(self.name())
    }
}

impl Error for Refusal {}
