ghost use Rattle.std.specs.Prelude.{◌≡◌};
ghost use Rattle.world_state.specs.Harm.{number_of};

use thiserror::Error;

/// What a controller may do to a driver that breaks the rules of ownership.
#[derive(Clone, Copy, Debug, Error, PartialEq, Eq)]
pub enum Harm {
    /// It took a block that wasn't declared, or not the next one (xHCI 4.9.2).
    #[error("the controller takes a TRB that wasn't submitted, or not the next one")]
    TakenOutOfOrder,
    /// It took other words than the declared ones with the Cycle bit of their position.
    #[error("the controller takes other words than the submitted ones")]
    TakenOtherWords,
    /// It waits within a descriptor, that is after a block of it and before its last one (xHCI 4.11).
    #[error("the controller waits within a TD")]
    WaitsInsideDescriptor,
    /// It looked outside the ring's segments (xHCI 4.9.2.1).
    #[error("the controller looks outside the ring")]
    LooksOutside,
    /// It posted over an unread event (xHCI 4.9.4).
    #[error("the controller posts over an unread event")]
    PostsOverUnread,
    /// The input context of the command under way was changed (xHCI 4.6, 6.2.5).
    #[error("an Input Context changed while its command is under way")]
    InputContextChanged,
}

impl Harm {
    /// The number that is printed: 1 to 6.
    pub fn number(self) -> u8
        ensures { result ≡ number_of self }
    {
        match self {
            Harm::TakenOutOfOrder => 1,
            Harm::TakenOtherWords => 2,
            Harm::WaitsInsideDescriptor => 3,
            Harm::LooksOutside => 4,
            Harm::PostsOverUnread => 5,
            Harm::InputContextChanged => 6,
        }
    }
}
