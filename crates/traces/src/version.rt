ghost use Rattle.std.specs.Prelude.{◌≡◌};
ghost use Rattle.traces.specs.Limits.{most_declared_of};
ghost use Rattle.traces.specs.Versions.{has_data, has_isoch, may_have_data, has_ring_rows, has_runs, is_lenient, profile_of};

use trb::{Block, MAX_BLOCKS, Profile, may_name_data};

/// Blocks of one declaration before version 4, and in a plan.
pub const MOST_DECLARED: usize = 256;

/// The version of a trace, which its first line names. Versions 1 and 2 judge by the rules that came first; version 3 by
/// those that a harm needs; version 4 has isochronous transfers, Event Data and second runs of the
/// controller too.
#[derive(Clone, Copy, Debug, PartialEq, Eq)]
pub enum Version {
    /// `xtrace 1`.
    One,
    /// `xtrace 2`.
    Two,
    /// `xtrace 3`.
    Three,
    /// `xtrace 4`.
    Four,
}

impl Version {
    /// It judges by the rules that a harm needs, as versions 3 and 4 do.
    pub fn is_lenient(self) -> bool
        ensures { result ≡ is_lenient self }
    {
        matches!(self, Version::Three | Version::Four)
    }

    /// Rings come and go behind the first row, and descriptors are withdrawn.
    pub fn has_ring_rows(self) -> bool
        ensures { result ≡ has_ring_rows self }
    {
        matches!(self, Version::Two | Version::Three | Version::Four)
    }

    /// Isochronous endpoints are used (xHCI 3.2.11, 4.10.3).
    pub fn has_isoch(self) -> bool
        ensures { result ≡ has_isoch self }
    {
        matches!(self, Version::Four)
    }

    /// The controller may halt and run again (xHCI 4.2, 4.23.2).
    pub fn has_runs(self) -> bool
        ensures { result ≡ has_runs self }
    {
        self == Version::Four
    }

    /// Event Data blocks are used, and events that tell their values (xHCI 4.11.5.2).
    pub fn has_data(self) -> bool
        ensures { result ≡ has_data self }
    {
        matches!(self, Version::Four)
    }

    /// A Transfer Event tells an address; or, by ED, a value, with a code that says that a block was passed.
    pub fn may_have_data(self, event: Block) -> bool
        ensures { result ≡ may_have_data self event }
    {
        !event.has_event_data() || self.has_data() && may_name_data(event.code())
    }

    /// Which transfers there are.
    pub fn profile(self) -> Profile
        ensures { result ≡ profile_of self }
    {
        if self.has_isoch() && self.has_data() {
            Profile::Full
        } else {
            Profile::Basic
        }
    }

    /// How many blocks a row declares at most: a limit of this project.
    #[tactic(auto, unfolding(crate::specs::Limits::most_declared_of))]
    pub fn most_declared(self) -> usize
        ensures { result ≡ most_declared_of self }
    {
        match self {
            Version::One | Version::Two | Version::Three => MOST_DECLARED,
            Version::Four => MAX_BLOCKS,
        }
    }
}
