ghost use Rattle.std.specs.Prelude.{◌≡◌, Some, codes};

use std::error::Error;
use std::fmt;

/// The Event Ring has no room for one more event.
#[derive(Clone, Copy, Debug, PartialEq, Eq)]
pub struct NoRoom;

impl NoRoom {
    /// The number that is printed.
    pub fn number(self) -> u8
        ensures { result ≡ 29 }
    {
        29
    }
}

impl fmt::Display for NoRoom {
    ghost output = { λ _. Some (codes "NoRoom") };

    fn fmt<W: fmt::Write>(&self, f: &mut fmt::Formatter<W>) -> fmt::Result {
        f.write_str("NoRoom")
    }
}

impl Error for NoRoom {}

/// No controller posts such an event now.
#[derive(Clone, Copy, Debug, PartialEq, Eq)]
pub struct ImpossibleEvent;

impl ImpossibleEvent {
    /// The number that is printed.
    pub fn number(self) -> u8
        ensures { result ≡ 21 }
    {
        21
    }
}

impl fmt::Display for ImpossibleEvent {
    ghost output = { λ _. Some (codes "ImpossibleEvent") };

    fn fmt<W: fmt::Write>(&self, f: &mut fmt::Formatter<W>) -> fmt::Result {
        f.write_str("ImpossibleEvent")
    }
}

impl Error for ImpossibleEvent {}

/// ERDP would name no event place up to the position that is read next (xHCI 4.9.4).
#[derive(Clone, Copy, Debug, PartialEq, Eq)]
pub struct BadErdp;

impl BadErdp {
    /// The number that is printed.
    pub fn number(self) -> u8
        ensures { result ≡ 22 }
    {
        22
    }
}

impl fmt::Display for BadErdp {
    ghost output = { λ _. Some (codes "BadErdp") };

    fn fmt<W: fmt::Write>(&self, f: &mut fmt::Formatter<W>) -> fmt::Result {
        f.write_str("BadErdp")
    }
}

impl Error for BadErdp {}
