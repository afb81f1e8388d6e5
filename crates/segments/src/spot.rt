ghost use Rattle.std.specs.Prelude.{◌≡◌};
ghost use Rattle.segments.specs.Spots.{number};

/// Where a controller's dequeue pointer may stand on a ring (xHCI 4.9.2).
#[derive(Clone, Copy, Debug, PartialEq, Eq)]
pub enum Spot {
    /// At the block of position `q`.
    Data(u64),
    /// At the Link that is crossed on the way to position `q`.
    Link(u64),
}

impl Spot {
    /// The number of the spot's position, by which spots are in order: a Link lies before the block of its position.
    #[inline(always)]
    pub fn number(self) -> u64
        ensures { result ≡ number self }
    {
        match self {
            Spot::Data(position) => position,
            Spot::Link(position) => position,
        }
    }
}
