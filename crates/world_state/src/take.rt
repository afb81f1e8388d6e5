/// What an event may tell of a block that the controller took.
#[derive(Clone, Copy, Debug, PartialEq, Eq)]
pub struct Take {
    /// Where the block lay.
    pub address: u64,
    /// The value that it held, if it was an Event Data block (xHCI 4.11.5.2, 6.4.4.2).
    pub value: Option<u64>,
}
