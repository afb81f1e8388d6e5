/// A lease: from the row `from` to the row `to`, both excluded, the controller owns words of memory (xHCI 4.9.2).
/// Rows have their line numbers; `to` is 0xffff_ffff where the lease has no end.
#[derive(Clone, Copy, Debug, PartialEq, Eq)]
pub struct Lease {
    /// 0: a block that was given, 16 bytes. 1: a Link that was given, 16 bytes. 2: a range of bytes.
    pub kind: u32,
    /// The ring's ID; for a range its length in bytes.
    pub ring: u32,
    /// The block's position; for a Link the position before its crossing; for a range its first address.
    pub pos: u64,
    /// The line of the row that gives the memory away; 0 where the controller owns it from the beginning.
    pub from: u32,
    /// The line of the row that gets it back.
    pub to: u32,
}
