/// A word that the controller wrote.
#[derive(Clone, Copy, Debug, PartialEq, Eq)]
pub struct Written {
    /// Its bus address, a multiple of 4.
    pub at: u64,
    pub word: u32,
}
