use guest_memory::Addr;
use trace_record::RowPlace;

/// A write of a word of memory, and what is found of it once for all its rules.
#[derive(Drop)]
pub struct WordWrite<'a> {
    pub at: Addr,
    pub word: u32,
    /// Where the word lies, and what its write gives.
    pub place: &'a RowPlace,
    /// Whether it is to what the controller owns.
    pub owned: bool,
}
