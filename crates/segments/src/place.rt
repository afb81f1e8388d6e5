/// Which word of a ring's blocks has an address.
#[derive(Clone, Copy, Debug, PartialEq, Eq)]
pub enum Place {
    /// A word of a data place: its number in the ring, from 0, and the word's in the block, 0 to 3.
    Data { place: u32, word: u8 },
    /// A word of the Link of a segment: the segment's number, from 0, and the word's in the block, 0 to 3.
    Link { segment: u32, word: u8 },
}
