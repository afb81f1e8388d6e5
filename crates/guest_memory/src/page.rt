ghost use Rattle.std.specs.Prelude.{◌≡◌, length};

/// The bytes of a page.
pub(crate) const PAGE: u64 = 64;

/// The words of a page: few, so that words that lie far apart cost little more than themselves, whoever picks their addresses.
pub(crate) const WORDS: usize = 16;

/// The pages that stand behind one in the tree, one for each digit in base eight.
pub(crate) const DIGITS: u64 = 8;

/// A page of memory.
#[derive(Drop)]
pub(crate) struct Page {
    /// The page's address divided by its bytes.
    pub(crate) number: u64,
    /// Where the pages behind it lie, 0 where there is none.
    pub(crate) next: [u32; DIGITS as usize],
    pub(crate) words: [u32; WORDS],
    ghost eight: { length next ≡ 8 },
    ghost whole: { length words ≡ 16 },
}
