ghost use Rattle.std.specs.Prelude.{◌≤◌};
ghost use Rattle.traces.specs.AllowedHeaders.{AreUnmoved, IsHeader};
ghost use Rattle.traces.specs.Limits.{most_streamed_lines};

use crate::row_reader::ahead::Ahead;
use std::alloc::Global;
use traces::Header;

/// A trace whose rows are read one by one: what its header says, and how far the reading has come.
#[derive(Drop)]
pub struct RowReader {
    pub(crate) alloc: Global,
    pub(crate) header: Header,
    /// The IDs of the rings that came behind the first row.
    pub(crate) later: Vec<u8>,
    /// How many lines were read.
    pub(crate) lines: u32,
    /// All rows are kept in memory, so that there may be fewer.
    pub(crate) keeps: bool,
    /// It has told a fault or the end.
    pub(crate) ended: bool,
    pub(crate) ahead: Ahead,
    pub ghost headed: { IsHeader header },
    pub ghost unmoved: { AreUnmoved header.rings },
    pub ghost behind: { 2 ≤ lines },
    pub ghost within: { lines ≤ most_streamed_lines },
}
