ghost use Rattle.std.specs.Prelude.{◌≡◌, ◌≤◌, true};
ghost use Rattle.trace_reader.specs.SegmentsApart.{AreSegmentsOf};
ghost use Rattle.traces.specs.AllowedHeaders.{AreUnmoved, IsHeader};
ghost use Rattle.traces.specs.Limits.{most_lines_of, most_streamed_lines};

use crate::segments_so_far::SegmentsSoFar;
use contexts::ContextSize;
use std::alloc::Global;
use traces::{Ring, Version};

/// What the lines so far have said.
#[derive(Drop)]
pub struct TraceSoFar {
    pub alloc: Global,
    pub version: Version,
    pub size: ContextSize,
    pub rings: Vec<Ring>,
    /// The segments of the rings, where no memory was wanting.
    pub(crate) segments: SegmentsSoFar,
    /// No memory was wanting where a ring was added: else no ring can be added any more.
    pub(crate) has_all_segments: bool,
    /// A row was read.
    pub begun: bool,
    /// The IDs of the rings that came behind the first row.
    pub later: Vec<u8>,
    /// How many lines were read.
    pub lines: u32,
    /// All rows are kept in memory: there may be fewer.
    pub keeps: bool,
    pub ghost within: { lines ≤ most_lines_of keeps version },
    pub ghost counted: { lines ≤ most_streamed_lines },
    pub ghost headed: { IsHeader (record { version = version; context_size = size; rings = rings.items }) },
    pub ghost unmoved: { AreUnmoved rings.items },
    pub ghost searched: { has_all_segments ≡ true → AreSegmentsOf rings.items segments },
}
