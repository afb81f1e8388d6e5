ghost use Rattle.std.specs.Prelude.{◌≤◌, ◌<◌, vec_len};
ghost use Rattle.traces.specs.Limits.{most_trace_bytes};

/// The bytes that were read ahead of the lines.
#[derive(Drop)]
pub struct Ahead {
    /// Where the device puts them, with room for more than a line may have.
    pub bytes: Vec<u8>,
    /// So many belong to lines that were read.
    pub done: usize,
    /// So many came.
    pub end: usize,
    pub ghost within: { done ≤ end },
    pub ghost came: { end ≤ vec_len bytes },
    pub ghost room: { most_trace_bytes < vec_len bytes },
}
