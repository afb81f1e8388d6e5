//! The trace that an explanation looks back over.
ghost use Rattle.std.specs.Prelude.{◌≡◌, false, true, IfOk, IsOk, is_some};
ghost use Rattle.trace_reader.specs.Reading.{trace_of};

use std::alloc::{AllocError, Global};
use trace_reader::{ReadFault, Trace, read_long_trace};

/// The trace of a text, however long; none where it is no trace.
pub(crate) fn trace_in(alloc: Global, text: &[u8]) -> Result<Option<Trace>, AllocError>
    ensures { IfOk result (λ read. IsOk (trace_of false text.now) → is_some read ≡ true) }
{
    match read_long_trace(alloc, text) {
        Ok(trace) => Ok(Some(trace)),
        Err(ReadFault::Line { .. }) => Ok(None),
        Err(ReadFault::Memory) => Err(AllocError),
    }
}
