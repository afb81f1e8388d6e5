//! The texts of traces, plans and schedules, read and printed exactly: from memory, or the rows of a trace one by one from a device.
#![tactic(auto)]

mod clashes;
mod declarations;
mod entry;
mod fault;
mod later;
mod line;
mod plain_row;
mod plan_line;
mod plans;
mod print;
mod quick;
mod read;
mod row_reader;
mod schedules;
mod segments_so_far;
mod so_far;
mod step_line;

pub use declarations::declarations_ahead;
pub use entry::block_of;
pub use fault::{LineError, LineFault, ReadFault};
pub use later::note_id;
pub use line::{
    MOST_LINES, MOST_STREAMED_LINES, MOST_TRACE_BYTES, most_bytes_of, most_lines_of, row_in,
};
pub use plans::read_plan;
pub use print::{print_trace, with_ring, with_row, with_sub, with_write};
pub use quick::{
    bell_ahead, declaration_ahead, erdp_ahead, event_ahead, register_ahead, write_ahead,
};
pub use read::{read_long_trace, read_trace};
pub use row_reader::{Counted, Failed, RowReader, Source, StreamFault};
pub use schedules::{print_schedule, read_schedule};
pub use so_far::TraceSoFar;
pub use traces::{
    Header, Plan, PlanLine, PlanLines, Register, Ring, Rings, Row, Rows, Schedule, Step, Steps,
    Trace,
};
