//! One row of a trace, judged by all its rules: what it breaks first, or what is known after it.

mod events;
mod row;

pub(crate) use row::check_row;
