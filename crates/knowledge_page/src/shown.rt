//! Which row a page is about, and what stands before it.
ghost use Rattle.std.specs.Prelude.{◌≡◌, ◌≤◌, Some, length, take, IfOk, IfErr};
ghost use Rattle.trace_reader.specs.Entries.{text_of};
ghost use Rattle.knowledge_page.specs.Shown.{IfNoRow, IsBefore, IsNoRow, IsRange, IsShown};

use crate::behind::standing_behind;
use crate::standing::Standing;
use ownership_checker::CheckFault;
use ownership_rules::Refusal;
use std::alloc::Global;
use thiserror::Error;
use traces::{Row, Trace};

/// Where in a trace a page stands. Rows are named by their lines, which count from 1.
#[derive(Clone, Copy, Debug, PartialEq, Eq)]
pub enum Place {
    /// Before the first row that breaks a rule, and the least rule that it breaks.
    Refused { row: u32, refusal: Refusal },
    /// Before a row that was asked for.
    Row { row: u32 },
    /// Behind all rows, none of which breaks a rule.
    End,
}

/// What stands at a place of a trace.
#[derive(Drop)]
pub struct Shown {
    pub place: Place,
    pub standing: Standing,
}

/// Why nothing is shown.
#[derive(Clone, Copy, Debug, Error, PartialEq, Eq)]
pub enum ShowFault {
    /// The row that was asked for is none of those from `first` to `last`: the rows of the trace, up to the first that breaks a rule,
    /// which may still be asked for. There are none where `last` is below `first`.
    #[error("no such row: rows {first} to {last} can be shown")]
    NoRow { first: u32, last: u32 },
    /// A growth of memory was refused.
    #[error("memory is wanted")]
    Memory,
}

/// What stands before a row; where none is named, before the first that breaks a rule, or behind all where none does. Nothing is said of
/// the rows behind one that breaks a rule: the rules tell what is known only of a driver that keeps them.
pub fn shown_before(alloc: Global, trace: &Trace, row: Option<u32>) -> Result<Shown, ShowFault>
    ensures shown { IfOk result (IsShown (text_of trace.now) row) }
    ensures none { IfErr result (λ e. IfNoRow e (IsNoRow (text_of trace.now) row)) }
{
    if let Some(row) = row {
        let standing = standing_before(alloc, trace, row)?;
        return Ok(Shown {
            place: Place::Row { row },
            standing,
        });
    }
    match standing_behind(alloc, &trace.header, trace.first, trace.rows.as_slice()) {
        Ok(standing) => Ok(Shown {
            place: Place::End,
            standing,
        }),
        Err(CheckFault::Refused { row, refusal }) => {
            let standing = standing_before(alloc, trace, row)?;
            Ok(Shown {
                place: Place::Refused { row, refusal },
                standing,
            })
        }
        Err(CheckFault::Memory) => Err(ShowFault::Memory),
    }
}

/// What stands before the row of this line.
fn standing_before(alloc: Global, trace: &Trace, row: u32) -> Result<Standing, ShowFault>
    ensures before { IfOk result (IsBefore (text_of trace.now) row) }
    ensures none { IfErr result (λ e. IfNoRow e (IsNoRow (text_of trace.now) (Some row))) }
{
    let rows = trace.rows.as_slice();
    if row < trace.first || (row - trace.first) as usize >= rows.len() {
        return Err(no_row(alloc, trace));
    }
    let before = first_rows(rows, (row - trace.first) as usize);
    match standing_behind(alloc, &trace.header, trace.first, before) {
        Ok(standing) => Ok(standing),
        Err(CheckFault::Refused { row, .. }) => Err(ShowFault::NoRow {
            first: trace.first,
            last: row,
        }),
        Err(CheckFault::Memory) => Err(ShowFault::Memory),
    }
}

/// So many of the first rows.
fn first_rows(rows: &[Row], count: usize) -> &[Row]
    requires { count ≤ length rows.now }
    ensures { result.now ≡ take count rows.now }
{
    &rows[..count]
}

/// Which rows may be asked for.
fn no_row(alloc: Global, trace: &Trace) -> ShowFault
    ensures { IfNoRow result (IsRange (text_of trace.now)) }
{
    let rows = trace.rows.as_slice();
    let first = trace.first;
    match standing_behind(alloc, &trace.header, first, rows) {
        Ok(_) => ShowFault::NoRow {
            first,
            last: first + rows.len() as u32 - 1,
        },
        Err(CheckFault::Refused { row, .. }) => ShowFault::NoRow { first, last: row },
        Err(CheckFault::Memory) => ShowFault::Memory,
    }
}
