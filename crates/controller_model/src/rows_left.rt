ghost use Rattle.std.specs.Prelude.{◌≡◌, ◌<◌, All, IfSome, drop, length, slice_get};
ghost use Rattle.std.specs.Option.{option_copied};
ghost use Rattle.traces.specs.TraceRows.{IsTraceRow};

use std::marker::Model;
use traces::Row;

/// The rows of a trace that are still to come. Contracts see the list.
#[derive(Drop)]
pub struct RowsLeft<'t> {
    rows: &'t [Row],
    /// The number of the next row, from 0.
    next: usize,
}

impl<'t> Model for RowsLeft<'t> {
    ghost use Rattle.std.specs.Prelude.{All, List, drop};
    ghost use Rattle.traces.specs.declared.row.Row.{Row};
    ghost use Rattle.traces.specs.TraceRows.{IsTraceRow};

    ghost Value = { List Row };

    ghost view = { λ r. drop r.next r.rows.now };

    ghost invariant = { λ r. All IsTraceRow r.rows.now };
}

impl<'t> RowsLeft<'t> {
    /// All of these rows.
    pub(crate) fn new(rows: &'t [Row]) -> RowsLeft<'t>
        requires { All IsTraceRow rows.now }
        ensures { result ≡ rows.now }
    {
        RowsLeft { rows, next: 0 }
    }

    /// The next row, if there is one.
    pub(crate) fn first(&self) -> Option<&'t Row>
        ensures row { option_copied result ≡ slice_get self.now 0 }
        ensures fits { IfSome result (λ row. IsTraceRow row.now) }
    {
        self.rows.get(self.next)
    }

    /// The next row is made.
    pub(crate) fn pass(&mut self)
        requires { 0 < length self.old }
        ensures { self.new ≡ drop 1 self.old }
    {
        self.next += 1;
    }
}
