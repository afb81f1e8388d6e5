ghost use Rattle.std.specs.Prelude.{◌≡◌, ◌+◌, ◌≤◌, [], false, true, length};
ghost use Rattle.traces.specs.AllowedHeaders.{AreUnmoved, IsHeader};
ghost use Rattle.traces.specs.Limits.{most_streamed_lines};
ghost use Rattle.traces.specs.TraceRows.{AreRowsOf, begins_with_ring, have_new_ids, rows_of_are_fact};

use crate::header::Header;
use crate::row::Row;
use std::marker::Model;

/// The rows of a trace, in their order. Contracts see the list.
#[derive(Debug, Drop)]
pub struct Rows {
    rows: Vec<Row>,
}

impl Model for Rows {
    ghost use Rattle.std.specs.Prelude.{List};
    ghost use Rattle.traces.specs.declared.row.Row.{Row};

    ghost Value = { List Row };

    ghost view = { λ r. r.rows.items };
}

impl Rows {
    /// The rows of a vector.
    pub fn new(rows: Vec<Row>) -> Rows
        ensures { result ≡ rows.items }
    {
        Rows { rows }
    }

    /// The rows, in their order.
    pub fn as_slice(&self) -> &[Row]
        ensures { result.now ≡ self.now }
    {
        self.rows.as_slice()
    }
}

/// A trace that was read, its rows kept in memory: what the driver did, and the rows by which rings come and go and descriptors are
/// withdrawn. Its rings have allowed shapes, haven't grown and may stand together, each ring that comes has an ID that none had before, and its
/// version has each of its rows.
#[derive(Debug, Drop)]
pub struct Trace {
    /// The version, the context size, and the rings before the first row.
    pub header: Header,
    /// The line number of the first row; lines count from 1.
    pub first: u32,
    /// The rows, one a line.
    pub rows: Rows,
    pub ghost headed: { IsHeader header },
    pub ghost unmoved: { AreUnmoved header.rings },
    pub ghost placed: { first ≡ length header.rings + 3 },
    pub ghost fitting: { AreRowsOf header.version rows } by { rows_of_are_fact header.version rows },
    pub ghost begins: { begins_with_ring rows ≡ false },
    pub ghost new_ids: { have_new_ids header.rings [] rows ≡ true },
    pub ghost within: { first + length rows ≤ most_streamed_lines + 1 },
}
