ghost use Rattle.std.specs.Prelude.{◌≡◌, ◌∷◌, [], false};
ghost use Rattle.traces.specs.TraceRows.{begins_with_ring};

use traces::Row;

/// A row by which no ring comes.
#[derive(Drop)]
pub struct PlainRow {
    pub row: Row,
    pub ghost plain: { begins_with_ring (row ∷ []) ≡ false },
}
