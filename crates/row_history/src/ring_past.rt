//! What the rows before say of one ring, beside how it stands: which row submitted a TD, which one withdrew it, and which
//! one brought the controller past a TRB.
use std::alloc::{AllocError, Global};

/// A TD of a ring, and the row that submitted it.
#[derive(Clone, Copy)]
pub struct Submitted {
    pub row: usize,
    /// Its first position.
    pub first: u64,
    /// How many TRBs it has.
    pub count: u64,
    /// The row that withdrew it.
    pub withdrawn: Option<usize>,
}

/// A TRB that was handed over before it was withdrawn, of a ring that wasn't started or moved since: its words are the
/// driver's until then (xHCI 4.6.9).
#[derive(Clone, Copy)]
pub struct FreeTrb {
    pub position: u64,
    /// The row that withdrew it.
    pub row: usize,
}

/// That a row brought the controller to a position, as far as is known.
#[derive(Clone, Copy)]
struct Passed {
    upto: u64,
    row: usize,
}

/// What the rows before say of one ring.
#[derive(Drop)]
pub struct RingPast {
    /// In the order of their positions.
    tds: Vec<Submitted>,
    /// In the order of their rows.
    free: Vec<FreeTrb>,
    /// In the order of their rows.
    passed: Vec<Passed>,
}

impl RingPast {
    /// Before anything happens on the ring.
    pub(crate) fn new(alloc: Global) -> RingPast {
        RingPast {
            tds: Vec::new(alloc),
            free: Vec::new(alloc),
            passed: Vec::new(alloc),
        }
    }

    /// A row submits a TD.
    pub(crate) fn submit(&mut self, row: usize, count: usize) -> Result<(), AllocError> {
        let first = match self.tds.as_slice().last() {
            Some(td) => td.first.saturating_add(td.count),
            None => 0,
        };
        self.tds.push(Submitted {
            row,
            first,
            count: count as u64,
            withdrawn: None,
        })?;
        Ok(())
    }

    /// How many TDs begin up to a position.
    fn begun_upto(&self, position: u64) -> usize {
        self.tds
            .as_slice()
            .partition_point(|td| td.first <= position)
    }

    /// The TD that has a position.
    pub fn td_with(&self, position: u64) -> Option<Submitted> {
        let number = self.begun_upto(position).checked_sub(1)?;
        let td = self.tds.get(number)?;
        if position.checked_sub(td.first)? < td.count {
            Some(*td)
        } else {
            None
        }
    }

    /// A row withdraws the TD that has a position.
    pub(crate) fn withdraw(&mut self, row: usize, position: u64) {
        if let Some(number) = self.begun_upto(position).checked_sub(1) {
            if let Some(td) = self.tds.get_mut(number) {
                td.withdrawn = Some(row);
            }
        }
    }

    /// A TRB that is withdrawn was handed over before.
    pub(crate) fn set_free(&mut self, row: usize, position: u64) -> Result<(), AllocError> {
        self.free.push(FreeTrb { position, row })?;
        Ok(())
    }

    /// The ring is started or moved: nothing of it is the driver's any more.
    pub(crate) fn restore(&mut self) {
        self.free.clear();
    }

    /// The TRBs whose words are the driver's, in the order of the rows that withdrew them.
    pub fn free(&self) -> &[FreeTrb] {
        self.free.as_slice()
    }

    /// A row brings the controller to a position, as far as is known.
    pub(crate) fn note_passed(&mut self, row: usize, upto: u64) -> Result<(), AllocError> {
        let before = match self.passed.as_slice().last() {
            Some(passed) => passed.upto,
            None => 0,
        };
        if upto > before {
            self.passed.push(Passed { upto, row })?;
        }
        Ok(())
    }

    /// The row that brought the controller past a position.
    pub fn passed_by(&self, position: u64) -> Option<usize> {
        let number = self
            .passed
            .as_slice()
            .partition_point(|passed| passed.upto <= position);
        match self.passed.get(number) {
            Some(passed) => Some(passed.row),
            None => None,
        }
    }
}
