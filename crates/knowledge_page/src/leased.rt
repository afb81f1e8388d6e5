//! What is under lease, with the rows that gave it.
use ring_knowledge::Lease;
use std::alloc::{AllocError, Global};

/// TRBs one behind the other, or a Link, that the controller may read at any moment.
#[derive(Clone, Copy, Debug, PartialEq, Eq)]
pub(crate) struct Run {
    pub(crate) ring: u32,
    is_link: bool,
    /// The first TRB; of a Link the one before it.
    pub(crate) first: u64,
    /// The last TRB.
    pub(crate) last: u64,
    /// The lines of the first and of the last of the rows that gave them.
    from: u32,
    to: u32,
}

/// A TRB or a Link under lease, by ring, kind and place, and the row that gave it.
#[derive(Clone, Copy, Debug, PartialEq, Eq, PartialOrd, Ord)]
pub(crate) struct Piece {
    pub(crate) ring: u32,
    pub(crate) is_link: bool,
    pub(crate) position: u64,
    pub(crate) row: u32,
}

/// The lease has no end.
fn is_open(lease: &Lease) -> bool {
    lease.to == u32::MAX
}

/// The TRBs and Links under lease, in order.
pub(crate) fn pieces_of(alloc: Global, leases: &[Lease]) -> Result<Vec<Piece>, AllocError> {
    let mut pieces = Vec::new(alloc);
    for lease in leases {
        if is_open(lease) && lease.kind < 2 {
            pieces.push(Piece {
                ring: lease.ring,
                is_link: lease.kind == 1,
                position: lease.pos,
                row: lease.from,
            })?;
        }
    }
    pieces.sort_unstable();
    Ok(pieces)
}

/// The ranges of bytes under lease, in the order in which they were given.
pub(crate) fn ranges_of(alloc: Global, leases: &[Lease]) -> Result<Vec<Lease>, AllocError> {
    let mut ranges = Vec::new(alloc);
    for lease in leases {
        if is_open(lease) && lease.kind == 2 {
            ranges.push(*lease)?;
        }
    }
    Ok(ranges)
}

/// Pieces in order, as few as can be told together.
pub(crate) fn runs_of(alloc: Global, pieces: &[Piece]) -> Result<Vec<Run>, AllocError> {
    let mut runs: Vec<Run> = Vec::new(alloc);
    for piece in pieces {
        match runs.last_mut() {
            Some(run) if is_next(run, piece) => {
                run.last = piece.position;
                run.from = run.from.min(piece.row);
                run.to = run.to.max(piece.row);
            }
            _ => runs.push(Run {
                ring: piece.ring,
                is_link: piece.is_link,
                first: piece.position,
                last: piece.position,
                from: piece.row,
                to: piece.row,
            })?,
        }
    }
    Ok(runs)
}

/// The TRB is the one behind a run of TRBs.
fn is_next(run: &Run, piece: &Piece) -> bool {
    run.ring == piece.ring
        && !run.is_link
        && !piece.is_link
        && run.last < piece.position
        && piece.position - run.last == 1
}

/// The TRBs and Links of a ring that are under lease, on one line.
pub(crate) fn write_runs(page: &mut String, ring: u8, runs: &[Run]) -> Result<(), AllocError> {
    if runs.iter().any(|run| run.ring == u32::from(ring)) {
        write_list(page, "  under lease: ", ring, runs)?;
        page.push_str("\n")?;
    }
    Ok(())
}

/// The runs of a ring, one behind the other; this stands before them.
pub(crate) fn write_list(
    page: &mut String,
    head: &str,
    ring: u8,
    runs: &[Run],
) -> Result<(), AllocError> {
    let mut separator = head;
    for run in runs {
        if run.ring == u32::from(ring) {
            page.push_str(separator)?;
            write_run(page, run)?;
            separator = ", ";
        }
    }
    Ok(())
}

fn write_run(page: &mut String, run: &Run) -> Result<(), AllocError> {
    let Run {
        first,
        last,
        from,
        to,
        ..
    } = *run;
    if run.is_link {
        write!(page, "Link behind TRB {first} (row {from})")
    } else if first == last {
        write!(page, "TRB {first} (row {from})")
    } else if from == to {
        write!(page, "TRBs {first} to {last} (row {from})")
    } else {
        write!(page, "TRBs {first} to {last} (rows {from} to {to})")
    }
}
