//! The page.
use crate::controller::write_controller;
use crate::devices::{write_commands, write_ranges, write_slots};
use crate::leased::{pieces_of, ranges_of, runs_of};
use crate::rings::write_rings;
use crate::shown::{Place, Shown};
use crate::waiting::Waiting;
use crate::waiting_words::waiting_lines;
use std::alloc::{AllocError, Global};

/// What stands at a place of a trace, as a page of text: whether the controller runs and its registers, each ring, the slots, the
/// unfinished commands, the ranges of bytes under lease, and what waits, if anything.
pub fn page_of(alloc: Global, shown: &Shown, waiting: &[Waiting]) -> Result<String, AllocError> {
    let standing = &shown.standing;
    let header = &standing.header;
    let kept = &standing.kept;
    let leases = standing.leases.as_slice();
    let pieces = pieces_of(alloc, leases)?;
    let runs = runs_of(alloc, pieces.as_slice())?;
    let ranges = ranges_of(alloc, leases)?;
    let mut page = String::new(alloc);
    write_place(&mut page, shown.place)?;
    write_controller(&mut page, &kept.registers)?;
    write_rings(alloc, &mut page, standing, runs.as_slice())?;
    write_slots(&mut page, &kept.devices)?;
    write_commands(&mut page, header, kept, pieces.as_slice())?;
    write_ranges(&mut page, header, kept, ranges.as_slice())?;
    if !waiting.is_empty() {
        page.push_str("waiting\n")?;
        page.push_str(&waiting_lines(alloc, "  ", waiting)?)?;
    }
    Ok(page)
}

fn write_place(page: &mut String, place: Place) -> Result<(), AllocError> {
    match place {
        Place::Refused { row, refusal } => {
            let number = refusal.number();
            let name = refusal.name();
            writeln!(page, "before row {row}, which is refused: {number} {name}")
        }
        Place::Row { row } => writeln!(page, "before row {row}"),
        Place::End => page.push_str("behind all rows: none breaks a rule\n"),
    }
}
