//! The SARIF log of what was found of several traces.
use crate::found::Found;
use crate::outcome::{Outcome, Tally};
use crate::reported::check_report;
use answers::write_whole;
use reports::{MEMORY_LOG, Sarif};
use std::alloc::{AllocError, Global};
use std::io::{self, Write};

/// A log with what was found of one trace more, which is called `name`; once memory was wanted there is none.
pub fn logged(
    alloc: Global,
    log: Result<Sarif, AllocError>,
    name: &str,
    found: Found,
) -> Result<Sarif, AllocError> {
    let mut log = log?;
    log.add(alloc, &check_report(alloc, name, found)?)?;
    Ok(log)
}

/// Writes a log, or that memory was wanted for it, which is counted too. An error is that `out` failed.
pub fn write_log<O: Write>(
    alloc: Global,
    log: Result<Sarif, AllocError>,
    tally: &mut Tally,
    out: &mut O,
) -> io::Result<()> {
    match log.and_then(|log| log.text(alloc)) {
        Ok(text) => write_whole(&text, out),
        Err(_) => {
            tally.add(Outcome::unanswered());
            write_whole(MEMORY_LOG.as_bytes(), out)
        }
    }
}
