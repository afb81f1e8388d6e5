//! Sums up what was answered of several traces.
ghost use Rattle.std.specs.Prelude.{OnOk};
ghost use Rattle.std.specs.Io.KnownBytes.{Appends};
ghost use Rattle.command_runs.specs.Outcomes.{summary_text};

use crate::outcome::Tally;
use answers::write_whole;
use std::alloc::Global;
use std::io::{self, Write};

/// Writes how many traces had which answer, a line. An error is that memory was wanted for it, or that `out` failed.
pub fn tell_summary<O: Write>(alloc: Global, tally: &Tally, out: &mut O) -> io::Result<()>
    ensures { OnOk result (Appends (O.contents out.old) (O.contents out.new) (summary_text tally.now)) }
{
    let line = tally.line(alloc)?;
    write_whole(line.as_bytes(), out)
}
