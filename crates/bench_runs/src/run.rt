ghost use Rattle.std.specs.Prelude.{IfOk, OnOk};
ghost use Rattle.bench_runs.specs.Runs.{IsCourse, IsRun};

use crate::course::Course;
use crate::end::Ended;
use crate::header::{HeaderText, read_header};
use crate::lines::{Lines, say};
use crate::question::Question;
use answers::Status;
use bench::{Adversary, Live, Profile};
use guest_memory::{SparseMemory, WordMemory};
use std::alloc::Global;
use std::io::{self, ErrorKind, Read, Write};
use trace_reader::{Counted, RowReader, StreamFault, print_schedule};
use traces::Schedule;

/// What is asked of a run.
#[derive(Clone, Copy, Debug)]
pub struct Asked {
    /// What the controller does is drawn by this number.
    pub seed: u64,
    pub profile: Profile,
}

/// How a run ended, and what it leaves.
#[derive(Drop)]
pub struct Left {
    pub ended: Ended,
    /// The text of the trace, as the driver said it.
    pub trace: Vec<u8>,
    /// The steps that were made, the rows among them.
    pub schedule: Option<Schedule>,
}

/// Runs the driver that speaks on `input` beside the controller's model, and answers it on `out`. The first row that breaks a rule is told
/// on `err` at once.
pub fn run_bench<R: Read + Drop, O: Write, E: Write>(
    alloc: Global,
    asked: &Asked,
    input: R,
    out: &mut O,
    err: &mut E,
) -> io::Result<Left>
    ensures run { IfOk result IsRun }
{
    let mut lines = Lines::new(alloc, input);
    let header = read_header(alloc, &mut lines, out)?;
    let mut source = Counted::new(header.text.as_slice());
    match RowReader::open(alloc, false, &mut source) {
        Ok(reader) => run_behind(alloc, asked, reader, header, &mut lines, out, err),
        Err(StreamFault::Line { line, fault }) => Ok(Left {
            ended: Ended::BadLine { line, fault },
            trace: header.text,
            schedule: None,
        }),
        Err(StreamFault::Device | StreamFault::Memory) => Err(ErrorKind::OutOfMemory.into()),
    }
}

/// The same behind the lines of a header; the first row's line has been read with them, where there is one.
fn run_behind<R: Read + Drop, O: Write, E: Write>(
    alloc: Global,
    asked: &Asked,
    reader: RowReader,
    header: HeaderText,
    lines: &mut Lines<R>,
    out: &mut O,
    err: &mut E,
) -> io::Result<Left>
    ensures run { IfOk result IsRun }
{
    let adversary = Adversary::new(asked.seed, asked.profile);
    let memory = SparseMemory::new(alloc);
    let known = SparseMemory::new(alloc);
    let mut live = Live::new(alloc, reader, adversary, memory, known)?;
    let mut course = Course::new(alloc, header.text, &live);
    if header.has_row {
        course.hear_row(&mut live, &[], err)?;
    }
    hear_rest(lines, &mut live, &mut course, out, err)?;
    Ok(course.into_left(live))
}

/// Hears the driver until it says no more. Behind the end of a run it is heard until it asks, since it may be writing still.
fn hear_rest<R: Read + Drop, M: WordMemory + Drop, O: Write, E: Write>(
    lines: &mut Lines<R>,
    live: &mut Live<M>,
    course: &mut Course,
    out: &mut O,
    err: &mut E,
) -> io::Result<()>
    requires so_far { IsCourse M.words course.old live.old }
    ensures so_far { OnOk result (IsCourse M.words course.new live.new) }
{
    for _ in 0..u64::MAX {
        let Some(line) = lines.next_line()? else {
            return Ok(());
        };
        course.hear(live, &line, out, err)?;
        if course.is_over() && Question::of(&line).is_some() {
            return Ok(());
        }
    }
    Ok(())
}

/// Writes what a run ended with where the driver reads it, and to `err` too. A driver that reads no more is no failure.
pub fn tell_end<O: Write, E: Write>(
    alloc: Global,
    ended: Ended,
    out: &mut O,
    err: &mut E,
) -> io::Result<Status> {
    let line = ended.line(alloc)?;
    err.write_all(line.as_bytes())?;
    say(&line, out)?;
    Ok(ended.status())
}

/// Writes the trace and the schedule that a run left.
pub fn keep<T: Write, S: Write>(
    alloc: Global,
    left: &Left,
    trace: &mut T,
    schedule: &mut S,
) -> io::Result<()> {
    trace.write_all(&left.trace)?;
    trace.flush()?;
    if let Some(steps) = &left.schedule {
        let text = print_schedule(alloc, steps)?;
        schedule.write_all(&text)?;
        schedule.flush()?;
    }
    Ok(())
}
