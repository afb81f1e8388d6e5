//! What is found of a replay that ends at a step that isn't possible: where the driver stands, and whether the controller runs.
use crate::harms::rows_made;
use controller_model::Seen;
use row_history::{Behind, Case, Shown, line_of, register_name, stop};
use std::alloc::{AllocError, Global};
use traces::{Register, Row, Trace};

/// Notes on where a replay stands that can't go on, beside a trace.
pub fn notes_on_stuck(
    alloc: Global,
    trace: &Trace,
    seen: &[Seen],
) -> Result<Vec<String>, AllocError> {
    let rows = trace.rows.as_slice();
    let made = rows_made(seen).min(rows.len());
    let behind = Behind::nothing(alloc)?;
    let mut case = Case::new(alloc, trace.first, &rows[..made], &behind);
    note_next(&mut case, rows.get(made));
    let run = run_behind(&rows[..made], seen);
    if trace.header.version.has_runs() {
        note_run(&mut case, run);
    } else {
        note_once(&mut case, run);
    }
    Ok(case.finding()?.notes)
}

/// Whether the controller of a replay runs. Rows are named by their indexes.
#[derive(Clone, Copy)]
enum Run {
    /// It wasn't started yet.
    Unstarted,
    Running,
    /// Run/Stop is 0 since this row, and it hasn't halted yet.
    Halting(usize),
    /// Run/Stop is 0 since this row, and it has halted.
    Halted(usize),
    /// This row reset it, and it wasn't started since.
    Reset(usize),
}

/// Whether the controller runs behind these rows and what was seen beside them.
fn run_behind(rows: &[Row], seen: &[Seen]) -> Run {
    let mut run = Run::Unstarted;
    let mut made = 0usize;
    for shown in seen {
        match shown {
            Seen::Row => {
                if let Some(row) = rows.get(made) {
                    run = run_with(run, made, row);
                }
                made = made.saturating_add(1);
            }
            Seen::Halted => run = halted(run),
            _ => {}
        }
    }
    run
}

fn halted(run: Run) -> Run {
    match run {
        Run::Halting(row) => Run::Halted(row),
        _ => run,
    }
}

/// Whether the controller runs behind one more row.
fn run_with(run: Run, index: usize, row: &Row) -> Run {
    let Row::Reg {
        register: Register::Usbcmd,
        value,
    } = row
    else {
        return run;
    };
    match (run, *value % 4) {
        (Run::Halted(_), 2 | 3) => Run::Reset(index),
        (_, 1) => Run::Running,
        (Run::Running, 0) => Run::Halting(index),
        _ => run,
    }
}

/// Notes that the controller doesn't run, and since which row.
fn note_run(case: &mut Case, run: Run) {
    let (note, row) = match run {
        Run::Running => return,
        Run::Unstarted => return case.say(UNSTARTED),
        Run::Halting(row) => (
            "Run/Stop is 0 since row {}: the controller may halt, and hasn't yet",
            row,
        ),
        Run::Halted(row) => (
            "Run/Stop is 0 since row {}, and the controller has halted: until Run/Stop is 1 again it neither fetches nor posts",
            row,
        ),
        Run::Reset(row) => (
            "row {} reset the controller, and it isn't started since",
            row,
        ),
    };
    case.note(note, &[Shown::Line(line_of(case.first, row))]);
}

/// Notes that a controller that runs but once isn't started yet, or was stopped.
fn note_once(case: &mut Case, run: Run) {
    if let Run::Unstarted = run {
        case.say(UNSTARTED);
    }
    if let Some(index) = stop(case.before) {
        let line = Shown::Line(line_of(case.first, index));
        case.note(
            "the controller stopped with row {}: behind that only rows are possible",
            &[line],
        );
    }
}

const UNSTARTED: &str = "the controller isn't started yet";

/// Notes which row of the trace the driver makes next.
fn note_next(case: &mut Case, row: Option<&Row>) {
    let line = Shown::Line(line_of(case.first, case.before.len()));
    match row {
        Some(Row::Read { event }) => {
            let [w0, w1, w2, w3] = event.w;
            case.note(
                "its next row is row {}, which reads the event {} {} {} {}",
                &[
                    line,
                    Shown::Word(w0),
                    Shown::Word(w1),
                    Shown::Word(w2),
                    Shown::Word(w3),
                ],
            );
        }
        Some(Row::RegRead { register, value }) => {
            let name = Shown::Name(register_name(*register));
            case.note(
                "its next row is row {}, which reads {} as {}",
                &[line, name, Shown::Hex(*value)],
            );
        }
        Some(_) => case.note("its next row is row {}", &[line]),
        None => case.say("the trace has no further row"),
    }
}
