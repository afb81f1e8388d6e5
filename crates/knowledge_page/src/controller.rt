//! The registers, and whether the controller runs.
use ring_knowledge::RegisterRecord;
use row_history::register_name;
use std::alloc::AllocError;
use traces::{Halt, Register};

/// Whether the controller runs, and the last value written to each register.
pub(crate) fn write_controller(
    page: &mut String,
    registers: &RegisterRecord,
) -> Result<(), AllocError> {
    let state = state_name(registers);
    writeln!(page, "controller: {state}")?;
    let mut count = 0u32;
    for register in Register::ALL {
        if let Some(value) = registers.value(register) {
            write_register(page, count, register, value)?;
            count = count.saturating_add(1);
        }
    }
    if count == 0 {
        writeln!(page, "registers: none is written")
    } else {
        writeln!(page)
    }
}

/// Whether the controller runs. It halts from Run/Stop 0 on, and is halted once that was read (HCHalted).
fn state_name(registers: &RegisterRecord) -> &'static str {
    if registers.is_stopped() {
        return "was stopped or reset";
    }
    match registers.halt() {
        Halt::Not if registers.is_started() => "runs",
        Halt::Not => "isn't started",
        Halt::Asked => "halts",
        Halt::Done => "is halted",
        Halt::Saved => "is halted, its state saved",
        Halt::Restoring => "is halted, and restores its state",
        Halt::Restored => "is halted, its state restored",
    }
}

/// A register behind so many others: four on a line.
fn write_register(
    page: &mut String,
    before: u32,
    register: Register,
    value: u64,
) -> Result<(), AllocError> {
    let name = register_name(register);
    match before % 4 {
        _ if before == 0 => write!(page, "registers: ")?,
        0 => write!(page, "\n           ")?,
        _ => write!(page, "  ")?,
    }
    if register.is_wide() {
        write!(page, "{name} {value:016x}")
    } else {
        write!(page, "{name} {value:08x}")
    }
}
