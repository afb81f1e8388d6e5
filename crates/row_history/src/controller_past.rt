//! What the rows before say of the controller: its registers, and by which rows it was started, halted and reset (xHCI 4.2, 5.4.1, 5.4.2).
use ring_knowledge::RegisterRecord;
use traces::{Halt, Register, Version};

/// What the rows before say of the controller. Rows are named by their indexes.
#[derive(Drop)]
pub struct ControllerPast {
    /// Its registers: those that were written since the last reset, CRCR while the Command Ring was there that is there now.
    pub registers: RegisterRecord,
    /// The row that started it, since the last reset.
    pub start: Option<usize>,
    /// The row since which Run/Stop is 1, or was until a stop: the start, or the one by which it went on behind a halt.
    pub run: Option<usize>,
    /// The row by which Run/Stop became 0, where it is to halt.
    pub stop: Option<usize>,
    /// The row that saw that it has halted since.
    pub halt: Option<usize>,
    /// The last row that reset it behind a halt.
    pub reset: Option<usize>,
}

impl ControllerPast {
    /// Before the first row.
    pub(crate) fn new() -> ControllerPast {
        ControllerPast {
            registers: RegisterRecord::new(),
            start: None,
            run: None,
            stop: None,
            halt: None,
            reset: None,
        }
    }

    /// A register is written. Whether that resets the controller.
    pub(crate) fn write(
        &mut self,
        version: Version,
        row: usize,
        register: Register,
        value: u64,
    ) -> bool {
        let before = self.registers.halt();
        if register == Register::Usbcmd && before.is_done() && value / 2 % 2 == 1 {
            *self = ControllerPast::new();
            self.reset = Some(row);
            return true;
        }
        self.registers.write(version, register, value);
        if self.start.is_none() && self.registers.is_started() {
            self.start = Some(row);
            self.run = self.start;
        }
        self.note_stop(row, before);
        false
    }

    /// Notes whether the controller is to halt since this row, or isn't any more.
    fn note_stop(&mut self, row: usize, before: Halt) {
        let now = self.registers.halt();
        if now.is_asked() && !before.is_asked() {
            self.stop = Some(row);
        } else if before.is_asked() && !now.is_asked() {
            self.run = Some(row);
            self.stop = None;
            self.halt = None;
        }
    }

    /// A register is read.
    pub(crate) fn read(&mut self, row: usize, register: Register, value: u64) {
        self.registers.read(register, value);
        if self.halt.is_none() && self.registers.halt().is_done() {
            self.halt = Some(row);
        }
    }

    /// The index of the first row behind the last reset.
    pub fn since(&self) -> usize {
        match self.reset {
            Some(row) => row.saturating_add(1),
            None => 0,
        }
    }
}
