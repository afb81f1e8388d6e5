ghost use Rattle.std.specs.Prelude.{◌≡◌, ℕ, ◌+◌, OnOk, ◌*◌, ◌/◌, ◌%◌, ◌==◌, ◌&&◌, ◌||◌, not, true, false, if◌then◌else◌, Option, Some, None};
ghost use Rattle.traces.specs.declared.header.Header.{Header as HeaderValue};
ghost use Rattle.traces.specs.declared.register.Register.TheVariants.{Crcr, Erdp, Usbcmd};
ghost use Rattle.traces.specs.Register.{run_bit, reset_bit};
ghost use Rattle.world_state.specs.World.{World};
ghost use Rattle.world_state.specs.DriverRows.{register_row, reset, resets, runs_again, runs_once, shows, valued, with_dequeue};
ghost use Rattle.controller_model.specs.declared.seen.Seen.TheVariants.{Row};
ghost use Rattle.controller_model.specs.Following.{Follows, IsStep, noted};

use crate::command_rings::place_commands;
use crate::fault::StepFault;
use crate::kept::{Kept, Registers};
use crate::posts::event_ring;
use crate::resets::reset;
use crate::seen::Seen;
use segments::Place;
use std::alloc::AllocError;
use traces::{Header, Register};

/// The registers with one more write.
fn noted(registers: Registers, register: Register, value: u64) -> Registers
    ensures { result ≡ noted registers register value }
{
    let mut after = registers;
    match register {
        Register::Dcbaap => after.dcbaap = value,
        Register::Config => after.config = value,
        _ => {}
    }
    after
}

/// A register is written.
fn note(kept: &mut Kept, register: Register, value: u64)
    ensures { (h : HeaderValue) (words : ℕ → ℕ) (w : World) → Follows h words kept.old w →
        Follows h words kept.new (valued w register value) }
{
    kept.registers = noted(kept.registers, register, value);
}

/// USBCMD has R/S 1 (xHCI 5.4.1).
fn is_run(value: u64) -> bool
    ensures { result ≡ run_bit value }
{
    value % 2 == 1
}

/// USBCMD has HCRST 1 (xHCI 5.4.1).
fn is_reset(value: u64) -> bool
    ensures { result ≡ reset_bit value }
{
    value / 2 % 2 == 1
}

/// USBCMD has R/S 1 and HCRST 0.
fn runs(value: u64) -> bool
    ensures { result ≡ (run_bit value && not (reset_bit value)) }
{
    is_run(value) && !is_reset(value)
}

/// The controller is stopped or reset, and runs no more.
fn stop(kept: &mut Kept)
    ensures { (h : HeaderValue) (words : ℕ → ℕ) (w : World) → Follows h words kept.old w →
        Follows h words kept.new (record w { stopped = true }) }
{
    kept.progress.stopped = true;
}

/// The controller runs from now on.
fn set_started(kept: &mut Kept)
    ensures { (h : HeaderValue) (words : ℕ → ℕ) (w : World) → Follows h words kept.old w →
        Follows h words kept.new (record w { started = true }) }
{
    kept.progress.started = true;
}

/// The controller starts, or goes on where it was.
fn go_on(kept: &mut Kept)
    ensures { (h : HeaderValue) (words : ℕ → ℕ) (w : World) → Follows h words kept.old w →
        Follows h words kept.new (record w { started = true; halting = false; halted = false }) }
{
    kept.progress.started = true;
    kept.progress.halting = false;
    kept.progress.halted = false;
}

/// The controller halts from now on at any moment.
fn set_halting(kept: &mut Kept)
    ensures { (h : HeaderValue) (words : ℕ → ℕ) (w : World) → Follows h words kept.old w →
        Follows h words kept.new (record w { halting = true }) }
{
    kept.progress.halting = true;
}

/// USBCMD is written of a controller that runs but once: R/S 1 starts it, and then R/S 0 or HCRST stops it.
fn run_once(kept: &mut Kept, value: u64)
    ensures { (h : HeaderValue) (words : ℕ → ℕ) (w : World) → Follows h words kept.old w →
        Follows h words kept.new (runs_once h w value) }
{
    let runs = runs(value);
    if kept.progress.started {
        if !runs {
            stop(kept);
        }
        return;
    }
    if runs {
        set_started(kept);
    }
}

/// USBCMD is written of one that runs again: R/S 1 starts it or lets it go on, and R/S 0 has it halt (xHCI 4.2, 5.4.1.1).
fn run_again(kept: &mut Kept, value: u64)
    ensures { (h : HeaderValue) (words : ℕ → ℕ) (w : World) → Follows h words kept.old w →
        Follows h words kept.new (runs_again h w value) }
{
    if is_reset(value) {
        return;
    }
    if is_run(value) {
        go_on(kept);
        return;
    }
    if kept.progress.started {
        set_halting(kept);
    }
}

/// The driver writes USBCMD, and doesn't reset the controller (xHCI 5.4.1).
fn write_command(header: &Header, kept: &mut Kept, value: u64)
    ensures { (words : ℕ → ℕ) (w : World) → Follows header.now words kept.old w →
        Follows header.now words kept.new (register_row header.now w Usbcmd value) }
{
    note(kept, Register::Usbcmd, value);
    if header.version.has_runs() {
        run_again(kept, value);
    } else {
        run_once(kept, value);
    }
}

/// The driver writes CRCR, which has an effect where the controller doesn't run (xHCI 5.4.5).
fn write_pointer(header: &Header, kept: &mut Kept, value: u64)
    ensures { (words : ℕ → ℕ) (w : World) → Follows header.now words kept.old w →
        Follows header.now words kept.new (register_row header.now w Crcr value) }
{
    note(kept, Register::Crcr, value);
    if kept.progress.started & !kept.progress.halted {
        return;
    }
    place_commands(header, kept, value);
}

/// The event position that ERDP names is the next one at an address, where that is an event place (xHCI 5.5.2.3.3).
#[tactic(auto, using(crate::proofs::EventPlaces::dequeue_kept, crate::proofs::EventPlaces::no_ring_place, world_state::proofs::EventPlaces::no_place), unfolding(traces::specs::Header::event_shape))]
fn set_dequeue(header: &Header, kept: &mut Kept, address: u64) -> Result<(), AllocError>
    requires { address % 16 ≡ 0 }
    ensures { OnOk result ((words : ℕ → ℕ) (w : World) → Follows header.now words kept.old w →
        Follows header.now words kept.new (with_dequeue header.now w address)) }
{
    let shape = match event_ring(header) {
        None => return Ok(()),
        Some(ring) => &ring.shape,
    };
    let place = match shape.place_at(address) {
        None => return Ok(()),
        Some(Place::Link { .. }) => return Ok(()),
        Some(Place::Data { place, .. }) => place,
    };
    let ahead = shape.ahead(kept.events.dequeue, place);
    let dequeue = kept
        .events
        .dequeue
        .checked_add(u64::from(ahead))
        .ok_or(AllocError)?;
    kept.events.dequeue = dequeue;
    Ok(())
}

/// The driver writes ERDP (xHCI 5.5.2.3.3).
fn write_dequeue(header: &Header, kept: &mut Kept, value: u64) -> Result<(), AllocError>
    ensures { OnOk result ((words : ℕ → ℕ) (w : World) → Follows header.now words kept.old w →
        Follows header.now words kept.new (register_row header.now w Erdp value)) }
{
    note(kept, Register::Erdp, value);
    set_dequeue(header, kept, value / 16 * 16)?;
    Ok(())
}

/// The driver writes a register, and doesn't reset the controller. Want of memory leaves the world spent.
fn write_value(
    header: &Header,
    kept: &mut Kept,
    register: Register,
    value: u64,
) -> Result<(), AllocError>
    ensures { OnOk result ((words : ℕ → ℕ) (w : World) → Follows header.now words kept.old w →
        Follows header.now words kept.new (register_row header.now w register value)) }
{
    match register {
        Register::Usbcmd => {
            write_command(header, kept, value);
            return Ok(());
        }
        Register::Crcr => {
            write_pointer(header, kept, value);
            return Ok(());
        }
        Register::Erdp => {
            write_dequeue(header, kept, value)?;
            return Ok(());
        }
        _ => {}
    }
    note(kept, register, value);
    Ok(())
}

/// Whether a write resets the controller: HCRST, once it has halted (xHCI 5.4.1).
#[tactic(auto, unfolding(world_state::specs::DriverRows::resets))]
fn resets(kept: &Kept, register: Register, value: u64) -> bool
    ensures { (h : HeaderValue) (words : ℕ → ℕ) (w : World) → Follows h words kept.now w →
        result ≡ resets w register value }
{
    match register {
        Register::Usbcmd => kept.progress.started & kept.progress.halted & is_reset(value),
        _ => false,
    }
}

/// The driver writes a register (xHCI 5.4, 5.5.2). Want of memory leaves the world spent.
pub(crate) fn write_register(
    header: &Header,
    kept: &mut Kept,
    register: Register,
    value: u64,
) -> Result<(), AllocError>
    ensures { OnOk result ((words : ℕ → ℕ) (w : World) → Follows header.now words kept.old w →
        Follows header.now words kept.new (if resets w register value then reset w else register_row header.now w register value)) }
{
    if resets(kept, register, value) {
        reset(kept);
        return Ok(());
    }
    write_value(header, kept, register, value)?;
    Ok(())
}

/// Whether a register can have this value now: HCHalted of USBSTS is 1 where the controller has halted, or wasn't started (xHCI 5.4.2).
#[tactic(auto, using(crate::proofs::RegisterLemmas::is_one_of), unfolding(world_state::specs::DriverRows::shows))]
fn shows(kept: &Kept, register: Register, value: u64) -> bool
    ensures { (h : HeaderValue) (words : ℕ → ℕ) (w : World) → Follows h words kept.now w →
        result ≡ shows w register value }
{
    match register {
        Register::Usbsts => {
            let is_halted = kept.progress.halted | !kept.progress.started;
            (value % 2 == 1) == is_halted
        }
        _ => true,
    }
}

/// The driver reads a register, where that can have this value.
pub(crate) fn read_register(kept: &Kept, register: Register, value: u64) -> Result<Seen, StepFault>
    ensures { (h : HeaderValue) (words : ℕ → ℕ) (w : World) → Follows h words kept.now w →
        IsStep result (if shows w register value then Some w else None) Row (Follows h words kept.now) }
{
    if !shows(kept, register, value) {
        return Err(StepFault::NotPossible);
    }
    Ok(Seen::Row)
}
