//! A row of a register that is written: xHCI 4.2, 4.9.4, 4.23.2, 5.4, 5.5.2.3, 6.5.
ghost use Rattle.std.specs.Prelude.{◌≡◌, ◌-◌, ◌%◌, ◌/◌, ◌*◌, ◌==◌, ◌&&◌, ◌||◌, if◌then◌else◌, is_none, is_some, [], ◌∷◌, true, false, not, ℕ, length, IfOk, IfErr};
ghost use Rattle.std.specs.List.{list_any};
ghost use Rattle.segments.specs.Places.{address_of};
ghost use Rattle.segments.specs.Shape.{IsShape};
ghost use Rattle.traces.specs.Header.{event_ring, event_shape};
ghost use Rattle.traces.specs.AllowedHeaders.{IsHeader};
ghost use Rattle.traces.specs.Versions.{is_lenient};
ghost use Rattle.traces.specs.declared.header.Header.{Header};
ghost use Rattle.traces.specs.declared.row.Row.TheVariants.{Reg};
ghost use Rattle.event_ring.specs.EventRing.{erdp_address, is_event_place, is_reached_within};
ghost use Rattle.ring_knowledge.specs.Known.{Known};
ghost use Rattle.ring_knowledge.specs.RegisterRecords.{FollowsRegisters};
ghost use Rattle.ring_knowledge.specs.Registers.{register_written};
ghost use Rattle.ring_knowledge.specs.Resets.{resets};
ghost use Rattle.ownership_rules.specs.Registers.{is_bad_command_register, is_bad_crcr, is_bad_erdp, is_bad_register, is_bad_size, is_bad_table, is_early_reset, is_early_resume, is_early_start, is_late_reset, is_restored, is_unwritten, is_written, is_wrong_size, is_wrong_start};
ghost use Rattle.ownership_rules.specs.Older.{stricter};
ghost use Rattle.ownership_rules.specs.declared.refusal.Refusal.TheVariants.{BadErdp, BadRegister};
ghost use Rattle.safety.specs.Keeps.{DriverKeeps};
ghost use Rattle.trace_record.specs.RingFinder.Finding.{IsFinder};
ghost use Rattle.trace_record.specs.FollowsTrace.{FollowsEvents, FollowsTrace};
ghost use Rattle.trace_record.specs.Fresh.{IsWithin};
ghost use Rattle.trace_record.specs.Premises.{IsSetUp};
ghost use Rattle.trace_record.specs.Steps.{IfRefused, IsLeast, IsRowStep};
ghost use Rattle.driver_rows.specs.RegisterWrites.EventReads.{IsEventRing, IsMoved, Wrong};

use crate::context_rules::is_bad_area;
use event_ring::EventPlace;
use guest_memory::WordMemory;
use ownership_rules::Refusal;
use ring_knowledge::RegisterRecord;
use segments::{Place, RingShape};
use trace_record::{Finder, StepFault, TraceRecord};
use traces::{Header, Register};

/// Checks a register write before the stop, and notes it: rules 17 and 22 (xHCI 4.2, 5.4, 5.5.2). The driver has kept the rules so far.
#[inline(always)]
pub fn check_register<M: WordMemory>(
    header: &Header,
    finder: &Finder,
    t: &mut TraceRecord,
    memory: &M,
    register: Register,
    value: u64,
) -> Result<(), StepFault>
    requires headed { IsHeader header.now }
    requires found { IsFinder header.now.rings finder.now }
    requires as_many { length t.now.rings.items ≡ length header.now.rings }
    ensures ok { IfOk result (λ u. (k : Known) → FollowsTrace header.now k t.old (M.words memory.now) → DriverKeeps header.now k → IsSetUp header.now k → k.stopped ≡ false →
        IsRowStep header.now k (Reg register value) t.new (M.words memory.now)) }
    ensures refused { IfErr result (λ e. IfRefused e (λ c. (k : Known) → FollowsTrace header.now k t.old (M.words memory.now) → DriverKeeps header.now k → IsSetUp header.now k → k.stopped ≡ false →
        IsLeast header.now k (Reg register value) c)) }
    ensures reads { (n : ℕ) → IsWithin t.old.events n → IsWithin t.new.events n }
{
    if is_bad_register(header, finder, t, memory, register, value) {
        return Err(StepFault::Refused(Refusal::BadRegister));
    }
    if resets(&t.registers, register, value) {
        t.reset(header)?;
        return Ok(());
    }
    if !note_dequeue(
        header,
        t.registers.is_started(),
        &mut t.events,
        register,
        value,
    ) {
        return Err(StepFault::Refused(Refusal::BadErdp));
    }
    t.registers.write(header.version, register, value);
    Ok(())
}

/// Whether the write resets a controller that was seen to have halted.
fn resets(registers: &RegisterRecord, register: Register, value: u64) -> bool
    ensures { (k : Known) → FollowsRegisters k registers.now → result ≡ resets k register value }
{
    match register {
        Register::Usbcmd => registers.halt().is_done() && value / 2 % 2 == 1,
        _ => false,
    }
}

/// Whether a register is written too late, too early, with a wrong value or, before version 3, twice; or the controller starts, goes on or
/// is reset too early or too late.
#[inline(always)]
fn is_bad_register<M: WordMemory>(
    header: &Header,
    finder: &Finder,
    t: &TraceRecord,
    memory: &M,
    register: Register,
    value: u64,
) -> bool
    requires headed { IsHeader header.now }
    requires found { IsFinder header.now.rings finder.now }
    ensures { (k : Known) → FollowsTrace header.now k t.now (M.words memory.now) → IsSetUp header.now k →
        result ≡ (stricter header.now k (Reg register value) BadRegister || is_bad_register header.now k register value) }
{
    match register {
        Register::Usbcmd => is_bad_command(header, finder, t, value),
        Register::Crcr => t.is_in_run() || is_bad_crcr(header, finder, t, value),
        Register::Dcbaap => is_too_late(t, Register::Dcbaap, value),
        Register::Config => is_too_late(t, Register::Config, value),
        Register::Erstsz => is_bad_sizing(header, t, value),
        Register::Erstba => is_bad_base(header, finder, t, memory, value),
        _ => false,
    }
}

/// Whether a set-up register is written after the start: a controller that halts may be given the value that stands.
fn is_too_late(t: &TraceRecord, register: Register, value: u64) -> bool
    ensures { (k : Known) → FollowsRegisters k t.now.registers → result ≡ (k.started && not (is_restored k register value)) }
{
    t.registers.is_started() && !t.is_restored(register, value)
}

/// Whether ERSTSZ is written after the start with another value than stands or, before it, without an event ring or, before version 3,
/// again or with a wrong value.
fn is_bad_sizing(header: &Header, t: &TraceRecord, value: u64) -> bool
    ensures { (k : Known) (m : ℕ → ℕ) → FollowsTrace header.now k t.now m →
        result ≡ (((is_written k Register.Erstsz || is_bad_size header.now value) && not (is_lenient header.now.version))
        || (if k.started then not (is_restored k Register.Erstsz value) else is_none (event_ring header.now))) }
{
    if is_refused_size(header, t, value) {
        return true;
    }
    if t.registers.is_started() {
        !t.is_restored(Register::Erstsz, value)
    } else {
        t.events.is_none()
    }
}

/// Whether ERSTSZ is written again or with a wrong value, which versions 1 and 2 refuse.
fn is_refused_size(header: &Header, t: &TraceRecord, value: u64) -> bool
    ensures { (k : Known) (m : ℕ → ℕ) → FollowsTrace header.now k t.now m → result ≡ ((is_written k Register.Erstsz || is_bad_size header.now value) && not (is_lenient header.now.version)) }
{
    if header.version.is_lenient() {
        return false;
    }
    is_written(&t.registers, Register::Erstsz) || is_bad_size(t, value)
}

/// Whether ERSTBA is written after the start with another value than stands or, before it, again or with a wrong value.
fn is_bad_base<M: WordMemory>(
    header: &Header,
    finder: &Finder,
    t: &TraceRecord,
    memory: &M,
    value: u64,
) -> bool
    requires headed { IsHeader header.now }
    requires found { IsFinder header.now.rings finder.now }
    ensures { (k : Known) → FollowsTrace header.now k t.now (M.words memory.now) → IsSetUp header.now k →
        result ≡ is_bad_register header.now k Register.Erstba value }
{
    if t.registers.is_started() {
        return !t.is_restored(Register::Erstba, value);
    }
    is_written(&t.registers, Register::Erstba)
        || is_bad_table(header, finder, t, memory, value / 64 * 64)
}

/// Whether the register was written.
fn is_written(registers: &RegisterRecord, register: Register) -> bool
    ensures { (k : Known) → FollowsRegisters k registers.now → result ≡ is_written k register }
{
    registers.value(register).is_some()
}

/// Whether a value of USBCMD breaks the rule: by what it saves or restores, or lets run or resets (xHCI 4.2, 4.23.2, 5.4.1).
fn is_bad_command(header: &Header, finder: &Finder, t: &TraceRecord, value: u64) -> bool
    requires headed { IsHeader header.now }
    requires found { IsFinder header.now.rings finder.now }
    ensures { (k : Known) (m : ℕ → ℕ) → FollowsTrace header.now k t.now m → IsSetUp header.now k → result ≡ is_bad_command_register header.now k value }
{
    t.saves_badly(header, finder, value) || runs_badly(header, finder, t, value)
}

/// Whether a value of USBCMD lets a controller run or resets it where it may not: one that was started, or one that wasn't.
fn runs_badly(header: &Header, finder: &Finder, t: &TraceRecord, value: u64) -> bool
    requires headed { IsHeader header.now }
    requires found { IsFinder header.now.rings finder.now }
    ensures { (k : Known) (m : ℕ → ℕ) → FollowsTrace header.now k t.now m → IsSetUp header.now k →
        result ≡ (if k.started then is_early_reset header.now k value || is_early_resume header.now k value else is_late_reset k value || is_early_start k value || is_wrong_start header.now k value) }
{
    if t.registers.is_started() {
        t.is_early_reset(header, finder, value) || t.is_early_resume(header, finder, value)
    } else {
        is_bad_start(t, value)
    }
}

/// Whether a value of USBCMD starts the controller before the rings are set up, or resets it after one is (xHCI 4.2).
fn is_bad_start(t: &TraceRecord, value: u64) -> bool
    ensures { (h : Header) (k : Known) (m : ℕ → ℕ) → FollowsTrace h k t.now m →
        result ≡ (is_late_reset k value || is_early_start k value || is_wrong_start h k value) }
{
    let resets = value / 2 % 2 == 1;
    let runs = value % 2 == 1;
    if resets {
        is_set_up_begun(&t.registers)
    } else {
        runs && lacks_set_up(t)
    }
}

/// Whether one of the set-up registers was written.
fn is_set_up_begun(registers: &RegisterRecord) -> bool
    ensures { (k : Known) → FollowsRegisters k registers.now → result ≡
        list_any (is_written k) (Register.Crcr ∷ Register.Dcbaap ∷ Register.Config ∷ Register.Erstsz ∷ Register.Erstba ∷ Register.Erdp ∷ []) }
{
    is_written(registers, Register::Crcr)
        || is_written(registers, Register::Dcbaap)
        || is_written(registers, Register::Config)
        || is_written(registers, Register::Erstsz)
        || is_written(registers, Register::Erstba)
        || is_written(registers, Register::Erdp)
}

/// Whether a register wasn't written without which there is no start.
fn lacks_registers(registers: &RegisterRecord) -> bool
    ensures { (k : Known) → FollowsRegisters k registers.now → result ≡
        list_any (is_unwritten k) (Register.Crcr ∷ Register.Erstsz ∷ Register.Erstba ∷ Register.Erdp ∷ []) }
{
    is_unwritten(registers, Register::Crcr)
        || is_unwritten(registers, Register::Erstsz)
        || is_unwritten(registers, Register::Erstba)
        || is_unwritten(registers, Register::Erdp)
}

/// Whether a register that the start needs wasn't written, or the event ring's registers hold wrong values.
fn lacks_set_up(t: &TraceRecord) -> bool
    ensures { (h : Header) (k : Known) (m : ℕ → ℕ) → FollowsTrace h k t.now m → result ≡
        (list_any (is_unwritten k) (Register.Crcr ∷ Register.Erstsz ∷ Register.Erstba ∷ Register.Erdp ∷ []) || Wrong h k) }
{
    lacks_registers(&t.registers) || is_set_up_wrong(t)
}

/// Whether the last ERSTSZ isn't the number of the event ring's segments, or the last ERDP doesn't name its first place.
fn is_set_up_wrong(t: &TraceRecord) -> bool
    ensures { (h : Header) (k : Known) (m : ℕ → ℕ) → FollowsTrace h k t.now m → result ≡ Wrong h k }
{
    let size = t.registers.value(Register::Erstsz).unwrap_or(0);
    let dequeue = t.registers.value(Register::Erdp).unwrap_or(0);
    match &t.events {
        Some(events) => { is_bad_size(t, size) || dequeue / 16 * 16 != events.shape().address(0) }
        None => true,
    }
}

/// Whether the register wasn't written.
fn is_unwritten(registers: &RegisterRecord, register: Register) -> bool
    ensures { (k : Known) → FollowsRegisters k registers.now → result ≡ is_unwritten k register }
{
    !is_written(registers, register)
}

/// Whether a value of CRCR names another place than the first block of a command ring that wasn't started, doesn't begin with cycle 1, or
/// stops or aborts a command (xHCI 5.4.5).
fn is_bad_crcr(header: &Header, finder: &Finder, t: &TraceRecord, value: u64) -> bool
    requires headed { IsHeader header.now }
    requires found { IsFinder header.now.rings finder.now }
    ensures { (k : Known) (m : ℕ → ℕ) → FollowsTrace header.now k t.now m → IsSetUp header.now k → result ≡ is_bad_crcr header.now k value }
{
    let Some(number) = finder.commands else {
        return true;
    };
    let rings = header.rings.as_slice();
    is_bad_begin(&rings[number].shape, value) || t.is_used(header, finder)
}

/// Whether a value of CRCR names another place than the first block of a ring, doesn't begin with cycle 1, or stops or aborts
/// a command.
fn is_bad_begin(shape: &RingShape, value: u64) -> bool
    ensures { result ≡ (not (value / 64 * 64 == address_of shape.now 0) || not (value % 2 == 1) || value / 2 % 2 == 1 || value / 4 % 2 == 1) }
{
    value / 64 * 64 != shape.address(0)
        || value % 2 != 1
        || value / 2 % 2 == 1
        || value / 4 % 2 == 1
}

/// Whether a value of ERSTSZ isn't the number of the event ring's segments (xHCI 5.5.2.3.1).
fn is_bad_size(t: &TraceRecord, value: u64) -> bool
    ensures { (h : Header) (k : Known) (m : ℕ → ℕ) → FollowsTrace h k t.now m → result ≡ is_bad_size h value }
{
    match &t.events {
        Some(events) => value % 65536 != events.shape().segments().len() as u64,
        None => true,
    }
}

/// Whether the segment table is named before ERSTSZ is written, or where that is wrong, or isn't that of the event ring, or lies where none may lie.
fn is_bad_table<M: WordMemory>(
    header: &Header,
    finder: &Finder,
    t: &TraceRecord,
    memory: &M,
    base: u64,
) -> bool
    requires headed { IsHeader header.now }
    requires found { IsFinder header.now.rings finder.now }
    requires aligned { base % 4 ≡ 0 }
    ensures { (k : Known) → FollowsTrace header.now k t.now (M.words memory.now) → IsSetUp header.now k →
        result ≡ (is_unwritten k Register.Erstsz || (is_wrong_size header.now k || is_bad_table header.now k base)) }
{
    let Some(size) = t.registers.value(Register::Erstsz) else {
        return true;
    };
    if is_bad_size(t, size) {
        return true;
    }
    match &t.events {
        Some(events) => is_bad_place(header, finder, t, memory, base, events.shape()),
        None => true,
    }
}

/// Whether the table at an address isn't that of the event ring, which has this shape, or lies where none may lie (xHCI 6.5).
fn is_bad_place<M: WordMemory>(
    header: &Header,
    finder: &Finder,
    t: &TraceRecord,
    memory: &M,
    base: u64,
    shape: &RingShape,
) -> bool
    requires headed { IsHeader header.now }
    requires found { IsFinder header.now.rings finder.now }
    requires aligned { base % 4 ≡ 0 }
    ensures { (k : Known) → FollowsTrace header.now k t.now (M.words memory.now) → IsEventRing header.now shape.now → result ≡ is_bad_table header.now k base }
{
    match u16::try_from(shape.segments().len()) {
        Ok(size) => {
            is_bad_area(finder, t, base, 16 * u64::from(size))
                || EventPlace::table_fault(memory, base, size, shape)
        }
        Err(_) => true,
    }
}

/// Takes a value that is written to ERDP, where it names an event place up to the one that is read next; whether the write of
/// this register may be. Before the start a value that names no event place has no effect, and may be from version 3 on.
#[inline(always)]
fn note_dequeue(
    header: &Header,
    is_started: bool,
    events: &mut Option<EventPlace>,
    register: Register,
    value: u64,
) -> bool
    requires headed { IsHeader header.now }
    ensures moved { result ≡ true → (k : Known) → k.started ≡ is_started → FollowsEvents header.now k events.old → FollowsEvents header.now (register_written header.now k register value) events.new }
    ensures exact { (k : Known) → k.started ≡ is_started → FollowsEvents header.now k events.old → IsSetUp header.now k →
        (stricter header.now k (Reg register value) BadErdp || is_bad_erdp header.now k register value) ≡ not result }
    ensures reads { (n : ℕ) → IsWithin events.old n → IsWithin events.new n }
{
    match register {
        Register::Erdp => {
            set_dequeue(events, value) || may_be_ignored(header, is_started, events, value)
        }
        _ => true,
    }
}

/// Takes a value that is written to ERDP, where it names an event place up to the one that is read next; whether it does.
fn set_dequeue(events: &mut Option<EventPlace>, value: u64) -> bool
    ensures moved { result ≡ true → (h : Header) (k : Known) → FollowsEvents h k events.old → IsMoved h k events.new value }
    ensures exact { (h : Header) (k : Known) → FollowsEvents h k events.old → result ≡ is_reached_within (event_shape h) k.dequeue (k.reads - k.dequeue) (erdp_address value) }
    ensures kept { result ≡ false → events.new ≡ events.old }
    ensures reads { (n : ℕ) → IsWithin events.old n → IsWithin events.new n }
{
    match events {
        Some(place) => place.set_dequeue(value).is_ok(),
        None => false,
    }
}

/// Whether a value of ERDP has no effect, and may be: before the start, from version 3 on.
fn may_be_ignored(
    header: &Header,
    is_started: bool,
    events: &Option<EventPlace>,
    value: u64,
) -> bool
    requires headed { IsHeader header.now }
    ensures { (k : Known) → k.started ≡ is_started → FollowsEvents header.now k events.now →
        result ≡ (is_lenient header.now.version && (not k.started && (is_some (event_ring header.now) && not (is_event_place (event_shape header.now) (erdp_address value))))) }
{
    if is_started {
        return false;
    }
    if !header.version.is_lenient() {
        return false;
    }
    has_no_place(header, events, value)
}

/// Whether a value of ERDP names no place of the event ring, where there is one.
fn has_no_place(header: &Header, events: &Option<EventPlace>, value: u64) -> bool
    requires headed { IsHeader header.now }
    ensures { (k : Known) → FollowsEvents header.now k events.now → result ≡ (is_some (event_ring header.now) && not (is_event_place (event_shape header.now) (erdp_address value))) }
{
    match events {
        Some(place) => !is_event_place(place.shape(), value / 16 * 16),
        None => false,
    }
}

/// Whether an event place of this shape lies at the address.
fn is_event_place(shape: &RingShape, address: u64) -> bool
    requires aligned { address % 16 ≡ 0 }
    ensures { result ≡ is_event_place shape.now address }
{
    matches!(shape.place_at(address), Some(Place::Data { .. }))
}
