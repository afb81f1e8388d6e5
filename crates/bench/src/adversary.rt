//! Who chooses the controller's steps. Nothing rests on it: what it chooses is a step of the model, or isn't made.
ghost use Rattle.std.specs.Prelude.{◌<◌};

use crate::candidates::{
    IOC, ISP, bytes_in, finished, is_alone, looked, oddity, oldest_with, stopped, stopped_at, told,
};
use crate::drawn::Dice;
use crate::events::transfer_event;
use commands::{Command, EndpointState};
use controller_model::{Controller, Seen};
use guest_memory::WordMemory;
use traces::{Register, Row, Step};

/// How often a random controller tries to do something before all that it may do is gone through.
const MOST_DRAWS: u32 = 64;

/// A controller that was told to halt has halted where USBSTS is read for this time, at the latest.
const MOST_READS: u32 = 8;

/// Babble, USB Transaction Error, Stall, Split Transaction Error and TRB Error (xHCI 6.4.5).
const BREAKING: [u8; 5] = [3, 4, 6, 36, 5];

/// The errors of an isochronous endpoint, which none of them halts, and TRB Error: it has no handshake, and so no Stall (xHCI 4.10.2).
const PASSING: [u8; 8] = [2, 3, 4, 18, 20, 31, 36, 5];

/// When a controller does what it may do.
#[derive(Clone, Copy, Debug, PartialEq, Eq)]
pub enum Policy {
    /// Behind rows, and where the driver asks, as it is drawn.
    Random,
    /// All that it can, as soon as it can.
    Eager,
    /// Nothing until the driver looks or waits, and then as little as gives one event.
    Lazy,
}

/// What a controller is like.
#[derive(Clone, Copy, Debug)]
pub struct Profile {
    pub policy: Policy,
    /// How many in a hundred events are errors, odd ones or from elsewhere.
    pub errors: u8,
    /// It makes no more steps than these.
    pub steps: u64,
}

/// When it is asked for steps.
#[derive(Clone, Copy, Debug, PartialEq, Eq)]
pub enum Moment {
    /// The driver has made a row.
    BehindRow,
    /// The driver looks at memory.
    Look,
    /// The driver waits for an event.
    Wait,
    /// The driver reads USBSTS.
    Status,
}

/// What it is about to do.
#[derive(Clone, Copy)]
enum Plan {
    Nothing,
    /// So many drawn steps; up to an event, and then a sweep, where it is waited for.
    Draws {
        left: u32,
        waits: bool,
    },
    /// All that it may do is gone through from a place on, again where something was done; up to an event, where that is enough.
    Sweep {
        at: usize,
        goes_on: bool,
        waits: bool,
    },
}

/// Chooses steps by a seed and a profile.
#[derive(Drop)]
pub struct Adversary {
    dice: Dice,
    profile: Profile,
    /// How many in a hundred rows it does something behind.
    busy: u8,
    /// How much it does at most where the driver looks.
    polls: u32,
    made: u64,
    posted: u64,
    plan: Plan,
    /// The step that was chosen last completes the command under way.
    was_finish: bool,
    /// The command under way can't succeed.
    fails: bool,
    /// By slot: a command has enabled it.
    enabled: [bool; 256],
    /// How often USBSTS was read since the controller was told to halt.
    reads: u32,
}

impl Adversary {
    pub fn new(seed: u64, profile: Profile) -> Adversary {
        let mut dice = Dice::new(seed);
        let busy = dice.below(100) as u8;
        let polls = 1 + dice.below(6);
        Adversary {
            dice,
            profile,
            busy,
            polls,
            made: 0,
            posted: 0,
            plan: Plan::Nothing,
            was_finish: false,
            fails: false,
            enabled: [false; 256],
            reads: 0,
        }
    }

    /// How many events it posted.
    pub fn posted(&self) -> u64 {
        self.posted
    }

    /// It is asked for steps: what it is about to do.
    pub fn begin(&mut self, moment: Moment) {
        let waits = moment != Moment::BehindRow;
        if moment == Moment::Status {
            self.reads = self.reads.saturating_add(1);
        }
        self.plan = match (self.profile.policy, moment) {
            (Policy::Lazy, Moment::BehindRow | Moment::Status) => Plan::Nothing,
            (Policy::Lazy, _) => sweep(true),
            (Policy::Eager, _) => sweep(false),
            (Policy::Random, Moment::Wait) => Plan::Draws {
                left: MOST_DRAWS,
                waits,
            },
            (Policy::Random, Moment::Look | Moment::Status) => Plan::Draws {
                left: self.dice.below(self.polls),
                waits: false,
            },
            (Policy::Random, Moment::BehindRow) if self.dice.chance(self.busy) => Plan::Draws {
                left: self.dice.below(4),
                waits: false,
            },
            (Policy::Random, Moment::BehindRow) => Plan::Nothing,
        };
    }

    /// The driver has made a row: once the controller is reset no slot is enabled, and no command is under way (xHCI 4.2).
    pub fn hear<M: WordMemory + Drop>(&mut self, row: &Row, controller: &Controller<M>) {
        if is_reset(row) && !controller.is_running() {
            self.enabled = [false; 256];
            self.fails = false;
        }
    }

    /// The next step that it would make, if it would make one. It may turn out not to be possible.
    pub fn next<M: WordMemory + Drop>(&mut self, controller: &Controller<M>) -> Option<Step> {
        if self.is_to_halt(controller) {
            return Some(Step::Halt);
        }
        if self.made >= self.profile.steps || !controller.is_running() {
            return None;
        }
        let step = self.next_planned(controller);
        self.was_finish = matches!(step, Some(Step::Finish { .. }));
        step
    }

    /// Whether it halts now: as soon as it may, or as late, or as it is drawn; but it does while USBSTS is read again and again.
    fn is_to_halt<M: WordMemory + Drop>(&mut self, controller: &Controller<M>) -> bool {
        if !controller.is_halting() {
            self.reads = 0;
            return false;
        }
        match self.profile.policy {
            Policy::Eager => true,
            Policy::Lazy => self.reads > 1,
            Policy::Random => self.reads >= MOST_READS || self.dice.below(8) == 0,
        }
    }

    fn next_planned<M: WordMemory + Drop>(&mut self, controller: &Controller<M>) -> Option<Step> {
        let plan = self.plan;
        match plan {
            Plan::Nothing => None,
            Plan::Draws { left, waits } => self.next_drawn(controller, left, waits),
            Plan::Sweep { at, goes_on, waits } => self.next_swept(controller, at, goes_on, waits),
        }
    }

    /// What the step showed that it chose last; none where that wasn't possible.
    pub fn learn(&mut self, seen: Option<Seen>) {
        if seen.is_some() {
            self.made = self.made.saturating_add(1);
        }
        if self.was_finish {
            self.fails = seen.is_none();
        }
        let is_event = matches!(seen, Some(Seen::Posted { .. }));
        if is_event {
            self.posted = self.posted.saturating_add(1);
        }
        let is_work = is_event || matches!(seen, Some(Seen::Took { .. } | Seen::Crossed));
        match &mut self.plan {
            Plan::Draws { waits: true, .. } if is_event => self.plan = Plan::Nothing,
            Plan::Sweep { waits: true, .. } if is_event => self.plan = Plan::Nothing,
            Plan::Sweep { goes_on, .. } => *goes_on = *goes_on
                || is_work
                || (self.was_finish && self.fails),
            _ => {}
        }
    }

    /// The command succeeded: which slots are enabled from then on.
    fn note_success(&mut self, command: Command, slot: u8) {
        match command {
            Command::EnableSlot => self.enabled[usize::from(slot)] = true,
            Command::DisableSlot { slot } => self.enabled[usize::from(slot)] = false,
            _ => {}
        }
    }

    /// The lowest slot that isn't enabled.
    fn free_slot(&self) -> u8 {
        (1..=255u8)
            .find(|slot| !self.enabled[usize::from(*slot)])
            .unwrap_or(0)
    }

    /// A drawn step; where none is left, and the driver waits, all is gone through.
    fn next_drawn<M: WordMemory + Drop>(
        &mut self,
        controller: &Controller<M>,
        left: u32,
        waits: bool,
    ) -> Option<Step> {
        for used in 1..=left {
            self.plan = Plan::Draws {
                left: left - used,
                waits,
            };
            let step = self.drawn(controller);
            if step.is_some() {
                return step;
            }
        }
        if !waits {
            return None;
        }
        self.plan = sweep(true);
        self.next_swept(controller, 0, false, true)
    }

    /// One drawn step, if what is drawn may be one.
    fn drawn<M: WordMemory + Drop>(&mut self, controller: &Controller<M>) -> Option<Step> {
        if self.dice.chance(self.profile.errors) && self.dice.below(4) == 0 {
            return oddity(controller, &mut self.dice);
        }
        let rings = controller.live().rings.as_slice();
        let count = u32::try_from(rings.len()).unwrap_or(u32::MAX);
        let ring = rings.get(self.dice.below(count) as usize)?.id;
        match self.dice.below(4) {
            0 => self.report(controller, ring),
            1 => self.stop_or_finish(controller),
            _ => looked(controller, ring),
        }
    }

    /// The next step of those that are gone through from a place on: events of the rings, the completion of the command, a look at each ring.
    fn next_swept<M: WordMemory + Drop>(
        &mut self,
        controller: &Controller<M>,
        at: usize,
        goes_on: bool,
        waits: bool,
    ) -> Option<Step> {
        let count = controller.live().rings.as_slice().len();
        for place in at..count.saturating_mul(2).saturating_add(1) {
            self.plan = Plan::Sweep {
                at: place.saturating_add(1),
                goes_on,
                waits,
            };
            let step = self.at_place(controller, place, count);
            if step.is_some() {
                return step;
            }
        }
        if !goes_on {
            self.plan = Plan::Nothing;
            return None;
        }
        self.plan = sweep(waits);
        self.at_place(controller, 0, count).or(Some(Step::NextRow))
    }

    fn at_place<M: WordMemory + Drop>(
        &mut self,
        controller: &Controller<M>,
        place: usize,
        count: usize,
    ) -> Option<Step> {
        let rings = controller.live().rings.as_slice();
        if place < count {
            let ring = rings.get(place)?.id;
            return self.report(controller, ring);
        }
        if place == count {
            return self.finish(controller);
        }
        looked(controller, rings.get(place - count - 1)?.id)
    }

    /// An event of an endpoint's ring: that of the oldest TRB that asks for one, or how the endpoint stops at the last that was taken.
    fn report<M: WordMemory + Drop>(
        &mut self,
        controller: &Controller<M>,
        ring: u8,
    ) -> Option<Step> {
        let (slot, endpoint) = controller.holder(ring)?;
        if !controller.has_event_room() {
            return None;
        }
        let service = self.service(controller, ring, slot, endpoint);
        if service.is_some() {
            return service;
        }
        let takes = controller.unreported(ring);
        let asked = oldest_with(controller.memory(), takes, IOC);
        if is_alone(asked, takes.len()) {
            let ends = self.ended(controller, ring, slot, endpoint);
            if ends.is_some() {
                return ends;
            }
        }
        let cycle = controller.event_cycle();
        let event = match self.cut_short(controller, ring, endpoint) {
            Some((at, left)) => transfer_event(at, 13, left, slot, endpoint, cycle),
            None => told(controller, ring, asked?, 1)?,
        };
        Some(Step::Report { event })
    }

    /// That an isochronous endpoint found no TD in time, or missed a service interval, if that is drawn: it names no TRB (xHCI 4.10.3).
    fn service<M: WordMemory + Drop>(
        &mut self,
        controller: &Controller<M>,
        ring: u8,
        slot: u8,
        endpoint: u8,
    ) -> Option<Step>
        requires { endpoint < 32 }
    {
        if !serves(controller, slot, endpoint)
            || !controller.is_active(ring)
            || !self.dice.chance(self.profile.errors)
        {
            return None;
        }
        let code = match self.dice.below(2) {
            0 => 23,
            _ => 14 + endpoint % 2,
        };
        let cycle = controller.event_cycle();
        Some(Step::Report {
            event: transfer_event(0, code, 0, slot, endpoint, cycle),
        })
    }

    /// A Short Packet, if one is drawn: the oldest TRB that asks for an event of it, and how many of its bytes don't come (6.4.2.1).
    fn cut_short<M: WordMemory + Drop>(
        &mut self,
        controller: &Controller<M>,
        ring: u8,
        endpoint: u8,
    ) -> Option<(u64, u32)> {
        if endpoint % 2 == 0 || !self.dice.chance(self.profile.errors) {
            return None;
        }
        let takes = controller.unreported(ring);
        let cut = oldest_with(controller.memory(), takes, IOC | ISP)?;
        let at = takes.get(cut)?.address;
        let bytes = bytes_in(controller.memory(), at);
        if bytes == 0 {
            return None;
        }
        Some((at, self.dice.below(bytes).saturating_add(1)))
    }

    /// How an endpoint stops at the TRB that was taken last: a Stop Endpoint is under way, or an error is drawn.
    fn ended<M: WordMemory + Drop>(
        &mut self,
        controller: &Controller<M>,
        ring: u8,
        slot: u8,
        endpoint: u8,
    ) -> Option<Step>
        requires { endpoint < 32 }
    {
        let state = controller.endpoint_state(slot, endpoint);
        if state != EndpointState::Running || !controller.is_active(ring) {
            return None;
        }
        let stops = stopped(controller, ring, slot, endpoint);
        if stops.is_some() && self.dice.below(2) == 0 {
            return stops;
        }
        let last = controller.unreported(ring).len().checked_sub(1)?;
        if !self.dice.chance(self.profile.errors) {
            return None;
        }
        let code = if serves(controller, slot, endpoint) {
            self.dice.one_of(&PASSING)
        } else {
            self.dice.one_of(&BREAKING)
        };
        Some(Step::Report {
            event: told(controller, ring, last, code)?,
        })
    }

    /// The completion of the command under way; in half the cases where its endpoint stops comes first, if it is a Stop Endpoint (4.6.9).
    fn stop_or_finish<M: WordMemory + Drop>(&mut self, controller: &Controller<M>) -> Option<Step> {
        if self.dice.below(2) == 0 {
            for ring in controller.live().rings.as_slice() {
                let stops = stopped_at(controller, ring.id);
                if stops.is_some() {
                    return stops;
                }
            }
        }
        self.finish(controller)
    }

    /// The completion of the command under way: it succeeds where it can, unless a failure is drawn.
    fn finish<M: WordMemory + Drop>(&mut self, controller: &Controller<M>) -> Option<Step> {
        let pending = controller.under_way()?;
        if !controller.has_event_room() {
            return None;
        }
        let command = Command::read(&pending.block).ok();
        let fails = self.fails || (!pending.has_stopped && self.dice.chance(self.profile.errors));
        let slot = self.free_slot();
        let step = finished(
            controller,
            &mut self.dice,
            pending.address,
            command,
            slot,
            fails,
        );
        if let (Some(command), false) = (command, fails) {
            self.note_success(command, slot);
        }
        Some(step)
    }
}

/// USBCMD is written with HCRST 1 (xHCI 5.4.1).
fn is_reset(row: &Row) -> bool {
    match row {
        Row::Reg {
            register: Register::Usbcmd,
            value,
        } => value & 2 != 0,
        _ => false,
    }
}

/// Whether an endpoint is used as an isochronous one.
fn serves<M: WordMemory + Drop>(controller: &Controller<M>, slot: u8, endpoint: u8) -> bool
    requires { endpoint < 32 }
{
    controller.live().version.has_isoch() && controller.is_isochronous(slot, endpoint)
}

/// All that it may do is gone through from the beginning.
fn sweep(waits: bool) -> Plan {
    Plan::Sweep {
        at: 0,
        goes_on: false,
        waits,
    }
}
