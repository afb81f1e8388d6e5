ghost use Rattle.std.specs.Prelude.{◌≡◌, ℕ, ◌*◌, ◌<◌, ◌==◌, ◌&&◌, ◌||◌, ◌++◌, if◌then◌else◌, Bool, true, false, List, [], ◌∷◌, Option, Some, None, IfOk, IfSome, length, replicate, slice_index_or};
ghost use Rattle.std.specs.List.{list_any, sum_by};
ghost use Rattle.commands.specs.declared.command.Command.{Command as CommandValue};
ghost use Rattle.commands.specs.Command.{exclude_by_slot, name_one_slot};
ghost use Rattle.commands.specs.SideBySide.{exclude};
ghost use Rattle.trace_record.specs.DeviceSlots.Addressing.{addressing_count, is_address_device, is_addressing};
ghost use Rattle.trace_record.specs.DeviceSlots.Counts.{endpoint_count, kept_count};
ghost use Rattle.trace_record.specs.DeviceSlots.Indices.{IsOnlyAbout, NamesEndpoint, is_about, names};

use commands::Command;
use std::alloc::{AllocError, Global};

/// The unfinished command of a slot or an endpoint.
#[derive(Clone, Copy, Debug)]
pub struct KeptCommand {
    command: Option<Command>,
}

/// The unfinished commands by the slot and the endpoint that they name: those that were given and whose completion wasn't read. Each
/// endpoint has at most one, and each slot at most one that names none of its endpoints (xHCI 4.6). Contracts compare it with the list of
/// these commands, in the order of their positions.
#[derive(Drop)]
pub struct UnfinishedCommands {
    /// By slot: that which names none of its endpoints.
    by_slot: Vec<KeptCommand>,
    /// By slot and endpoint index (DCI), 32 a slot.
    by_endpoint: Vec<KeptCommand>,
    /// By slot: how many of its endpoints have one.
    counts: Vec<usize>,
    /// How many of those of slots are an Address Device.
    addressing: usize,
    ghost slots_many: { length by_slot.items ≡ 256 },
    ghost endpoints_many: { length by_endpoint.items ≡ 256 * 32 },
    ghost counts_many: { length counts.items ≡ 256 },
    ghost addressing_all: { addressing ≡ sum_by addressing_count by_slot.items },
    ghost counts_all: { (s : ℕ) → s < 256 → slice_index_or counts.items s 0 ≡ endpoint_count by_endpoint.items s },
}

impl UnfinishedCommands {
    ghost use Rattle.trace_record.specs.DeviceSlots.Unfinished.{FollowsUnfinished, as_list, kept_of};

    /// The record before any command is given. `AllocError` where memory is wanting.
    pub fn new(alloc: Global) -> Result<UnfinishedCommands, AllocError>
        ensures { IfOk result (FollowsUnfinished []) }
    {
        Ok(UnfinishedCommands {
            by_slot: no_commands(alloc, 256)?,
            by_endpoint: no_commands(alloc, 256 * 32)?,
            counts: vec![in alloc; 0; 256]?,
            addressing: 0,
        })
    }

    /// No command is unfinished any more.
    pub fn clear(&mut self)
        ensures { FollowsUnfinished [] self.new }
    {
        let none = KeptCommand { command: None };
        self.by_slot.fill(none);
        self.by_endpoint.fill(none);
        self.counts.fill(0);
        self.addressing = 0;
    }

    /// The unfinished command that names a slot, and no endpoint of it. What holds of such commands alone holds of some unfinished
    /// command exactly if it holds of this one.
    pub fn of_slot(&self, slot: u8) -> Option<Command>
        ensures one { (all : List CommandValue) (p : CommandValue → Bool) → FollowsUnfinished all self.now → IsOnlyAbout slot 0 p → list_any p (as_list result) ≡ list_any p all }
        ensures named { IfSome result (λ c. (all : List CommandValue) → FollowsUnfinished all self.now → is_about slot 0 c ≡ true) }
    {
        self.kept_of_slot(slot)
    }

    /// The unfinished command that names an endpoint. What holds of such commands alone holds of some unfinished command exactly if it
    /// holds of this one.
    pub fn of_endpoint(&self, slot: u8, endpoint: u8) -> Option<Command>
        ensures one { (all : List CommandValue) (p : CommandValue → Bool) → FollowsUnfinished all self.now → IsOnlyAbout slot endpoint p → list_any p (as_list result) ≡ list_any p all }
        ensures named { IfSome result (λ c. (all : List CommandValue) → FollowsUnfinished all self.now → is_about slot endpoint c ≡ true) }
    {
        self.kept(slot, endpoint)
    }

    /// Whether an Address Device is among the unfinished commands.
    pub fn has_address_device(&self) -> bool
        ensures { (all : List CommandValue) → FollowsUnfinished all self.now → result ≡ list_any is_address_device all }
    {
        self.addressing > 0
    }

    /// Whether the slot that a command names has an unfinished command.
    pub fn shares_slot(&self, command: &Command) -> bool
        ensures { (all : List CommandValue) → FollowsUnfinished all self.now → result ≡ list_any (name_one_slot command.now) all }
    {
        match command.slot() {
            None => false,
            Some(slot) => self.has_command(slot),
        }
    }

    /// Whether a command may not stand beside an unfinished one of its slot where only those of two endpoints may (xHCI 4.6.8 to 4.6.10).
    pub fn is_busy_by_slot(&self, command: &Command) -> bool
        ensures { (all : List CommandValue) → FollowsUnfinished all self.now → result ≡ list_any (exclude_by_slot command.now) all }
    {
        match command.endpoint() {
            None => self.shares_slot(command),
            Some((slot, endpoint)) => self.excludes(slot, endpoint),
        }
    }

    /// A command is given which no unfinished one excludes, at a position between those of two parts of the commands.
    pub fn give(&mut self, command: Command)
        ensures { (memory : ℕ → ℕ) → NamesEndpoint command → (xs ys : List CommandValue) → list_any (exclude memory command) (xs ++ ys) ≡ false →
            FollowsUnfinished (xs ++ ys) self.old → FollowsUnfinished (xs ++ command ∷ ys) self.new }
    {
        self.keep(&command, Some(command));
    }

    /// A command's completion is read.
    pub fn finish(&mut self, command: &Command)
        ensures { (xs ys : List CommandValue) → FollowsUnfinished (xs ++ command.now ∷ ys) self.old → FollowsUnfinished (xs ++ ys) self.new }
    {
        self.keep(command, None);
    }

    /// Keeps this of what a command is about, if it names a slot, and no endpoint that a slot doesn't have.
    fn keep(&mut self, about: &Command, command: Option<Command>)
        ensures { NamesEndpoint about.now → (s i : ℕ) → kept_of self.new s i ≡ (if is_about s i about.now then command else kept_of self.old s i) }
    {
        match about.endpoint() {
            Some((slot, endpoint)) => self.keep_of_endpoint(slot, endpoint, command),
            None => {
                if let Some(slot) = about.slot() {
                    self.keep_of_slot(slot, command);
                }
            }
        }
    }

    /// Keeps this of a slot as a whole.
    fn keep_of_slot(&mut self, slot: u8, command: Option<Command>)
        ensures { (s i : ℕ) → kept_of self.new s i ≡ (if s == slot && 0 == i then command else kept_of self.old s i) }
    {
        let before = addressing_count(self.by_slot[usize::from(slot)]);
        let kept = KeptCommand { command };
        self.addressing = self.addressing - before + addressing_count(kept);
        self.by_slot[usize::from(slot)] = kept;
    }

    /// Keeps this of an endpoint, if its index is one of 1 to 31.
    fn keep_of_endpoint(&mut self, slot: u8, endpoint: u8, command: Option<Command>)
        ensures { 0 < endpoint → endpoint < 32 → (s i : ℕ) → kept_of self.new s i ≡ (if s == slot && endpoint == i then command else kept_of self.old s i) }
    {
        if endpoint == 0 || endpoint >= 32 {
            return;
        }
        let number = usize::from(slot) * 32 + usize::from(endpoint);
        let before = kept_count(self.by_endpoint[number]);
        let kept = KeptCommand { command };
        self.counts[usize::from(slot)] = self.counts[usize::from(slot)] - before + kept_count(kept);
        self.by_endpoint[number] = kept;
    }

    /// What is kept of a slot as a whole.
    fn kept_of_slot(&self, slot: u8) -> Option<Command>
        ensures { result ≡ kept_of self.now slot 0 }
    {
        self.by_slot[usize::from(slot)].command
    }

    /// What is kept of an index of a slot: 0 is that of the slot as a whole. Nothing is of one above 31.
    fn kept(&self, slot: u8, index: u8) -> Option<Command>
        ensures { result ≡ kept_of self.now slot index }
    {
        if index == 0 {
            return self.kept_of_slot(slot);
        }
        if index >= 32 {
            return None;
        }
        self.by_endpoint[usize::from(slot) * 32 + usize::from(index)].command
    }

    /// Whether a command of an endpoint is excluded: by one of the slot as a whole, or of the same endpoint.
    fn excludes(&self, slot: u8, endpoint: u8) -> bool
        ensures { (all : List CommandValue) → FollowsUnfinished all self.now →
            result ≡ (list_any (is_about slot 0) all || list_any (is_about slot endpoint) all) }
    {
        self.kept_of_slot(slot).is_some() || self.kept(slot, endpoint).is_some()
    }

    /// Whether the slot has an unfinished command, of its own or of an endpoint.
    fn has_command(&self, slot: u8) -> bool
        ensures { (all : List CommandValue) → FollowsUnfinished all self.now → result ≡ list_any (names slot) all }
    {
        self.kept_of_slot(slot).is_some() || self.counts[usize::from(slot)] > 0
    }
}

/// One for an Address Device, else none.
fn addressing_count(kept: KeptCommand) -> usize
    ensures { result ≡ addressing_count kept }
{
    match kept.command {
        Some(Command::AddressDevice { .. }) => 1,
        _ => 0,
    }
}

/// One for a command, else none.
fn kept_count(kept: KeptCommand) -> usize
    ensures { result ≡ kept_count kept }
{
    if kept.command.is_some() { 1 } else { 0 }
}

fn no_commands(alloc: Global, many: usize) -> Result<Vec<KeptCommand>, AllocError>
    ensures { IfOk result (λ commands. commands.items ≡ replicate many (record { command = None })) }
{
    let none = KeptCommand { command: None };
    vec![in alloc; none; many]
}
