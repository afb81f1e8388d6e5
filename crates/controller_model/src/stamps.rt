ghost use Rattle.std.specs.Prelude.{◌≡◌, ℕ, ◌≤◌, ◌^◌, Some};
ghost use Rattle.guest_memory.specs.Page.{word_in};
ghost use Rattle.controller_model.specs.Watches.{is_changed_behind};
ghost use Rattle.controller_model.specs.declared.watches.Watch.{Watch};

use crate::watches::Watch;
use guest_memory::{Addr, SparseMemory, WordMemory};
use std::alloc::{AllocError, Global};

/// For each word of memory the numbers of the steps in which it was last changed, and last written; 0 where it never was. They are kept as
/// memory is, a step in the place of a word; so there is room for 2^32 steps.
#[derive(Drop)]
pub struct Stamps {
    changed: SparseMemory,
    written: SparseMemory,
    /// No word was changed in a later step.
    last: u64,
    /// Words whose changes are followed write by write, so that they need not be gone through.
    watch: Option<Watch>,
    ghost changed_below: { (a : ℕ) → 2 ^ 64 ≤ a → word_in changed a ≡ 0 },
    ghost written_below: { (a : ℕ) → 2 ^ 64 ≤ a → word_in written a ≡ 0 },
    ghost latest: { (a : ℕ) → word_in changed a ≤ last },
    ghost watched: { (w : Watch) → watch ≡ Some w → w.is_changed ≡ is_changed_behind (word_in changed) (word_in written) w.block w.first w.words },
}

impl Stamps {
    ghost use Rattle.std.specs.Prelude.{◌+◌, ◌*◌, ◌<◌, if◌then◌else◌, nat_lt, OnOk};
    ghost use Rattle.std.specs.List.{list_any, range_with_len};
    ghost use Rattle.guest_memory.specs.Memory.{put};
    ghost use Rattle.controller_model.specs.Held.{changed_at, held, written_at};

    /// No word was written.
    pub(crate) fn new(alloc: Global) -> Stamps
        ensures changed { (a : ℕ) → changed_at result a ≡ 0 }
        ensures written { (a : ℕ) → written_at result a ≡ 0 }
    {
        Stamps {
            changed: SparseMemory::new(alloc),
            written: SparseMemory::new(alloc),
            last: 0,
            watch: None,
        }
    }

    /// The step in which the word at an address was last changed.
    pub(crate) fn changed(&self, at: u64) -> u64
        ensures { result ≡ changed_at self.now at }
    {
        stamp_at(&self.changed, at)
    }

    /// The step in which the word at an address was last written.
    pub(crate) fn written(&self, at: u64) -> u64
        ensures { result ≡ written_at self.now at }
    {
        stamp_at(&self.written, at)
    }

    /// The step in which the word so many bytes behind an address was last changed; no word lies beyond the last address.
    fn changed_behind(&self, address: u64, offset: u64) -> u64
        ensures { result ≡ changed_at self.now (address + offset) }
    {
        match address.checked_add(offset) {
            None => 0,
            Some(at) => self.changed(at),
        }
    }

    /// The step in which the word so many bytes behind an address was last written.
    pub(crate) fn written_behind(&self, address: u64, offset: u64) -> u64
        ensures { result ≡ written_at self.now (address + offset) }
    {
        match address.checked_add(offset) {
            None => 0,
            Some(at) => self.written(at),
        }
    }

    /// Whether one of so many words from an address on was changed after a step.
    #[tactic(auto, using(world_state::proofs::Ranges::none_in_range))]
    pub(crate) fn is_changed_since(&self, step: u64, address: u64, words: u64) -> bool
        requires { words < 2 ^ 32 }
        ensures { result ≡ list_any (λ i. nat_lt step (changed_at self.now (address + 4 * i))) (range_with_len 0 words) }
    {
        for i in 0..words {
            if self.changed_behind(address, 4 * i) > step {
                return true;
            }
        }
        false
    }

    /// Whether one of so many words from an address on was changed after the control word of a block was last written.
    fn is_changed_behind(&self, block: u64, first: u64, words: u64) -> bool
        requires { words < 2 ^ 32 }
        ensures { result ≡ is_changed_behind (changed_at self.now) (written_at self.now) block first words }
    {
        let given = self.written_behind(block, 12);
        if self.last <= given {
            return false;
        }
        self.is_changed_since(given, first, words)
    }

    /// The same, at once where these words are watched.
    pub(crate) fn is_context_changed(&self, block: u64, first: u64, words: u64) -> bool
        requires { words < 2 ^ 32 }
        ensures { result ≡ is_changed_behind (changed_at self.now) (written_at self.now) block first words }
    {
        if let Some(watch) = self.watch {
            if watch.is_of(block, first, words) {
                return watch.is_changed;
            }
        }
        self.is_changed_behind(block, first, words)
    }

    /// So many words from an address on are watched from now on, and the control word of a block.
    pub(crate) fn watch(&mut self, block: u64, first: u64, words: u64)
        requires { words < 2 ^ 32 }
        ensures { (m : ℕ → ℕ) → held m self.new ≡ held m self.old }
    {
        let is_changed = self.is_changed_behind(block, first, words);
        self.watch = Some(Watch {
            block,
            first,
            words,
            is_changed,
        });
    }

    /// Puts a step to a word that is written in it, and maybe changed; no words are watched from then on.
    fn put(&mut self, at: Addr, is_changed: bool, step: u64) -> Result<(), AllocError>
        ensures changed { OnOk result ((a : ℕ) → changed_at self.new a ≡ (if is_changed then put (changed_at self.old) at step a else changed_at self.old a)) }
        ensures written { OnOk result ((a : ℕ) → written_at self.new a ≡ put (written_at self.old) at step a) }
    {
        self.watch = None;
        let stamp = u32::try_from(step).map_err(|_| AllocError)?;
        if is_changed {
            self.last = self.last.max(step);
            self.changed.set(at, stamp)?;
        }
        self.written.set(at, stamp)?;
        Ok(())
    }

    /// Notes that a word is written in this step, and whether it is changed.
    pub(crate) fn note(&mut self, at: Addr, is_changed: bool, step: u64) -> Result<(), AllocError>
        ensures changed { OnOk result ((a : ℕ) → changed_at self.new a ≡ (if is_changed then put (changed_at self.old) at step a else changed_at self.old a)) }
        ensures written { OnOk result ((a : ℕ) → written_at self.new a ≡ put (written_at self.old) at step a) }
    {
        let watched = self.watch;
        self.put(at, is_changed, step)?;
        if let Some(watch) = watched {
            if watch.may_be_touched(at.get(), is_changed) {
                self.watch(watch.block, watch.first, watch.words);
            } else {
                self.watch = watched;
            }
        }
        Ok(())
    }
}

/// The step that is kept of the word at an address; no word begins between multiples of 4.
fn stamp_at(steps: &SparseMemory, at: u64) -> u64
    ensures { result ≡ word_in steps.now at }
{
    match Addr::new(at) {
        None => 0,
        Some(at) => u64::from(steps.word(at)),
    }
}
