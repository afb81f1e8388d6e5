ghost use Rattle.std.specs.Prelude.{◌≡◌, ◌==◌, ◌+◌, ◌-◌, if◌then◌else◌, length, ◌*◌, ◌/◌, ◌%◌, ◌^◌, ◌<◌, ◌≤◌, ◌&&◌, ◌||◌, ℕ, Bool, false, not, nat_le, nat_lt, true, bit_and, bit_or, OnOk, OnErr};
ghost use Rattle.std.specs.Int.{bit_at, bit_not, w64};
ghost use Rattle.std.specs.List.{list_any, range_with_len};
ghost use Rattle.guest_memory.specs.Memory.{put};
ghost use Rattle.segments.specs.Places.{is_in};
ghost use Rattle.trace_record.specs.RangeWords.Bits.{bits_of};
ghost use Rattle.trace_record.specs.RangeWords.Marks.{AreMarked, is_page_marked, is_whole, mark_of};

use crate::range_words::bits::Bits;
use guest_memory::Addr;
use std::alloc::{AllocError, Global};

/// The words of a group: one for each bit of a number.
const GROUP: u64 = 64;

/// The bytes of a group.
const GROUP_BYTES: u64 = 256;

/// The groups of a page.
const PAGE_GROUPS: u64 = 16;

/// The words of a page.
const PAGE: u64 = GROUP * PAGE_GROUPS;

/// How many marks there are.
const MARKS: u64 = 1024;

/// The soiled words: those that the controller may have changed, and the driver hasn't written since. Contracts compare them with a test
/// of addresses.
#[derive(Drop)]
pub struct SoiledWords {
    /// A bit for each word of a group, by the number of the group.
    groups: Bits,
    /// A bit for each group of a block: all its words are soiled, whatever its own bits are. So a long range takes few numbers.
    whole: Bits,
    /// By what the number of a page leaves: a word of such a page was soiled once. Most pages are seen to be clean without a search.
    marks: [bool; MARKS as usize],
    ghost marked: { AreMarked groups whole marks },
}

impl SoiledWords {
    ghost use Rattle.trace_record.specs.RangeWords.Holding.{HoldsSoiled, group_bits};

    /// No word is soiled.
    pub fn new(alloc: Global) -> SoiledWords
        ensures { HoldsSoiled (λ a. false) result }
    {
        SoiledWords {
            groups: Bits::new(alloc),
            whole: Bits::new(alloc),
            marks: [false; MARKS as usize],
        }
    }

    /// The word is soiled.
    pub fn is_soiled(&self, at: Addr) -> bool
        ensures { (soiled : ℕ → Bool) → HoldsSoiled soiled self.now → result ≡ soiled at }
    {
        let (group, bit) = place(at);
        self.bits(group) & bit != 0
    }

    /// One of these words is soiled.
    pub fn any_in(&self, from: u64, words: u64) -> bool
        requires aligned { from % 4 ≡ 0 }
        requires within { from + 4 * words ≤ 2 ^ 64 }
        ensures { (soiled : ℕ → Bool) → HoldsSoiled soiled self.now → result ≡ list_any (λ i. soiled (from + 4 * i)) (range_with_len 0 words) }
    {
        let first = from / 4;
        let end = first + words;
        if self.is_clean(first, end) {
            return false;
        }
        for group in first / GROUP..(end + 63) / GROUP {
            let common = self.bits(group) & mask(group, first, end);
            if common != 0 {
                return true;
            }
        }
        false
    }

    /// These words are soiled. At want of memory some of them may be.
    pub fn soil(&mut self, from: u64, words: u64) -> Result<(), AllocError>
        requires aligned { from % 4 ≡ 0 }
        requires within { from + 4 * words ≤ 2 ^ 64 }
        ensures { OnOk result ((soiled : ℕ → Bool) → HoldsSoiled soiled self.old → HoldsSoiled (λ x. is_in x from (4 * words) || soiled x) self.new) }
    {
        let first = from / 4;
        let end = first + words;
        let start = first / GROUP;
        let behind = (end + 63) / GROUP;
        if start >= behind {
            return Ok(());
        }
        self.add_bits(start, mask(start, first, end))?;
        if start + 1 == behind {
            return Ok(());
        }
        self.add_bits(behind - 1, mask(behind - 1, first, end))?;
        self.soil_groups(start + 1, behind - 1)
    }

    /// All words of these groups are soiled. At want of memory some of them may be.
    fn soil_groups(&mut self, first: u64, end: u64) -> Result<(), AllocError>
        requires { end ≤ 2 ^ 56 }
        ensures { OnOk result ((g : ℕ) → group_bits self.new g ≡ (if nat_le first g && nat_lt g end then 2 ^ 64 - 1 else group_bits self.old g)) }
    {
        mark_pages(&mut self.marks, first, end);
        for block in first / GROUP..(end + 63) / GROUP {
            self.add_whole(block, mask(block, first, end))?;
        }
        Ok(())
    }

    /// All words of those groups of a block are soiled whose bits are 1 here; their pages are marked.
    fn add_whole(&mut self, block: u64, groups: u64) -> Result<(), AllocError>
        requires marked { (i : ℕ) → i < 64 → nat_lt 0 (bit_at groups i) ≡ true → is_page_marked self.old.marks (64 * block + i) ≡ true }
        ensures ok { OnOk result ((g : ℕ) → group_bits self.new g ≡ (if g / 64 == block && nat_lt 0 (bit_at groups (g % 64)) then 2 ^ 64 - 1 else group_bits self.old g)) }
        ensures marks { self.new.marks ≡ self.old.marks }
    {
        let old = self.whole.of(block);
        self.whole.set(block, old | groups)?;
        Ok(())
    }

    /// The driver wrote this word. Want of memory changes nothing.
    pub fn clear(&mut self, at: Addr) -> Result<(), AllocError>
        ensures ok { OnOk result ((soiled : ℕ → Bool) → HoldsSoiled soiled self.old → HoldsSoiled (λ x. soiled x && not (x == at)) self.new) }
        ensures err { OnErr result ((soiled : ℕ → Bool) → HoldsSoiled soiled self.old → HoldsSoiled soiled self.new) }
    {
        let (group, bit) = place(at);
        self.unset(group, bit)
    }

    /// Clears a bit of a group. Want of memory changes nothing.
    fn unset(&mut self, group: u64, bit: u64) -> Result<(), AllocError>
        ensures ok { OnOk result ((g : ℕ) → group_bits self.new g ≡ put (group_bits self.old) group (bit_and (group_bits self.old group) (bit_not w64 bit)) g) }
        ensures err { OnErr result ((g : ℕ) → group_bits self.new g ≡ group_bits self.old g) }
    {
        if !self.marks[mark_of(group / PAGE_GROUPS)] {
            return Ok(());
        }
        let old = self.bits(group);
        let left = old & !bit;
        if left == old {
            return Ok(());
        }
        self.set_bits(group, left)
    }

    /// The bits of a group: 0 where none of its words was soiled.
    #[inline(always)]
    fn bits(&self, group: u64) -> u64
        ensures { result ≡ group_bits self.now group }
    {
        if self.is_whole(group) {
            return u64::MAX;
        }
        self.groups.of(group)
    }

    /// Whether all words of a group are soiled, whatever its own bits are.
    #[inline(always)]
    fn is_whole(&self, group: u64) -> bool
        ensures { result ≡ is_whole (bits_of self.now.whole) group }
    {
        self.whole.of(group / GROUP) & bit_of(group) != 0
    }

    /// No word was ever soiled on a page that has one of these words, by their numbers in memory: none is known to be.
    fn is_clean(&self, first: u64, end: u64) -> bool
        requires { end ≤ 2 ^ 62 }
        ensures { result ≡ true → (g : ℕ) → first / 64 ≤ g → 64 * g < end → group_bits self.now g ≡ 0 }
    {
        for page in first / PAGE..(end + PAGE - 1) / PAGE {
            if self.marks[mark_of(page)] {
                return false;
            }
        }
        true
    }

    /// Sets those bits of a group that are 1 here. Want of memory changes nothing.
    #[inline(always)]
    fn add_bits(&mut self, group: u64, bits: u64) -> Result<(), AllocError>
        ensures ok { OnOk result ((g : ℕ) → group_bits self.new g ≡ put (group_bits self.old) group (bit_or (group_bits self.old group) bits) g) }
        ensures err { OnErr result ((g : ℕ) → group_bits self.new g ≡ group_bits self.old g) }
    {
        let old = self.bits(group);
        let all = old | bits;
        if all == old {
            return Ok(());
        }
        self.set_bits(group, all)
    }

    /// Sets the bits of a group. Want of memory changes nothing.
    #[inline(always)]
    fn set_bits(&mut self, group: u64, bits: u64) -> Result<(), AllocError>
        ensures ok { OnOk result ((g : ℕ) → group_bits self.new g ≡ put (group_bits self.old) group bits g) }
        ensures err { OnErr result ((g : ℕ) → group_bits self.new g ≡ group_bits self.old g) }
    {
        self.marks[mark_of(group / PAGE_GROUPS)] = true;
        self.groups.set(group, bits)?;
        self.whole.clear(group / GROUP, bit_of(group));
        Ok(())
    }
}

/// Marks the pages of these groups.
fn mark_pages(marks: &mut [bool], first: u64, end: u64)
    requires many { length marks.now ≡ 1024 }
    requires fits { end ≤ 2 ^ 56 }
    ensures these { (g : ℕ) → first ≤ g → g < end → is_page_marked marks.new g ≡ true }
    ensures kept { (g : ℕ) → is_page_marked marks.old g ≡ true → is_page_marked marks.new g ≡ true }
{
    for page in first / PAGE_GROUPS..(end + PAGE_GROUPS - 1) / PAGE_GROUPS {
        marks[mark_of(page)] = true;
    }
}

/// Where the mark of a page stands. Pages that lie side by side have marks of their own.
fn mark_of(page: u64) -> usize
    ensures value { result ≡ mark_of page }
    ensures below { result < 1024 }
{
    ((page % MARKS + page / MARKS) % MARKS) as usize
}

/// The number of a word's group, and its bit there.
fn place(at: Addr) -> (u64, u64)
    ensures group { result.0 ≡ at / 256 }
    ensures bit { result.1 ≡ 2 ^ (at / 4 % 64) }
    ensures aligned { at % 4 ≡ 0 }
{
    let address = at.get();
    (address / GROUP_BYTES, bit_of(address / 4))
}

/// The bit of a word in its group, or of a group in its block, by its number.
fn bit_of(number: u64) -> u64
    ensures { result ≡ 2 ^ (number % 64) }
{
    1 << (number % GROUP)
}

/// The bits of those words of a group, or groups of a block, that lie from one up to another, both by their number.
fn mask(group: u64, first: u64, end: u64) -> u64
    requires begun { first < 64 * group + 64 }
    requires unfinished { 64 * group < end }
    ensures { (i : ℕ) → i < 64 → nat_lt 0 (bit_at result i) ≡ (nat_le first (64 * group + i) && nat_lt (64 * group + i) end) }
{
    let start = GROUP * group;
    let low = first.saturating_sub(start);
    let high = (end - start).min(GROUP);
    (u64::MAX << low) & (u64::MAX >> (GROUP - high))
}
