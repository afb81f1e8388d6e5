ghost use Rattle.std.specs.Prelude.{◌≡◌, ◌<◌, ◌/◌, ◌%◌, ℕ, IfOk, IfSome, IfNone};
ghost use Rattle.std.specs.Bool.{OnTrue};
ghost use Rattle.guest_memory.specs.Tree.{numbers, nexts, digits_of, IsTree, IsFree, IsAt, HasNone, IsWay};

use crate::addr::Addr;
use crate::memory::WordMemory;
use crate::page::{DIGITS, PAGE, Page, WORDS};
use std::alloc::{AllocError, Global};

/// What a number is divided by for its first digit: it has 64 bits, and a digit three.
const FIRST: u64 = 1 << 61;

/// The pages of 64 GiB, of which ten digits say which.
const NEAR: u64 = 1 << 30;

/// How many pages are remembered as written lately.
const RECENT: usize = 4096;

/// 2^64 by the golden ratio: its multiples lie far apart, those of neighbours and of equal steps too.
const GOLDEN: u64 = 0x9e37_79b9_7f4a_7c15;

/// Where a page lies, or where the next page has to stand if it is to have its number: behind a page by a digit.
enum Way {
    Found(usize),
    Free(usize, usize),
}

/// Memory that keeps the pages in which a word was written, in the order in which they came, as a tree: from the first page the digits
/// of a number lead to its page. So no choice of addresses makes it slow: there are at most 22 steps. Most pages are found without
/// them, since they were written lately.
#[derive(Drop)]
pub struct SparseMemory {
    pages: Vec<Page>,
    /// Where a page may lie, by what its number leaves.
    recent: [u32; RECENT],
    ghost is_tree: { IsTree (numbers pages.items) (nexts pages.items) },
}

/// The number of a word's page, and the word's index there.
fn place(at: Addr) -> (u64, usize)
    ensures page { result.0 ≡ at / 64 }
    ensures index { result.1 ≡ at / 4 % 16 }
    ensures aligned { at % 4 ≡ 0 }
{
    let address = at.get();
    (address / PAGE, (address / 4) as usize % WORDS)
}

/// The digits by which a page is found: those of its lower 30 bits from the highest on, then those of the others. So pages whose
/// addresses are close lie behind the same ones.
fn digits(number: u64) -> u64
    ensures { result ≡ digits_of number }
{
    number % NEAR * (1 << 34) + number / NEAR
}

/// Where a page is remembered. Pages that lie side by side, or equally far apart, have places of their own.
fn slot(number: u64) -> usize
    ensures { result < 4096 }
{
    (number.wrapping_mul(GOLDEN) >> 52) as usize
}

impl SparseMemory {
    ghost use Rattle.guest_memory.specs.Page.{word_in};

    /// Memory in which no word was written. It takes none itself.
    pub fn new(alloc: Global) -> SparseMemory
        ensures { (a : ℕ) → word_in result a ≡ 0 }
    {
        SparseMemory {
            pages: Vec::new(alloc),
            recent: [0; RECENT],
        }
    }

    /// Whether a page lies here, and has the number.
    fn lies_at(&self, at: usize, number: u64) -> bool
        ensures { OnTrue result (IsAt (numbers self.now.pages.items) number at) }
    {
        at < self.pages.len() && self.pages[at].number == number
    }

    /// Where the page with a number lies, by the tree.
    fn seek(&self, number: u64) -> Way
        ensures { IsWay (numbers self.now.pages.items) (nexts self.now.pages.items) number result }
    {
        let mut at = 0;
        let mut rest = digits(number);
        while at < self.pages.len() {
            let page = &self.pages[at];
            if page.number == number {
                return Way::Found(at);
            }
            let digit = (rest / FIRST % DIGITS) as usize;
            let next = page.next[digit] as usize;
            if next == 0 {
                return Way::Free(at, digit);
            }
            at = next;
            rest = rest % FIRST * DIGITS;
        }
        Way::Free(0, 0)
    }

    /// Where the page with a number lies.
    #[inline(always)]
    fn find(&self, number: u64) -> Option<usize>
        ensures some { IfSome result (IsAt (numbers self.now.pages.items) number) }
        ensures none { IfNone result (HasNone (numbers self.now.pages.items) number) }
    {
        let recent = self.recent[slot(number)] as usize;
        if self.lies_at(recent, number) {
            return Some(recent);
        }
        self.find_by_tree(number)
    }

    /// The same, by the tree, for a page that isn't remembered.
    #[inline(never)]
    fn find_by_tree(&self, number: u64) -> Option<usize>
        ensures some { IfSome result (IsAt (numbers self.now.pages.items) number) }
        ensures none { IfNone result (HasNone (numbers self.now.pages.items) number) }
    {
        match self.seek(number) {
            Way::Found(at) => Some(at),
            Way::Free(_, _) => None,
        }
    }

    /// Where the page with a number lies, which is made if there is none. No word changes.
    #[inline(always)]
    fn open(&mut self, number: u64) -> Result<usize, AllocError>
        ensures same { (a : ℕ) → word_in self.new a ≡ word_in self.old a }
        ensures ok { IfOk result (IsAt (numbers self.new.pages.items) number) }
    {
        let recent = self.recent[slot(number)] as usize;
        if self.lies_at(recent, number) {
            return Ok(recent);
        }
        self.open_by_tree(number)
    }

    /// The same, by the tree, for a page that isn't remembered. It stays out of `open`, for which it would save registers.
    #[inline(never)]
    fn open_by_tree(&mut self, number: u64) -> Result<usize, AllocError>
        ensures same { (a : ℕ) → word_in self.new a ≡ word_in self.old a }
        ensures ok { IfOk result (IsAt (numbers self.new.pages.items) number) }
    {
        let at = match self.seek(number) {
            Way::Found(at) => at,
            Way::Free(behind, digit) => self.add(number, behind, digit)?,
        };
        if let Ok(recent) = u32::try_from(at) {
            self.recent[slot(number)] = recent;
        }
        Ok(at)
    }

    /// Makes a page behind another one in the tree, or the first one. No word changes. There is room for 2^32 pages.
    fn add(&mut self, number: u64, behind: usize, digit: usize) -> Result<usize, AllocError>
        requires { IsFree (numbers self.old.pages.items) (nexts self.old.pages.items) number behind digit }
        ensures same { (a : ℕ) → word_in self.new a ≡ word_in self.old a }
        ensures ok { IfOk result (IsAt (numbers self.new.pages.items) number) }
    {
        let at = self.pages.len();
        let Ok(link) = u32::try_from(at) else {
            return Err(AllocError);
        };
        self.pages.push(Page {
            number,
            next: [0; DIGITS as usize],
            words: [0; WORDS],
        })?;
        self.pages[behind].next[digit] = link;
        Ok(at)
    }
}

impl WordMemory for SparseMemory {
    ghost use Rattle.guest_memory.specs.Page.{word_in};

    ghost words = { word_in };

    fn word(&self, at: Addr) -> u32 {
        let (number, index) = place(at);
        match self.find(number) {
            Some(page) => self.pages[page].words[index],
            None => 0,
        }
    }

    fn block(&self, base: Addr) -> [u32; 4] {
        let (number, index) = place(base);
        match self.find(number) {
            Some(page) => {
                let words = &self.pages[page].words;
                [
                    words[index],
                    words[index + 1],
                    words[index + 2],
                    words[index + 3],
                ]
            }
            None => [0; 4],
        }
    }

    fn set(&mut self, at: Addr, value: u32) -> Result<(), AllocError> {
        let (number, index) = place(at);
        let page = self.open(number)?;
        self.pages[page].words[index] = value;
        Ok(())
    }
}
