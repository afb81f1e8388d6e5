//! A list of leases that is followed from its beginning.
ghost use Rattle.std.specs.Prelude.{◌≡◌, ◌==◌, ◌&&◌, ◌≤◌, ℕ, true, false, not, filter, length, slice_get, OnOk};
ghost use Rattle.ownership_rules.specs.Leases.{without_end};
ghost use Rattle.leases.specs.CertificateLogs.Agreement.{begins_as, has_words_of, is_endless, test_of};

use ring_knowledge::Lease;
use std::alloc::AllocError;

/// The number of no row.
const WITHOUT_END: u32 = 0xffff_ffff;

/// A list of leases, as far as it was followed.
#[derive(Drop)]
pub struct FollowedList<'a> {
    /// All its leases.
    pub leases: &'a [Lease],
    /// How many leases have begun.
    pub begun: usize,
    /// How many of these aren't over.
    pub unended: usize,
    /// The list was seen to be another one.
    pub differs: bool,
    ghost within: { unended ≤ begun },
}

impl<'a> FollowedList<'a> {
    ghost use Rattle.leases.specs.CertificateLogs.Following.{Begins, Ends};

    /// A list of which nothing was followed.
    pub fn new(leases: &'a [Lease]) -> FollowedList<'a>
        ensures list { result.leases.now ≡ leases.now }
        ensures begun { result.begun ≡ 0 }
        ensures unended { result.unended ≡ 0 }
        ensures differs { result.differs ≡ false }
    {
        FollowedList {
            leases,
            begun: 0,
            unended: 0,
            differs: false,
        }
    }

    /// A lease begins: it is the next of the list, or the list is another one. A count beyond a `usize` is refused as memory is.
    pub fn begin(&mut self, lease: Lease) -> Result<(), AllocError>
        ensures { OnOk result (Begins lease self.old self.new) }
    {
        let Some(begun) = self.begun.checked_add(1) else {
            return Err(AllocError);
        };
        let is_next = begins_so(self.leases, self.begun, lease);
        *self = FollowedList {
            leases: self.leases,
            begun,
            unended: self.unended + 1,
            differs: self.differs || !is_next,
        };
        Ok(())
    }

    /// The lease at an index ends at a row, if it has these words; whether it did. No lease ends at the row of no number.
    pub fn end(&mut self, index: usize, row: u32, sought: Lease) -> bool
        ensures ended { result ≡ (not (row == without_end) && test_of (has_words_of sought) (slice_get self.old.leases.now index)) }
        ensures ends { result ≡ true → Ends index row self.old self.new }
        ensures stays { result ≡ false → self.new ≡ self.old }
    {
        if !is_ended(self.leases, index, row, sought) {
            return false;
        }
        let is_end = ends_so(self.leases, index, row);
        *self = FollowedList {
            leases: self.leases,
            begun: self.begun,
            unended: self.unended.saturating_sub(1),
            differs: self.differs || !is_end,
        };
        true
    }

    /// As many leases have begun as there are, and as many aren't over as have no end.
    pub fn is_whole(&self) -> bool
        ensures { result ≡ (not self.now.differs && self.now.begun == length self.now.leases.now && length (filter is_endless self.now.leases.now) == self.now.unended) }
    {
        !self.differs
            && self.begun == self.leases.len()
            && endless_count(self.leases) == self.unended
    }
}

/// How many of these leases have no end.
fn endless_count(leases: &[Lease]) -> usize
    ensures { result ≡ length (filter is_endless leases.now) }
{
    leases.iter().filter(|lease| is_endless(**lease)).count()
}

/// The lease has no end.
#[tactic(auto, unfolding(crate::specs::CertificateLogs::Agreement::is_endless, ownership_rules::specs::Leases::without_end))]
fn is_endless(lease: Lease) -> bool
    ensures { result ≡ is_endless lease }
{
    lease.to == WITHOUT_END
}

/// The lease at an index begins as another one.
fn begins_so(leases: &[Lease], index: usize, lease: Lease) -> bool
    ensures { result ≡ test_of (λ l. begins_as l lease) (slice_get leases.now index) }
{
    match leases.get(index) {
        Some(next) => begins_as(*next, lease),
        None => false,
    }
}

/// The row ends the lease at an index: it has a number, and the lease these words.
#[tactic(auto, unfolding(ownership_rules::specs::Leases::without_end))]
fn is_ended(leases: &[Lease], index: usize, row: u32, sought: Lease) -> bool
    ensures { result ≡ (not (row == without_end) && test_of (has_words_of sought) (slice_get leases.now index)) }
{
    row != WITHOUT_END && is_there(leases, index, sought)
}

/// The lease at an index has the words of another one.
fn is_there(leases: &[Lease], index: usize, sought: Lease) -> bool
    ensures { result ≡ test_of (has_words_of sought) (slice_get leases.now index) }
{
    match leases.get(index) {
        Some(there) => has_words_of(sought, *there),
        None => false,
    }
}

/// The lease at an index ends at a row.
fn ends_so(leases: &[Lease], index: usize, row: u32) -> bool
    ensures { result ≡ test_of (λ l. l.to == row) (slice_get leases.now index) }
{
    match leases.get(index) {
        Some(there) => there.to == row,
        None => false,
    }
}

/// Both are of the same words, from the same row on.
#[tactic(auto, unfolding(crate::specs::CertificateLogs::Agreement::begins_as))]
fn begins_as(lease: Lease, other: Lease) -> bool
    ensures { result ≡ begins_as lease other }
{
    has_words_of(lease, other) && lease.from == other.from
}

/// Both are of the same words.
#[tactic(auto, unfolding(crate::specs::CertificateLogs::Agreement::has_words_of))]
fn has_words_of(lease: Lease, other: Lease) -> bool
    ensures { result ≡ has_words_of lease other }
{
    lease.kind == other.kind && lease.ring == other.ring && lease.pos == other.pos
}
