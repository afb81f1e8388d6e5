ghost use Rattle.std.specs.Prelude.{◌≡◌, ◌+◌, ◌<◌, ◌≤◌, ◌^◌, ◌&&◌, not, ℕ, drop};
ghost use Rattle.std.specs.BTreeSet.{contains};
ghost use Rattle.std.specs.Ordering.{nat_cmp};
ghost use Rattle.segments.specs.Places.{is_in};
ghost use Rattle.segments.specs.ShapeValue.{Shape};
ghost use Rattle.segments.specs.Spots.{number};
ghost use Rattle.segments.specs.RingView.{RingView};
ghost use Rattle.ring_knowledge.specs.RingRecords.{AreWholeBelow};

use super::withdrawals::remove_numbers;
use super::{RingRecord, number};
use std::collections::BTreeSet;

/// Beyond this position nothing is forgotten any more.
const LAST_FORGOTTEN: u64 = 1 << 61;

impl RingRecord {
    ghost use Rattle.ring_knowledge.specs.RingRecords.{FollowsMarks, FollowsRing};

    /// Forgets the descriptors that the floor has passed whole, where it has passed a lap or more: no rule asks for them any more. So what is
    /// kept doesn't grow with the rows, and is moved once a lap.
    #[inline(always)]
    pub(super) fn forget_passed(&mut self, places: u64)
        ensures { (shape : Shape) (v : RingView) → FollowsRing shape v self.old → FollowsRing shape v self.new }
    {
        let floor = number(self.floor);
        if floor.saturating_sub(self.forgotten) < places {
            return;
        }
        let end = self.passed_whole();
        self.forget_below(end);
    }

    /// The last number up to the floor below which each descriptor that isn't forgotten yet ends: the one inside which the floor lies may still be
    /// withdrawn (xHCI 4.6.9). It is looked for along that descriptor alone.
    fn passed_whole(&self) -> u64
        ensures passed { (shape : Shape) (v : RingView) → FollowsMarks shape v self.now → result ≤ number self.now.floor }
        ensures whole { (shape : Shape) (v : RingView) → FollowsMarks shape v self.now → AreWholeBelow v result }
    {
        let floor = number(self.floor);
        for back in 0..floor.saturating_sub(self.forgotten) {
            let position = floor - back;
            if self.is_border(position) {
                return position;
            }
        }
        self.forgotten
    }

    /// Forgets what is declared below a number up to the floor's, where whole descriptors end.
    #[inline(never)]
    fn forget_below(&mut self, end: u64)
        ensures { (shape : Shape) (v : RingView) → FollowsRing shape v self.old → end ≤ number self.old.floor → AreWholeBelow v end → FollowsRing shape v self.new }
    {
        if end > LAST_FORGOTTEN {
            return;
        }
        let from = self.forgotten;
        let count = (end.saturating_sub(from) as usize).min(self.blocks.len());
        forget_first(&mut self.blocks, count);
        forget_first(&mut self.lengths, count);
        forget_numbers(&mut self.withdrawn, from, count as u64);
        self.forgotten = from + count as u64;
    }
}

/// Drops the first so many of a list.
fn forget_first<T: Copy>(items: &mut Vec<T>, count: usize)
    ensures { items.new.items ≡ drop count items.old.items }
{
    let Some(left) = items.len().checked_sub(count) else {
        items.clear();
        return;
    };
    items.copy_within(count.., 0);
    items.truncate(left);
}

/// Removes so many numbers from one on.
fn forget_numbers(set: &mut BTreeSet<u64>, from: u64, count: u64)
    requires { from + count < 2 ^ 64 }
    ensures { (q : ℕ) → contains nat_cmp set.new q ≡ (contains nat_cmp set.old q && not (is_in q from count)) }
{
    if set.is_empty() {
        return;
    }
    remove_numbers(set, from, count);
}
