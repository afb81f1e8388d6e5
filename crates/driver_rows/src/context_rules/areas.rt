ghost use Rattle.std.specs.Prelude.{◌≡◌, ℕ, ◌+◌, ◌*◌, ◌%◌, ◌^◌, ◌≤◌, false, true, nat_lt};
ghost use Rattle.std.specs.List.{list_any};
ghost use Rattle.segments.specs.Places.{overlap};
ghost use Rattle.traces.specs.Header.{touches_ring};
ghost use Rattle.traces.specs.AllowedHeaders.{IsHeader};
ghost use Rattle.traces.specs.declared.header.Header.{Header};
ghost use Rattle.ring_knowledge.specs.Known.{Known};
ghost use Rattle.trace_record.specs.RingFinder.Finding.{IsFinder};
ghost use Rattle.ownership_rules.specs.Areas.{is_bad_area, is_soiled};
ghost use Rattle.ownership_rules.specs.OpenLeases.{covers, device_ranges};
ghost use Rattle.trace_record.specs.FollowsTrace.{FollowsTrace};

use trace_record::{Finder, TraceRecord};

/// Whether so many bytes from an address on end above 2^64, or touch a ring or a device context under lease, where no context,
/// entry or table may lie (xHCI 6.1, 6.2.1, 6.2.5, 6.5).
pub fn is_bad_area(finder: &Finder, t: &TraceRecord, from: u64, len: u64) -> bool
    ensures rule { (h : Header) (k : Known) (memory : ℕ → ℕ) → IsHeader h → IsFinder h.rings finder.now → FollowsTrace h k t.now memory →
        result ≡ is_bad_area h k from len }
    ensures inside { result ≡ false → from + len ≤ 2 ^ 64 }
{
    ends_above(from, len) || touches_rings(finder, from, len) || touches_devices(t, from, len)
}

/// Whether so many bytes from an address on touch a ring. Most contexts lie behind all rings, which is told without a search.
fn touches_rings(finder: &Finder, from: u64, len: u64) -> bool
    ensures { (h : Header) → IsHeader h → IsFinder h.rings finder.now → result ≡ touches_ring h from len }
{
    !lies_behind(finder, from) && finder.touches(from, len)
}

/// Whether an address lies behind the segment that starts last.
fn lies_behind(finder: &Finder, from: u64) -> bool
    ensures { result ≡ true → (len : ℕ) (h : Header) → IsHeader h → IsFinder h.rings finder.now → touches_ring h from len ≡ false }
{
    let starts = finder.starts.as_slice();
    if starts.is_empty() {
        return false;
    }
    let last = starts[starts.len() - 1];
    from >= last.address && from - last.address >= last.bytes
}

/// Whether one of the words that so many bytes from an address on have is soiled.
pub fn is_soiled(t: &TraceRecord, from: u64, len: u64) -> bool
    requires aligned { from % 4 ≡ 0 }
    requires inside { from + len ≤ 2 ^ 64 }
    ensures { (h : Header) (k : Known) (memory : ℕ → ℕ) → FollowsTrace h k t.now memory → result ≡ is_soiled k from len }
{
    t.soiled.any_in(from, len / 4)
}

/// Whether so many bytes from an address on touch a device context under lease.
pub(crate) fn touches_devices(t: &TraceRecord, from: u64, len: u64) -> bool
    ensures { (h : Header) (k : Known) (memory : ℕ → ℕ) → FollowsTrace h k t.now memory → result ≡ list_any (covers h from len) (device_ranges h k) }
{
    t.contexts.touches(from, len)
}

/// Whether so many bytes from an address on end above 2^64.
fn ends_above(from: u64, len: u64) -> bool
    ensures { result ≡ nat_lt (2 ^ 64) (from + len) }
{
    u128::from(from) + u128::from(len) > 1 << 64
}

/// Whether `m` bytes from `a` on and `n` bytes from `b` on have a byte in common. Nothing wraps.
pub(crate) fn overlap(a: u64, m: u64, b: u64, n: u64) -> bool
    ensures { result ≡ overlap a m b n }
{
    u128::from(a) < u128::from(b) + u128::from(n) && u128::from(b) < u128::from(a) + u128::from(m)
}
