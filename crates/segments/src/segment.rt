ghost use Rattle.std.specs.Prelude.{◌≡◌, ◌*◌, ◌/◌, ◌-◌, true};
ghost use Rattle.std.specs.Option.{SomeIff};
ghost use Rattle.segments.specs.Places.{is_in, overlap};
ghost use Rattle.segments.specs.Shape.{segments_overlap};

/// A segment of a ring: `count` blocks of 16 bytes from the address `base` on (xHCI 4.9). In a command or transfer
/// ring the last block of a segment is its Link.
#[derive(Clone, Copy, Debug, PartialEq, Eq)]
pub struct Segment {
    pub base: u64,
    pub count: u16,
}

impl Segment {
    /// Whether a byte lies in both. Nothing wraps.
    pub fn overlaps(self, other: Segment) -> bool
        ensures { result ≡ segments_overlap self other }
    {
        overlap(
            self.base,
            16 * u64::from(self.count),
            other.base,
            16 * u64::from(other.count),
        )
    }

    /// Whether it has one of `len` bytes from `at` on. Nothing wraps.
    pub(crate) fn touches(self, at: u64, len: u64) -> bool
        ensures { result ≡ overlap at len self.base (16 * self.count) }
    {
        overlap(at, len, self.base, 16 * u64::from(self.count))
    }

    /// The number of the block that has this byte, from 0, where one has.
    pub(crate) fn block_at(self, address: u64) -> Option<u16>
        ensures { SomeIff result (is_in address self.base (16 * self.count) ≡ true) ((address - self.base) / 16) }
    {
        let behind = address.checked_sub(self.base)?;
        if behind < 16 * u64::from(self.count) {
            Some((behind / 16) as u16)
        } else {
            None
        }
    }
}

/// Whether `m` bytes from `a` on and `n` bytes from `b` on have a byte in common. Nothing wraps.
pub(crate) fn overlap(a: u64, m: u64, b: u64, n: u64) -> bool
    ensures { result ≡ overlap a m b n }
{
    u128::from(a) < u128::from(b) + u128::from(n) && u128::from(b) < u128::from(a) + u128::from(m)
}
