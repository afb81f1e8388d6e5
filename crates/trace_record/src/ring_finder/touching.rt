ghost use Rattle.std.specs.Prelude.{◌≡◌, ◌+◌};
ghost use Rattle.traces.specs.Header.{touches_ring};
ghost use Rattle.traces.specs.AllowedHeaders.{IsHeader};
ghost use Rattle.traces.specs.declared.header.Header.{Header};
ghost use Rattle.trace_record.specs.RingFinder.Finding.{IsFinder};

use crate::ring_finder::finder::{Finder, Start};

impl Finder {
    /// Whether a segment of a ring has one of so many bytes from an address on, some of which may lie beyond the address space;
    /// of no bytes none has one.
    pub fn touches(&self, from: u64, len: u64) -> bool
        ensures { (h : Header) → IsHeader h → IsFinder h.rings self.now → result ≡ touches_ring h from len }
    {
        if len == 0 {
            return false;
        }
        let end = u128::from(from) + u128::from(len);
        let starts = self.starts.as_slice();
        let after = starts.partition_point(|start| u128::from(start.address) < end);
        if after == 0 {
            return false;
        }
        u128::from(from) < end_of(starts[after - 1])
    }
}

/// The address behind a segment's last byte, which may be 2^64.
fn end_of(start: Start) -> u128
    ensures { result ≡ start.address + start.bytes }
{
    u128::from(start.address) + u128::from(start.bytes)
}
