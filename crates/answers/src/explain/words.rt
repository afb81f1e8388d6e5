//! Leases in plain words.
use ring_knowledge::Lease;
use std::alloc::{AllocError, Global};

/// What a lease says; where there is none, that.
pub fn lease_words(alloc: Global, lease: Option<Lease>) -> Result<String, AllocError> {
    let Some(lease) = lease else {
        return String::from_str(alloc, "none");
    };
    let Lease {
        kind,
        ring,
        pos,
        from,
        to,
    } = lease;
    let what = match kind {
        0 => format!(in alloc;
            "TRB {pos} of ring {ring:02x}, counted from the first one submitted"
        )?,
        1 => format!(in alloc; "the Link TRB behind TRB {pos} of ring {ring:02x}")?,
        _ => format!(in alloc; "{ring} bytes at {pos:016x}")?,
    };
    if to == u32::MAX {
        format!(in alloc; "{what}, from row {from} on")
    } else {
        format!(in alloc; "{what}, from row {from} to row {to}")
    }
}
