//! Writes the certificate of an accepted trace to where it goes.
ghost use Rattle.std.specs.Prelude.{OnOk};
ghost use Rattle.answers.specs.Keeping.{IsKept, IsKeptInPart};

use crate::telling::write_whole;
use certificate::encode;
use ring_knowledge::Lease;
use std::alloc::Global;
use std::io::{self, Write};

/// Writes the certificate of leases, where one is asked for. Where that fails a beginning of it stands there.
pub fn keep<C: Write>(
    alloc: Global,
    leases: &[Lease],
    certificate: &mut Option<C>,
) -> io::Result<()>
    ensures whole { OnOk result (IsKept C.contents certificate.old certificate.new leases.now) }
    ensures beginning { IsKeptInPart C.contents certificate.old certificate.new leases.now }
{
    match certificate {
        Some(writer) => {
            let bytes = encode(alloc, leases)?;
            write_whole(&bytes, writer)
        }
        None => Ok(()),
    }
}
