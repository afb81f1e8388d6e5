ghost use Rattle.std.specs.Prelude.{◌≡◌, ◌+◌, ◌%◌, ◌^◌, ◌<◌, ◌≤◌, ◌&&◌, ◌||◌, ℕ, nat_lt, not};
ghost use Rattle.contexts.specs.Contexts.{input_context_bytes, is_isochronous};
ghost use Rattle.ring_knowledge.specs.Known.{Known};
ghost use Rattle.ownership_rules.specs.ByVersion.{has_left_out_endpoint};
ghost use Rattle.traces.specs.Versions.{is_lenient};
ghost use Rattle.trace_record.specs.Premises.{FitsMemory};
ghost use Rattle.driver_rows.specs.ContextRules.Contents.{adds_left_out, is_left_out_by, is_left_out_in};

use commands::Command;
use contexts::{ContextSize, add_flags, next_flag, type_and_streams};
use guest_memory::WordMemory;
use traces::Header;

/// Whether a command adds an endpoint that has streams, or one that is isochronous where the trace's version leaves these
/// out too (xHCI 6.2.3).
pub fn has_left_out_endpoint<M: WordMemory>(header: &Header, memory: &M, command: &Command) -> bool
    requires { FitsMemory header.now.context_size command.now }
    ensures { (k : Known) → ((a : ℕ) → k.memory a ≡ M.words memory.now a) → result ≡ has_left_out_endpoint header.now k command.now }
{
    is_left_out_by(!header.version.is_lenient(), header, memory, command)
}

/// As `has_left_out_endpoint`; the contract sees the words of memory.
fn is_left_out_by<M: WordMemory>(
    isochronous: bool,
    header: &Header,
    memory: &M,
    command: &Command,
) -> bool
    requires { FitsMemory header.now.context_size command.now }
    ensures { result ≡ is_left_out_by isochronous (M.words memory.now) header.now.context_size command.now }
{
    let size = header.context_size;
    match *command {
        Command::AddressDevice { input_context, .. } => {
            is_left_out(isochronous, memory, size, input_context, 1)
        }
        Command::ConfigureEndpoint {
            deconfigure,
            input_context,
            ..
        } => !deconfigure && adds_left_out(isochronous, memory, size, input_context),
        _ => false,
    }
}

/// Whether an endpoint that is added is left out.
fn adds_left_out<M: WordMemory>(
    isochronous: bool,
    memory: &M,
    size: ContextSize,
    address: u64,
) -> bool
    requires aligned { address % 4 ≡ 0 }
    requires inside { address + input_context_bytes size ≤ 2 ^ 64 }
    ensures { result ≡ adds_left_out isochronous (M.words memory.now) size address }
{
    let flags = add_flags(memory, address);
    let mut index = next_flag(flags, 2);
    while index < 32 {
        if is_left_out(isochronous, memory, size, address, index) {
            return true;
        }
        index = next_flag(flags, index + 1);
    }
    false
}

/// Whether the endpoint with this index (DCI) has streams, or is isochronous where these are left out.
fn is_left_out<M: WordMemory>(
    isochronous: bool,
    memory: &M,
    size: ContextSize,
    address: u64,
    index: u8,
) -> bool
    requires aligned { address % 4 ≡ 0 }
    requires inside { address + input_context_bytes size ≤ 2 ^ 64 }
    requires last { index < 32 }
    ensures { result ≡ is_left_out_in isochronous (M.words memory.now) size address index }
{
    let (ep_type, streams) = type_and_streams(memory, size, address, index);
    is_out(isochronous, ep_type, streams)
}

/// The same by the endpoint's type and its streams.
fn is_out(isochronous: bool, ep_type: u8, streams: u8) -> bool
    ensures { result ≡ (is_isochronous ep_type && isochronous || nat_lt 0 streams) }
{
    ep_type % 4 == 1 && isochronous || streams > 0
}
