ghost use Rattle.std.specs.Prelude.{◌≡◌, ◌++◌, ◌+◌, ◌≤◌, None, Some, OnOk, IfOk, IfErr, length, map};
ghost use Rattle.traces.specs.Limits.{most_lines};
ghost use Rattle.traces.specs.declared.plan.PlanLine.TheVariants.{Sub};
ghost use Rattle.trace_reader.specs.PlanValues.{plan_text};
ghost use Rattle.trace_reader.specs.Spelling.{printed_trace};
ghost use Rattle.plan_writer.specs.PlanRefusals.{IfStopped, IfRefusedLine, IsNoTextFault};
ghost use Rattle.plan_writer.specs.Plans.{head_text, plan_refusal, plan_trace, progress_after, refusal_from, refusal_of, rows_from, rows_of, rows_text, write_row};

use crate::fault::{LineStop, PlanFault, PlanRefusal};
use cycle_ring::Producer;
use guest_memory::Addr;
use std::alloc::{AllocError, Global};
use trace_reader::{with_ring, with_sub, with_write};
use traces::{Plan, PlanLine};
use trb::Block;

/// The lines before a ring's: the version, and contexts of 32 bytes.
fn head(alloc: Global) -> Result<Vec<u8>, AllocError>
    ensures { IfOk result (λ text. text.items ≡ head_text) }
{
    let mut text = Vec::new(alloc);
    text.extend_from_slice(b"xtrace 1\nctx 20\n")?;
    Ok(text)
}

/// A text with `w` rows behind it.
fn with_writes(text: Vec<u8>, writes: &[(Addr, u32)]) -> Result<Vec<u8>, AllocError>
    ensures { IfOk result (λ longer. longer.items ≡ text.items ++ rows_text (map write_row writes.now)) }
{
    let mut longer = text;
    for (at, word) in writes {
        longer = with_write(longer, *at, *word)?;
    }
    Ok(longer)
}

/// Follows a `sub` line: behind the text stands the declaration, and then the words that the producer writes for it.
/// `writes` is room that is used again.
fn print_sub(
    id: u8,
    producer: &mut Producer,
    writes: &mut Vec<(Addr, u32)>,
    text: Vec<u8>,
    ring: u8,
    blocks: &[Block],
) -> Result<Vec<u8>, LineStop>
    ensures allowed { OnOk result (refusal_of id producer.old (Sub ring blocks.now) ≡ None) }
    ensures text { IfOk result (λ longer. longer.items ≡ text.items ++ rows_text (rows_of producer.old (Sub ring blocks.now))) }
    ensures progress { OnOk result (producer.new ≡ progress_after producer.old (Sub ring blocks.now)) }
    ensures refused { IfErr result (λ e. IfStopped e (λ r. refusal_of id producer.old (Sub ring blocks.now) ≡ Some r)) }
{
    if ring != id {
        return Err(LineStop::Refused(PlanRefusal::NotDeclared));
    }
    writes.clear();
    producer.enqueue(blocks, writes)?;
    let declared = with_sub(text, ring, blocks)?;
    Ok(with_writes(declared, writes.as_slice())?)
}

/// Follows a line.
fn print_line(
    id: u8,
    producer: &mut Producer,
    writes: &mut Vec<(Addr, u32)>,
    text: Vec<u8>,
    line: &PlanLine,
) -> Result<Vec<u8>, LineStop>
    ensures allowed { OnOk result (refusal_of id producer.old line.now ≡ None) }
    ensures text { IfOk result (λ longer. longer.items ≡ text.items ++ rows_text (rows_of producer.old line.now)) }
    ensures progress { OnOk result (producer.new ≡ progress_after producer.old line.now) }
    ensures refused { IfErr result (λ e. IfStopped e (λ r. refusal_of id producer.old line.now ≡ Some r)) }
{
    match line {
        PlanLine::Sub { ring, blocks } => {
            print_sub(id, producer, writes, text, *ring, blocks.as_slice())
        }
        PlanLine::Ret { upto } => {
            producer.retire(*upto)?;
            Ok(text)
        }
    }
}

/// Follows lines, of which the first has the number 3.
fn print_lines(
    alloc: Global,
    id: u8,
    producer: &mut Producer,
    text: Vec<u8>,
    lines: &[PlanLine],
) -> Result<Vec<u8>, PlanFault>
    requires { length lines.now + 2 ≤ most_lines }
    ensures printed { IfOk result (λ longer. longer.items ≡ text.items ++ rows_text (rows_from producer.old lines.now)) }
    ensures followed { OnOk result (refusal_from id producer.old 3 lines.now ≡ None) }
    ensures refused { IfErr result (λ e. IfRefusedLine e (λ line r. refusal_from id producer.old 3 lines.now ≡ Some (line, r))) }
    ensures read { IfErr result IsNoTextFault }
{
    let mut longer = text;
    let mut writes = Vec::new(alloc);
    let mut number = 3;
    for line in lines {
        match print_line(id, producer, &mut writes, longer, line) {
            Ok(printed) => longer = printed,
            Err(LineStop::Refused(refusal)) => return Err(PlanFault::Refused {
                line: number,
                refusal,
            }),
            Err(LineStop::Memory) => return Err(PlanFault::Memory),
        }
        number += 1;
    }
    Ok(longer)
}

/// The trace of a plan, or its first line that can't be followed.
pub fn print_plan(alloc: Global, plan: Plan) -> Result<Vec<u8>, PlanFault>
    ensures printed { IfOk result (λ trace. trace.items ≡ printed_trace (plan_trace (plan_text plan))) }
    ensures followed { OnOk result (plan_refusal (plan_text plan) ≡ None) }
    ensures refused { IfErr result (λ e. IfRefusedLine e (λ line r. plan_refusal (plan_text plan) ≡ Some (line, r))) }
    ensures read { IfErr result IsNoTextFault }
{
    let Plan { ring, lines } = plan;
    let text = with_ring(head(alloc)?, &ring)?;
    let mut producer = Producer::new(ring.shape);
    print_lines(alloc, ring.id, &mut producer, text, lines.as_slice())
}
