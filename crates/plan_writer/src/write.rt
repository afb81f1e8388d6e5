ghost use Rattle.std.specs.Prelude.{◌≡◌, None, Some, Ok, Err, IfOk, IfErr};
ghost use Rattle.trace_reader.specs.Plans.{PlanText, plan_of};
ghost use Rattle.trace_reader.specs.Spelling.{printed_trace};
ghost use Rattle.plan_writer.specs.PlanRefusals.{IfBadPlanLine, IfRefusedLine};
ghost use Rattle.plan_writer.specs.Plans.{plan_refusal, plan_trace};

use crate::fault::PlanFault;
use crate::print::print_plan;
use std::alloc::Global;
use trace_reader::read_plan;

/// The text of the trace of a plan, which is given as a text too. A fault of the text is told before any line is followed;
/// `Memory` is answered only where a growth was refused.
pub fn write_plan(alloc: Global, text: &[u8]) -> Result<Vec<u8>, PlanFault>
    // The plan that the text says is followed to its end, and its trace is what is printed.
    ensures printed { IfOk result (λ trace. (plan : PlanText) × (plan_of text.now ≡ Ok plan) × (plan_refusal plan ≡ None)
        × (trace.items ≡ printed_trace (plan_trace plan))) }

    // A refused line is the first of the plan that can't be followed.
    ensures refused { IfErr result (λ e. IfRefusedLine e (λ line r. (plan : PlanText) × (plan_of text.now ≡ Ok plan) × (plan_refusal plan ≡ Some (line, r)))) }

    // A bad line is the first of the text, with the least of its faults.
    ensures bad { IfErr result (λ e. IfBadPlanLine e (λ line code. plan_of text.now ≡ Err (line, code))) }
{
    let plan = read_plan(alloc, text)?;
    print_plan(alloc, plan)
}
