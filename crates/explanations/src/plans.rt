//! What is told of a line of a plan that can't be followed.
ghost use Rattle.std.specs.Prelude.{◌≡◌, IfOk, IsOk, string_bytes};
ghost use Rattle.diagnostics.specs.Layout.{IsToldOf};
ghost use Rattle.trace_reader.specs.Plans.{plan_of};

use crate::explain::diagnosed;
use command_findings::note_left_out;
use diagnostics::{Diagnostic, Matter, View};
use ownership_rules::Refusal;
use ring_findings::no_td;
use row_history::{Behind, Case, Shown};
use std::alloc::{AllocError, Global};
use trace_reader::{ReadFault, read_plan};
use traces::{Plan, PlanLine};
use trb::Block;

/// The line of a plan's first `sub` or `ret`.
const FIRST: u32 = 3;

/// The line of a plan's ring.
const RING: u32 = 2;

/// What is told of the line of a plan that can't be followed, which is read again; nothing where the text is no plan.
pub fn explain_unfollowed(
    alloc: Global,
    view: &View,
    text: &[u8],
    line: u32,
    matter: Matter,
) -> Result<String, AllocError>
    ensures { IsOk (plan_of text.now) → IfOk result (λ told. IsToldOf view.now matter line (string_bytes told)) }
{
    match read_plan(alloc, text) {
        Ok(plan) => explain_plan(alloc, view, text, &plan, line, matter),
        Err(ReadFault::Memory) => Err(AllocError),
        Err(ReadFault::Line { .. }) => Ok(String::new(alloc)),
    }
}

/// What is told of a line of a plan.
fn explain_plan(
    alloc: Global,
    view: &View,
    text: &[u8],
    plan: &Plan,
    line: u32,
    matter: Matter,
) -> Result<String, AllocError>
    ensures { IfOk result (λ told. IsToldOf view.now matter line (string_bytes told)) }
{
    let diagnostic = diagnostic_of_plan(alloc, text, plan, line, matter)?;
    diagnostic.told(alloc, view)
}

/// The diagnostic of a line of a plan that can't be followed.
pub fn diagnostic_of_plan(
    alloc: Global,
    text: &[u8],
    plan: &Plan,
    line: u32,
    matter: Matter,
) -> Result<Diagnostic, AllocError>
    ensures matter { IfOk result (λ diagnostic. diagnostic.matter ≡ matter) }
    ensures line { IfOk result (λ diagnostic. diagnostic.refused.line ≡ line) }
{
    let behind = Behind::nothing(alloc)?;
    let mut case = Case::new(alloc, RING, &[], &behind);
    tell_line(&mut case, plan, line, matter);
    diagnosed(alloc, text, RING, line, matter, case.finding()?)
}

/// Says what is wrong with a line of a plan.
fn tell_line(case: &mut Case, plan: &Plan, line: u32, matter: Matter) {
    let lines = plan.lines.as_slice();
    let index = (line.saturating_sub(FIRST) as usize).min(lines.len());
    let done = done_by(&lines[..index]);
    match lines.get(index) {
        Some(PlanLine::Sub { ring, blocks }) => {
            tell_sub(case, plan, done, *ring, blocks.as_slice(), matter);
        }
        Some(PlanLine::Ret { upto }) => tell_ret(case, done, *upto),
        None => case.head("the line can't be followed", &[]),
    }
}

/// What some lines of a plan have done.
#[derive(Clone, Copy)]
struct Done {
    /// How many TRBs were put on the ring.
    put: u64,
    /// How many of them have come back.
    back: u64,
}

fn done_by(lines: &[PlanLine]) -> Done {
    let mut done = Done { put: 0, back: 0 };
    for line in lines {
        match line {
            PlanLine::Sub { blocks, .. } => {
                done.put = done.put.saturating_add(blocks.as_slice().len() as u64);
            }
            PlanLine::Ret { upto } => done.back = *upto,
        }
    }
    done
}

/// Says what is wrong with a line that puts TRBs on the ring.
fn tell_sub(case: &mut Case, plan: &Plan, done: Done, id: u8, blocks: &[Block], matter: Matter) {
    match matter {
        Matter::Rule(Refusal::NotDeclared) => {
            case.head("the line names another ring than the plan's", &[]);
            case.here("ring {} is another one", &[Shown::Id(id)]);
            case.mark(Some(0), "the plan's ring", &[]);
            case.help(
                "a plan has one ring: name ring {}",
                &[Shown::Id(plan.ring.id)],
            );
        }
        Matter::Rule(Refusal::BadDescriptor) => no_td(case, plan.ring.shape.kind(), blocks),
        Matter::Rule(Refusal::NotInProfile) => {
            case.head("not in the checker's profile", &[]);
            case.here("left out", &[]);
            note_left_out(case, blocks);
            case.advise("leave the line out: xHCI allows this, the profile doesn't");
        }
        _ => tell_no_room(case, plan, done, blocks.len()),
    }
}

/// Says that there is no room for some TRBs.
fn tell_no_room(case: &mut Case, plan: &Plan, done: Done, count: usize) {
    let (id, places) = (plan.ring.id, plan.ring.shape.places());
    let (count, usable) = (count as u64, u64::from(places.saturating_sub(1)));
    case.head("the ring has no room for this TD", &[]);
    let noun = if count == 1 { "TRB" } else { "TRBs" };
    case.here("{} {}", &[Shown::Number(count), Shown::Name(noun)]);
    case.note(
        "ring {} has {} TRBs beside its Link TRBs, of which one stays free: {} may be in use",
        &[
            Shown::Id(id),
            Shown::Number(u64::from(places)),
            Shown::Number(usable),
        ],
    );
    let used = done.put.saturating_sub(done.back);
    case.note(
        "{} were put on the ring, and `ret` lines gave back the first {}: {} are in use",
        &[
            Shown::Number(done.put),
            Shown::Number(done.back),
            Shown::Number(used),
        ],
    );
    case.advise(if count > usable {
        "use a longer ring: the TD never fits into this one"
    } else {
        "give TRBs back by a `ret P` line before it, or use a longer ring"
    });
}

/// Says what is wrong with a line that gives TRBs back.
fn tell_ret(case: &mut Case, done: Done, upto: u64) {
    let head = if upto < done.back {
        "TRBs come back that came back before"
    } else {
        "TRBs come back that were never put on the ring"
    };
    case.head(head, &[]);
    case.here("the first {}", &[Shown::Number(upto)]);
    case.note(
        "TRBs put on the ring so far: {}; of these come back: the first {}",
        &[Shown::Number(done.put), Shown::Number(done.back)],
    );
    if done.put == done.back {
        case.advise("leave the line out: all that was put on the ring has come back");
    } else {
        case.help(
            "write {} to {}: P counts TRBs from the plan's first one, without Link TRBs",
            &[Shown::Address(done.back), Shown::Address(done.put)],
        );
    }
}
