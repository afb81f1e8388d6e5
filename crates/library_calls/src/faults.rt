use certificate::{CertFault, EncodeFault};
use controller_model::StepFault;
use cycle_ring::{EnqueueFault, NotGiven};
use plan_writer::{PlanFault, PlanRefusal};
use std::error::Error;
use std::test::Fail;
use trace_reader::LineFault;
use world_state::Harm;

/// What a fault tells, as an error.
fn told<E: Error>(rt: &HostRuntime, fault: &E) -> Result<String, Fail> {
    let text = format!(in rt.alloc(); "{fault}")?;
    Ok(text)
}

#[test]
fn harms_are_told(rt: HostRuntime) -> Result<(), Fail> {
    let takes = told(&rt, &Harm::TakenOutOfOrder)?;
    assert_eq!(rt;
        takes.as_str(),
        "the controller takes a TRB that wasn't submitted, or not the next one"
    );
    let looks = told(&rt, &Harm::LooksOutside)?;
    assert_eq!(rt; looks.as_str(), "the controller looks outside the ring");
    let posts = told(&rt, &Harm::PostsOverUnread)?;
    assert_eq!(rt; posts.as_str(), "the controller posts over an unread event");
    Ok(())
}

#[test]
fn faults_are_told(rt: HostRuntime) -> Result<(), Fail> {
    let magic = told(&rt, &CertFault::Magic)?;
    assert_eq!(rt; magic.as_str(), "Magic");
    let cut = told(&rt, &EncodeFault::Device { done: 8 })?;
    assert_eq!(rt; cut.as_str(), "the device failed when it had taken 8 bytes");
    let full = told(&rt, &EnqueueFault::RingFull)?;
    assert_eq!(rt; full.as_str(), "RingFull");
    let given = told(&rt, &NotGiven)?;
    assert_eq!(rt; given.as_str(), "NotGiven");
    let step = told(&rt, &StepFault::NotPossible)?;
    assert_eq!(rt; step.as_str(), "no controller may make this step now");
    Ok(())
}

#[test]
fn faults_of_plans_are_told(rt: HostRuntime) -> Result<(), Fail> {
    let refused = PlanFault::Refused {
        line: 3,
        refusal: PlanRefusal::NotGiven,
    };
    let refused = told(&rt, &refused)?;
    assert_eq!(rt; refused.as_str(), "line 3: NotGiven");
    let bad = PlanFault::Line {
        line: 4,
        fault: LineFault::Shape,
    };
    let bad = told(&rt, &bad)?;
    assert_eq!(rt; bad.as_str(), "line 4: Shape");
    let memory = told(&rt, &PlanFault::Memory)?;
    assert_eq!(rt; memory.as_str(), "memory is wanted");
    Ok(())
}
