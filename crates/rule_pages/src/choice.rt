//! Which page is on what.
use crate::faults::{DEVICE, NOT_GIVEN, page_on_certificate, page_on_line};
use crate::harms::page_on_harm;
use crate::rules::page_on_rule;
use crate::subject::Subject;
use ownership_rules::Refusal;
use plan_writer::PlanRefusal;

/// The page on what is called so, which its number and name stand before: a head line, and parts under heads of their own.
pub fn page(subject: Subject) -> &'static str {
    match subject {
        Subject::Rule(rule) => page_on_rule(rule),
        Subject::Line(fault) => page_on_line(fault),
        Subject::Certificate(fault) => page_on_certificate(fault),
        Subject::Plan(refusal) => page_on_plan(refusal),
        Subject::Device => DEVICE,
        Subject::Harm(harm) => page_on_harm(harm),
    }
}

/// The page on why a line of a plan can't be followed, which mostly is a rule's.
fn page_on_plan(refusal: PlanRefusal) -> &'static str {
    match refusal {
        PlanRefusal::NotDeclared => page_on_rule(Refusal::NotDeclared),
        PlanRefusal::RingFull => page_on_rule(Refusal::RingFull),
        PlanRefusal::BadDescriptor => page_on_rule(Refusal::BadDescriptor),
        PlanRefusal::NotInProfile => page_on_rule(Refusal::NotInProfile),
        PlanRefusal::NotGiven => NOT_GIVEN,
    }
}
