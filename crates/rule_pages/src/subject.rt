ghost use Rattle.std.specs.Prelude.{◌≡◌};
ghost use Rattle.rule_pages.specs.Subjects.{harm_name, name_of, number_of};

use certificate::CertFault;
use ownership_rules::Refusal;
use plan_writer::PlanRefusal;
use trace_reader::LineFault;
use world_state::Harm;

/// What the program tells by a number, and has a page on.
#[derive(Clone, Copy, Debug, PartialEq, Eq)]
pub enum Subject {
    /// The rule that a row breaks.
    Rule(Refusal),
    /// What is wrong with a line.
    Line(LineFault),
    /// What is wrong with a certificate; or that memory is wanted.
    Certificate(CertFault),
    /// Why a line of a plan can't be followed.
    Plan(PlanRefusal),
    /// A file or a stream failed.
    Device,
    /// What a controller does beside a trace that breaks a rule.
    Harm(Harm),
}

impl Subject {
    /// The number that is printed.
    pub fn number(self) -> u8
        ensures { result ≡ number_of self }
    {
        match self {
            Subject::Rule(rule) => rule.number(),
            Subject::Line(fault) => fault.number(),
            Subject::Certificate(fault) => fault.number(),
            Subject::Plan(refusal) => refusal.number(),
            Subject::Device => 31,
            Subject::Harm(harm) => harm.number(),
        }
    }

    /// The name that is printed behind the number; of a harm the words that are printed in place of both.
    pub fn name(self) -> &'static str
        ensures { result.now ≡ name_of self }
    {
        match self {
            Subject::Rule(rule) => rule.name(),
            Subject::Line(fault) => fault.name(),
            Subject::Certificate(fault) => fault.name(),
            Subject::Plan(refusal) => refusal.name(),
            Subject::Device => "Device",
            Subject::Harm(harm) => harm_name(harm),
        }
    }
}

/// A harm as it is printed.
fn harm_name(harm: Harm) -> &'static str
    ensures { result.now ≡ harm_name harm }
{
    match harm {
        Harm::TakenOutOfOrder => "harm 1",
        Harm::TakenOtherWords => "harm 2",
        Harm::WaitsInsideDescriptor => "harm 3",
        Harm::LooksOutside => "harm 4",
        Harm::PostsOverUnread => "harm 5",
        Harm::InputContextChanged => "harm 6",
    }
}
