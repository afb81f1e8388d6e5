ghost use Rattle.std.specs.Prelude.{◌≡◌, ◌↔◌, IfNone, IfSome, IsTrue};
ghost use Rattle.rule_pages.specs.Naming.{IsCalled, IsNumberOrName, IsSpelled, digits_below_100};
ghost use Rattle.rule_pages.specs.Subjects.{harm_name, harm_word};

use crate::subject::Subject;
use certificate::CertFault;
use ownership_rules::Refusal;
use plan_writer::PlanRefusal;
use trace_reader::LineFault;
use world_state::Harm;

/// All that there is a page on.
const SUBJECTS: [Subject; 42] = [
    Subject::Rule(Refusal::WriteToOwned),
    Subject::Rule(Refusal::NotAsSubmitted),
    Subject::Rule(Refusal::NotDeclared),
    Subject::Rule(Refusal::NotWhole),
    Subject::Rule(Refusal::LinkFault),
    Subject::Rule(Refusal::RingFull),
    Subject::Rule(Refusal::BadDescriptor),
    Subject::Rule(Refusal::BadRegister),
    Subject::Rule(Refusal::BadDoorbell),
    Subject::Rule(Refusal::BadCommand),
    Subject::Rule(Refusal::Busy),
    Subject::Rule(Refusal::ImpossibleEvent),
    Subject::Rule(Refusal::BadErdp),
    Subject::Rule(Refusal::NotInProfile),
    Subject::Rule(Refusal::AfterStop),
    Subject::Rule(Refusal::BadMove),
    Subject::Rule(Refusal::BadWithdraw),
    Subject::Rule(Refusal::NotRestored),
    Subject::Rule(Refusal::BadFree),
    Subject::Rule(Refusal::BadRing),
    Subject::Rule(Refusal::ImpossibleRead),
    Subject::Line(LineFault::Header),
    Subject::Line(LineFault::Row),
    Subject::Line(LineFault::Number),
    Subject::Line(LineFault::Limit),
    Subject::Line(LineFault::Shape),
    Subject::Certificate(CertFault::Magic),
    Subject::Certificate(CertFault::Length),
    Subject::Certificate(CertFault::Field),
    Subject::Certificate(CertFault::Memory),
    Subject::Plan(PlanRefusal::NotDeclared),
    Subject::Plan(PlanRefusal::RingFull),
    Subject::Plan(PlanRefusal::BadDescriptor),
    Subject::Plan(PlanRefusal::NotInProfile),
    Subject::Plan(PlanRefusal::NotGiven),
    Subject::Device,
    Subject::Harm(Harm::TakenOutOfOrder),
    Subject::Harm(Harm::TakenOtherWords),
    Subject::Harm(Harm::WaitsInsideDescriptor),
    Subject::Harm(Harm::LooksOutside),
    Subject::Harm(Harm::PostsOverUnread),
    Subject::Harm(Harm::InputContextChanged),
];

/// A harm in one word.
fn harm_word(harm: Harm) -> &'static str
    ensures { result.now ≡ harm_word harm }
{
    match harm {
        Harm::TakenOutOfOrder => "harm-1",
        Harm::TakenOtherWords => "harm-2",
        Harm::WaitsInsideDescriptor => "harm-3",
        Harm::LooksOutside => "harm-4",
        Harm::PostsOverUnread => "harm-5",
        Harm::InputContextChanged => "harm-6",
    }
}

/// Whether a word is the number in decimal digits.
fn is_number(number: u8, word: &str) -> bool
    ensures { IsTrue result ↔ word.now ≡ digits_below_100 number }
{
    if number < 10 {
        word.as_bytes() == [b'0' + number].as_slice()
    } else {
        word.as_bytes() == [b'0' + number / 10, b'0' + number % 10].as_slice()
    }
}

/// Whether a user calls it so.
fn is_called(subject: Subject, word: &str) -> bool
    ensures { IsTrue result ↔ IsCalled subject word.now }
{
    match subject {
        Subject::Harm(harm) => {
            word.eq_ignore_ascii_case(subject.name()) || word.eq_ignore_ascii_case(harm_word(harm))
        }
        _ => is_number(subject.number(), word) || word.eq_ignore_ascii_case(subject.name()),
    }
}

/// What has this number, in decimal digits, or this name, in upper or lower case.
pub fn subject_called(word: &str) -> Option<Subject>
    ensures called { IfSome result (λ subject. IsCalled subject word.now) }
    ensures unknown { IfNone result ((subject : Subject) → IsCalled subject word.now → ⊥) }
{
    for subject in SUBJECTS {
        if is_called(subject, word) {
            return Some(subject);
        }
    }
    None
}
