//! The texts of reasons and faults.

ghost use Rattle.std.specs.Prelude.{◌≡◌, ◌⊎◌, ◌<◌, IfOk, IfSome, IfNone, string_bytes};
ghost use Rattle.omf_cmd.specs.FaultLine.{fault_line};
ghost use Rattle.omf_frame.specs.Fault.{reason_name, reason_number, sentence};
ghost use Rattle.omf_c.specs.Answers.{cause_number, kind_number, of_reach};
ghost use Rattle.omf_c.specs.Texts.{Finds, HasIndex, IsFaultText, IsInRange, IsOfNoFault, IsReasonText, IsResultOf};

use crate::answer::{Answer, fault_answer};
use omf_cmd::{RunFault, fault_line};
use omf_frame::{Place, Reason};
use omf_reloc::{Cause, Kind, ReachFault};
use std::alloc::{AllocError, Global};

/// The reason with a number, 1 to 33.
fn reason_of(number: u32) -> Option<Reason>
    ensures some { IfSome result (λ reason. reason_number reason ≡ number) }
    ensures none { IfNone result ((number ≡ 0) ⊎ (33 < number)) }
{
    match number {
        1 => Some(Reason::NoEnd),
        2 => Some(Reason::Cut),
        3 => Some(Reason::UnknownType),
        4 => Some(Reason::UnsupportedType),
        5 => Some(Reason::EmptyRecord),
        6 => Some(Reason::Checksum),
        7 => Some(Reason::NoHeader),
        8 => Some(Reason::Short),
        9 => Some(Reason::Long),
        10 => Some(Reason::Alignment),
        11 => Some(Reason::BigLength),
        12 => Some(Reason::GroupComponent),
        13 => Some(Reason::CommunalType),
        14 => Some(Reason::CommunalLength),
        15 => Some(Reason::FrameMethod),
        16 => Some(Reason::TargetMethod),
        17 => Some(Reason::LocationType),
        18 => Some(Reason::SelfRelative),
        19 => Some(Reason::TooDeep),
        20 => Some(Reason::DataTooLong),
        21 => Some(Reason::UndefinedName),
        22 => Some(Reason::UndefinedSegment),
        23 => Some(Reason::UndefinedGroup),
        24 => Some(Reason::UndefinedExternal),
        25 => Some(Reason::UndefinedThread),
        26 => Some(Reason::OutsideSegment),
        27 => Some(Reason::OutsideRecord),
        28 => Some(Reason::NoDataRecord),
        29 => Some(Reason::FixupOnIterated),
        30 => Some(Reason::TooMany),
        31 => Some(Reason::OtherDialect),
        32 => Some(Reason::VendorComment),
        33 => Some(Reason::StartFrame),
        0 | 34.. => None,
    }
}

/// The name of the reason with a number; empty if there is no such reason.
pub(crate) fn reason_name(number: u32) -> &'static str
    ensures { IsReasonText reason_name number result.now }
{
    match reason_of(number) {
        Some(reason) => reason.name(),
        None => "",
    }
}

/// The sentence of the reason with a number; empty if there is no such reason.
pub(crate) fn reason_sentence(number: u32) -> &'static str
    ensures { IsReasonText sentence number result.now }
{
    match reason_of(number) {
        Some(reason) => reason.sentence(),
        None => "",
    }
}

/// The kind with a number.
fn kind_of(number: u32) -> Option<Kind>
    ensures { Finds result (λ kind. kind_number kind ≡ number) }
{
    match number {
        0 => Some(Kind::Segment),
        1 => Some(Kind::Group),
        2 => Some(Kind::External),
        3.. => None,
    }
}

/// The cause with a number.
fn cause_of(number: u32) -> Option<Cause>
    ensures { Finds result (λ cause. cause_number cause ≡ number) }
{
    match number {
        1 => Some(Cause::Target),
        2 => Some(Cause::Location),
        3 => Some(Cause::Distance),
        0 | 4.. => None,
    }
}

/// The reason why a placement does not reach that a result's numbers give, if they give one.
fn reach_of(answer: &Answer) -> Option<ReachFault>
    ensures found { Finds result (λ fault. HasIndex fault × (of_reach fault ≡ answer.now)) }
    ensures range { IfSome result HasIndex }
{
    let index = u16::try_from(answer.index).ok()?;
    match answer.reason {
        1 => Some(ReachFault::Missing(kind_of(answer.kind)?, index)),
        2 => Some(ReachFault::Extra(kind_of(answer.kind)?, index)),
        3 => Some(ReachFault::Absolute(index)),
        4 => Some(ReachFault::TooFar {
            number: answer.number,
            within: answer.within,
            cause: cause_of(answer.kind)?,
        }),
        0 | 5.. => None,
    }
}

/// The refusal that a result's numbers give, if they give one.
fn refusal_of(answer: &Answer) -> Option<RunFault>
    ensures found { answer.now.status ≡ 4 → Finds result (IsResultOf answer.now) }
    ensures range { IfSome result IsInRange }
{
    let place = Place {
        number: answer.number,
        start: answer.start,
        within: answer.within,
    };
    let reason = reason_of(answer.reason)?;
    Some(RunFault::Refused { reason, place })
}

/// The fault that a result's numbers give, if they give one.
fn numbered(answer: &Answer) -> Option<RunFault>
    ensures found { Finds result (IsResultOf answer.now) }
    ensures range { IfSome result IsInRange }
{
    match answer.status {
        1 => Some(RunFault::Memory),
        2 => Some(RunFault::Read),
        3 => Some(RunFault::Write),
        4 => refusal_of(answer),
        5 => Some(RunFault::Line(answer.line)),
        6 => Some(RunFault::TooLong),
        7 => Some(RunFault::Reach(reach_of(answer)?)),
        0 | 8.. => None,
    }
}

/// The fault whose result this is, if it is that of a fault.
fn fault_of(answer: &Answer) -> Option<RunFault>
    ensures some { IfSome result (IsResultOf answer.now) }
    ensures none { IfNone result (IsOfNoFault answer.now) }
{
    let fault = numbered(answer)?;
    if fault_answer(fault) == *answer {
        return Some(fault);
    }
    None
}

/// The line that the command prints for the fault whose result this is; empty if it is not that of a fault.
pub(crate) fn fault_text(alloc: Global, answer: &Answer) -> Result<String, AllocError>
    ensures { IfOk result (λ text. IsFaultText answer.now (string_bytes text)) }
{
    match fault_of(answer) {
        Some(fault) => fault_line(alloc, &fault),
        None => Ok(String::new(alloc)),
    }
}
