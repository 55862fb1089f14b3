//! The statuses of the calls for C, and the status and the report of each refusal.

ghost use Rattle.std.specs.Prelude.{◌≡◌};
ghost use Rattle.capn_abi.specs.StatusCodes.{bare_code, bare_number, packed_code, packed_number, frame_code};
ghost use Rattle.capn_abi.specs.StatusCodes.{frame_number};
ghost use Rattle.capn_abi.specs.StatusCodes.{walk_code, code, report_of, Reports, ReportsPacked};

use crate::report::{CapnReport, report_at};
use capn_canon::Refusal;
use capn_pack::UnpackFault;
use capn_stream::FrameFault;
use capn_walk::Fault;
use capn_words::BareFault;

/// The status of success.
pub const DONE: u32 = 0;

/// The status if the buffer is too short for the result.
pub const NO_ROOM: u32 = 1;

/// The status if no form has the number passed.
pub const BAD_FORM: u32 = 2;

/// The status if a limit is out of its range.
pub const BAD_LIMITS: u32 = 3;

/// The status if no tariff has the number passed.
pub const BAD_TARIFF: u32 = 4;

/// The status if bytes are not the canonical bytes of their value.
pub const NOT_CANONICAL: u32 = 5;

/// The status if no style has the number passed.
pub const BAD_STYLE: u32 = 6;

/// The status if the canonical bytes of two messages differ.
pub const DIFFERENT: u32 = 7;

/// The status if an allocation was refused.
pub const MEMORY: u32 = 8;

/// The status if the number of bytes is not a multiple of 8.
pub const NOT_WHOLE: u32 = 16;

/// The status if a packed text ends within a group.
pub const PACKED_CUT: u32 = 32;

/// The status if a packed text unpacks to more words than the maximum.
pub const PACKED_TOO_LONG: u32 = 33;

fn code_of_bare(fault: BareFault) -> u32
    ensures { result ≡ bare_code fault }
{
    match fault {
        BareFault::NotWhole(_) => NOT_WHOLE,
        BareFault::TooLong(_) => 17,
    }
}

fn number_of_bare(fault: BareFault) -> u64
    ensures { result ≡ bare_number fault }
{
    match fault {
        BareFault::NotWhole(n) => n,
        BareFault::TooLong(n) => n,
    }
}

fn code_of_packed(fault: UnpackFault) -> u32
    ensures { result ≡ packed_code fault }
{
    match fault {
        UnpackFault::Memory => MEMORY,
        UnpackFault::Cut { at: _ } => PACKED_CUT,
        UnpackFault::TooLong { at: _ } => PACKED_TOO_LONG,
        UnpackFault::Failed => 254,
    }
}

fn number_of_packed(fault: UnpackFault) -> u64
    ensures { result ≡ packed_number fault }
{
    match fault {
        UnpackFault::Memory => 0,
        UnpackFault::Cut { at } => at,
        UnpackFault::TooLong { at } => at,
        UnpackFault::Failed => 0,
    }
}

/// Returns the status for `fault`.
pub fn code_of_frame(fault: FrameFault) -> u32
    ensures { result ≡ frame_code fault }
{
    match fault {
        FrameFault::Memory => MEMORY,
        FrameFault::Empty => 48,
        FrameFault::TooManySegments(_) => 49,
        FrameFault::TooManyWords(_) => 50,
        FrameFault::Cut => 51,
        FrameFault::Failed => 255,
    }
}

/// Returns the number that a report gives for `fault`. It is the number of segments or of words if there are too many
/// of them, and otherwise 0.
pub fn number_of_frame(fault: FrameFault) -> u64
    ensures { result ≡ frame_number fault }
{
    match fault {
        FrameFault::Memory => 0,
        FrameFault::Empty => 0,
        FrameFault::TooManySegments(n) => n,
        FrameFault::TooManyWords(n) => n,
        FrameFault::Cut => 0,
        FrameFault::Failed => 0,
    }
}

fn code_of_walk(fault: Fault) -> u32
    ensures { result ≡ walk_code fault }
{
    match fault {
        Fault::NoRoot => 64,
        Fault::RootKind => 65,
        Fault::Reserved => 66,
        Fault::NoSegment => 67,
        Fault::PadRange => 68,
        Fault::BadPad => 69,
        Fault::Range => 70,
        Fault::BadTag => 71,
        Fault::TagOverrun => 72,
        Fault::TooDeep => 73,
        Fault::OverBudget => 74,
        Fault::Memory => MEMORY,
    }
}

fn code_of(refusal: Refusal) -> u32
    ensures { result ≡ code refusal }
{
    match refusal {
        Refusal::Bare(fault) => code_of_bare(fault),
        Refusal::Packed(fault) => code_of_packed(fault),
        Refusal::Frame(fault) => code_of_frame(fault),
        Refusal::Trailing(_) => 52,
        Refusal::Walk(stopped) => code_of_walk(stopped.fault),
        Refusal::Capability(_) => 80,
        Refusal::Memory => MEMORY,
    }
}

fn report_of_refusal(refusal: Refusal) -> CapnReport
    ensures { result ≡ report_of refusal }
{
    match refusal {
        Refusal::Bare(fault) => report_at(number_of_bare(fault)),
        Refusal::Packed(fault) => report_at(number_of_packed(fault)),
        Refusal::Frame(fault) => report_at(number_of_frame(fault)),
        Refusal::Trailing(at) => report_at(at),
        Refusal::Walk(stopped) => CapnReport {
            length: 0,
            at: 0,
            paid: stopped.paid,
            visits: stopped.visits,
            segment: stopped.place.segment,
            word: stopped.place.word,
        },
        Refusal::Capability(index) => report_at(index as u64),
        Refusal::Memory => report_at(0),
    }
}

/// Writes the numbers of `refusal` to `report`, and returns the status of `refusal`.
pub fn refuse(refusal: Refusal, report: &mut CapnReport) -> u32
    ensures { Reports result report.new refusal }
{
    *report = report_of_refusal(refusal);
    code_of(refusal)
}

/// Writes the number of `fault`, a fault of a packed text, to `report`, and returns the status of `fault`.
pub fn refuse_packed(fault: UnpackFault, report: &mut CapnReport) -> u32
    ensures { ReportsPacked result report.new fault }
{
    *report = report_at(number_of_packed(fault));
    code_of_packed(fault)
}
