//! Tests of the numbers of forms, styles, limits, statuses and reports.

use capn_abi::{
    BAD_LIMITS, BAD_TARIFF, CapnLimits, CapnReport, DONE, Form, FrameFault, MEMORY, NO_ROOM,
    PACKED_CUT, Refusal, Style, UnpackFault, answer_of, code_of_frame, deliver, flat_form_of,
    form_of, limits_of, number_of_frame, refuse, refuse_packed, report_at, style_of,
};

#[test]
fn each_form_has_a_number(rt: HostRuntime) {
    let all = [form_of(0), form_of(1), form_of(2), form_of(3)];
    let forms = [
        Some(Form::Stream),
        Some(Form::Packed),
        Some(Form::Bare),
        None,
    ];
    assert!(rt; all == forms);
    let flat = [flat_form_of(0), flat_form_of(1), flat_form_of(2)];
    assert!(rt; flat == [Some(Form::Stream), None, Some(Form::Bare)]);
}

#[test]
fn each_style_has_a_number(rt: HostRuntime) {
    let all = [style_of(0), style_of(1), style_of(2), style_of(3)];
    let styles = [
        Some(Style::Lines),
        Some(Style::Quoted),
        Some(Style::Json),
        Some(Style::JsonText),
    ];
    assert!(rt; all == styles && style_of(4) == None);
}

/// Returns the status for limits that have this depth and this tariff, or `DONE` if they are taken.
fn status_of(depth: u32, tariff: u32) -> u32 {
    let limits = CapnLimits {
        message_words: 1,
        budget: 0,
        depth,
        tariff,
    };
    match limits_of(&limits) {
        Ok(_) => DONE,
        Err(status) => status,
    }
}

/// A limit out of range is told before the tariff.
#[test]
fn limits_and_tariffs(rt: HostRuntime) {
    let taken = [status_of(1, 0), status_of(256, 1)];
    assert!(rt; taken == [DONE, DONE]);
    let refused = [status_of(0, 0), status_of(257, 2), status_of(1, 2)];
    assert!(rt; refused == [BAD_LIMITS, BAD_LIMITS, BAD_TARIFF]);
}

/// A buffer that is too short stays as it is.
#[test]
fn a_result_is_written_at_the_start(rt: HostRuntime) {
    let mut out = [9u8; 3];
    assert!(rt; deliver(&[1, 2, 3, 4], &mut out) == NO_ROOM && out == [9, 9, 9]);
    assert!(rt; deliver(&[1, 2], &mut out) == DONE && out == [1, 2, 9]);
}

#[test]
fn the_errors_of_a_frame(rt: HostRuntime) {
    let codes = [
        code_of_frame(FrameFault::Memory),
        code_of_frame(FrameFault::Empty),
        code_of_frame(FrameFault::TooManySegments(7)),
        code_of_frame(FrameFault::TooManyWords(8)),
        code_of_frame(FrameFault::Cut),
    ];
    assert!(rt; codes == [MEMORY, 48, 49, 50, 51]);
    let numbers = [
        number_of_frame(FrameFault::TooManySegments(7)),
        number_of_frame(FrameFault::TooManyWords(8)),
        number_of_frame(FrameFault::Cut),
    ];
    assert!(rt; numbers == [7, 8, 0]);
}

/// Returns all fields of a report.
fn fields_of(report: &CapnReport) -> [u64; 6] {
    [
        report.length,
        report.at,
        u64::from(report.paid),
        u64::from(report.visits),
        u64::from(report.segment),
        u64::from(report.word),
    ]
}

#[test]
fn a_report_has_0_in_other_fields(rt: HostRuntime) {
    assert!(rt; fields_of(&report_at(5)) == [0, 5, 0, 0, 0, 0]);
    assert!(rt; fields_of(&answer_of(8, 2, 1)) == [8, 0, 2, 1, 0, 0]);
    let mut report = answer_of(8, 2, 1);
    let refused = refuse(Refusal::Frame(FrameFault::TooManyWords(8)), &mut report);
    assert!(rt; refused == 50 && fields_of(&report) == [0, 8, 0, 0, 0, 0]);
    let cut = refuse_packed(UnpackFault::Cut { at: 6 }, &mut report);
    assert!(rt; cut == PACKED_CUT && fields_of(&report) == [0, 6, 0, 0, 0, 0]);
}
