//! The answers for runs over archives and over texts of values.

use crate::runs::{command_line, tool_told};
use anyhow::{Result, anyhow};
use capn_archive::{run_archive, run_filter, run_uniq};
use capn_cmp::run_cmp;
use capn_commands::{FlowFault, pack_stream, unpack_stream};
use capn_explain::{run_explain, run_explain_refused};
use capn_make::{MakeFault, make, make_texts};
use capn_serve::{Ending, end, run_pick};
use capn_tool::{
    ArchiveFault, CmpFault, Comparison, Explanation, Flow, Invocation, RunFault, SkipFault,
    annotate_messages, invocation_of, pick_only, show_parts,
};
use capn_words::Watched;
use conformance_cases::{Heap, bytes_at, cut_short, digits_of, form_at, push_told};
use std::alloc::Global;

/// Returns the answer for a run: its status, the bytes that are `written`, and the lines on standard error.
fn run_told<F: Ending>(alloc: Global, outcome: &Result<(), F>, written: &[u8]) -> Result<String> {
    let mut errors = Watched::new(Vec::new(alloc));
    let status = end(outcome, &mut errors);
    let digits = digits_of(alloc, written)?;
    let mut told = format!(in alloc; "status {status}, {digits}")?;
    let errors = errors.into_inner();
    for line in str::from_utf8(errors.as_slice())?.lines() {
        push_told(&mut told, line)?;
    }
    Ok(told)
}

/// Returns the answer for a run that picks, explains or compares messages, with the bytes that are `written`.
fn ended_told(alloc: Global, outcome: Result<(), RunFault>, written: &[u8]) -> Result<String> {
    if let Err(RunFault::Memory) = outcome {
        return cut_short(alloc, written);
    }
    run_told(alloc, &outcome, written)
}

/// Returns the answer for a run over an archive, with the bytes that are `written`.
fn archive_told(
    alloc: Global,
    outcome: Result<(), ArchiveFault>,
    written: &[u8],
) -> Result<String> {
    if let Err(ArchiveFault::Ended(SkipFault::Ended(RunFault::Memory))) = outcome {
        return cut_short(alloc, written);
    }
    run_told(alloc, &outcome, written)
}

/// Returns the answer for a run that explains every refused message, with the bytes that are `written`.
fn report_told(alloc: Global, outcome: Result<(), SkipFault>, written: &[u8]) -> Result<String> {
    if let Err(SkipFault::Ended(RunFault::Memory)) = outcome {
        return cut_short(alloc, written);
    }
    run_told(alloc, &outcome, written)
}

/// Returns the answer for a run that compares messages: the status, the bytes that are `written`, and the line on
/// standard error.
fn found_told(
    alloc: Global,
    found: Result<Comparison, CmpFault>,
    written: &[u8],
) -> Result<String> {
    let digits = digits_of(alloc, written)?;
    match found {
        Ok(Comparison::Same) => Ok(format!(in alloc; "status 0, {digits}")?),
        Ok(Comparison::Different) => Ok(format!(in alloc; "status 1, {digits}")?),
        Err(CmpFault::Run(fault)) => ended_told(alloc, Err(fault), written),
        Err(CmpFault::TooFew) => {
            Ok(format!(in alloc; "status 1, {digits}, capn: fewer than two messages")?)
        }
    }
}

/// Returns the answer for a run that packs or unpacks: the status, the bytes that are `written`, and the line on
/// standard error.
fn flow_told(alloc: Global, outcome: Result<(), FlowFault>, written: &[u8]) -> Result<String> {
    let digits = digits_of(alloc, written)?;
    match outcome {
        Ok(()) => Ok(format!(in alloc; "status 0, {digits}")?),
        Err(FlowFault::Memory) => cut_short(alloc, written),
        Err(fault) => {
            let status = fault.status();
            Ok(format!(in alloc; "status {status}, {digits}, capn: {fault}")?)
        }
    }
}

/// Answers `archive COUNT WORD .. BYTES` by the status, the output, and the lines on standard error of a run. A command
/// line that means an `Invocation::Message` is an error here, because the call `run` answers it.
pub(crate) fn archive_answer(alloc: Global, heap: &Heap, words: &[&str]) -> Result<String> {
    let line = command_line(alloc, words)?;
    let input = bytes_at(alloc, words, line.len().saturating_add(1))?;
    let Ok(invocation) = invocation_of(alloc, line.as_slice()) else {
        return Err(anyhow!("no order"));
    };
    let mut reader = Watched::new(input.as_slice());
    let mut writer = Watched::new(Vec::new(alloc));
    match invocation {
        Invocation::Show(show) => {
            let outcome = show_parts(heap, &show, &mut reader, &mut writer);
            tool_told(alloc, heap, outcome, writer.into_inner().as_slice())
        }
        Invocation::Explain(Explanation::One(explain)) => {
            let outcome = run_explain(heap, explain, &mut reader, &mut writer);
            ended_told(alloc, outcome, writer.into_inner().as_slice())
        }
        Invocation::Explain(Explanation::Refused(refused)) => {
            let outcome = run_explain_refused(heap, refused, &mut reader, &mut writer);
            report_told(alloc, outcome, writer.into_inner().as_slice())
        }
        Invocation::Annotate(annotate) => {
            let outcome = annotate_messages(heap, annotate, &mut reader, &mut writer);
            tool_told(alloc, heap, outcome, writer.into_inner().as_slice())
        }
        Invocation::Archive(archive) => {
            let outcome = run_archive(heap, archive, &mut reader, &mut writer);
            archive_told(alloc, outcome, writer.into_inner().as_slice())
        }
        Invocation::Uniq(uniq) => {
            let outcome = run_uniq(heap, uniq, &mut reader, &mut writer);
            archive_told(alloc, outcome, writer.into_inner().as_slice())
        }
        Invocation::Filter(filter) => {
            let outcome = run_filter(heap, filter, &mut reader, &mut writer);
            archive_told(alloc, outcome, writer.into_inner().as_slice())
        }
        Invocation::Cmp(cmp) => {
            let found = run_cmp(heap, cmp, &mut reader, &mut writer);
            found_told(alloc, found, writer.into_inner().as_slice())
        }
        Invocation::Pick(pick) => {
            let outcome = run_pick(heap, pick, &mut reader, &mut writer);
            ended_told(alloc, outcome, writer.into_inner().as_slice())
        }
        Invocation::Only(only) => {
            let outcome = pick_only(heap, &only, &mut reader, &mut writer);
            ended_told(alloc, outcome, writer.into_inner().as_slice())
        }
        Invocation::Flow(Flow::Pack) => {
            let outcome = pack_stream(heap, &mut reader, &mut writer);
            flow_told(alloc, outcome, writer.into_inner().as_slice())
        }
        Invocation::Flow(Flow::Unpack) => {
            let outcome = unpack_stream(heap, &mut reader, &mut writer);
            flow_told(alloc, outcome, writer.into_inner().as_slice())
        }
        Invocation::Make(order) => {
            let outcome = if order.quoted {
                make_texts(heap, order.form, &mut reader, &mut writer)
            } else {
                make(heap, order.form, &mut reader, &mut writer)
            };
            made_told(alloc, outcome, writer.into_inner().as_slice())
        }
        Invocation::Message(_) => Err(anyhow!("no run over an archive")),
    }
}

/// Answers `order COUNT WORD ..` by the status for a command line that `invocation_of` refuses.
pub(crate) fn order_answer(alloc: Global, words: &[&str]) -> Result<String> {
    let line = command_line(alloc, words)?;
    match invocation_of(alloc, line.as_slice()) {
        Ok(_) => Ok(String::from_str(alloc, "an order")?),
        Err(usage) => {
            let status = usage.status();
            Ok(format!(in alloc; "status {status}")?)
        }
    }
}

/// Answers `make FORM BYTES`, where the bytes are texts of values, by the status, the output, and the line on standard
/// error.
pub(crate) fn make_answer(alloc: Global, heap: &Heap, words: &[&str]) -> Result<String> {
    let form = form_at(words, 1)?;
    let input = bytes_at(alloc, words, 2)?;
    let mut reader = Watched::new(input.as_slice());
    let mut writer = Watched::new(Vec::new(alloc));
    let outcome = make(heap, form, &mut reader, &mut writer);
    made_told(alloc, outcome, writer.into_inner().as_slice())
}

/// Returns the answer for a run over texts: the status, the bytes that are `written`, and the line on standard error.
fn made_told(alloc: Global, outcome: Result<(), MakeFault>, written: &[u8]) -> Result<String> {
    let digits = digits_of(alloc, written)?;
    match outcome {
        Ok(()) => Ok(format!(in alloc; "status 0, {digits}")?),
        Err(MakeFault::Memory) => cut_short(alloc, written),
        Err(fault) => {
            let status = fault.status();
            Ok(format!(in alloc; "status {status}, {digits}, capn: {fault}")?)
        }
    }
}
