//! A run of `annotate` over bytes, for the tests.

use capn_annotate::{AnnotateOrder, run_annotate};
use capn_canon::{Form, Limits};
use capn_serve::RunFault;
use capn_words::Watched;
use std::alloc::{Allocator, Global};

/// Returns the result of a run over `input` in `form`, and what it writes. With `summary`, only the counts are written.
/// The run takes its memory from `heap`.
pub fn annotated<A: Allocator + Copy>(
    alloc: Global,
    heap: A,
    form: Form,
    summary: bool,
    input: &[u8],
) -> (Result<(), RunFault>, Vec<u8>) {
    let order = AnnotateOrder {
        form,
        limits: Limits::usual(),
        summary,
    };
    let mut reader = Watched::new(input);
    let mut writer = Watched::new(Vec::new(alloc));
    let ending = run_annotate(heap, order, &mut reader, &mut writer);
    (ending, writer.into_inner())
}

/// Tests whether a run over `input` in `form` ends well and writes `text`.
pub fn writes(alloc: Global, form: Form, input: &[u8], text: &[u8]) -> bool {
    let (ending, lines) = annotated(alloc, alloc, form, false, input);
    ending == Ok(()) && lines.as_slice() == text
}
