//! The call `canonical_into_form`, which writes the canonical bytes of a message in any form, without an allocator.

ghost use Rattle.std.specs.Prelude.{◌≡◌, ℕ, ◌+◌, ◌*◌, ◌≤◌, List, length, IfOk, IfErr, OnErr, MatchResult};
ghost use Rattle.capn_pack.specs.Packed.{Packs};
ghost use Rattle.capn_stream.specs.Frames.{most_table_words};
ghost use Rattle.capn_walk.specs.Accepted.{IsBounded};
ghost use Rattle.capn_canon.specs.declared.form.Form.TheVariants as forms;
ghost use Rattle.capn_scratch.specs.FormRefusal.{IsFormPaidWithin, IsFormRefused};
ghost use Rattle.capn_scratch.specs.Theorem.{AnsweredForm, WrittenForm};
ghost use Rattle.capn_scratch.specs.Work.{work_of_bytes};
ghost use Rattle.capn_scratch.specs.inner.Outcomes.{IsFormTold};
ghost use Rattle.capn_scratch.specs.inner.WalkWork.{walk_work};

use crate::asked_bytes::{AskedBytes, BytesTask};
use crate::counted_bytes::CountedBytes;
use crate::counted_scratch::{CountedScratch, CountedText};
use crate::framed::{of_frame, walk_reads, write};
use crate::refusal::FormRefusal;
use crate::steps::Steps;
use crate::unpacked::{unpack_into, unpacked_words};
use capn_canon::{CanonicalLength, Form, Limits};
use capn_stream::MOST_TABLE_WORDS;
use std::sync::ledger::Ledger;

/// Writes canonical bytes to `out`. The message has only one segment, and its bytes are `bytes`.
#[inline(always)]
fn of_bare<L: Ledger>(
    bytes: &CountedBytes<'_, L>,
    limits: Limits,
    out: &mut [u8],
    steps: &mut Steps<L>,
) -> Result<CanonicalLength, FormRefusal>
    ensures told { (scratch : ℕ) → IsFormTold forms.Bare bytes.now limits scratch out.old out.new result }
    ensures steps { steps.new ≤ steps.old + walk_work limits.budget }
{
    match bytes.words() {
        Ok(words) => write(words.lend(walk_reads(limits), steps), limits, out),
        Err(fault) => Err(FormRefusal::Bare(fault)),
    }
}

/// Writes the canonical bytes of the message in the frame `bytes` to `out`.
#[inline(always)]
fn of_stream<L: Ledger>(
    bytes: &CountedBytes<'_, L>,
    limits: Limits,
    scratch: CountedScratch<'_, L>,
    out: &mut [u8],
    steps: &mut Steps<L>,
) -> Result<CanonicalLength, FormRefusal>
    ensures told { IsFormTold forms.Stream bytes.now limits (length scratch.entry) out.old out.new result }
    ensures steps { steps.new ≤ steps.old + 2 * length bytes.now + walk_work limits.budget }
{
    of_frame(bytes, scratch, 0, limits, out, steps)
}

/// Unpacks the packed text `bytes` to the `words` words of `text`. Reads `text` as a frame, and writes the canonical
/// bytes of the message in that frame to `out`.
fn of_unpacked<L: Ledger>(
    bytes: &CountedBytes<'_, L>,
    words: usize,
    mut text: CountedText<'_, L>,
    scratch: CountedScratch<'_, L>,
    limits: Limits,
    out: &mut [u8],
    steps: &mut Steps<L>,
) -> Result<CanonicalLength, FormRefusal>
    requires long { length text ≡ 8 * words }
    requires packs { (packed : List ℕ) × Packs bytes.now packed × (length packed ≡ 8 * words) }
    requires few { words ≤ limits.message_words + most_table_words }
    ensures told { IsFormTold forms.Packed bytes.now limits (words + length scratch.entry) out.old out.new result }
    ensures steps { steps.new ≤ steps.old + length bytes.now + 22 * words + 2 + walk_work limits.budget }
{
    let _words = limits.message_words();
    match unpack_into(bytes, words, &mut text, steps) {
        Ok(_) => of_frame(&text.into_bytes(), scratch, words, limits, out, steps),
        Err(fault) => Err(FormRefusal::Packed(fault)),
    }
}

/// Writes the canonical bytes of a message to `out`. The message is in the frame that the packed text `bytes` unpacks
/// to.
#[inline(always)]
fn of_packed<L: Ledger>(
    bytes: &CountedBytes<'_, L>,
    limits: Limits,
    scratch: CountedScratch<'_, L>,
    out: &mut [u8],
    steps: &mut Steps<L>,
) -> Result<CanonicalLength, FormRefusal>
    ensures told { IsFormTold forms.Packed bytes.now limits (length scratch.entry) out.old out.new result }
    ensures steps { steps.new ≤ steps.old + work_of_bytes (length bytes.now) (length scratch.entry)
        + walk_work limits.budget }
{
    let most = limits.message_words() as usize + MOST_TABLE_WORDS as usize;
    match unpacked_words(bytes, most, steps) {
        Ok(words) => {
            if scratch.len() < words {
                return Err(FormRefusal::NoScratch { needed: words });
            }
            let (text, rest) = scratch.split(words);
            of_unpacked(bytes, words, text, rest, limits, out, steps)
        }
        Err(fault) => Err(FormRefusal::Packed(fault)),
    }
}

/// Does the work of [`canonical_into_form_of`]. The clause `told` here implies all clauses of that call on its result.
#[inline(always)]
fn of_form<L: Ledger>(
    form: Form,
    bytes: &CountedBytes<'_, L>,
    limits: Limits,
    scratch: CountedScratch<'_, L>,
    out: &mut [u8],
    steps: &mut Steps<L>,
) -> Result<CanonicalLength, FormRefusal>
    ensures told { IsFormTold form bytes.now limits (length scratch.entry) out.old out.new result }
    ensures steps { steps.new ≤ steps.old + work_of_bytes (length bytes.now) (length scratch.entry)
        + walk_work limits.budget }
{
    match form {
        Form::Stream => of_stream(bytes, limits, scratch, out, steps),
        Form::Packed => of_packed(bytes, limits, scratch, out, steps),
        Form::Bare => of_bare(bytes, limits, out, steps),
    }
}

/// The task of `canonical_into_form_of`: writes the canonical bytes of the bytes that it is run on into a buffer.
#[derive(Drop)]
struct FormTask {
    form: Form,
    limits: Limits,
}

impl BytesTask for FormTask {
    type Told = Result<CanonicalLength, FormRefusal>;

    ghost use Rattle.std.specs.Prelude.{◌+◌, ◌*◌};
    ghost use Rattle.capn_scratch.specs.Work.{work_of_bytes};
    ghost use Rattle.capn_scratch.specs.inner.Outcomes.{IsFormTold};

    ghost tells = { λ t bs scratch old new r. IsFormTold t.form bs t.limits scratch old new r };

    ghost most = { λ t bytes scratch. work_of_bytes bytes scratch + 54 * (t.limits.budget + 1) + 1 };

    #[inline(always)]
    fn run<L: Ledger>(
        self,
        bytes: CountedBytes<'_, L>,
        scratch: CountedScratch<'_, L>,
        out: &mut [u8],
        steps: &mut Steps<L>,
    ) -> Result<CanonicalLength, FormRefusal> {
        of_form(self.form, &bytes, self.limits, scratch, out, steps)
    }
}

/// Writes the canonical bytes of the value that `bytes` denote in `form`, within `limits`, to the beginning of `out`.
/// Returns the number of bytes written, the number of words that the walk pays, and the number of visits. The bytes of
/// `out` after the canonical bytes stay as they were.
///
/// Only the stack and the words in `scratch` are used. A packed text needs as many words of `scratch` as it unpacks to.
/// A frame of more than 64 segments needs one word for each segment but the last, after the unpacked words. Bare words
/// and other frames need none. The contents of `scratch` after the call are not specified.
///
/// The refusals are tested in this order, and each leaves `out` as it was. Packed bytes are unpacked first. If
/// [`canonicalise`](capn_canon::canonicalise) refuses them with `Packed`, this call returns the same fault. `NoScratch`
/// refuses packed bytes if `scratch` is too short for the unpacked words. Then the message is read. In the form `Bare`,
/// `Bare` refuses bytes that are not bare words. In the other forms `Frame` refuses bytes, unpacked for `Packed`, that
/// begin with no frame of at most `limits.message_words` words, and `Trailing` refuses bytes after the frame.
/// `NoScratch` refuses a frame if `scratch` is too short for the ends of its segments. The number of words needed then
/// includes the unpacked words. `Walk` refuses a message that is not accepted. `Capability` refuses a value with
/// capabilities, with the index of the first in preorder. Last, `NoRoom` refuses an `out` that is too short, with the
/// length of the canonical bytes. (Our own.)
pub fn canonical_into_form(
    form: Form,
    bytes: &[u8],
    limits: Limits,
    scratch: &mut [[u8; 8]],
    out: &mut [u8],
) -> Result<CanonicalLength, FormRefusal>
    // The theorem: `result` is `Ok` if and only if three conditions hold. The bytes denote a value without capabilities
    // within the limits, `scratch` has the words that the bytes need, and `out` has room for the canonical bytes.
    ensures answered { AnsweredForm form bytes.now limits (length scratch.old) (length out.old) result }
    // If `result` is `Ok`, the canonical bytes are at the beginning of `out`, and the bytes after them are as before.
    ensures written { IfOk result (λ c. WrittenForm form bytes.now limits (length scratch.old) out.old out.new c) }
    // If `result` is `Err(e)`, the reason that `e` gives is true, and no earlier test refuses the bytes.
    ensures refused { IfErr result (λ e. IsFormRefused form bytes.now limits (length scratch.old) (length out.old) e) }
    // If `result` is an `Err`, `out` is as it was.
    ensures unchanged { OnErr result (out.new ≡ out.old) }
    // The walk pays at most the budget, even if the message is refused.
    ensures bounded { MatchResult result (λ c. IsBounded limits.budget c.paid c.visits)
        (λ e. IsFormPaidWithin limits.budget e) }
{
    canonical_into_form_of(form, bytes, limits, scratch, out)
}

/// Writes the canonical bytes of the value that `bytes` denote in `form`, within `limits`, to the beginning of `out`.
/// Returns the result of [`canonical_into_form`], which is this call on a slice.
///
/// Here `bytes` are any [`AskedBytes`], so the clause `work` bounds the steps from the bytes to the canonical bytes,
/// for the unpacking, the segment table, the walk and the layout together. A step is a read of the bytes or of the
/// unpacked bytes, a write of a word of `scratch`, a read of the message, or a turn of a loop. The loops over the
/// numbers and the bits of a list are not counted, nor are those over the zeros of a buffer. (Our own.)
#[inline(always)]
pub fn canonical_into_form_of<B: AskedBytes>(
    form: Form,
    bytes: B,
    limits: Limits,
    scratch: &mut [[u8; 8]],
    out: &mut [u8],
) -> Result<CanonicalLength, FormRefusal>
    // `bytes` must allow 3 steps for each byte, 22 for each word of `scratch`, 54 * (budget + 1) for the message, and 4
    // more. A slice allows any number.
    requires work { B.allows bytes (work_of_bytes (length (B.bytes bytes)) (length scratch.old)
        + 54 * (limits.budget + 1) + 1) }
    // The theorem: `result` is `Ok` if and only if three conditions hold. The bytes denote a value without capabilities
    // within the limits, `scratch` has the words that the bytes need, and `out` has room for the canonical bytes.
    ensures answered { AnsweredForm form (B.bytes bytes) limits (length scratch.old) (length out.old) result }
    // If `result` is `Ok`, the canonical bytes are at the beginning of `out`, and the bytes after them are as before.
    ensures written { IfOk result (λ c.
        WrittenForm form (B.bytes bytes) limits (length scratch.old) out.old out.new c) }
    // If `result` is `Err(e)`, the reason that `e` gives is true, and no earlier test refuses the bytes.
    ensures refused { IfErr result (λ e.
        IsFormRefused form (B.bytes bytes) limits (length scratch.old) (length out.old) e) }
    // If `result` is an `Err`, `out` is as it was.
    ensures unchanged { OnErr result (out.new ≡ out.old) }
    // The walk pays at most the budget, even if the message is refused.
    ensures bounded { MatchResult result (λ c. IsBounded limits.budget c.paid c.visits)
        (λ e. IsFormPaidWithin limits.budget e) }
{
    bytes.ask_bytes(FormTask { form, limits }, scratch, out)
}
