//! The call `lines_in`, which writes the lines of a message in any form as records of numbers.

ghost use Rattle.std.specs.Prelude.{◌≡◌, ◌<◌, ◌≤◌, ◌+◌, length, ⊤, IfOk, IfErr, IsErrOf, MatchResult, IsTrue};
ghost use Rattle.capn_words.specs.Message.{IsMessage, total, segment_at};
ghost use Rattle.capn_value.specs.Tree.{Tree as Value};
ghost use Rattle.capn_walk.specs.Accepted.{IsBounded};
ghost use Rattle.capn_canon.specs.Denotes.{Denotes};
ghost use Rattle.capn_canon.specs.Refusal.{IsPaidWithin, IsUnacceptedIn};
ghost use Rattle.capn_canon.specs.SurveyedBytes.{Surveys};
ghost use Rattle.capn_canon.specs.declared.refusal.Refusal.TheVariants as refusals;
ghost use Rattle.capn_cover.specs.Numbers.{CountsBefore, number};
ghost use Rattle.capn_lines.specs.Lines.{lines_of, segment_lines};
ghost use Rattle.capn_answers.specs.Annotated.{AnnotatedIn, HasLinesIn, MayNeedLines};
ghost use Rattle.capn_answers.specs.LineRecords.{table_bytes};
ghost use Rattle.capn_answers.specs.inner.Filled.{written_from};

use crate::line_record::{CapnLine, record_of};
use capn_canon::{Form, MessageTask, Refusal, run_task, survey};
use capn_cover::{Covered, cover, words_before};
use capn_lines::line_at;
use capn_stream::table::head_of;
use capn_target::segment_length;
use capn_walk::{Limits, Surveyed};
use capn_words::{Place, Space};
use std::alloc::Allocator;

/// The number of lines of a message, and the survey of the message.
#[derive(Clone, Copy, Debug)]
pub struct Annotated {
    /// The number of lines.
    pub lines: u32,
    /// The survey that [`capn_canon::survey_bytes`] returns for the message.
    pub survey: Surveyed,
}

/// Writes the lines of `segment` to `out`, from index `first` on. Lines past the end of `out` are only counted. Returns
/// the index behind the last line. `words` has what covers each word of the message `space`, which follows a segment
/// table of `table` bytes, and element `s` of `before` is the number of words before segment `s`.
fn put_segment<S: Space>(
    space: &S,
    before: &[u32],
    words: &[Covered],
    table: u32,
    segment: u32,
    first: u32,
    out: &mut [CapnLine],
) -> u32
    requires message { IsMessage (S.message space.now) }
    requires counts { CountsBefore (S.message space.now) before.now }
    requires each { length words.now ≡ total (S.message space.now) }
    requires exists { segment < length (S.message space.now) }
    requires few { first ≤ number (S.message space.now) (record { segment = segment; word = 0 }) }
    ensures count { result ≡ first + length (segment_lines (S.message space.now) words.now segment) }
    ensures few { result ≤ number (S.message space.now)
        (record { segment = segment; word = length (segment_at (S.message space.now) segment) }) }
    ensures written { out.new ≡ written_from table (S.message space.now) first
        (segment_lines (S.message space.now) words.now segment) out.old }
{
    let mut next = first;
    let mut word = 0;
    'lines: while word < segment_length(space, segment) {
        let line = line_at(space, before, words, Place { segment, word });
        let i = next as usize;
        if i < out.len() {
            out[i] = record_of(space, before, table, line);
        }
        next += 1;
        word += line.words;
    }
    next
}

/// Writes the lines of the message `space` to `out`, as many as fit. Returns the number of all lines. The parameters
/// are those of `put_segment`.
fn put_lines<S: Space>(
    space: &S,
    before: &[u32],
    words: &[Covered],
    table: u32,
    out: &mut [CapnLine],
) -> u32
    requires message { IsMessage (S.message space.now) }
    requires counts { CountsBefore (S.message space.now) before.now }
    requires each { length words.now ≡ total (S.message space.now) }
    ensures count { result ≡ length (lines_of (S.message space.now) words.now) }
    ensures written { out.new ≡ written_from table (S.message space.now) 0
        (lines_of (S.message space.now) words.now) out.old }
{
    let mut next = 0;
    for segment in 0..space.segments() {
        next = put_segment(space, before, words, table, segment, next, out);
    }
    next
}

/// Returns the number of bytes before the words of the message `space`, which is read in `form`: those of the segment
/// table, or none for bare words.
fn bytes_before<S: Space>(form: Form, space: &S) -> u32
    ensures { result ≡ table_bytes form (S.message space.now) }
{
    match form {
        Form::Bare => 0,
        Form::Stream | Form::Packed => head_of(space.segments() as usize) as u32,
    }
}

/// The task of `lines_in`: writes the lines of the message that was read to the caller's items.
#[derive(Drop)]
struct WriteLines<'o> {
    /// The form in which the message is read.
    form: Form,
    /// The caller's items.
    out: &'o mut [CapnLine],
}

impl<A: Allocator + Copy> MessageTask<A> for WriteLines<'_> {
    type Answer = Annotated;

    ghost use Rattle.std.specs.Prelude.{◌≡◌};
    ghost use Rattle.capn_answers.specs.inner.Filled.{IsAnnotated};

    ghost answers = { λ task m limits r after.
        (after.out.ghost_name ≡ task.out.ghost_name)
        × (after.form ≡ task.form)
        × IsAnnotated task.form m limits task.out.now after.out.now r };

    fn run<S: Space>(
        &mut self,
        alloc: A,
        message: &S,
        limits: Limits,
    ) -> Result<Annotated, Refusal> {
        let _bounds = message.segments();
        let survey = survey(alloc, message, limits)?;
        let Ok(words) = cover(alloc, message, limits) else {
            return Err(Refusal::Memory);
        };
        let Ok(before) = words_before(alloc, message) else {
            return Err(Refusal::Memory);
        };
        let lines = put_lines(message, &before, &words, 0, &mut []);
        if lines as usize <= self.out.len() {
            let table = bytes_before(self.form, message);
            put_lines(message, &before, &words, table, self.out);
        }
        Ok(Annotated { lines, survey })
    }
}

/// Writes the lines of the message that `bytes` encode in `form` to `out`, if it is long enough for them. Returns the
/// number of lines, and the survey that [`capn_canon::survey_bytes`] returns. Unless all lines are written, `out` is
/// unchanged. The bytes are unpacked or unframed at most once.
///
/// The errors are those of [`capn_canon::survey_bytes`]. `Memory` is returned only if an allocation on `alloc` was
/// refused. Memory is allocated for a stream of more than 64 segments, for the words that a packed text unpacks to, and
/// for an accepted message: 16 bytes for each of its words, and 4 bytes for each segment. (Our own.)
pub fn lines_in<A: Allocator + Copy>(
    alloc: A,
    form: Form,
    bytes: &[u8],
    limits: Limits,
    out: &mut [CapnLine],
) -> Result<Annotated, Refusal>
    // If `result` is `Ok`, the bytes are an accepted message, and `lines` is the number of its lines.
    ensures found { IfOk result (λ a. HasLinesIn form bytes.now limits a.lines) }
    // If `out` has an item for each line, the lines are written.
    ensures written { IfOk result (λ a. a.lines ≤ length out.old → AnnotatedIn form bytes.now limits out.old out.new) }
    // If `result` is `Ok`, `survey` is the survey of the message.
    ensures surveyed { IfOk result (λ a. Surveys form bytes.now limits a.survey) }
    // If the bytes denote a value, `result` is `Ok` or `Memory`.
    ensures only { (v : Value) → Denotes form bytes.now limits v
        → MatchResult result (λ a. ⊤) (λ e. e ≡ refusals.Memory) }
    // If `result` is `Err(e)`, the reason that `e` gives is true.
    ensures refused { IfErr result (λ e. IsUnacceptedIn form bytes.now limits e) }
    // `Memory` is returned only if reading the bytes may need memory, or if the bytes are an accepted message.
    ensures memory { IsErrOf result refusals.Memory → MayNeedLines form bytes.now limits }
    // The price, in the survey or in a refusal by the walk, is at most the budget. The number of visits is at most the
    // price plus 1.
    ensures bounded { MatchResult result (λ a. IsBounded limits.budget a.survey.paid a.survey.visits)
        (λ e. IsPaidWithin limits.budget e) }
    // Unless all lines are written, `out` is unchanged.
    ensures kept { MatchResult result (λ a. length out.old < a.lines → out.new ≡ out.old) (λ e. out.new ≡ out.old) }
{
    let mut task = WriteLines { form, out };
    run_task(alloc, &mut task, form, bytes, limits)
}
