//! The reference of a pointer to its content, directly or over a landing pad, as the command `explain` shows it.

ghost use Rattle.std.specs.Prelude.{◌≡◌, ◌<◌, ◌≤◌, ◌+◌, ◌^◌, IsTrue, Some, None, IfSome, if◌then◌else◌};
ghost use Rattle.capn_target.specs.Target.{pointer_in};
ghost use Rattle.capn_diagnostics.specs.Slot as spec;

use capn_target::{content_words, pointer_at, segment_length};
use capn_words::{Place, Pointer, Space};

/// The reference of a pointer to its content: a segment, the word from which an offset counts, the offset, and the kind
/// and size of the content.
#[derive(Clone, Copy)]
pub(crate) struct Telling {
    /// The segment of the content.
    pub segment: u32,
    /// The word from which the offset counts.
    pub from: u64,
    /// The offset of the content in words.
    pub offset: i32,
    /// The pointer that gives the kind and the size of the content.
    pub form: Pointer,
}

/// Returns the number of words that the content of the pointer `form` takes.
pub(crate) fn words_told(form: Pointer) -> u64
    ensures value { result ≡ spec.words_told form }
    ensures small { result < 2 ^ 40 }
{
    match form {
        Pointer::Node {
            offset: _,
            words,
            slots,
        } => words as u64 + slots as u64,
        Pointer::Many {
            offset: _,
            width,
            count,
        } => content_words(width, count),
        _ => 0,
    }
}

/// Returns the reference of `pointer` if it is a pointer to a struct or list. The pointer lies at `word` of `segment`.
fn told_near(segment: u32, word: u32, pointer: Pointer) -> Option<Telling>
    ensures value { result ≡ spec.told_near segment word pointer }
    ensures small { IfSome result (λ t. t.from ≤ 2 ^ 32) }
{
    let from = word as u64 + 1;
    match pointer {
        Pointer::Node {
            offset,
            words: _,
            slots: _,
        } => Some(Telling {
            segment,
            from,
            offset,
            form: pointer,
        }),
        Pointer::Many {
            offset,
            width: _,
            count: _,
        } => Some(Telling {
            segment,
            from,
            offset,
            form: pointer,
        }),
        _ => None,
    }
}

/// Returns the reference of a landing pad of two words: content at `word` of `segment`, with the kind and size of the
/// tag `form`. Returns `None` if the message has no segment with this number.
fn told_there<S: Space>(space: &S, segment: u32, word: u32, form: Pointer) -> Option<Telling>
    ensures value { result ≡ spec.told_there (S.message space.now) segment word form }
    ensures small { IfSome result (λ t. t.from ≤ 2 ^ 32) }
{
    if segment < space.segments() {
        Some(Telling {
            segment,
            from: word as u64,
            offset: 0,
            form,
        })
    } else {
        None
    }
}

/// Returns the reference of a landing pad with the words `first` and `second`. Returns `None` if they are not a valid
/// pad, or if the segment of the content does not exist.
fn told_two<S: Space>(space: &S, first: Pointer, second: Pointer) -> Option<Telling>
    ensures value { result ≡ spec.told_two (S.message space.now) first second }
    ensures small { IfSome result (λ t. t.from ≤ 2 ^ 32) }
{
    let Pointer::Far {
        double: false,
        word,
        segment,
    } = first
    else {
        return None;
    };
    match second {
        Pointer::Nil => told_there(space, segment, word, second),
        Pointer::Node {
            offset: _,
            words: _,
            slots: _,
        } => told_there(space, segment, word, second),
        Pointer::Many {
            offset: _,
            width: _,
            count: _,
        } => told_there(space, segment, word, second),
        _ => None,
    }
}

/// Returns `true` if the `count` words of `segment` that begin at `word` are inside the segment.
pub(crate) fn has_words<S: Space>(space: &S, segment: u32, word: u64, count: u64) -> bool
    requires word { word < 2 ^ 40 }
    requires count { count < 2 ^ 40 }
    ensures value { result ≡ spec.has_words (S.message space.now) segment word count }
    ensures small { IsTrue result → word + count < 2 ^ 32 }
{
    let end = word + count;
    end <= segment_length(space, segment) as u64
}

/// Returns the reference of the one-word landing pad at `word` of `segment`. Returns `None` if the pad is not inside
/// its segment, or is no pointer to a struct or list.
fn behind_one<S: Space>(space: &S, segment: u32, word: u32) -> Option<Telling>
    ensures value { result ≡ (if spec.has_words (S.message space.now) segment word 1
        then spec.told_near segment word (pointer_in (S.message space.now) segment word) else None) }
    ensures small { IfSome result (λ t. t.from ≤ 2 ^ 32) }
{
    if has_words(space, segment, word as u64, 1) {
        told_near(segment, word, pointer_at(space, segment, word))
    } else {
        None
    }
}

/// Returns the reference of the two-word landing pad at `word` of `segment`. Returns `None` if the pad is not inside
/// its segment, or is not valid, or if the segment of the content does not exist.
fn behind_two<S: Space>(space: &S, segment: u32, word: u32) -> Option<Telling>
    ensures value { result ≡ (if spec.has_words (S.message space.now) segment word 2
        then spec.told_two (S.message space.now) (pointer_in (S.message space.now) segment word)
        (pointer_in (S.message space.now) segment (word + 1)) else None) }
    ensures small { IfSome result (λ t. t.from ≤ 2 ^ 32) }
{
    if has_words(space, segment, word as u64, 2) {
        let first = pointer_at(space, segment, word);
        let second = pointer_at(space, segment, word + 1);
        told_two(space, first, second)
    } else {
        None
    }
}

/// Returns the reference, if there is one, of the `pointer` at `at`, or of its landing pad if `pointer` is far.
pub(crate) fn told_by<S: Space>(space: &S, at: Place, pointer: Pointer) -> Option<Telling>
    ensures value { result ≡ spec.told_by (S.message space.now) at.segment at.word pointer }
    ensures small { IfSome result (λ t. t.from ≤ 2 ^ 32) }
{
    match pointer {
        Pointer::Far {
            double,
            word,
            segment,
        } => {
            if double {
                behind_two(space, segment, word)
            } else {
                behind_one(space, segment, word)
            }
        }
        pointer => told_near(at.segment, at.word, pointer),
    }
}
