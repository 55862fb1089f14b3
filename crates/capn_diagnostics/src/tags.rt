//! The tag of the list of structs to which a slot leads, and the rows that the tag counts.

ghost use Rattle.std.specs.Prelude.{◌≡◌, ◌<◌, ◌≤◌, ◌^◌, IfSome};
ghost use Rattle.capn_words.specs.Message.{IsPlace};
ghost use Rattle.capn_diagnostics.specs.Slot as spec;

use crate::examined::RowWords;
use crate::telling::{Telling, has_words};
use capn_target::Fault;
use capn_words::{Place, Pointer, Space, Width};

/// Returns the number of the word that lies `offset` words after word `from`. Returns `None` if the number would be
/// negative.
fn begins(from: u64, offset: i32) -> Option<u64>
    requires { from ≤ 2 ^ 32 }
    ensures value { result ≡ spec.begins from offset }
    ensures small { IfSome result (λ start. start < 2 ^ 34) }
{
    let start = from as i64 + offset as i64;
    if start < 0 { None } else { Some(start as u64) }
}

/// Returns the place of a tag at word `start` of `segment`. Returns `None` if the tag and the `span` words after it are
/// not all inside the segment.
fn tag_from<S: Space>(space: &S, segment: u32, span: u32, start: Option<u64>) -> Option<Place>
    requires { IfSome start (λ word. word < 2 ^ 34) }
    ensures value { result ≡ spec.tag_from (S.message space.now) segment span start }
    ensures inside { IfSome result (λ at. IsPlace (S.message space.now) at) }
{
    let start = start?;
    if has_words(space, segment, start, 1 + span as u64) {
        Some(Place {
            segment,
            word: start as u32,
        })
    } else {
        None
    }
}

/// Returns the place of a list's tag, if the reference `told` leads to a list of structs that is inside its segment.
pub(crate) fn tag_in<S: Space>(space: &S, told: Option<Telling>) -> Option<Place>
    requires { IfSome told (λ t. t.from ≤ 2 ^ 32) }
    ensures value { result ≡ spec.tag_in (S.message space.now) told }
    ensures inside { IfSome result (λ at. IsPlace (S.message space.now) at) }
{
    let told = told?;
    tag_told(space, told)
}

/// Returns the place of the tag to which the reference `told` leads, if `told` refers to a list of structs inside its
/// segment.
fn tag_told<S: Space>(space: &S, told: Telling) -> Option<Place>
    requires { told.from ≤ 2 ^ 32 }
    ensures value { result ≡ spec.tag_told (S.message space.now) told.segment told.from told.offset told.form }
    ensures inside { IfSome result (λ at. IsPlace (S.message space.now) at) }
{
    match told.form {
        Pointer::Many {
            offset: _,
            width,
            count,
        } => match width {
            Width::Rows => {
                let start = begins(told.from, told.offset);
                tag_from(space, told.segment, count, start)
            }
            _ => None,
        },
        _ => None,
    }
}

/// Returns the rows that `tag` counts, if the pointer `form` is a pointer to a list of structs.
fn rows_by(tag: u64, form: Pointer) -> Option<RowWords>
    ensures { result ≡ spec.rows_by tag form }
{
    match form {
        Pointer::Many {
            offset: _,
            width,
            count,
        } => match width {
            Width::Rows => Some(row_words(tag, count)),
            _ => None,
        },
        _ => None,
    }
}

/// Returns the rows that `tag` counts, in a list whose pointer gives `span` words to the rows.
fn row_words(tag: u64, span: u32) -> RowWords
    ensures { result ≡ spec.row_words tag span }
{
    let count = tag >> 2 & 0x3fff_ffff;
    let words = tag >> 32 & 0xffff;
    let slots = tag >> 48 & 0xffff;
    let each = words + slots;
    RowWords {
        count: count as u32,
        each: each as u32,
        words: count * each,
        span,
    }
}

/// Returns the rows of the list of structs to which the slot at `at` leads, if the `fault` is `TagOverrun`. Returns
/// `None` for any other fault.
pub(crate) fn rows_of<S: Space>(
    space: &S,
    at: Place,
    told: Option<Telling>,
    tag: Option<Place>,
    fault: Fault,
) -> Option<RowWords>
    requires told { told ≡ spec.told (S.message space.now) at }
    requires tag { tag ≡ spec.tag_at (S.message space.now) at }
    requires inside { IfSome tag (λ at. IsPlace (S.message space.now) at) }
    ensures { result ≡ spec.rows_of (S.message space.now) at fault }
{
    match fault {
        Fault::TagOverrun => rows_in(space, told, tag),
        _ => None,
    }
}

/// Returns the rows of the list of structs to which the reference `told` leads, as its `tag` counts them.
fn rows_in<S: Space>(space: &S, told: Option<Telling>, tag: Option<Place>) -> Option<RowWords>
    requires { IfSome tag (λ at. IsPlace (S.message space.now) at) }
    ensures { result ≡ spec.rows_in (S.message space.now) told tag }
{
    let told = told?;
    let tag = tag?;
    rows_by(space.word(tag), told.form)
}
