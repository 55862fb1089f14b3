//! The kind of a word that a slot owns, and the search for the slot that owns a word.

ghost use Rattle.std.specs.Prelude.{◌≡◌, ◌<◌, ◌^◌};
ghost use Rattle.capn_mismatch.specs.inner.Search as search;

use capn_path::Aim;
use capn_target::{Fault, Shape, Target, content_words};
use capn_words::{Place, Width};

/// The aim of a search for the slot that owns a word. A slot owns its pointer. It also owns the tag or the last word of
/// the object that the pointer names.
#[derive(Drop)]
pub struct Owner {
    /// The place of the word.
    pub word: Place,
}

/// The kind of a word that a slot owns.
#[derive(Clone, Copy)]
pub enum WordKind {
    /// The word is the slot's pointer.
    Pointer,
    /// The word is the tag of the list of structs that the slot names.
    Tag,
    /// The word is the last word of the list of small numbers that the slot names.
    LastWord,
}

impl Aim for Owner {
    type Found = WordKind;

    ghost finds = { search.owned };

    ghost next = { search.same };

    fn test(&mut self, at: Place, named: Result<Target, Fault>) -> Option<WordKind> {
        finds(self.word, at, named)
    }
}

/// Returns the kind of `word` if the slot at `at` owns the word, and `None` otherwise. `named` is the target or the
/// fault of the slot's pointer.
pub fn finds(word: Place, at: Place, named: Result<Target, Fault>) -> Option<WordKind>
    ensures { result ≡ search.finds word at named }
{
    if is_at(at.segment, at.word, word) {
        return Some(WordKind::Pointer);
    }
    match named {
        Ok(target) => found_in(word, target),
        Err(_) => None,
    }
}

/// Returns `Tag` if `target` is a list of structs with the tag at `word`. Returns `LastWord` if `target` is a list of
/// small numbers with the last word at `word`. Otherwise returns `None`.
fn found_in(word: Place, target: Target) -> Option<WordKind>
    ensures { result ≡ search.found_in word target }
{
    match target {
        Target::Nil => None,
        Target::Cap(_) => None,
        Target::Content {
            segment,
            start,
            shape,
            pads: _,
        } => match shape {
            Shape::Node { .. } => None,
            Shape::Rows { .. } => {
                if is_at(segment, start, word) {
                    return Some(WordKind::Tag);
                }
                None
            }
            Shape::Many { width, count } => {
                if is_small(width) && ends_at(segment, start, content_words(width, count), word) {
                    return Some(WordKind::LastWord);
                }
                None
            }
        },
    }
}

/// Tests whether `word` of `segment` is at `place`.
fn is_at(segment: u32, word: u32, place: Place) -> bool
    ensures { result ≡ search.is_at segment word place }
{
    segment == place.segment && word == place.word
}

/// Tests whether the word at `place` is the last of `words` words from word `start` of `segment` on.
fn ends_at(segment: u32, start: u32, words: u64, place: Place) -> bool
    requires few { words < 2 ^ 40 }
    ensures { result ≡ search.ends_at segment start words place }
{
    segment == place.segment && words > 0 && start as u64 + words == place.word as u64 + 1
}

/// Tests whether several elements of `width` share a word.
fn is_small(width: Width) -> bool
    ensures { result ≡ search.is_small width }
{
    match width {
        Width::W1 => true,
        Width::W8 => true,
        Width::W16 => true,
        Width::W32 => true,
        Width::W0 => false,
        Width::W64 => false,
        Width::Link => false,
        Width::Rows => false,
    }
}
