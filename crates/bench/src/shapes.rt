//! Messages of nine shapes, and a stream of small ones.
//! They are the same in every run.

mod draft;
mod flat;
mod mixed;
mod nested;
mod random;
mod slot;
mod small;

use std::alloc::{AllocError, Global};

/// The shape of a message.
#[derive(Clone, Copy)]
pub(crate) enum Shape {
    /// Structs of many data words.
    Wide,
    /// Nests of small structs, each in a slot of the one above.
    Deep,
    /// Structs with two short texts each.
    Texts,
    /// One list of 64-bit numbers.
    Numbers,
    /// Structs whose data words are mostly zero, and lists of zeros.
    Zeros,
    /// One list of random bytes.
    Noise,
    /// The content of `Mixed`, in many segments.
    Segments,
    /// Structs, lists of structs with slots, texts, lists of pointers and null slots.
    Mixed,
    /// Lists of structs and lists of pointers, in segments that are filled one after the other. Three of four objects
    /// are in the segment of their pointer.
    Builder,
    /// A stream of messages of 32 bytes each, in place of one message.
    Small,
}

impl Shape {
    /// The shapes of one message.
    pub(crate) const MESSAGES: [Shape; 9] = [
        Shape::Wide,
        Shape::Deep,
        Shape::Texts,
        Shape::Numbers,
        Shape::Zeros,
        Shape::Noise,
        Shape::Segments,
        Shape::Mixed,
        Shape::Builder,
    ];

    /// Returns the name of the shape.
    pub(crate) fn name(self) -> &'static str {
        match self {
            Shape::Wide => "wide",
            Shape::Deep => "deep",
            Shape::Texts => "texts",
            Shape::Numbers => "u64",
            Shape::Zeros => "zeros",
            Shape::Noise => "noise",
            Shape::Segments => "segs",
            Shape::Mixed => "mixed",
            Shape::Builder => "builder",
            Shape::Small => "small",
        }
    }

    /// Returns the shape called `name`.
    pub(crate) fn named(name: &str) -> Option<Shape> {
        if name == Shape::Small.name() {
            return Some(Shape::Small);
        }
        Shape::MESSAGES
            .iter()
            .copied()
            .find(|shape| shape.name() == name)
    }
}

/// Returns a framed message of `shape` of about `bytes` bytes, or a stream of small messages.
pub(crate) fn framed(alloc: Global, shape: Shape, bytes: u32) -> Result<Vec<u8>, AllocError> {
    match shape {
        Shape::Wide => flat::wide(alloc, bytes),
        Shape::Deep => nested::deep(alloc, bytes),
        Shape::Texts => nested::texts(alloc, bytes),
        Shape::Numbers => flat::numbers(alloc, bytes),
        Shape::Zeros => flat::zeros(alloc, bytes),
        Shape::Noise => flat::noise(alloc, bytes),
        Shape::Segments => mixed::segments(alloc, bytes),
        Shape::Mixed => mixed::mixed(alloc, bytes),
        Shape::Builder => mixed::builder(alloc, bytes),
        Shape::Small => small::stream(alloc, bytes),
    }
}
