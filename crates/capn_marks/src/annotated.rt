//! The emitter of lines with marks, which the walk of `capn_show` drives.

ghost use Rattle.std.specs.Prelude.{IfErr};
ghost use Rattle.capn_marks.specs.Annotation.{rule_of};
ghost use Rattle.capn_marks.specs.MarkedPlaces.{CountsBefore};

use crate::marks::{Marks, path_length, put_mark, step_below};
use crate::starts::byte_of;
use capn_quoted::is_text;
use capn_show::{Broken, Emitter, Piece, put_line_piece, show_quoted};
use capn_words::{Place, Space, Watched};
use std::alloc::Allocator;
use std::io::Write;

/// An emitter that writes the marks of each line before the line.
#[derive(Drop)]
pub struct Annotated<'a, A: Allocator> {
    /// The marks that each line gets.
    pub marks: Marks,
    /// For each segment, the number of words of the message before that segment.
    pub before: &'a [u32],
    /// The path to the value that is being written, as text, if `marks.ways` is true.
    pub path: Vec<u8, A>,
}

impl<'a, A: Allocator> Emitter for Annotated<'a, A> {
    ghost rule = { λ e. rule_of e.marks };

    ghost path = { λ e. e.path.items };

    ghost is_of = { λ e m. CountsBefore m e.before.now };

    #[inline(always)]
    fn is_text(&self, bytes: &[u8]) -> bool {
        self.marks.quoted && is_text(bytes)
    }

    #[inline(always)]
    fn put_text<W: Write, B: Allocator>(
        &self,
        text: &mut Vec<u8, B>,
        writer: &mut Watched<W>,
        level: u32,
        bytes: &[u8],
    ) -> Result<(), Broken> {
        show_quoted(text, writer, bytes, level)
    }

    #[inline(always)]
    fn put_piece<W: Write, B: Allocator>(
        &self,
        text: &mut Vec<u8, B>,
        writer: &mut Watched<W>,
        level: u32,
        piece: Piece,
    ) -> Result<(), Broken> {
        put_line_piece(text, writer, level, piece)
    }

    #[inline(always)]
    fn byte_of<S: Space>(&self, space: &S, at: Place) -> u128 {
        byte_of(space, &self.marks, self.before, at)
    }

    #[inline(always)]
    fn put_mark<W: Write, B: Allocator>(
        &self,
        text: &mut Vec<u8, B>,
        writer: &mut Watched<W>,
        _number: u32,
        byte: u128,
    ) -> Result<(), Broken> {
        put_mark(text, writer, &self.marks, self.path.as_slice(), byte)
    }

    #[inline(always)]
    fn path_length(&self) -> usize {
        path_length(&self.path)
    }

    #[inline(always)]
    fn step_below(&mut self, number: u32) -> Result<(), Broken> {
        step_below(&mut self.path, self.marks.ways, number as u64)
    }

    #[inline(always)]
    fn step_back(&mut self, length: usize) {
        self.path.truncate(length);
    }
}
