//! The trait of emitters, and the emitter of plain lines. An emitter decides how each item of a message is written.

ghost use Rattle.std.specs.Prelude.{◌≡◌, ℕ, ◌<◌, ◌≤◌, ◌^◌, List, [], length, take, ⊤, IfErr, OnOk};
ghost use Rattle.capn_words.specs.Message.{IsMessage, segment_at};
ghost use Rattle.capn_show.specs.declared.fault.Broken.TheVariants as broken;
ghost use Rattle.capn_show.specs.Emitted.{Rule, plain_rule};
ghost use Rattle.capn_show.specs.Outgoing.{Adds, BreaksOff, outgoing};

use crate::bytes::show_quoted;
use crate::fault::Broken;
use crate::line_pieces::put_line_piece;
use crate::piece::Piece;
use capn_quoted::is_text;
use capn_words::{Place, Space, Watched};
use std::alloc::Allocator;
use std::io::Write;

/// An emitter writes the text of a value: it turns each [`Piece`] into bytes, and puts a mark, which may be empty,
/// before each item. An item is a word, a number, a line of digits, a slot or a row. An emitter also stores the path to
/// the value that is being written.
pub trait Emitter {
    /// The rule by which the emitter writes marks, pieces, texts, offsets and paths.
    ghost rule: { Self → Rule };

    /// The path to the value that is being written, as bytes of text (`0.3.1`), not as a list of numbers. An emitter
    /// whose marks show no path need not update the path.
    ghost path: { Self → List ℕ };

    /// The statement that the emitter was made for the message with these segments.
    ghost is_of: { Self → List (List ℕ) → Type 0 };

    /// Returns `true` if the list `bytes` is to be written as a text.
    fn is_text(&self, bytes: &[u8]) -> bool
        ensures { result ≡ (rule self.now).is_text bytes.now };

    /// Appends the list `bytes` to `text` as a text, at this `level`.
    fn put_text<W: Write, A: Allocator>(
        &self,
        text: &mut Vec<u8, A>,
        writer: &mut Watched<W>,
        level: u32,
        bytes: &[u8],
    ) -> Result<(), Broken>
        ensures shown { OnOk result (Adds (outgoing W.contents writer.old text.old.items)
            (outgoing W.contents writer.new text.new.items) ((rule self.now).text level bytes.now)) }
        ensures cut { IfErr result (λ e. BreaksOff (outgoing W.contents writer.old text.old.items)
            (outgoing W.contents writer.new text.new.items) e ((rule self.now).text level bytes.now)) };

    /// Appends `piece` to `text`, at this `level`.
    fn put_piece<W: Write, A: Allocator>(
        &self,
        text: &mut Vec<u8, A>,
        writer: &mut Watched<W>,
        level: u32,
        piece: Piece,
    ) -> Result<(), Broken>
        ensures shown { OnOk result (Adds (outgoing W.contents writer.old text.old.items)
            (outgoing W.contents writer.new text.new.items) ((rule self.now).piece level piece)) }
        ensures cut { IfErr result (λ e. BreaksOff (outgoing W.contents writer.old text.old.items)
            (outgoing W.contents writer.new text.new.items) e ((rule self.now).piece level piece)) };

    /// Returns the offset in bytes of the word at `at`. The place `at` may also be the end of a segment. An emitter
    /// whose marks show no offsets may return 0.
    fn byte_of<S: Space>(&self, space: &S, at: Place) -> u128
        requires message { IsMessage (S.message space.now) }
        requires of { is_of self.now (S.message space.now) }
        requires exists { at.segment < length (S.message space.now) }
        requires within { at.word ≤ length (segment_at (S.message space.now) at.segment) }
        ensures is { result ≡ (rule self.now).lies (S.message space.now) at }
        ensures small { result < 2 ^ 66 };

    /// Appends the mark of an item to `text`. `number` is the number of items of the same kind before this one in the
    /// same object, and `byte` is the offset of the item. The mark may also show the path that the emitter stores.
    fn put_mark<W: Write, A: Allocator>(
        &self,
        text: &mut Vec<u8, A>,
        writer: &mut Watched<W>,
        number: u32,
        byte: u128,
    ) -> Result<(), Broken>
        ensures shown { OnOk result (Adds (outgoing W.contents writer.old text.old.items)
            (outgoing W.contents writer.new text.new.items) ((rule self.now).mark number byte (path self.now))) }
        ensures cut { IfErr result (λ e. BreaksOff (outgoing W.contents writer.old text.old.items)
            (outgoing W.contents writer.new text.new.items) e ((rule self.now).mark number byte (path self.now))) };

    /// Returns the length in bytes of the path that the emitter stores.
    fn path_length(&self) -> usize
        ensures { result ≡ length (path self.now) };

    /// Appends `number` to the path. An emitter whose marks show no path may leave the path as it is. Fails only if an
    /// allocation is refused.
    fn step_below(&mut self, number: u32) -> Result<(), Broken>
        ensures below { OnOk result (path self.new ≡ (rule self.old).below (path self.old) number) }
        ensures back { OnOk result (take (length (path self.old)) (path self.new) ≡ path self.old) }
        ensures rule { OnOk result (rule self.new ≡ rule self.old) }
        ensures of { OnOk result ((m : List (List ℕ)) → is_of self.old m → is_of self.new m) }
        ensures memory { IfErr result (λ e. e ≡ broken.Memory) };

    /// Shortens the path that the emitter stores to its first `length` bytes.
    fn step_back(&mut self, length: usize)
        ensures path { path self.new ≡ take length (path self.old) }
        ensures rule { rule self.new ≡ rule self.old }
        ensures of { (m : List (List ℕ)) → is_of self.old m → is_of self.new m };
}

/// The emitter of lines without marks. `QUOTED` says whether a list of bytes that is a text is written between quotes.
/// The type has no fields, so an emitter takes no memory.
#[derive(Drop)]
pub struct Lines<const QUOTED: bool>;

impl<const QUOTED: bool> Emitter for Lines<QUOTED> {
    ghost rule = { λ e. plain_rule QUOTED };

    ghost path = { λ e. [] };

    ghost is_of = { λ e m. ⊤ };

    #[inline(always)]
    fn is_text(&self, bytes: &[u8]) -> bool {
        QUOTED && is_text(bytes)
    }

    #[inline(always)]
    fn put_text<W: Write, A: Allocator>(
        &self,
        text: &mut Vec<u8, A>,
        writer: &mut Watched<W>,
        level: u32,
        bytes: &[u8],
    ) -> Result<(), Broken> {
        show_quoted(text, writer, bytes, level)
    }

    #[inline(always)]
    fn put_piece<W: Write, A: Allocator>(
        &self,
        text: &mut Vec<u8, A>,
        writer: &mut Watched<W>,
        level: u32,
        piece: Piece,
    ) -> Result<(), Broken> {
        put_line_piece(text, writer, level, piece)
    }

    #[inline(always)]
    fn byte_of<S: Space>(&self, _space: &S, _at: Place) -> u128 {
        0
    }

    #[inline(always)]
    fn put_mark<W: Write, A: Allocator>(
        &self,
        _text: &mut Vec<u8, A>,
        _writer: &mut Watched<W>,
        _number: u32,
        _byte: u128,
    ) -> Result<(), Broken> {
        Ok(())
    }

    #[inline(always)]
    fn path_length(&self) -> usize {
        0
    }

    #[inline(always)]
    fn step_below(&mut self, _number: u32) -> Result<(), Broken> {
        Ok(())
    }

    #[inline(always)]
    fn step_back(&mut self, _length: usize) {}
}
