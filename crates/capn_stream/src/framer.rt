//! The type `Framer`, which takes messages from a stream that is given in pieces.

ghost use Rattle.std.specs.Prelude.{◌≡◌, ◌↔◌, IsTrue, ℕ, ◌+◌, ◌<◌, ◌≤◌, ◌++◌, List, [], length, false};
ghost use Rattle.std.specs.Prelude.{IfErr, IsErrOf};
ghost use Rattle.capn_words.specs.Message.{most_message_words};
ghost use Rattle.capn_stream.specs.StreamPieces.{FeedGives, FinishGives, IsFrame, IsUnfinished, KeepsHead, TakeGives};
ghost use Rattle.capn_stream.specs.FrameRefusal.{EndsWithin};
ghost use Rattle.capn_stream.specs.NextMessage.{most_bytes};

use crate::fault::FrameFault;
use crate::stage::{Stage, fill, part_left};
use crate::stored::Stored;
use std::alloc::{Allocator, Global};
use std::marker::Model;
use std::mem;

/// A reader of messages from a stream that is given in pieces. A piece may end anywhere. (Our own.)
///
/// A framer stores the bytes that were fed since the last message was taken. It also stores what the table among those
/// bytes announces, so that no byte is read twice. The first bytes of a frame reserve at least 64 bytes in the buffer.
/// The buffer then grows with the bytes that are fed, and not with the size that a table announces. After any error
/// each later `feed` and `finish` returns `Failed`, and `take` returns `None`.
#[derive(Debug, Drop)]
pub struct Framer<A: Allocator + Copy = Global> {
    alloc: A,
    frame: Vec<u8, A>,
    ends: Vec<u32, A>,
    stage: Stage,
    max_words: u32,
    failed: bool,
}

impl<A: Allocator + Copy> Model for Framer<A> {
    ghost use Rattle.capn_stream.specs.StreamPieces.{Framing, IsFramer};

    ghost Value = { Framing };

    ghost view = { λ f. record { rest = f.frame.items; most = f.max_words; failed = f.failed } };

    ghost invariant = { λ f. IsFramer f.frame.items f.ends.items f.stage f.max_words f.failed };
}

impl<A: Allocator + Copy> Framer<A> {
    /// Returns a framer at the beginning of a stream, for messages of at most `max_words` words. Takes no memory.
    pub fn new(alloc: A, max_words: u32) -> Framer<A>
        requires { max_words ≤ most_message_words }
        ensures { result ≡ record { rest = []; most = max_words; failed = false } }
    {
        Framer {
            alloc,
            frame: Vec::new(alloc),
            ends: Vec::new(alloc),
            stage: Stage::Count,
            max_words,
            failed: false,
        }
    }

    /// Reads bytes of `piece` until a message is complete or `piece` ends. Returns the number of bytes that were read.
    ///
    /// While a complete message waits to be taken, `feed` reads no bytes. Errors: `TooManySegments` once the count is
    /// read, `TooManyWords` once the table and its padding are read, `Memory` if an allocation was refused, `Failed`
    /// after an earlier error.
    #[inline]
    pub fn feed(&mut self, piece: &[u8]) -> Result<usize, FrameFault>
        ensures gives { FeedGives self.old piece.now result self.new }
        // If a table announces too many words, the framer stores all of the table.
        ensures kept { IfErr result (λ e. KeepsHead self.old.rest piece.now self.old.most self.new.rest e) }
        // `Memory` is returned only if `piece` has bytes and no complete message waits.
        ensures memory { IsErrOf result FrameFault.Memory
            → (0 < length piece.now) × IsUnfinished self.old.rest self.old.most }
    {
        if self.failed {
            return Err(FrameFault::Failed);
        }
        let fed = fill(
            self.alloc,
            &mut self.frame,
            &mut self.ends,
            &mut self.stage,
            piece,
            self.max_words,
        );
        self.failed = fed.is_err();
        fed
    }

    /// Returns the number of bytes that the current part of the frame still needs. No message is complete before that
    /// many more bytes are fed.
    pub(crate) fn wanted(&self) -> usize
        requires { self.now.failed ≡ false }
        ensures least { (more : List ℕ) → IsFrame (self.now.rest ++ more) self.now.most → result ≤ length more }
        ensures some { IsUnfinished self.now.rest self.now.most → 0 < result }
        ensures bound { length self.now.rest + result ≤ most_bytes self.now.most }
        ensures within { (more : List ℕ) → length more ≤ result → EndsWithin (self.now.rest ++ more) self.now.most }
    {
        part_left(self.stage, &self.frame)
    }

    /// Tests whether no byte was fed since the last message was taken.
    #[inline]
    pub fn is_empty(&self) -> bool
        ensures { IsTrue result ↔ (self.now.rest ≡ []) }
    {
        self.frame.is_empty()
    }

    /// Returns the bytes that were fed since the last message was taken: the complete frame of the message that waits,
    /// or the beginning of a frame. After `TooManyWords` the result is a prefix of the frame with the complete table.
    /// After other errors the result is not specified.
    #[inline]
    pub fn held(&self) -> &[u8]
        ensures { result.now ≡ self.now.rest }
    {
        &self.frame
    }

    /// Returns the complete message that waits to be taken, and removes it from the framer. Returns `None` if no
    /// message is complete, and after an error. Takes no memory, since the buffer is moved.
    #[inline]
    pub fn take(&mut self) -> Option<Stored<A>>
        ensures { TakeGives self.old result self.new }
    {
        if self.failed {
            return None;
        }
        match self.stage {
            Stage::Contents(start, end) if end == self.frame.len() => {
                let frame = mem::replace(&mut self.frame, Vec::new(self.alloc));
                let ends = mem::replace(&mut self.ends, Vec::new(self.alloc));
                self.stage = Stage::Count;
                Some(Stored::new(frame, start, ends))
            }
            _ => None,
        }
    }

    /// Tells the framer that the stream ends here.
    ///
    /// Errors: `Cut` if a message has begun and is not complete, `Failed` after an earlier error. After `Ok` the stream
    /// may continue. Takes no memory.
    pub fn finish(&mut self) -> Result<(), FrameFault>
        ensures { FinishGives self.old result self.new }
    {
        if self.failed {
            return Err(FrameFault::Failed);
        }
        match self.stage {
            Stage::Contents(_, end) if end == self.frame.len() => Ok(()),
            _ => {
                if self.frame.is_empty() {
                    return Ok(());
                }
                self.failed = true;
                Err(FrameFault::Cut)
            }
        }
    }
}
