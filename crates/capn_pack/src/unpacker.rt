//! The type `Unpacker`, which unpacks a text piece by piece.
ghost use Rattle.std.specs.Prelude.{◌≡◌, ◌≢◌, ◌++◌, [], true, false, IfErr, OnOk, IsErrOf, IsOk};
ghost use Rattle.capn_pack.specs.PackedPieces.{Feeds, Begins, NoGroupFirst};

use crate::fault::UnpackFault;
use crate::text_piece::{HELD, feed_held};
use std::alloc::Allocator;
use std::marker::Model;

/// An unpacker of a text that is given in pieces. A piece may end anywhere. (Our own.)
///
/// An unpacker stores the bytes of the unfinished group, at most 2,049, and the offset of that group's tag in the text.
/// The buffer for those bytes is in the unpacker itself, so memory is taken only for the words of a piece. After any
/// error each later `feed` and `finish` returns `Failed` and changes nothing.
#[derive(Debug, Drop)]
pub struct Unpacker {
    held: [u8; HELD],
    len: usize,
    offset: u64,
    failed: bool,
}

impl Model for Unpacker {
    ghost use Rattle.std.specs.Prelude.{take};
    ghost use Rattle.capn_pack.specs.PackedPieces.{Held};
    ghost use Rattle.capn_pack.specs.inner.Joins.{IsHeld};

    ghost Value = { Held };

    ghost view = { λ a. record { rest = take a.len a.held; offset = a.offset; failed = a.failed } };

    ghost invariant = { λ a. IsHeld a.held a.len };
}

impl Default for Unpacker {
    /// Returns an unpacker at the beginning of a text.
    fn default() -> Unpacker
        ensures { result ≡ record { rest = []; offset = 0; failed = false } }
    {
        Unpacker::new()
    }
}

impl Unpacker {
    /// Returns an unpacker at the beginning of a text. The call takes no memory.
    pub fn new() -> Unpacker
        ensures { result ≡ record { rest = []; offset = 0; failed = false } }
    {
        Unpacker {
            held: [0; HELD],
            len: 0,
            offset: 0,
            failed: false,
        }
    }

    /// Reads the next `piece` of the text. Appends to `out` the words of each group that becomes complete.
    ///
    /// If the result is `Ok`, all of `piece` was read, and the bytes of an unfinished group are stored. There is no
    /// maximum of words, since the length of the pieces bounds the number of words.
    ///
    /// Errors: `Memory` if an allocation for `out` was refused. In that case a prefix of the words was appended. A
    /// piece that completes no group takes no memory. `Failed` after an earlier error, and `out` is not changed.
    pub fn feed<A: Allocator>(
        &mut self,
        piece: &[u8],
        out: &mut Vec<u8, A>,
    ) -> Result<(), UnpackFault>
        // If `result` is `Ok`, `self.old.rest` and then `piece` are complete groups and then `self.new.rest`. The words
        // of the complete groups were appended.
        ensures fed { OnOk result (Feeds self.old piece.now out.old.items out.new.items self.new) }
        // If an allocation was refused, a prefix of the words was appended, and the text cannot be continued.
        ensures begun { IsErrOf result UnpackFault.Memory
            → Begins (self.old.rest ++ piece.now) out.old.items out.new.items
            × (self.new.failed ≡ true) }
        // An allocation can be refused only if a group became complete.
        ensures memory { IsErrOf result UnpackFault.Memory → NoGroupFirst (self.old.rest ++ piece.now) → ⊥ }
        // After an error, each later `feed` returns `Failed` and changes nothing.
        ensures failed { self.old.failed ≡ true → (result ≡ Err UnpackFault.Failed)
            × (out.new.items ≡ out.old.items) × (self.new ≡ self.old) }
        // If there was no earlier error, the only error is `Memory`.
        ensures kinds { self.old.failed ≡ false → IfErr result (λ e. e ≡ UnpackFault.Memory) }
    {
        if self.failed {
            return Err(UnpackFault::Failed);
        }
        match feed_held(&mut self.held, self.len, piece, out) {
            Ok(fed) => {
                self.len = fed.len;
                self.offset = self.offset.saturating_add(fed.taken as u64);
                Ok(())
            }
            Err(_) => {
                self.len = 0;
                self.failed = true;
                Err(UnpackFault::Memory)
            }
        }
    }

    /// Returns the bytes of the unfinished group from its tag on, also after `Cut`. The result is empty if no group has
    /// begun. After `Memory` the result is not specified.
    pub fn held(&self) -> &[u8]
        ensures { result.now ≡ self.now.rest }
    {
        &self.held[..self.len]
    }

    /// Tells the unpacker that the text ends here.
    ///
    /// Errors: `Cut` with the offset of the unfinished group's tag, if there is such a group. `Failed` after an earlier
    /// error. After `Ok` the text may continue. Takes no memory.
    pub fn finish(&mut self) -> Result<(), UnpackFault>
        ensures ok { OnOk result ((self.old.rest ≡ []) × (self.old.failed ≡ false) × (self.new ≡ self.old)) }
        ensures cut { self.old.failed ≡ false → self.old.rest ≢ []
            → (result ≡ Err (UnpackFault.Cut self.old.offset)) × (self.new.failed ≡ true) }
        ensures failed { self.old.failed ≡ true → (result ≡ Err UnpackFault.Failed) × (self.new ≡ self.old) }
        // Whatever `result` is, the bytes of the unfinished group stay.
        ensures kept { self.new.rest ≡ self.old.rest }
        ensures whole { self.old.failed ≡ false → self.old.rest ≡ [] → IsOk result }
    {
        if self.failed {
            return Err(UnpackFault::Failed);
        }
        if self.len == 0 {
            return Ok(());
        }
        self.failed = true;
        Err(UnpackFault::Cut { at: self.offset })
    }
}
