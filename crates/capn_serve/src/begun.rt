//! The bytes of an unfinished message and of an unfinished packed group that a run holds when it ends.

ghost use Rattle.std.specs.Prelude.{◌≡◌, []};

use capn_pack::Unpacker;
use capn_stream::Framer;
use std::alloc::{Allocator, Global};
use std::marker::Model;

/// The bytes of an unfinished message and of an unfinished packed group that a run holds when it ends. (Our own.)
///
/// [`serve_form_with`](crate::serve_form_with) stores the bytes here, so that a refusal can be explained. The bytes of
/// the message begin with its segment table. If the input is packed, the bytes of the message are unpacked.
#[derive(Drop)]
pub struct Begun<A: Allocator + Copy = Global> {
    pub(crate) framer: Framer<A>,
    pub(crate) unpacker: Unpacker,
}

impl<A: Allocator + Copy> Model for Begun<A> {
    ghost use Rattle.capn_serve.specs.WhatCame.{Came};

    ghost Value = { Came };

    ghost view = { λ b. record { rest = b.framer.rest; group = b.unpacker.rest } };
}

impl<A: Allocator + Copy> Begun<A> {
    /// Returns a `Begun` without bytes, as before any run. No memory is allocated.
    pub fn new(alloc: A) -> Begun<A>
        ensures { result ≡ record { rest = []; group = [] } }
    {
        Begun {
            framer: Framer::new(alloc, 0),
            unpacker: Unpacker::new(),
        }
    }

    /// Returns the bytes that the run holds of the message at which it ended. If no message had begun, the slice is
    /// empty. If the message is cut off, the slice has all bytes that were read of that message. If the message has too
    /// many words, the slice has at least the segment table with its padding.
    pub fn message(&self) -> &[u8]
        ensures { result.now ≡ self.now.rest }
    {
        self.framer.held()
    }

    /// Returns the bytes that were read of an unfinished packed group. They begin with the tag of the group. If no
    /// group had begun, the slice is empty.
    pub fn group(&self) -> &[u8]
        ensures { result.now ≡ self.now.group }
    {
        self.unpacker.held()
    }
}
