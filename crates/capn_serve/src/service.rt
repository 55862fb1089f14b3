//! The trait of a service over the messages of a stream, and the state of a run: a service and the position of the next
//! message.

ghost use Rattle.std.specs.Prelude.{◌≡◌, Bool, List, ℕ, false};
ghost use Rattle.capn_words.specs.Watched.{inner_of, has_failed};
ghost use Rattle.capn_canon.specs.declared.refusal.Refusal.{Refusal};
ghost use Rattle.capn_serve.specs.declared.position.Position.{Position};
ghost use Rattle.capn_serve.specs.Outgoing.{outgoing};
ghost use Rattle.capn_serve.specs.Service.{DoesService};
ghost use Rattle.capn_serve.specs.StreamRun.{first_run};

use crate::fault::ServeFault;
use crate::position::Position;
use capn_words::{Space, Watched};
use std::alloc::Allocator;
use std::io::Write;

/// A fold over the messages of a stream. The service is itself the state of the fold.
pub trait Service {
    /// States which text is written for a message. The arguments are the state, the message's position, frame and
    /// segments, the text, and the next state.
    ghost serves: { Self → Position → List ℕ → List (List ℕ) → List ℕ → Self → Type 0 };

    /// States that a message is refused. The arguments are the state, the message's position, frame and segments, and
    /// the refusal.
    ghost refuses: { Self → Position → List ℕ → List (List ℕ) → Refusal → Type 0 };

    /// Tests, for a state and the position of the next message, whether the service is finished. A finished service
    /// serves no further message.
    ghost done: { Self → Position → Bool };

    /// Tests whether the service is finished before the next message, which is at the position `at`.
    ///
    /// A run over a stream calls this function before each read and after each message, and a run over a bare input
    /// once at its start. After `true` nothing more is read or served, and the run ends with `Ok`, or with `Io` if the
    /// writer fails. A service that serves all messages always returns `false`.
    fn is_done(&self, at: Position) -> bool
        ensures { result ≡ done self.now at };

    /// Adds the output for `message`. The output is appended to `text`, which the run writes later, or is written to
    /// `writer` after `text`.
    ///
    /// A service may append to `text`, and call [`flush_long`](crate::flush_long) at the end. For bytes that exist
    /// already a service may call [`add_bytes`](crate::add_bytes). A service with a long output may write `text` to
    /// `writer`, and then its own output chunk by chunk. A refusal is returned before the first byte of the message's
    /// output. After `Memory` or `Io` a prefix of that output may have been added. `Memory` is returned only for a
    /// message that is not refused.
    fn serve<S: Space, W: Write, A: Allocator + Copy>(
        &mut self,
        alloc: A,
        at: Position,
        frame: &[u8],
        message: &S,
        text: &mut Vec<u8, A>,
        writer: &mut Watched<W>,
    ) -> Result<(), ServeFault>
        requires fine { has_failed writer.old ≡ false }
        ensures { DoesService serves refuses self.old at frame.now (S.message message.now)
            (outgoing (W.contents (inner_of writer.old)) text.old.items)
            (outgoing (W.contents (inner_of writer.new)) text.new.items) (has_failed writer.new) result self.new };
}

/// A service, and the position of the next message.
#[derive(Drop)]
pub struct Run<S> {
    /// The service.
    pub service: S,
    /// The position of the next message.
    pub at: Position,
}

impl<S> Run<S> {
    /// Returns a run of `service` whose next message is the first, at index 0 and offset 0.
    pub fn new(service: S) -> Run<S>
        ensures { result ≡ first_run service }
    {
        Run {
            service,
            at: Position {
                index: 0,
                offset: 0,
            },
        }
    }
}

impl<S: Service> Run<S> {
    #[inline(always)]
    pub(crate) fn is_done(&self) -> bool
        ensures { result ≡ S.done self.now.service self.now.at }
    {
        self.service.is_done(self.at)
    }
}
