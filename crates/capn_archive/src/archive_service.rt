//! The service `ArchiveService`, which carries out a `Task` for the messages of an archive.

ghost use Rattle.std.specs.Prelude.{◌≡◌, ℕ, List, Option, false};
ghost use Rattle.capn_words.specs.Watched.{inner_of, has_failed};
ghost use Rattle.capn_archive.specs.Tasks as spec;
ghost use Rattle.capn_archive.specs.Tasks.{AddsServed, Skips};
ghost use Rattle.capn_archive.specs.declared.task.Task.TheVariants as tasks;
ghost use Rattle.capn_serve.specs.Outgoing.{outgoing};
ghost use Rattle.capn_serve.specs.Service.{AddsOne};
ghost use Rattle.capn_serve.specs.declared.position.Position.{Position};
ghost use Rattle.capn_archive.specs.declared.tally.Tally.{Tally};

use crate::canonical_frame::add_frame;
use crate::digest::digest_if_any;
use crate::lines::{put_digests_line, put_list_line, put_refused_line};
use crate::measured::measured_of;
use crate::message_head::head_of;
use crate::tally::{Tally, count, skip};
use crate::task::{ArchiveOrder, Task};
use capn_canon::{Refusal, canonical_of, own_canonical};
use capn_serve::{Position, ServeFault, Service, flush_long};
use capn_walk::Limits;
use capn_words::{Space, Watched};
use std::alloc::Allocator;
use std::io::Write;

/// The service of a run over an archive, with the options of the run and the tally of the messages served so far.
///
/// For each message the service writes the text of the task. A refused message ends the run, or is skipped if
/// `order.keep_going` is set. A skipped message is counted, and `list` writes a line for it, with or without
/// `--digest`. The size of the tally does not depend on the length of the run.
#[derive(Clone, Copy, Debug, PartialEq, Eq)]
pub struct ArchiveService {
    /// The task, the limits, and whether refused messages are skipped.
    pub order: ArchiveOrder,
    /// The tally of the messages served so far.
    pub tally: Tally,
}

/// Adds a frame with the canonical bytes of `message` to the output. If one pass finds the message canonical, its own
/// bytes are used, and no canonical bytes are made.
fn serve_canonical<S: Space, W: Write, A: Allocator + Copy>(
    alloc: A,
    limits: Limits,
    message: &S,
    text: &mut Vec<u8, A>,
    writer: &mut Watched<W>,
) -> Result<(), ServeFault>
    requires { has_failed writer.old ≡ false }
    ensures { (tally : Tally) (at : Position) (frame : List ℕ) → AddsServed tasks.Canonical limits tally at frame
        (S.message message.now) (outgoing (W.contents (inner_of writer.old)) text.old.items)
        (outgoing (W.contents (inner_of writer.new)) text.new.items) (has_failed writer.new) result tally }
{
    if let Some(own) = own_canonical(message, limits) {
        return add_frame(own.bytes, text, writer);
    }
    let _budget = limits.budget();
    match canonical_of(alloc, message, limits) {
        Ok(canonical) => add_frame(&canonical.bytes, text, writer),
        Err(Refusal::Memory) => Err(ServeFault::Memory),
        Err(refusal) => Err(ServeFault::Refused(refusal)),
    }
}

/// Appends to `text` the line that `list` writes for `message`.
fn serve_list<S: Space, A: Allocator + Copy>(
    alloc: A,
    limits: Limits,
    at: Position,
    frame: &[u8],
    message: &S,
    text: &mut Vec<u8, A>,
) -> Result<(), ServeFault>
    ensures { (tally : Tally) (taken : Option (List ℕ)) → AddsServed tasks.List limits tally at frame.now
        (S.message message.now) (outgoing taken text.old.items) (outgoing taken text.new.items) false result tally }
{
    let measured = measured_of(alloc, message, limits)?;
    put_list_line(&head_of(at, frame, message), &measured, text)
}

/// Appends to `text` the line that `list --digest` writes for `message`.
fn serve_digests<S: Space, A: Allocator + Copy>(
    alloc: A,
    limits: Limits,
    at: Position,
    frame: &[u8],
    message: &S,
    text: &mut Vec<u8, A>,
) -> Result<(), ServeFault>
    ensures { (tally : Tally) (taken : Option (List ℕ)) → AddsServed tasks.Digests limits tally at frame.now
        (S.message message.now) (outgoing taken text.old.items) (outgoing taken text.new.items) false result tally }
{
    let measured = measured_of(alloc, message, limits)?;
    let digest = digest_if_any(alloc, limits, message)?;
    put_digests_line(&head_of(at, frame, message), &measured, digest, text)
}

/// Adds the size, price and depth of `message` to `tally`.
fn serve_limits<S: Space, A: Allocator + Copy>(
    alloc: A,
    limits: Limits,
    tally: &mut Tally,
    at: Position,
    frame: &[u8],
    message: &S,
) -> Result<(), ServeFault>
    ensures { (taken : Option (List ℕ)) (text : List ℕ) → AddsServed tasks.Limits limits tally.old at frame.now
        (S.message message.now) (outgoing taken text) (outgoing taken text) false result tally.new }
{
    let measured = measured_of(alloc, message, limits)?;
    let head = head_of(at, frame, message);
    count(
        tally,
        at.index,
        head.words,
        measured.survey.paid,
        measured.depth,
    );
    Ok(())
}

/// Carries out the task `order.task` for `message`.
fn serve_task<S: Space, W: Write, A: Allocator + Copy>(
    alloc: A,
    order: &ArchiveOrder,
    tally: &mut Tally,
    at: Position,
    frame: &[u8],
    message: &S,
    text: &mut Vec<u8, A>,
    writer: &mut Watched<W>,
) -> Result<(), ServeFault>
    requires { has_failed writer.old ≡ false }
    ensures { AddsServed order.now.task order.now.limits tally.old at frame.now (S.message message.now)
        (outgoing (W.contents (inner_of writer.old)) text.old.items)
        (outgoing (W.contents (inner_of writer.new)) text.new.items) (has_failed writer.new) result tally.new }
{
    match order.task {
        Task::List => serve_list(alloc, order.limits, at, frame, message, text),
        Task::Digests => serve_digests(alloc, order.limits, at, frame, message, text),
        Task::Limits => serve_limits(alloc, order.limits, tally, at, frame, message),
        Task::Canonical => serve_canonical(alloc, order.limits, message, text, writer),
    }
}

/// Counts the refused `message` as skipped. For the tasks `List` and `Digests`, also appends a line for the message to
/// `text`.
fn skip_message<S: Space, A: Allocator + Copy>(
    alloc: A,
    task: Task,
    tally: &mut Tally,
    at: Position,
    frame: &[u8],
    message: &S,
    refusal: Refusal,
    text: &mut Vec<u8, A>,
) -> Result<(), ServeFault>
    ensures { Skips task tally.old at frame.now (S.message message.now) refusal text.old.items text.new.items result
        tally.new }
{
    match task {
        Task::List | Task::Digests => {
            put_refused_line(alloc, &head_of(at, frame, message), &refusal, text)?;
        }
        Task::Limits | Task::Canonical => {}
    }
    skip(tally, at);
    Ok(())
}

impl ArchiveService {
    /// Carries out the task of `self.order` for `message`. If the message is refused and `keep_going` is set, skips it
    /// with `skip_message` instead.
    fn add_message<S: Space, W: Write, A: Allocator + Copy>(
        &mut self,
        alloc: A,
        at: Position,
        frame: &[u8],
        message: &S,
        text: &mut Vec<u8, A>,
        writer: &mut Watched<W>,
    ) -> Result<(), ServeFault>
        requires { has_failed writer.old ≡ false }
        ensures { AddsOne spec.serves spec.refuses self.old at frame.now (S.message message.now)
            (outgoing (W.contents (inner_of writer.old)) text.old.items)
            (outgoing (W.contents (inner_of writer.new)) text.new.items) (has_failed writer.new) result self.new }
    {
        let served = serve_task(
            alloc,
            &self.order,
            &mut self.tally,
            at,
            frame,
            message,
            text,
            writer,
        );
        match served {
            Err(ServeFault::Refused(refusal)) if self.order.keep_going => skip_message(
                alloc,
                self.order.task,
                &mut self.tally,
                at,
                frame,
                message,
                refusal,
                text,
            ),
            served => served,
        }
    }
}

impl Service for ArchiveService {
    ghost use Rattle.capn_archive.specs.Tasks as spec;
    ghost use Rattle.capn_serve.specs.Fold.{never};

    ghost serves = { spec.serves };

    ghost refuses = { spec.refuses };

    ghost done = { never };

    #[inline(always)]
    fn is_done(&self, _at: Position) -> bool {
        false
    }

    fn serve<S: Space, W: Write, A: Allocator + Copy>(
        &mut self,
        alloc: A,
        at: Position,
        frame: &[u8],
        message: &S,
        text: &mut Vec<u8, A>,
        writer: &mut Watched<W>,
    ) -> Result<(), ServeFault> {
        self.add_message(alloc, at, frame, message, text, writer)?;
        flush_long(text, writer)
    }
}
