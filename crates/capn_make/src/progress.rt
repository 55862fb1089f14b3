//! The state of a run between two chunks of its input, and the steps that parse texts and write their messages.

ghost use Rattle.std.specs.Prelude.{◌≡◌, ◌≢◌, ◌≤◌, ◌+◌, ◌^◌, ℕ, List, [], ◌++◌, length, drop, true, false};
ghost use Rattle.std.specs.Prelude.{Option, IfOk, IfErr, IsErrOf, OnErr};
ghost use Rattle.capn_words.specs.Watched.{inner_of, has_failed};
ghost use Rattle.capn_make.specs.inner.RunParts as spec;
ghost use Rattle.capn_make.specs.inner.RunParts.{GivesMade, GoesOn, HasCome, HasMade, HasRoom, IsFresh, IsUnderWay};
ghost use Rattle.capn_make.specs.inner.RunParts.{IsWholeFrom, TellsCut, TellsRefusal, WritesMade};
ghost use Rattle.capn_make.specs.inner.SinkRun.{Feeds, Writes};

use crate::end_line::is_due;
use crate::fault::MakeFault;
use crate::laws::refusing;
use crate::whole_texts::make_texts;
use capn_canon::Form;
use capn_text::{Texts, lines_in};
use capn_words::Watched;
use std::alloc::{AllocError, Allocator};
use std::io::Write;

/// The state of a run: the messages that are not written yet, and the bytes of the input that have no message yet.
#[derive(Drop)]
pub(crate) struct Progress<A: Allocator> {
    alloc: A,
    /// The form in which the messages are written.
    pub(crate) form: Form,
    /// The messages that are not written yet.
    pub(crate) made: Vec<u8, A>,
    /// The bytes of the input after the texts that have a message.
    pub(crate) rest: Vec<u8, A>,
    /// The line of the input at which `rest` begins.
    pub(crate) line: u64,
    /// The length that `rest` had when its texts were last parsed.
    pub(crate) tested: usize,
}

/// Removes the first `count` elements of `bytes`.
fn drop_front<A: Allocator>(bytes: &mut Vec<u8, A>, count: usize)
    requires { count ≤ length bytes.old.items }
    ensures { bytes.new.items ≡ drop count bytes.old.items }
{
    let len = bytes.len();
    bytes.copy_within(count..len, 0);
    bytes.truncate(len - count);
}

/// Tests whether the sum of `line` and the length of `rest` is below 2^64. If it is, and `rest` begins at `line` of the
/// input, the numbers of all lines of `rest` are below 2^64.
fn has_room(line: u64, rest: &[u8]) -> bool
    ensures room { result ≡ true → HasRoom line rest.now }
    ensures none { result ≡ false → 2 ^ 64 ≤ line + length rest.now }
{
    rest.len() as u64 <= u64::MAX - line
}

/// Returns `true` if the part of the input that causes `fault` is complete in `rest`, which begins at `line`. A wrong
/// line is complete if it has its newline.
fn is_whole(rest: &[u8], line: u64, fault: MakeFault) -> bool
    ensures whole { result ≡ true → IsWholeFrom line rest.now fault }
    ensures cut { result ≡ false → IsWholeFrom line rest.now fault → ⊥ }
{
    match fault {
        MakeFault::NotText(wrong) => wrong < line || wrong - line < lines_in(rest),
        MakeFault::NoText => false,
        _ => true,
    }
}

/// Returns `true` if `fault` is a wrong line and `cut` is not set, so that no further bytes can mend the line. The line
/// need not have its newline yet.
fn is_lost(fault: MakeFault, cut: bool) -> bool
    ensures { result ≡ spec.is_lost fault cut }
{
    match fault {
        MakeFault::NotText(_) => !cut,
        MakeFault::Memory
        | MakeFault::Io
        | MakeFault::InputTooLong
        | MakeFault::NoText
        | MakeFault::Misfit(_, _)
        | MakeFault::Capability(_, _)
        | MakeFault::Another(_) => false,
    }
}

impl<A: Allocator + Copy> Progress<A> {
    /// Creates the state at the beginning of an input. Takes no memory.
    pub(crate) fn new(alloc: A, form: Form) -> Progress<A>
        ensures form { result.form ≡ form }
        ensures new { IsFresh result.made.items result.rest.items result.line result.tested }
    {
        Progress {
            alloc,
            form,
            made: Vec::new(alloc),
            rest: Vec::new(alloc),
            line: 1,
            tested: 0,
        }
    }

    /// Parses the complete texts in `rest`, adds their messages to `made`, and leaves the bytes after these texts in
    /// `rest`. Returns the result that the run has if no bytes follow. If a line is wrong, sets `cut` if more bytes may
    /// mend the line, and clears `cut` otherwise.
    fn go_on(&mut self, cut: &mut bool) -> Result<(), MakeFault>
        requires { HasRoom self.old.line self.old.rest.items }
        ensures made { (input : List ℕ) (written : List ℕ)
            → HasMade self.old.form input (record { rest = self.old.rest.items; line = self.old.line })
            (written ++ self.old.made.items)
            → GoesOn self.old.form input (record { rest = self.new.rest.items; line = self.new.line })
            (written ++ self.new.made.items) result }
        ensures cut { IfErr result (λ e. TellsCut self.old.form
            (record { rest = self.new.rest.items; line = self.new.line }) cut.new e) }
        ensures memory { IsErrOf result MakeFault.Memory → self.old.rest.items ≢ [] }
        ensures form { self.new.form ≡ self.old.form }
    {
        let Some(mut texts) = Texts::from_line(&self.rest, self.line) else {
            unreachable!()
        };
        let ending = make_texts(self.alloc, self.form, &mut texts, &mut self.made, cut);
        let line = texts.line();
        let count = self.rest.len() - texts.left();
        drop_front(&mut self.rest, count);
        self.line = line;
        ending
    }

    /// Parses the complete texts in `rest`, adds their messages to `made`, and leaves the bytes after these texts in
    /// `rest`. If the call returns a fault, the input is refused with that fault, whatever bytes follow.
    fn find_refusal(&mut self) -> Result<Option<MakeFault>, AllocError>
        requires { HasRoom self.old.line self.old.rest.items }
        ensures found { IfOk result (λ told. (input : List ℕ) (written : List ℕ)
            → HasMade self.old.form input (record { rest = self.old.rest.items; line = self.old.line })
            (written ++ self.old.made.items)
            → TellsRefusal self.old.form input (record { rest = self.new.rest.items; line = self.new.line })
            (written ++ self.new.made.items) told) }
        ensures memory { OnErr result (self.old.rest.items ≢ []) }
        ensures form { self.new.form ≡ self.old.form }
    {
        refusing();
        let mut cut = false;
        match self.go_on(&mut cut) {
            Ok(()) => Ok(None),
            Err(fault) => match fault {
                MakeFault::Memory => Err(AllocError),
                other => {
                    if is_whole(&self.rest, self.line, other) {
                        Ok(Some(other))
                    } else if is_lost(other, cut) {
                        Ok(Some(other))
                    } else {
                        Ok(None)
                    }
                }
            },
        }
    }

    /// Writes the messages in `made`. In form `Bare` they stay in `made`, since nothing is written before the end of
    /// the input.
    fn write_made<W: Write>(&mut self, writer: &mut Watched<W>) -> Result<(), MakeFault>
        requires { has_failed writer.old ≡ false }
        ensures wrote { WritesMade self.old.form (W.contents (inner_of writer.old)) (W.contents (inner_of writer.new))
            (has_failed writer.new) self.old.made.items self.new.made.items result }
        ensures kept { (self.new.rest ≡ self.old.rest) × (self.new.line ≡ self.old.line)
            × (self.new.form ≡ self.old.form) }
    {
        if let Form::Stream | Form::Packed = self.form {
            writer.write_all(&self.made)?;
            self.made.clear();
        }
        Ok(())
    }

    /// Looks at the bytes that were added to `rest` after its first `before` bytes. Parses `rest` again if a text may
    /// have ended, or if `rest` has at least four times the bytes that it had when it was last parsed. Writes the
    /// messages of the complete texts, except in form `Bare`, which keeps them in `made`. Returns the fault of an input
    /// that is refused whatever bytes follow, or of a run that cannot continue.
    pub(crate) fn look<W: Write>(
        &mut self,
        before: usize,
        writer: &mut Watched<W>,
    ) -> Result<(), MakeFault>
        requires fine { has_failed writer.old ≡ false }
        requires within { before ≤ length self.old.rest.items }
        ensures looked { (input : List ℕ) (c : Option (List ℕ))
            → HasCome self.old.form input c (W.contents (inner_of writer.old)) self.old.made.items
            self.old.rest.items self.old.line self.old.tested before
            → Feeds (λ bytes a b. IsUnderWay self.new.form bytes a b self.new.made.items self.new.rest.items
            self.new.line self.new.tested) (GivesMade self.old.form) input c (W.contents (inner_of writer.new)) result
            × Writes MakeFault.Io (W.contents (inner_of writer.old)) (W.contents (inner_of writer.new))
            (has_failed writer.new) result }
        ensures form { self.new.form ≡ self.old.form }
    {
        if !is_due(&self.rest, before, self.tested) {
            return Ok(());
        }
        if !has_room(self.line, &self.rest) {
            return Err(MakeFault::InputTooLong);
        }
        let refusal = self.find_refusal()?;
        self.write_made(writer)?;
        if let Some(fault) = refusal {
            return Err(fault);
        }
        self.tested = self.rest.len();
        Ok(())
    }

    /// Parses `rest` at the input's end. Writes `made` after `Ok`, and also after a refusal if the form is not `Bare`.
    pub(crate) fn end<W: Write>(&mut self, writer: &mut Watched<W>) -> Result<(), MakeFault>
        requires { has_failed writer.old ≡ false }
        ensures { (input : List ℕ) (c : Option (List ℕ)) (before : ℕ)
            → HasCome self.old.form input c (W.contents (inner_of writer.old)) self.old.made.items
            self.old.rest.items self.old.line self.old.tested before
            → GivesMade self.old.form input [] c (W.contents (inner_of writer.new)) result
            × Writes MakeFault.Io (W.contents (inner_of writer.old)) (W.contents (inner_of writer.new))
            (has_failed writer.new) result }
    {
        if !has_room(self.line, &self.rest) {
            return Err(MakeFault::InputTooLong);
        }
        let mut cut = false;
        match self.go_on(&mut cut) {
            Ok(()) => Ok(writer.write_all(&self.made)?),
            Err(fault) => match fault {
                MakeFault::Memory => Err(MakeFault::Memory),
                other => {
                    self.write_made(writer)?;
                    Err(other)
                }
            },
        }
    }
}
