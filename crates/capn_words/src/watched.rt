//! A wrapper of a reader or a writer that remembers whether a call failed.

ghost use Rattle.std.specs.Prelude.{◌≡◌, ℕ, ◌<◌, ◌≤◌, Bool, true, false, ◌||◌, is_err, OnOk};
ghost use Rattle.std.specs.Io.{ReadsAtMost, WritesAtMost};
ghost use Rattle.std.specs.Io.KnownBytes.{Appends, Keeps, ReadConsumes, WriteAppends};
ghost use Rattle.capn_words.specs.Watched.{HasBegun, has_failed, inner_of, write_fails};

use std::io::{ErrorKind, Read, Result, Write};

/// A reader or a writer, with a flag that says whether a call on it has failed. (Our own.)
///
/// A call that returns an error sets the flag. A write of at least one byte also sets the flag if the writer returns 0.
/// `Interrupted` counts as an error, and so does the error of a flush. Every call is passed on to the inner reader or
/// writer, also after a failure.
#[derive(Debug, Drop)]
pub struct Watched<T> {
    inner: T,
    failed: bool,
}

impl<T> Watched<T> {
    /// Wraps `inner`, with the flag not set.
    pub fn new(inner: T) -> Watched<T>
        ensures inner { inner_of result ≡ inner }
        ensures failed { has_failed result ≡ false }
    {
        Watched {
            inner,
            failed: false,
        }
    }

    /// Tests whether a call has returned an error, or a write of at least one byte has returned 0.
    pub fn failed(&self) -> bool
        ensures { result ≡ has_failed self.now }
    {
        self.failed
    }

    /// Returns the reader or writer that was wrapped.
    pub fn into_inner(self) -> T
        ensures { result ≡ inner_of self }
    {
        let Watched { inner, failed: _ } = self;
        inner
    }
}

impl<R: Read> Watched<R> {
    /// Reads into `buf` with the inner reader, and returns the reader's result: the number of bytes that were read to
    /// the start of `buf`, or an error. An error sets the flag.
    pub fn read(&mut self, buf: &mut [u8]) -> Result<usize>
        ensures bound { ReadsAtMost result buf.new }
        ensures bytes { ReadConsumes (R.remaining (inner_of self.old)) (R.remaining (inner_of self.new))
            result buf.new }
        ensures failed { has_failed self.new ≡ (has_failed self.old || is_err result) }
    {
        let answer = self.inner.read(buf);
        self.failed |= answer.is_err();
        answer
    }
}

impl<W: Write> Watched<W> {
    /// Writes `buf` with the inner writer, and returns the writer's result: the number of bytes that were written from
    /// the start of `buf`, or an error. An error sets the flag. The number 0 sets the flag too, if `buf` is not empty.
    pub fn write(&mut self, buf: &[u8]) -> Result<usize>
        ensures bound { WritesAtMost result buf.now }
        ensures bytes { WriteAppends (W.contents (inner_of self.old)) (W.contents (inner_of self.new))
            result buf.now }
        ensures failed { has_failed self.new ≡ (has_failed self.old || write_fails result buf.now) }
    {
        let answer = self.inner.write(buf);
        self.failed |= match answer {
            Ok(taken) => taken == 0 && !buf.is_empty(),
            Err(_) => true,
        };
        answer
    }

    /// Writes all of `text`, by as many calls of `write` as needed.
    ///
    /// Fails at the first call that returns an error or 0. In that case a prefix of `text` was written.
    pub fn write_all(&mut self, text: &[u8]) -> Result<()>
        ensures ok { OnOk result (Appends (W.contents (inner_of self.old)) (W.contents (inner_of self.new)) text.now) }
        ensures begun { HasBegun (W.contents (inner_of self.old)) (W.contents (inner_of self.new)) text.now }
        ensures failed { has_failed self.new ≡ (has_failed self.old || is_err result) }
    {
        let mut at = 0;
        while at < text.len() {
            match self.write(&text[at..]) {
                Err(error) => return Err(error),
                Ok(0) => return Err(ErrorKind::WriteZero.into()),
                Ok(count) => at += count,
            }
        }
        Ok(())
    }

    /// Flushes the inner writer, and returns the writer's result. An error sets the flag.
    pub fn flush(&mut self) -> Result<()>
        ensures kept { Keeps (W.contents (inner_of self.old)) (W.contents (inner_of self.new)) }
        ensures failed { has_failed self.new ≡ (has_failed self.old || is_err result) }
    {
        let answer = self.inner.flush();
        self.failed |= answer.is_err();
        answer
    }
}
