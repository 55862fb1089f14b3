//! The trait of sinks, which take an input in chunks, and the loop of this crate that reads for them.
//!
//! This file uses nothing else of the crate, so that everything that reads an input can use it. The ghost members of a
//! sink state what is true after the sink took some bytes ([`Sink::takes`]) and after a run ([`Sink::gives`]). The
//! clauses of [`run`] follow from these statements.

ghost use Rattle.std.specs.Prelude.{◌≡◌, ◌≢◌, ◌≤◌, ◌<◌, ◌+◌, ◌^◌, ◌++◌, ℕ, false, List, [], length};
ghost use Rattle.std.specs.Prelude.{Option, Result, Err, MatchOption};
ghost use Rattle.capn_words.specs.Watched.{inner_of, has_failed};
ghost use Rattle.capn_make.specs.inner.SinkRun.{Feeds, Holds, ReadsPiece, Runs, Writes};

use capn_words::Watched;
use std::io::{Read, Write};

/// The greatest number of bytes that one call of a reader may return.
const CHUNK: usize = 65_536;

/// A consumer that takes an input in chunks, and writes its output to a writer.
pub(crate) trait Sink {
    /// The reason why a run ends early.
    type Fault;

    /// The type of the task of a sink, for example the form of the output. The task does not change during a run.
    type Task;

    /// The task of the sink.
    ghost task: { Self → Self.Task };

    /// States that the sink took the given bytes. The two options are the contents of the writer before and after that.
    ghost takes: { Self → List ℕ → Option (List ℕ) → Option (List ℕ) → Type 0 };

    /// States that a run with the given task read the first list of bytes, and left the second in the input. The two
    /// options are the contents of the writer before and after the run. The last argument is the result of the run.
    ghost gives: { Self.Task → List ℕ → List ℕ → Option (List ℕ) → Option (List ℕ) → Result (Unit {0}) Self.Fault
        → Type 0 };

    /// The fault of a reader or a writer that failed.
    ghost io: { Self.Fault };

    /// Returns the fault of a reader or a writer that failed.
    fn broken() -> Self::Fault
        ensures { result ≡ io };

    /// Returns the fault of an input of 2^64 bytes or more.
    fn too_long(&self) -> Self::Fault
        ensures long { (bytes : List ℕ) (piece : List ℕ) (more : List ℕ) (c : Option (List ℕ)) (d : Option (List ℕ))
            → takes self.now bytes c d → 2 ^ 64 ≤ length (bytes ++ piece)
            → gives (task self.now) (bytes ++ piece) more c d (Err result) }
        ensures other { result ≢ io };

    /// Takes the next chunk, `piece`, and writes to `writer` what has to be written before more is read. Returns the
    /// fault of an input that is refused whatever bytes follow, or of a run that cannot continue.
    fn feed<W: Write>(&mut self, piece: &[u8], writer: &mut Watched<W>) -> Result<(), Self::Fault>
        requires fine { has_failed writer.old ≡ false }
        requires some { piece.now ≢ [] }
        ensures fed { (bytes : List ℕ) (c : Option (List ℕ)) → takes self.old bytes c (W.contents (inner_of writer.old))
            → Feeds (takes self.new) (gives (task self.old)) (bytes ++ piece.now) c (W.contents (inner_of writer.new))
            result × Writes io (W.contents (inner_of writer.old)) (W.contents (inner_of writer.new))
            (has_failed writer.new) result }
        ensures same { task self.new ≡ task self.old };

    /// Ends an input that has no more bytes, and writes to `writer` what is not written yet.
    fn finish<W: Write>(&mut self, writer: &mut Watched<W>) -> Result<(), Self::Fault>
        requires fine { has_failed writer.old ≡ false }
        ensures { (bytes : List ℕ) (c : Option (List ℕ)) → takes self.old bytes c (W.contents (inner_of writer.old))
            → gives (task self.old) bytes [] c (W.contents (inner_of writer.new)) result
            × Writes io (W.contents (inner_of writer.old)) (W.contents (inner_of writer.new)) (has_failed writer.new)
            result };
}

/// Calls the reader once to read into `buffer`. Returns the number of bytes, which is 0 only at the end of the input,
/// or `None` if the reader failed.
fn read_piece<R: Read>(reader: &mut Watched<R>, buffer: &mut [u8]) -> Option<usize>
    requires fine { has_failed reader.old ≡ false }
    requires some { 0 < length buffer.old }
    requires few { length buffer.old ≤ 65536 }
    ensures { ReadsPiece (R.remaining (inner_of reader.old)) (R.remaining (inner_of reader.new))
        (has_failed reader.new) buffer.new result }
{
    match reader.read(buffer) {
        Ok(count) => Some(count),
        Err(_) => None,
    }
}

/// Returns the number of bytes read so far, which is the sum of `taken` and `count`. Returns `None` if the sum is 2^64
/// or more, which takes centuries.
fn counted(taken: u64, count: usize) -> Option<u64>
    ensures { MatchOption result (2 ^ 64 ≤ taken + count) (λ sum. (sum ≡ taken + count) × (sum < 2 ^ 64)) }
{
    taken.checked_add(count as u64)
}

/// Reads an input in chunks of at most 65,536 bytes, and has `sink` take each chunk before the next is read. Stops when
/// `sink` returns a fault, the reader fails, the input ends, or 2^64 bytes were read. The loop allocates no memory.
pub(crate) fn run<S: Sink, R: Read, W: Write>(
    sink: &mut S,
    reader: &mut Watched<R>,
    writer: &mut Watched<W>,
) -> Result<(), S::Fault>
    requires new { S.takes sink.old [] (W.contents (inner_of writer.old)) (W.contents (inner_of writer.old)) }
    requires reader_fine { has_failed reader.old ≡ false }
    requires writer_fine { has_failed writer.old ≡ false }
    ensures { Runs (Holds S.task S.takes (S.task sink.old)) (S.gives (S.task sink.old)) S.io sink.new
        (R.remaining (inner_of reader.old)) (R.remaining (inner_of reader.new)) (W.contents (inner_of writer.old))
        (W.contents (inner_of writer.new)) (has_failed reader.new) (has_failed writer.new) result }
{
    let mut buffer = [0; CHUNK];
    let mut taken: u64 = 0;
    'pieces: loop {
        let Some(count) = read_piece(reader, &mut buffer) else {
            return Err(S::broken());
        };
        if count == 0 {
            return sink.finish(writer);
        }
        let Some(sum) = counted(taken, count) else {
            return Err(sink.too_long());
        };
        taken = sum;
        sink.feed(&buffer[..count], writer)?;
    }
}
