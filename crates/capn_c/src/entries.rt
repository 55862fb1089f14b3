//! The entries of an index as C reads them, with offsets in bytes in place of segments and words.

ghost use Rattle.std.specs.Prelude.{◌≡◌, ◌≤◌, ◌++◌, ◌+◌, ◌*◌, length, drop, get_or};
ghost use Rattle.capn_c.specs.Entries.{c_entry, kind_number, starts_from};

use capn_target::counted::{CountedSpace, Reads, segment_length};
use capn_walk::{Entry, EntryForm, Kind};
use capn_words::Space;
use std::sync::ledger::Ledger;

/// An entry of an index. It describes the target of the pointer in one slot.
#[derive(Clone, Copy)]
#[repr(C)]
pub struct CapnEntry {
    /// The offset in the bytes at which the target begins. A composite list begins at its tag word. If the target has
    /// no content, the offset is that of the message's first word.
    pub offset: u64,
    /// The number of elements or rows of a list, or the index of a capability, else 0.
    pub count: u32,
    /// The number of entries of the slot and of all slots below it.
    pub span: u32,
    /// The number of data words of a struct, or of each row, else 0.
    pub words: u16,
    /// The number of pointers of a struct, or of each row, else 0.
    pub slots: u16,
    /// The number that C has for the target's kind.
    pub kind: u32,
}

/// Returns the number that C has for `kind`.
#[inline(always)]
fn number_of_kind(kind: Kind) -> u32
    ensures { result ≡ kind_number kind }
{
    match kind {
        Kind::Nil => 0,
        Kind::Node => 1,
        Kind::Voids => 2,
        Kind::Bits => 3,
        Kind::Bytes => 4,
        Kind::Pairs => 5,
        Kind::Quads => 6,
        Kind::Octs => 7,
        Kind::Links => 8,
        Kind::Rows => 9,
        Kind::Cap => 10,
    }
}

/// Returns the word at which `segment` begins, counted from the end of the segment table. It is the number in `starts`
/// at index `segment`, or 0 if `starts` has no such index.
#[inline(always)]
fn start_of(starts: &[u32], segment: u32) -> u32
    ensures { result ≡ get_or starts.now segment 0 }
{
    let segment = segment as usize;
    if segment < starts.len() {
        starts[segment]
    } else {
        0
    }
}

/// Returns `entry` in the layout that C reads, with an offset in bytes. The segment table has `table` bytes.
/// `starts` has the word at which each segment begins, counted from the end of the table.
#[inline(always)]
fn entry_of(entry: Entry, table: u32, starts: &[u32]) -> CapnEntry
    ensures { result ≡ c_entry table starts.now entry }
{
    let start = start_of(starts, entry.segment) as u64;
    CapnEntry {
        offset: table as u64 + 8 * (start + entry.start as u64),
        count: entry.count,
        span: entry.span,
        words: entry.words,
        slots: entry.slots,
        kind: number_of_kind(entry.kind),
    }
}

/// The rule by which entries are written for C, with offsets in bytes.
#[derive(Drop)]
pub struct Offsets<'a> {
    /// The number of bytes of the segment table before the words.
    pub table: u32,
    /// The word at which each segment begins, counted from the end of the table.
    pub starts: &'a [u32],
}

impl<'a> EntryForm for Offsets<'a> {
    type Item = CapnEntry;

    ghost written = { λ o. c_entry o.table o.starts.now };

    #[inline(always)]
    fn put(&self, room: &mut [CapnEntry], at: u32, entry: Entry) {
        let at = at as usize;
        if at < room.len() {
            room[at] = entry_of(entry, self.table, self.starts);
        }
    }

    #[inline(always)]
    fn set_span(&self, room: &mut [CapnEntry], at: u32, span: u32) {
        let at = at as usize;
        if at < room.len() {
            room[at].span = span;
        }
    }
}

/// Writes to `starts` the word at which each of the `segments` segments of `space` begins, counted from the end of the
/// table. The other numbers of `starts` are unchanged. One read and one turn of the loop are counted for each segment.
#[tactic(auto, using(std::proofs::lemmas::List::Sums::sum_by_more_le))]
pub fn put_starts<S: Space, L: Ledger>(
    space: &CountedSpace<'_, S, L>,
    segments: u32,
    starts: &mut [u32],
    reads: &mut Reads<L>,
)
    requires segments { segments ≡ length space.now }
    requires room { length space.now ≤ length starts.old }
    ensures starts { starts.new ≡ starts_from 0 space.now ++ drop (length space.now) starts.old }
    ensures reads { reads.new ≤ reads.old + 2 * segments }
{
    space.bounds();
    let mut total = 0;
    for segment in 0..segments {
        reads.tick();
        starts[segment as usize] = total;
        total += segment_length(space, segment, reads);
    }
}
