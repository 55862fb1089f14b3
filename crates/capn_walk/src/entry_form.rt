//! The forms in which index entries are written to a room. A room is a slice of items.

ghost use Rattle.std.specs.Prelude.{◌≡◌, set};
ghost use Rattle.capn_walk.specs.declared.entry.Entry.{Entry as Entries};

use crate::entry::Entry;

/// A form of index entries, which determines the item that a room holds for each entry.
///
/// A slot's entry is written first, with span 1. If there are slots below that slot, their entries follow, and then the
/// slot's span is set. No item is read, and nothing is written past the end of the room.
pub trait EntryForm {
    /// The type of item that a room holds for an entry.
    type Item;

    /// The item that is stored for an entry.
    ghost written: { Self → Entries → Self.Item };

    /// Writes `entry` at index `at` of `room`, if `at` is below the length of `room`.
    fn put(&self, room: &mut [Self::Item], at: u32, entry: Entry)
        ensures { room.new ≡ set room.old at (written self.now entry) };

    /// Sets the span of the entry at index `at` of `room` to `span`, if `at` is below the length of `room`.
    fn set_span(&self, room: &mut [Self::Item], at: u32, span: u32)
        ensures { (e : Entries) → room.old ≡ set room.old at (written self.now e)
            → room.new ≡ set room.old at (written self.now (record e { span = span })) };
}

/// The form whose items are the entries themselves.
#[derive(Drop)]
pub struct Plain;

impl EntryForm for Plain {
    type Item = Entry;

    ghost written = { λ _ e. e };

    #[inline(always)]
    fn put(&self, room: &mut [Entry], at: u32, entry: Entry) {
        let at = at as usize;
        if at < room.len() {
            room[at] = entry;
        }
    }

    #[inline(always)]
    fn set_span(&self, room: &mut [Entry], at: u32, span: u32) {
        let at = at as usize;
        if at < room.len() {
            room[at].span = span;
        }
    }
}
