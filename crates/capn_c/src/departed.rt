//! The type `CapnDeparted`: the mismatch of a message with its canonical bytes, in the layout that C reads.

ghost use Rattle.std.specs.Prelude.{◌≡◌, ◌≤◌, length};
ghost use Rattle.capn_answers.specs.Mismatches as mismatches;
ghost use Rattle.capn_c.specs.Departed as told;

use capn_answers::{Mismatch, Whose};
use std::alloc::Global;

/// The first reason why a message is not canonical. A field that has no meaning for the kind is 0.
#[derive(Clone, Copy)]
#[repr(C)]
pub struct CapnDeparted {
    /// The message's word that differs, or the message's first word after the canonical bytes.
    pub is: u64,
    /// The word of the canonical bytes at the same place, if a word differs.
    pub canonical: u64,
    /// The number of the kind. 0: the message is canonical. 1: it has several segments. 2: the value has a capability.
    /// 3: a word differs. 4: words follow the canonical bytes.
    pub kind: u32,
    /// The role of the word that differs. 1: a pointer. 2: the tag word of a list. 3: the last word of a list.
    pub owner: u32,
    /// The index of the word `is` in the segment.
    pub word: u32,
    /// The number of segments for kind 1, or the index of the capability for kind 2.
    pub count: u32,
    /// The length of the path, in numbers.
    pub numbers: u32,
    /// Always 0.
    pub zero: u32,
}

/// Returns the number for the role `whose`: 1 for a pointer, 2 for a tag word, 3 for the last word of a list.
fn number_of_owner(whose: &Whose<Global>) -> u32
    ensures { result ≡ told.owner_number whose.now }
{
    match whose {
        Whose::Pointer(_) => 1,
        Whose::Tag(_) => 2,
        Whose::LastWord(_) => 3,
    }
}

/// Returns the path in `whose`, to the slot whose pointer or list the word belongs to.
fn path_of_owner(whose: &Whose<Global>) -> &[u32]
    ensures { result.now ≡ mismatches.owner_path whose.now }
{
    match whose {
        Whose::Pointer(path) => path.as_slice(),
        Whose::Tag(path) => path.as_slice(),
        Whose::LastWord(path) => path.as_slice(),
    }
}

/// Returns the path of `mismatch`, or no numbers if the kind of `mismatch` has no path.
pub fn path_of(mismatch: &Mismatch<Global>) -> &[u32]
    ensures { result.now ≡ mismatches.path_of mismatch.now }
{
    match mismatch {
        Mismatch::Canonical => &[],
        Mismatch::Segments(_) => &[],
        Mismatch::Capability(_, path) => path.as_slice(),
        Mismatch::Word { whose, .. } => path_of_owner(whose),
        Mismatch::After { .. } => &[],
    }
}

/// Returns a mismatch of the given `kind`. The path has `numbers` numbers, and all other fields are 0.
fn of_kind(kind: u32, numbers: u32) -> CapnDeparted
    ensures { result ≡ record {
      is = 0;
      canonical = 0;
      kind = kind;
      owner = 0;
      word = 0;
      count = 0;
      numbers = numbers;
      zero = 0;
    } }
{
    CapnDeparted {
        is: 0,
        canonical: 0,
        kind,
        owner: 0,
        word: 0,
        count: 0,
        numbers,
        zero: 0,
    }
}

/// Returns `mismatch` in the layout that C reads. The path of `mismatch` has `numbers` numbers.
pub fn departed_of(mismatch: &Mismatch<Global>, numbers: u32) -> CapnDeparted
    requires numbers { numbers ≡ length (mismatches.path_of mismatch.now) }
    ensures { result ≡ told.departed_of mismatch.now }
{
    match mismatch {
        Mismatch::Canonical => of_kind(0, numbers),
        Mismatch::Segments(count) => CapnDeparted {
            count: *count,
            ..of_kind(1, numbers)
        },
        Mismatch::Capability(index, _) => CapnDeparted {
            count: *index,
            ..of_kind(2, numbers)
        },
        Mismatch::Word {
            word,
            is,
            canonical,
            whose,
        } => CapnDeparted {
            is: *is,
            canonical: *canonical,
            owner: number_of_owner(whose),
            word: *word,
            ..of_kind(3, numbers)
        },
        Mismatch::After { word: end, is } => CapnDeparted {
            is: *is,
            word: *end,
            ..of_kind(4, numbers)
        },
    }
}
