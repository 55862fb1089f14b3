//! The pointer words of a layout. Any change here that alters canonical bytes makes a new version of the canonical
//! form.

ghost use Rattle.std.specs.Prelude.{◌≡◌, ◌^◌, ◌<◌, ◌≤◌, pos};
ghost use Rattle.capn_words.specs.Pointers.{word_of};
ghost use Rattle.capn_words.specs.declared.pointer.Pointer.TheVariants.{Node};
ghost use Rattle.capn_layout.specs.Layout.{list_to, struct_to};

use capn_words::{Pointer, Width, join};

/// Returns the pointer at word `from` to a list of `count` elements of `width` whose content starts at word `to`. For
/// `Width::Rows`, `count` is the number of words after the tag.
#[inline(always)]
pub fn list_pointer(from: usize, to: usize, width: Width, count: usize) -> u64
    requires order { from < to }
    requires room { to ≤ 2 ^ 29 }
    requires few { count < 2 ^ 29 }
    ensures { result ≡ list_to from to width count }
{
    let offset = (to - from - 1) as i32;
    join(Pointer::Many {
        offset,
        width,
        count: count as u32,
    })
}

/// Returns the pointer at word `from` to a struct of `words` words and `slots` slots whose content starts at word `to`.
/// The pointer to a struct without words and without slots has offset -1.
#[inline(always)]
pub fn struct_pointer(from: usize, to: usize, words: usize, slots: usize) -> u64
    requires order { from < to }
    requires room { to ≤ 2 ^ 29 }
    requires words { words < 2 ^ 16 }
    requires slots { slots < 2 ^ 16 }
    ensures { result ≡ struct_to from to words slots }
{
    if words == 0 && slots == 0 {
        return join(Pointer::Node {
            offset: -1,
            words: 0,
            slots: 0,
        });
    }
    let offset = (to - from - 1) as u64;
    4 * offset + 4_294_967_296 * words as u64 + 281_474_976_710_656 * slots as u64
}

/// Returns the tag of a list of `count` rows, with `words` words and `slots` slots each.
pub fn tag_word(count: usize, words: usize, slots: usize) -> u64
    requires few { count < 2 ^ 29 }
    requires words { words < 2 ^ 16 }
    requires slots { slots < 2 ^ 16 }
    ensures { result ≡ word_of (Node (pos count) words slots) }
{
    if count == 0 && words == 0 && slots == 0 {
        return 0;
    }
    join(Pointer::Node {
        offset: count as i32,
        words: words as u16,
        slots: slots as u16,
    })
}
