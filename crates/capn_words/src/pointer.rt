//! A pointer word taken apart into its fields, and put together from them.

ghost use Rattle.std.specs.Prelude.{◌≡◌, ◌↔◌, ℕ, ◌<◌, ◌^◌, ◌/◌, ◌%◌};
ghost use Rattle.capn_words.specs.declared.pointer.Pointer.{Pointer};
ghost use Rattle.capn_words.specs.Pointers.{Fields, FitsFields, FitsOffset, offset_field, width_code, word_of};
ghost use Rattle.capn_words.specs.Pointers.{pointer_of};

/// The kind of a list's elements. (Page: lists.)
#[derive(Clone, Copy, Debug, PartialEq, Eq)]
pub enum Width {
    /// Voids, which have no bits.
    W0,
    /// One bit each, the least significant first.
    W1,
    /// One byte each.
    W8,
    /// Two bytes each.
    W16,
    /// Four bytes each.
    W32,
    /// Eight bytes each, and no pointers.
    W64,
    /// One pointer each.
    Link,
    /// Structs after a tag word: a composite list.
    Rows,
}

/// The fields of a pointer word, by its kind. (Page: structs, lists, inter-segment pointers, capabilities.)
///
/// Offsets are in words and count from the end of the pointer word: the content of a pointer at word `w` begins at word
/// `w + 1 + offset`.
#[derive(Clone, Copy, Debug, PartialEq, Eq)]
pub enum Pointer {
    /// The null pointer, which is the word 0 only.
    Nil,
    /// A struct.
    Node {
        /// The offset of the struct's data section, from -2^29 to 2^29 - 1.
        offset: i32,
        /// The number of words of the data section.
        words: u16,
        /// The number of pointers of the pointer section, which directly follows the data section.
        slots: u16,
    },
    /// A list.
    Many {
        /// The offset of the list's content, from -2^29 to 2^29 - 1.
        offset: i32,
        /// The kind of the list's elements.
        width: Width,
        /// The number of elements, or for `Rows` the number of words without the tag word. The count is below 2^29.
        count: u32,
    },
    /// A far pointer, which refers to a landing pad in a segment.
    Far {
        /// `true` if the pad has two words, `false` if it has one.
        double: bool,
        /// The index of the pad's first word in the segment of the pad, below 2^29.
        word: u32,
        /// The number of the segment that has the pad.
        segment: u32,
    },
    /// A capability, by its index in the table of capabilities.
    Cap(u32),
    /// A word that is a pointer of no known kind: bits 0 to 1 are 3, and at least one of bits 2 to 31 is set.
    Reserved(u64),
}

/// Returns the width whose three bits are `code`.
fn width_of(code: u64) -> Width
    requires { code < 8 }
    ensures { width_code result ≡ code }
{
    match code {
        0 => Width::W0,
        1 => Width::W1,
        2 => Width::W8,
        3 => Width::W16,
        4 => Width::W32,
        5 => Width::W64,
        6 => Width::Link,
        _ => Width::Rows,
    }
}

/// Returns the three bits that stand for `width`.
fn code_of(width: Width) -> u64
    ensures { result ≡ width_code width }
{
    match width {
        Width::W0 => 0,
        Width::W1 => 1,
        Width::W8 => 2,
        Width::W16 => 3,
        Width::W32 => 4,
        Width::W64 => 5,
        Width::Link => 6,
        Width::Rows => 7,
    }
}

/// Returns the signed offset in bits 2 to 31 of `word`. The sign is bit 31.
fn offset_of(word: u64) -> i32
    ensures fits { FitsOffset result }
    ensures field { offset_field result ≡ word / 4 % 2 ^ 30 }
{
    let bits = (word >> 2 & 0x3fff_ffff) as i32;
    if bits < 0x2000_0000 {
        bits
    } else {
        bits - 0x4000_0000
    }
}

/// Returns the 30 bits that stand for `offset`.
fn field_of(offset: i32) -> u64
    requires { FitsOffset offset }
    ensures { result ≡ offset_field offset }
{
    if offset < 0 {
        (offset + 0x4000_0000) as u64
    } else {
        offset as u64
    }
}

/// Reads the fields of `word`, by the kind in its bits 0 to 1.
fn fields_of(word: u64) -> Pointer
    ensures { Fields word result }
{
    if word == 0 {
        return Pointer::Nil;
    }
    match word & 3 {
        0 => Pointer::Node {
            offset: offset_of(word),
            words: (word >> 32 & 0xffff) as u16,
            slots: (word >> 48) as u16,
        },
        1 => Pointer::Many {
            offset: offset_of(word),
            width: width_of(word >> 32 & 7),
            count: (word >> 35) as u32,
        },
        2 => Pointer::Far {
            double: word >> 2 & 1 == 1,
            word: (word >> 3 & 0x1fff_ffff) as u32,
            segment: (word >> 32) as u32,
        },
        _ => if word >> 2 & 0x3fff_ffff == 0 {
            Pointer::Cap((word >> 32) as u32)
        } else {
            Pointer::Reserved(word)
        },
    }
}

/// Reads `word` as a pointer. The result is the one pointer whose fields fit their bits and add up to `word`.
///
/// Every word is a pointer: only the word 0 is `Nil`, and a word of no known kind is `Reserved`. `join` of the result
/// returns `word`. (Page: structs, lists, inter-segment pointers, capabilities.)
#[inline(always)]
pub fn split(word: u64) -> Pointer
    // `result` is the only pointer with the fields of `word`. The fields are stated in two forms: as a sum, and by
    // division.
    ensures fields { (p : Pointer) → Fields word p ↔ (result ≡ p) }
    ensures read { result ≡ pointer_of word }

    // `join` accepts `result`, and returns `word` for `result`.
    ensures fits { FitsFields result }
    ensures joined { word_of result ≡ word }
{
    fields_of(word)
}

/// Adds up the fields of `pointer`, each shifted to its bits.
fn sum_of(pointer: Pointer) -> u64
    requires { FitsFields pointer }
    ensures { result ≡ word_of pointer }
{
    match pointer {
        Pointer::Nil => 0,
        Pointer::Node {
            offset,
            words,
            slots,
        } => field_of(offset) << 2 | (words as u64) << 32 | (slots as u64) << 48,
        Pointer::Many {
            offset,
            width,
            count,
        } => field_of(offset) << 2 | 1 | code_of(width) << 32 | (count as u64) << 35,
        Pointer::Far {
            double,
            word,
            segment,
        } => (double as u64) << 2 | 2 | (word as u64) << 3 | (segment as u64) << 32,
        Pointer::Cap(index) => (index as u64) << 32 | 3,
        Pointer::Reserved(word) => word,
    }
}

/// Returns the word of `pointer`: the sum of the pointer's fields, each shifted to its bits.
///
/// The fields have to fit their bits. A struct pointer may not be all zeros, since the word 0 is null. A reserved word
/// has to be one that `split` returns as `Reserved`. `split` of the result returns `pointer`. (Page: structs, lists,
/// inter-segment pointers, capabilities.)
pub fn join(pointer: Pointer) -> u64
    requires { FitsFields pointer }
    ensures word { result ≡ word_of pointer }

    // `split` of `result` returns `pointer`.
    ensures split { pointer_of result ≡ pointer }
{
    sum_of(pointer)
}
