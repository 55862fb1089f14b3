//! Tests of pointer words of each kind, at the limits of their fields.

ghost use Rattle.std.specs.Prelude.{◌≡◌};
ghost use Rattle.capn_words.specs.Pointers.{FitsFields};

use capn_words::{Pointer, Width, join, split};

/// Returns `word`, split and joined again. The clause states that nothing is lost.
fn joined_again(word: u64) -> u64
    ensures { result ≡ word }
{
    join(split(word))
}

/// Returns `pointer`, joined and split again. The clause states that nothing is lost if its fields fit.
fn split_again(pointer: Pointer) -> Pointer
    requires { FitsFields pointer }
    ensures { result ≡ pointer }
{
    split(join(pointer))
}

/// Tests whether `word` splits to `pointer`, and `pointer` joins to `word`.
fn is_word_of(word: u64, pointer: Pointer) -> bool {
    split(word) == pointer && joined_again(word) == word && join(pointer) == word
}

/// Words of struct pointers, each with its offset, data words and slots.
const STRUCTS: [(u64, i32, u16, u16); 5] = [
    (0x0000_0000_ffff_fffc, -1, 0, 0),
    (0x0000_0000_0000_0004, 1, 0, 0),
    (0x0002_0001_0000_0000, 0, 1, 2),
    (0xffff_ffff_8000_0000, -0x2000_0000, 0xffff, 0xffff),
    (0x0000_0000_7fff_fffc, 0x1fff_ffff, 0, 0),
];

#[test]
fn null_and_structs(rt: HostRuntime) {
    assert!(rt; is_word_of(0, Pointer::Nil));
    for (word, offset, words, slots) in STRUCTS {
        let pointer = Pointer::Node {
            offset,
            words,
            slots,
        };
        assert!(rt; is_word_of(word, pointer), "of {word:x}");
    }
}

#[test]
fn a_struct_at_the_ends_of_its_ranges(rt: HostRuntime) {
    let backwards = Pointer::Node {
        offset: -0x2000_0000,
        words: 0xffff,
        slots: 0xffff,
    };
    assert!(rt; split_again(backwards) == backwards);
}

/// Words of list pointers, each with its offset, width and count.
const LISTS: [(u64, i32, Width, u32); 9] = [
    (0xffff_fff8_0000_0001, 0, Width::W0, 0x1fff_ffff),
    (0x0000_0051_0000_0001, 0, Width::W1, 10),
    (0x0000_001a_0000_0001, 0, Width::W8, 3),
    (0x0000_002b_0000_0001, 0, Width::W16, 5),
    (0x0000_0014_0000_0001, 0, Width::W32, 2),
    (0x0000_000d_0000_0001, 0, Width::W64, 1),
    (0x0000_0016_0000_0001, 0, Width::Link, 2),
    (0xffff_ffff_0000_0001, 0, Width::Rows, 0x1fff_ffff),
    (
        0xffff_ffff_8000_0001,
        -0x2000_0000,
        Width::Rows,
        0x1fff_ffff,
    ),
];

#[test]
fn lists_of_each_width(rt: HostRuntime) {
    for (word, offset, width, count) in LISTS {
        let pointer = Pointer::Many {
            offset,
            width,
            count,
        };
        assert!(rt; is_word_of(word, pointer), "of {word:x}");
    }
}

/// Words of far pointers, each with a flag for a double landing pad, and with the word and the segment of the pad.
const FARS: [(u64, bool, u32, u32); 2] = [
    (0x0000_0001_0000_0002, false, 0, 1),
    (0xffff_ffff_ffff_fffe, true, 0x1fff_ffff, 0xffff_ffff),
];

#[test]
fn far_capability_and_reserved(rt: HostRuntime) {
    for (at, double, word, segment) in FARS {
        let pointer = Pointer::Far {
            double,
            word,
            segment,
        };
        assert!(rt; is_word_of(at, pointer), "of {at:x}");
    }
    for (word, index) in [
        (0x0000_0002_0000_0003, 2),
        (0xffff_ffff_0000_0003, 0xffff_ffff),
    ] {
        assert!(rt; is_word_of(word, Pointer::Cap(index)), "of {word:x}");
    }
    for word in [7, 0xffff_ffff_ffff_ffff] {
        assert!(rt; is_word_of(word, Pointer::Reserved(word)), "of {word:x}");
    }
}
