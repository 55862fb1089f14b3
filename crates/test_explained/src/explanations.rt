//! Tests of the texts that make up explanations.

use crate::words::bytes_of;
use capn_diagnostics::{PathText, PointerText, SlotText, TagText, WordText, place_byte};
use capn_words::{Bare, Place};
use std::alloc::Global;
use std::fmt;
use std::test::Fail;

/// Tests whether `value` is displayed as `want`.
fn is_text<T: fmt::Display>(alloc: Global, value: &T, want: &str) -> Result<bool, Fail> {
    let text = format!(in alloc; "{value}")?;
    Ok(text.as_str() == want)
}

/// Tests whether `word`, as a pointer, is described by `want`.
fn says(alloc: Global, word: u64, want: &str) -> Result<bool, Fail> {
    is_text(alloc, &PointerText::of(word), want)
}

#[test]
fn words_as_pointers(rt: HostRuntime) -> Result<(), Fail> {
    let alloc = rt.alloc();
    assert!(rt; says(alloc, 0, "null")?);
    assert!(rt;
        says(
            alloc,
            0x1_0002_ffff_fffc,
            "struct of 2 words and 1 slots, offset -1"
        )?
    );
    assert!(rt;
        says(
            alloc,
            0x1_0000_0000_0014,
            "struct of 0 words and 1 slots, offset 5"
        )?
    );
    assert!(rt; says(alloc, 0x18_0000_0001, "list of 3 voids, offset 0")?);
    assert!(rt; says(alloc, 0x19_0000_0001, "list of 3 bits, offset 0")?);
    assert!(rt; says(alloc, 0x1a_0000_0005, "list of 3 bytes, offset 1")?);
    assert!(rt; says(alloc, 0x1b_0000_0001, "list of 3 u16, offset 0")?);
    assert!(rt; says(alloc, 0x1c_0000_0001, "list of 3 u32, offset 0")?);
    assert!(rt; says(alloc, 0x1d_0000_0001, "list of 3 u64, offset 0")?);
    assert!(rt; says(alloc, 0x1e_ffff_fff9, "list of 3 pointers, offset -2")?);
    assert!(rt;
        says(
            alloc,
            0x27_0000_0001,
            "list of structs in 4 words, offset 0"
        )?
    );
    assert!(rt; says(alloc, 0x2_0000_0012, "far to segment 2 word 2")?);
    assert!(rt; says(alloc, 0x1_0000_000e, "double far to segment 1 word 1")?);
    assert!(rt; says(alloc, 0x7_0000_0003, "capability 7")?);
    assert!(rt; says(alloc, 7, "reserved")?);
    Ok(())
}

#[test]
fn words_as_tags(rt: HostRuntime) -> Result<(), Fail> {
    let alloc = rt.alloc();
    assert!(rt;
        is_text(
            alloc,
            &TagText(0x1_0003_0000_0008),
            "tag of 2 structs of 3 words and 1 slots"
        )?
    );
    assert!(rt;
        is_text(
            alloc,
            &TagText(0),
            "tag of 0 structs of 0 words and 0 slots"
        )?
    );
    assert!(rt; is_text(alloc, &TagText(0x1a_0000_0005), "list of 3 bytes, offset 1")?);
    Ok(())
}

#[test]
fn bytes_of_words(rt: HostRuntime) -> Result<(), Fail> {
    let alloc = rt.alloc();
    assert!(rt; is_text(alloc, &WordText(0x0123_4567_89ab_cdef), "efcdab8967452301")?);
    let place = Place {
        segment: 3,
        word: 17,
    };
    let slot = SlotText {
        byte: 1_000,
        place,
        word: 7,
    };
    let want = "byte 1000, segment 3 word 17: 0700000000000000: reserved";
    assert!(rt; is_text(alloc, &slot, want)?);
    Ok(())
}

#[test]
fn paths(rt: HostRuntime) -> Result<(), Fail> {
    let alloc = rt.alloc();
    assert!(rt; is_text(alloc, &PathText(&[]), "root")?);
    assert!(rt; is_text(alloc, &PathText(&[0]), "0")?);
    assert!(rt; is_text(alloc, &PathText(&[0, 12, 4_294_967_295]), "0.12.4294967295")?);
    Ok(())
}

#[test]
fn bytes_of_places(rt: HostRuntime) -> Result<(), Fail> {
    let bytes = bytes_of(rt.alloc(), &[1, 2, 3])?;
    let Ok(bare) = Bare::new(bytes.as_slice()) else {
        return Err(Fail::new("no words"));
    };
    let second = Place {
        segment: 0,
        word: 1,
    };
    assert!(rt; place_byte(&bare, 0, 0, second) == 8);
    assert!(rt; place_byte(&bare, 100, 1, second) == 116);
    let after = Place {
        segment: 1,
        word: 0,
    };
    assert!(rt; place_byte(&bare, 100, 1, after) == 132);
    Ok(())
}
