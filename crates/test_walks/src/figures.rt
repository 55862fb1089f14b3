//! Tests of the prices of objects, of the elements of a word, and of surveys without an allocator.

use crate::words::bytes_of;
use capn_target::Shape;
use capn_walk::{
    Limits, digit, per_word, price_of, survey, survey_depth, survey_depth_of, survey_of,
};
use capn_words::{Bare, Width};
use std::test::Fail;

#[test]
fn the_elements_of_a_word(rt: HostRuntime) {
    let counts = [
        per_word(Width::W1),
        per_word(Width::W8),
        per_word(Width::W16),
        per_word(Width::W32),
        per_word(Width::W64),
    ];
    assert!(rt; counts == [64, 8, 4, 2, 1]);
    let word = 0x8877_6655_4433_2211;
    let digits = [
        digit(Width::W1, word, 63),
        digit(Width::W8, word, 1),
        digit(Width::W16, word, 1),
        digit(Width::W32, word, 1),
        digit(Width::W64, word, 0),
    ];
    assert!(rt; digits == [1, 0x22, 0x4433, 0x8877_6655, word]);
}

/// An object costs what each object costs, its words, the words of its landing pads, and 1 for each element of size 0.
#[test]
fn the_price_of_each_shape(rt: HostRuntime) {
    let node = Shape::Node { words: 2, slots: 3 };
    assert!(rt; price_of(node, 1, 1) == 7 && price_of(node, 0, 0) == 5);
    let bytes = Shape::Many {
        width: Width::W8,
        count: 9,
    };
    let voids = Shape::Many {
        width: Width::W0,
        count: 9,
    };
    assert!(rt; price_of(bytes, 0, 1) == 3 && price_of(voids, 0, 1) == 10);
    let rows = Shape::Rows {
        count: 2,
        words: 1,
        slots: 1,
        span: 4,
    };
    let empty = Shape::Rows {
        count: 7,
        words: 0,
        slots: 0,
        span: 0,
    };
    assert!(rt; price_of(rows, 2, 1) == 8 && price_of(empty, 0, 1) == 9);
}

/// The calls without an allocator answer as those with one.
#[test]
fn surveys_without_an_allocator(rt: HostRuntime) -> Result<(), Fail> {
    let bytes = bytes_of(rt.alloc(), &[0x1_0000_0000_0000, 0x1_0000_0000, 9])?;
    let Ok(bare) = Bare::new(bytes.as_slice()) else {
        return Err(Fail::new("no words"));
    };
    let usual = Limits::usual();
    let (Ok(surveyed), Ok(measured)) = (survey_of(&bare, usual), survey_depth_of(&bare, usual))
    else {
        return Err(Fail::new("refused"));
    };
    assert!(rt; surveyed.paid == 4 && surveyed.visits == 2 && measured.depth == 2);
    assert!(rt; survey(rt.alloc(), &bare, usual) == Ok(surveyed));
    assert!(rt; survey_depth(rt.alloc(), &bare, usual) == Ok(measured));
    Ok(())
}
