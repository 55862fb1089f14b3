//! Tests of one segment, read as a bare message and through `Space`, the trait of all messages.

use capn_words::{Bare, BareFault, Place, Space, total_words};

/// Returns the bytes of `segment`, for any kind of message.
fn segment_bytes<S: Space>(space: &S, segment: u32) -> Option<&[u8]> {
    let words = space.words(segment)?;
    Some(space.bytes(Place { segment, word: 0 }, 8 * words as usize))
}

/// Tests whether the first segment of `space` begins with a zero word.
fn is_null<S: Space>(space: &S) -> bool {
    match space.words(0) {
        None => false,
        Some(0) => false,
        Some(_) => space.word(Place {
            segment: 0,
            word: 0,
        }) == 0,
    }
}

#[test]
fn words_and_bytes_of_one_segment(rt: HostRuntime) {
    let input = [
        0, 0, 0, 0, 2, 0, 0, 0, 5, 0, 0, 0, 0, 0, 0, 0x80, 1, 2, 3, 4, 5, 6, 7, 8,
    ];
    match Bare::new(&input) {
        Err(_) => assert!(rt; false, "24 bytes are refused"),
        Ok(bare) => {
            let second = Place {
                segment: 0,
                word: 1,
            };
            let third = Place {
                segment: 0,
                word: 2,
            };
            let end = Place {
                segment: 0,
                word: 3,
            };
            assert!(rt;
                bare.segments() == 1 && bare.words(0) == Some(3) && bare.words(1).is_none()
            );
            assert!(rt; total_words(&bare) == 3);
            assert!(rt; bare.word(second) == 0x8000_0000_0000_0005);
            assert!(rt; bare.word(third) == 0x0807_0605_0403_0201);
            assert!(rt; bare.bytes(second, 3) == [5, 0, 0].as_slice());
            assert!(rt; bare.bytes(third, 8) == [1, 2, 3, 4, 5, 6, 7, 8].as_slice());
            assert!(rt; bare.bytes(end, 0).is_empty());
            assert!(rt; segment_bytes(&bare, 0) == Some(input.as_slice()));
            assert!(rt; segment_bytes(&bare, 1).is_none() && !is_null(&bare));
        }
    }
}

#[test]
fn a_zero_word_is_null(rt: HostRuntime) {
    assert!(rt; matches!(Bare::new(&[0; 8]), Ok(bare) if is_null(&bare)));
}

#[test]
fn no_bytes_are_a_segment_of_no_words(rt: HostRuntime) {
    match Bare::new(&[]) {
        Err(_) => assert!(rt; false, "no bytes are refused"),
        Ok(bare) => {
            assert_eq!(rt; bare.segments(), 1);
            assert_eq!(rt; bare.words(0), Some(0));
            assert!(rt; !is_null(&bare));
        }
    }
}

#[test]
fn nine_bytes_are_not_whole_words(rt: HostRuntime) {
    match Bare::new(&[0; 9]) {
        Err(fault) => assert_eq!(rt; fault, BareFault::NotWhole(9)),
        Ok(_) => assert!(rt; false, "nine bytes are taken"),
    }
}
