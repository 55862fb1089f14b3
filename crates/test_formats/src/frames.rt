//! Tests of frames: bare messages written as frames, frames read as bare messages, and the bytes that a framer holds.

ghost use Rattle.std.specs.Prelude.{◌≤◌};
ghost use Rattle.capn_words.specs.Message.{most_message_words};

use capn_stream::{FrameFault, Framer, first_bare, frame};
use capn_words::{Bare, Space};

/// The frame of a struct with the data word 5.
const FRAMED: [u8; 24] = [
    0, 0, 0, 0, 2, 0, 0, 0, 0, 0, 0, 0, 1, 0, 0, 0, 5, 0, 0, 0, 0, 0, 0, 0,
];

#[test]
fn frames_a_bare_message(rt: HostRuntime) {
    match Bare::new(&FRAMED[8..]) {
        Err(_) => assert!(rt; false, "two words are refused"),
        Ok(bare) => match frame(rt.alloc(), &bare) {
            Ok(text) => assert_eq!(rt; text.as_slice(), FRAMED.as_slice()),
            Err(_) => assert!(rt; false, "out of memory"),
        },
    }
}

#[test]
fn a_framer_is_empty_but_for_what_it_holds(rt: HostRuntime) {
    let mut framer = Framer::new(rt.alloc(), 2);
    let states = [
        framer.is_empty(),
        framer.feed(&FRAMED) == Ok(24),
        framer.is_empty(),
    ];
    assert_eq!(rt; states, [true, true, false]);
    assert!(rt; framer.take().is_some() && framer.is_empty());
}

#[test]
fn a_framer_holds_the_table_that_it_refuses(rt: HostRuntime) {
    let mut framer = Framer::new(rt.alloc(), 1);
    assert_eq!(rt; framer.feed(&FRAMED[..5]), Ok(5));
    assert_eq!(rt; framer.feed(&FRAMED[5..]), Err(FrameFault::TooManyWords(2)));
    assert_eq!(rt; framer.held(), &FRAMED[..8]);
    assert_eq!(rt; framer.feed(&FRAMED), Err(FrameFault::Failed));
}

/// Returns the number of words of the one-segment message at the start of `bytes`, and the byte length of its frame.
fn bare_sizes(bytes: &[u8], max_words: u32) -> Option<(Option<u32>, usize)>
    requires { max_words ≤ most_message_words }
{
    let (message, taken) = first_bare(bytes, max_words)?;
    Some((message.words(0), taken))
}

/// The frame of a message of two segments without words.
const TWO: [u8; 16] = [1, 0, 0, 0, 0, 0, 0, 0, 0, 0, 0, 0, 0, 0, 0, 0];

#[test]
fn a_message_of_one_segment_is_read_bare(rt: HostRuntime) {
    assert!(rt; bare_sizes(&FRAMED, 2) == Some((Some(2), 24)));
    assert!(rt;
        bare_sizes(&TWO[4..], 2) == Some((Some(0), 8)),
        "a segment of no word"
    );
    assert!(rt;
        bare_sizes(&FRAMED, 1).is_none(),
        "more words than are allowed"
    );
    assert!(rt;
        bare_sizes(&FRAMED[..23], 2).is_none(),
        "cut in its contents"
    );
    assert!(rt; bare_sizes(&FRAMED[..7], 2).is_none(), "cut in its table");
    assert!(rt; bare_sizes(&[], 2).is_none());
    assert!(rt; bare_sizes(&TWO, 2).is_none(), "two segments");
}
