//! Tests of the segment table of a frame, and of segments that lie apart.

ghost use Rattle.std.specs.Prelude.{◌≤◌};
ghost use Rattle.capn_words.specs.Message.{most_message_words};

use capn_stream::table::{entry_at, head_of, read_head, total_of};
use capn_stream::{FrameFault, Segments, SegmentsFault};
use capn_words::{Place, Space};

/// A table of three segments with 1, 0 and 2 words, and three words.
const FRAME: [u8; 40] = [
    2, 0, 0, 0, 1, 0, 0, 0, 0, 0, 0, 0, 2, 0, 0, 0, 1, 0, 0, 0, 0, 0, 0, 0, 2, 0, 0, 0, 0, 0, 0, 0,
    3, 0, 0, 0, 0, 0, 0, 0,
];

#[test]
fn the_numbers_of_a_table(rt: HostRuntime) {
    assert!(rt; entry_at(&FRAME, 0) == 2 && entry_at(&FRAME, 3) == 2);
    assert!(rt; total_of(&FRAME[4..], 0) == 0);
    assert!(rt; total_of(&FRAME[4..], 3) == 3);
    assert!(rt; total_of(&[0xff; 8], 2) == 0x1_ffff_fffe);
}

/// A table has a word more for each two segments.
#[test]
fn the_length_of_a_table(rt: HostRuntime) {
    assert!(rt; head_of(1) == 8 && head_of(2) == 16);
    assert!(rt; head_of(3) == 16 && head_of(4) == 24);
    assert!(rt; head_of(4_096) == 16_392);
}

/// Returns the numbers of segments and of words in the table of `bytes`.
fn told(bytes: &[u8], max_words: u32) -> Result<(usize, usize), FrameFault>
    requires { max_words ≤ most_message_words }
{
    match read_head(bytes, max_words) {
        Ok(head) => Ok((head.segments, head.words)),
        Err(fault) => Err(fault),
    }
}

#[test]
fn the_head_of_a_frame(rt: HostRuntime) {
    assert!(rt; told(&FRAME, 3) == Ok((3, 3)));
    assert!(rt; told(&FRAME, 2) == Err(FrameFault::TooManyWords(3)));
    assert!(rt; told(&FRAME[..39], 3) == Err(FrameFault::Cut));
    assert!(rt; told(&[], 3) == Err(FrameFault::Empty));
    assert!(rt; told(&[0, 16, 0, 0], 3) == Err(FrameFault::TooManySegments(4_097)));
}

/// Returns the number of segments, the number of words in the second of them, and its first word, if it has one.
fn second_of(
    segments: &[&[[u8; 8]]],
    max_words: u32,
) -> Result<(u32, Option<u32>, u64), SegmentsFault>
    requires { max_words ≤ most_message_words }
{
    let message = Segments::new(segments, max_words)?;
    let words = message.words(1);
    let first = match words {
        None | Some(0) => 0,
        Some(_) => message.word(Place {
            segment: 1,
            word: 0,
        }),
    };
    Ok((message.segments(), words, first))
}

#[test]
fn segments_that_lie_apart(rt: HostRuntime) {
    let one = [[0u8; 8]];
    let two = [[3, 0, 0, 0, 0, 0, 0, 1], [4, 0, 0, 0, 0, 0, 0, 0]];
    let both = [one.as_slice(), two.as_slice()];
    assert!(rt; second_of(&both, 3) == Ok((2, Some(2), 0x100_0000_0000_0003)));
    assert!(rt; second_of(&both[..1], 1) == Ok((1, None, 0)));
    assert!(rt; second_of(&both, 2) == Err(SegmentsFault::TooManyWords(3)));
    assert!(rt; second_of(&[], 2) == Err(SegmentsFault::Empty));
}
