//! A test of `pick --only`: messages picked by a list of numbers.

use capn_tool::{Limits, Only, StreamForm, Watched, pick_only};
use std::test::Fail;

/// Three frames. The first has 16 bytes and a null root. The second has 16 bytes, two empty segments, and a byte of
/// padding that is not zero. The third has 8 bytes and one empty segment.
const FRAMES: [u8; 40] = [
    0, 0, 0, 0, 1, 0, 0, 0, 0, 0, 0, 0, 0, 0, 0, 0, 1, 0, 0, 0, 0, 0, 0, 0, 0, 0, 0, 0, 9, 0, 0, 0,
    0, 0, 0, 0, 0, 0, 0, 0,
];

/// The first and the third frame are written, and the second is not. The list names more messages than there are.
#[test]
fn picks_the_messages_of_a_list(rt: HostRuntime) -> Result<(), Fail> {
    let only = Only {
        form: StreamForm::Stream,
        limits: Limits::usual(),
        list: "1,3-9,12",
    };
    let mut reader = Watched::new(&FRAMES[..]);
    let mut writer = Watched::new(Vec::new(rt.alloc()));
    let ending = pick_only(rt.alloc(), &only, &mut reader, &mut writer);
    let written = writer.into_inner();
    assert!(rt; ending == Ok(()) && written.len() == 24);
    assert!(rt; &written.as_slice()[..16] == &FRAMES[..16]);
    assert!(rt; &written.as_slice()[16..] == &FRAMES[32..]);
    Ok(())
}
