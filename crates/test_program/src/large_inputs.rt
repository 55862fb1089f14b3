//! Tests of large messages and long paths. No run reports that an allocation was refused if there is enough memory.

use crate::broken::{Ending, Input, ended};
use std::alloc::{AllocError, Global};
use std::test::Fail;

/// Appends the eight bytes of `word` to `bytes`.
fn add_word(bytes: &mut Vec<u8>, word: u64) -> Result<(), AllocError> {
    bytes.extend_from_slice(&word.to_le_bytes())
}

/// Returns the frame of one segment of `words` words: `root`, then copies of `word`, and `last` at the end.
fn frame_of(
    alloc: Global,
    root: u64,
    word: u64,
    last: u64,
    words: u32,
) -> Result<Vec<u8>, AllocError> {
    let mut frame = Vec::new(alloc);
    add_word(&mut frame, u64::from(words) << 32)?;
    add_word(&mut frame, root)?;
    for _ in 2..words {
        add_word(&mut frame, word)?;
    }
    add_word(&mut frame, last)?;
    Ok(frame)
}

pub(crate) fn over(alloc: Global, words: &[&str], bytes: &[u8]) -> Ending {
    ended(alloc, words, Input::whole(bytes, 65_536))
}

/// Tests whether a run ended with `status`, with `text` as its output and `line` as its last line.
pub(crate) fn is_ended(ending: &Ending, status: u8, text: &[u8], line: &[u8]) -> bool {
    ending.status == status && ending.text.as_slice() == text && ending.line.as_slice() == line
}

/// The number of elements of a long list of pointers.
const ELEMENTS: u32 = 110_000;

/// The root pointer to a list of `ELEMENTS` pointers that follows it.
const LONG_LIST: u64 = 0xd_6d86_0000_0001;

/// A pointer to a struct of one word, far beyond the end of its message.
const OUT_OF_RANGE: u64 = 0x1_7fff_fffc;

/// The first lines of the explanation of a list whose last element is `OUT_OF_RANGE`.
const EXPLAINED: &[u8] = b"message: 1 at 0\n\
segments: 1 of 110001 words\n\
refused: Range at 0:110000, paid 110001, visits 110001\n\
way: 109999\n";

/// A refused last element is explained, after more than 100,000 visits and in a word whose index is above 65,536.
#[test]
fn a_refusal_after_many_visits_is_explained(rt: HostRuntime) -> Result<(), Fail> {
    let frame = frame_of(rt.alloc(), LONG_LIST, 0, OUT_OF_RANGE, ELEMENTS + 1)?;
    let ending = over(rt.alloc(), &["capn", "explain"], &frame);
    assert!(rt; ending.status == 1);
    assert!(rt; ending.text.as_slice().starts_with(EXPLAINED));
    assert!(rt;
        ending.line.as_slice()
            == b"capn: message 1 at 0: Range at 0:110000, paid 110001, visits 110001\n".as_slice()
    );
    Ok(())
}

/// A capability with the greatest index, in the last element of a list, is explained.
#[test]
fn a_great_capability_is_explained(rt: HostRuntime) -> Result<(), Fail> {
    let frame = frame_of(
        rt.alloc(),
        LONG_LIST,
        0,
        0xffff_ffff_0000_0003,
        ELEMENTS + 1,
    )?;
    let ending = over(rt.alloc(), &["capn", "explain"], &frame);
    let text = b"message: 1 at 0\n\
segments: 1 of 110001 words\n\
accepted: paid 110001 visits 110001 depth 1\n\
canonical: no: capability 4294967295 at 109999\n";
    assert!(rt; is_ended(&ending, 0, text, b""));
    Ok(())
}

/// A list of 110,000 null pointers is shown whole, and at the path of its last pointer.
#[test]
fn a_list_of_many_pointers_is_shown(rt: HostRuntime) -> Result<(), Fail> {
    let frame = frame_of(rt.alloc(), LONG_LIST, 0, 0, ELEMENTS + 1)?;
    for words in [
        ["capn", "show", "--ways"].as_slice(),
        ["capn", "show", "--at", "109999"].as_slice(),
    ] {
        let ending = over(rt.alloc(), words, &frame);
        assert!(rt; ending.status == 0 && ending.line.as_slice().is_empty());
        assert!(rt;
            ending.text.as_slice().ends_with(b"null\n\tend\n")
                || ending.text.as_slice() == b"null\nend\n".as_slice()
        );
    }
    Ok(())
}

/// A frame that announces 200,000 words and has 125,000 is explained as cut.
#[test]
fn a_long_frame_that_is_cut_is_explained(rt: HostRuntime) -> Result<(), Fail> {
    let mut frame = Vec::from_slice(rt.alloc(), &[0, 0, 0, 0])?;
    frame.extend_from_slice(&200_000u32.to_le_bytes())?;
    for _ in 0..125_000u32 {
        add_word(&mut frame, 0)?;
    }
    let ending = over(rt.alloc(), &["capn", "explain"], &frame);
    let text = b"message: 1 at 0\n\
segments: 1 of 200000 words\n\
refused: frame: Cut\n\
there: 1000008 bytes of at least 1600008\n";
    assert!(rt; is_ended(&ending, 1, text, b"capn: message 1 at 0: frame: Cut\n"));
    Ok(())
}

/// The root pointer to a list of 8 MiB of bytes that follows it.
const LONG_BYTES: u64 = 0x400_0002_0000_0001;

/// The number of words of the message with the root `LONG_BYTES`.
const LONG_WORDS: u32 = 1_048_577;

/// A word of eight letters `a`.
const LETTERS: u64 = 0x6161_6161_6161_6161;

/// A message of 8 MiB is explained as accepted and canonical.
#[test]
fn a_long_message_is_explained(rt: HostRuntime) -> Result<(), Fail> {
    let frame = frame_of(rt.alloc(), LONG_BYTES, LETTERS, LETTERS, LONG_WORDS)?;
    let ending = over(rt.alloc(), &["capn", "explain"], &frame);
    let text = b"message: 1 at 0\n\
segments: 1 of 1048577 words\n\
accepted: paid 1048577 visits 1 depth 1\n\
canonical: yes\n";
    assert!(rt; is_ended(&ending, 0, text, b""));
    Ok(())
}

/// The last line of a long text is marked with the offset at which the message ends.
#[test]
fn a_long_message_is_shown_with_marks(rt: HostRuntime) -> Result<(), Fail> {
    let frame = frame_of(rt.alloc(), LONG_BYTES, LETTERS, LETTERS, LONG_WORDS)?;
    let words = ["capn", "show", "--text", "--offsets", "--ways"];
    let ending = over(rt.alloc(), &words, &frame);
    assert!(rt; ending.status == 0 && ending.line.as_slice().is_empty());
    let text = ending.text.as_slice();
    assert!(rt; text.starts_with(b"8\troot\tbytes 8388608 \"aaaaaaaa"));
    assert!(rt; text.ends_with(b"aaaaaaaa\"\n8388624\t\tend\n"));
    Ok(())
}

/// The number of structs in a chain, each in the slot of the one before. The path to the last slot has 203 characters.
const STRUCTS: u32 = 102;

/// Returns the frame of a chain of structs with one slot each.
fn chain(alloc: Global) -> Result<Vec<u8>, AllocError> {
    frame_of(
        alloc,
        0x1_0000_0000_0000,
        0x1_0000_0000_0000,
        0,
        STRUCTS + 1,
    )
}

/// The line of the deepest slot has its whole path.
#[test]
fn a_path_of_two_hundred_characters_is_marked(rt: HostRuntime) -> Result<(), Fail> {
    let frame = chain(rt.alloc())?;
    let mut end = String::from_str(rt.alloc(), "\n0")?;
    for _ in 1..STRUCTS {
        end.push_str(".0")?;
    }
    end.push_str("\t")?;
    for _ in 0..STRUCTS {
        end.push_str("  ")?;
    }
    end.push_str("null\n\tend\n")?;
    let words = ["capn", "show", "--ways", "--depth", "256"];
    let ending = over(rt.alloc(), &words, &frame);
    assert!(rt; ending.status == 0 && ending.line.as_slice().is_empty());
    assert!(rt; ending.text.as_slice().ends_with(end.as_bytes()));
    Ok(())
}
