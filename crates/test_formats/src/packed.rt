//! Tests of packing: words of every kind of group, packed and unpacked.

use capn_pack::{UnpackFault, Unpacker, pack, tag, unpack};
use std::alloc::Global;
use std::test::Fail;

/// Tests whether `words` pack to `text`, and `text` unpacks to `words`.
fn there_and_back(alloc: Global, words: &[u8], text: &[u8]) -> Result<bool, Fail> {
    let most = u32::try_from(words.len() / 8).unwrap_or(0);
    let packed = pack(alloc, words)?;
    let unpacked = unpack(alloc, text, most)?;
    Ok(packed.as_slice() == text && unpacked.as_slice() == words)
}

/// Returns the word whose byte `i` is 7 if bit `i` of `pattern` is set, and zero otherwise.
fn word_of(pattern: u16) -> [u8; 8] {
    let mut word = [0; 8];
    for i in 0..8usize {
        if pattern >> i & 1 == 1 {
            word[i] = 7;
        }
    }
    word
}

#[test]
fn each_pattern_of_zero_bytes(rt: HostRuntime) -> Result<(), Fail> {
    let alloc = rt.alloc();
    for pattern in 0..256u16 {
        let word = word_of(pattern);
        assert_eq!(rt; tag(&word) as u16, pattern);
        let mut text = vec![in alloc; tag(&word)]?;
        for byte in word {
            if byte != 0 {
                text.push(byte)?;
            }
        }
        if pattern == 0 || pattern == 255 {
            text.push(0)?;
        }
        assert!(rt; there_and_back(alloc, &word, &text)?);
    }
    Ok(())
}

/// Returns words for every kind of group, many of each.
fn many_words(alloc: Global) -> Result<Vec<u8>, Fail> {
    let mut words = Vec::new(alloc);
    for i in 0..4000u16 {
        words.extend_from_slice(&word_of(i % 256))?;
        words.extend_from_slice(&word_of(if i % 700 < 300 { 255 } else { 0 }))?;
        words.extend_from_slice(&word_of(i / 7 % 256))?;
    }
    Ok(words)
}

#[test]
fn many_words_and_pieces(rt: HostRuntime) -> Result<(), Fail> {
    let alloc = rt.alloc();
    let words = many_words(alloc)?;
    let text = pack(alloc, &words)?;
    assert!(rt; unpack(alloc, &text, 12_000)? == words);
    for size in [1, 7, 100, 3000, 70_000usize] {
        let mut unpacker = Unpacker::new();
        let mut out = Vec::new(alloc);
        for piece in text.chunks(size) {
            unpacker.feed(piece, &mut out)?;
        }
        assert!(rt; out == words);
        assert_eq!(rt; unpacker.finish(), Ok(()));
    }
    Ok(())
}

#[test]
fn an_unpacker_lends_the_group_that_is_cut(rt: HostRuntime) -> Result<(), Fail> {
    let mut unpacker = Unpacker::new();
    let mut out = Vec::new(rt.alloc());
    // A whole group, and then two of the three bytes that follow the tag of the next.
    unpacker.feed(&[0x01, 5, 0x15, 7], &mut out)?;
    unpacker.feed(&[8], &mut out)?;
    assert_eq!(rt; unpacker.held(), [0x15, 7, 8].as_slice());
    unpacker.feed(&[9, 0x10], &mut out)?;
    assert_eq!(rt; unpacker.held(), [0x10].as_slice());
    assert_eq!(rt; out.len(), 16);
    assert_eq!(rt; unpacker.finish(), Err(UnpackFault::Cut { at: 6 }));
    assert_eq!(rt; unpacker.held(), [0x10].as_slice());
    Ok(())
}
