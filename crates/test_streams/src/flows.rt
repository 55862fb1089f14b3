//! Tests of `pack_stream` and `unpack_stream` over handmade streams.

use capn_commands::{FlowFault, pack_stream, unpack_stream};
use capn_words::Watched;
use std::test::Fail;

/// A word and two zero words, packed.
const PACKED: [u8; 6] = [0x51, 8, 3, 2, 0, 1];

/// The bytes of the words packed in `PACKED`.
const WORDS: [u8; 24] = [
    8, 0, 0, 0, 3, 0, 2, 0, 0, 0, 0, 0, 0, 0, 0, 0, 0, 0, 0, 0, 0, 0, 0, 0,
];

#[test]
fn unpacks_before_a_cut(rt: HostRuntime) -> Result<(), Fail> {
    let mut reader = Watched::new(&PACKED[..5]);
    let mut writer = Watched::new(Vec::new(rt.alloc()));
    let ending = unpack_stream(rt.alloc(), &mut reader, &mut writer);
    assert!(rt; ending == Err(FlowFault::Cut(4)));
    assert!(rt; writer.into_inner().as_slice() == &WORDS[..8]);
    Ok(())
}

#[test]
fn packs_whole_words_before_the_rest(rt: HostRuntime) -> Result<(), Fail> {
    let mut reader = Watched::new(&WORDS[..23]);
    let mut writer = Watched::new(Vec::new(rt.alloc()));
    let ending = pack_stream(rt.alloc(), &mut reader, &mut writer);
    assert!(rt; ending == Err(FlowFault::NotWhole(23)));
    assert!(rt; writer.into_inner().as_slice() == [0x51, 8, 3, 2, 0, 0].as_slice());
    Ok(())
}
