//! A test of values shown at a path of many numbers.

use crate::broken::{Input, ended};
use std::process::Abort;

/// The number of structs in a chain, each in the slot of the one before: as many as the default depth allows.
const STRUCTS: usize = 64;

#[test]
fn a_path_of_many_numbers_is_followed(rt: HostRuntime) {
    // The frame of a chain of structs with one slot each, except the last, which has one word instead.
    let mut bytes = Vec::from_slice(rt.alloc(), &[0, 0, 0, 0, 65, 0, 0, 0]).expect(&rt, "memory");
    for _ in 1..STRUCTS {
        bytes
            .extend_from_slice(&[0, 0, 0, 0, 0, 0, 1, 0])
            .expect(&rt, "memory");
    }
    bytes
        .extend_from_slice(&[0, 0, 0, 0, 1, 0, 0, 0])
        .expect(&rt, "memory");
    bytes
        .extend_from_slice(&[7, 0, 0, 0, 0, 0, 0, 0])
        .expect(&rt, "memory");
    let mut path = String::from_str(rt.alloc(), "0").expect(&rt, "memory");
    for _ in 2..STRUCTS {
        path.push_str(".0").expect(&rt, "memory");
    }
    for (end, text) in [
        ("", "struct 1 0\n  word 0000000000000007\nend\n"),
        (".0", "none\nend\n"),
    ] {
        let path = format!(in rt.alloc(); "{path}{end}").expect(&rt, "memory");
        let words = ["capn", "show", "--at", path.as_str()];
        let ending = ended(rt.alloc(), &words, Input::whole(bytes.as_slice(), 65_536));
        assert!(rt;
            ending.status == 0 && ending.line.as_slice().is_empty(),
            "{path}"
        );
        assert!(rt; ending.text.as_slice() == text.as_bytes(), "{path}");
    }
}
