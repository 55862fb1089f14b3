//! Tests of comparisons of messages that hold structs, and of their refusals.

use crate::comparisons::{compared, expect, list, node};
use capn_canon::{Refusal, SameRefusal, Side};
use capn_walk::{Fault, Limits};
use std::alloc::{AllocError, Global};
use std::test::Fail;

/// Structs of different sizes are the same if the further words of the longer one are zero and its further slots null.
#[test]
fn structs_of_different_sizes(rt: HostRuntime) -> Result<(), Fail> {
    let alloc = rt.alloc();
    let short = [2 << 32, node(0, 1, 0), 5];
    expect(&rt, alloc, &short, &short, true);
    expect(&rt, alloc, &short, &[3 << 32, node(0, 2, 0), 5, 0], true);
    expect(&rt, alloc, &short, &[3 << 32, node(0, 1, 1), 5, 0], true);
    expect(
        &rt,
        alloc,
        &short,
        &[5 << 32, node(0, 2, 2), 5, 0, 0, 0],
        true,
    );
    expect(&rt, alloc, &short, &[3 << 32, node(0, 2, 0), 5, 1], false);
    expect(&rt, alloc, &short, &[2 << 32, node(0, 1, 0), 6], false);
    expect(
        &rt,
        alloc,
        &short,
        &[4 << 32, node(0, 1, 1), 5, node(0, 1, 0), 7],
        false,
    );
    expect(
        &rt,
        alloc,
        &[2 << 32, node(0, 1, 0), 0],
        &[1 << 32, 0xffff_fffc],
        true,
    );
    expect(
        &rt,
        alloc,
        &[3 << 32, node(0, 2, 0), 0, 5],
        &[2 << 32, node(0, 1, 0), 5],
        false,
    );
    Ok(())
}

/// Null differs from an empty struct, at the root and in a slot.
#[test]
fn null_and_empty(rt: HostRuntime) -> Result<(), Fail> {
    let alloc = rt.alloc();
    expect(&rt, alloc, &[1 << 32, 0], &[1 << 32, 0], true);
    expect(&rt, alloc, &[1 << 32, 0], &[1 << 32, 0xffff_fffc], false);
    expect(
        &rt,
        alloc,
        &[2 << 32, node(0, 0, 1), 0],
        &[2 << 32, node(0, 0, 1), 0xffff_fffc],
        false,
    );
    expect(
        &rt,
        alloc,
        &[2 << 32, node(0, 0, 1), 0],
        &[1 << 32, 0xffff_fffc],
        true,
    );
    expect(&rt, alloc, &[1 << 32, 0], &[1 << 32, list(0, 0, 0)], false);
    Ok(())
}

/// Far pointers do not change a value.
#[test]
fn far_and_near(rt: HostRuntime) -> Result<(), Fail> {
    let alloc = rt.alloc();
    let near = [2 << 32, node(0, 1, 0), 5];
    // The root is a far pointer to the second segment, whose first word is the landing pad.
    expect(
        &rt,
        alloc,
        &near,
        &[0x1_0000_0001, 2, 0x1_0000_0002, node(0, 1, 0), 5],
        true,
    );
    expect(
        &rt,
        alloc,
        &near,
        &[0x1_0000_0001, 2, 0x1_0000_0002, node(0, 1, 0), 6],
        false,
    );
    // A landing pad of two words in the second segment leads back to the first.
    let behind_two = [
        0x2_0000_0001,
        2,
        0x1_0000_0006,
        5,
        0x0000_000a,
        node(0, 1, 0),
    ];
    expect(&rt, alloc, &near, &behind_two, true);
    Ok(())
}

/// A refusal is reported with the side of the refused message. If both are refused, that of the first is reported.
#[test]
fn refusals(rt: HostRuntime) -> Result<(), Fail> {
    let alloc = rt.alloc();
    let limits = Limits::usual();
    let fit = [2 << 32, node(0, 1, 0), 5];
    let capability = [2 << 32, node(0, 0, 1), 0x2_0000_0003];
    let broken = [1 << 32, node(0, 1, 0)];
    let first = SameRefusal {
        side: Side::First,
        refusal: Refusal::Capability(2),
    };
    assert!(rt; compared(alloc, &capability, &broken, limits) == Some(Err(first)));
    let second = SameRefusal {
        side: Side::Second,
        refusal: Refusal::Capability(2),
    };
    assert!(rt; compared(alloc, &fit, &capability, limits) == Some(Err(second)));
    assert!(rt;
        matches!(compared(alloc, &fit, &broken, limits), Some(Err(e)) if is_range(e, Side::Second))
    );
    assert!(rt;
        matches!(compared(alloc, &broken, &capability, limits), Some(Err(e)) if is_range(e, Side::First))
    );
    Ok(())
}

/// Tests whether the message on `side` was refused for content that is not inside its segment.
fn is_range(refusal: SameRefusal, side: Side) -> bool {
    match refusal.refusal {
        Refusal::Walk(stopped) => refusal.side == side && stopped.fault == Fault::Range,
        _ => false,
    }
}

/// Returns messages of one segment of three words: roots of several kinds, followed by words, pointers and tags.
fn messages(alloc: Global) -> Result<Vec<[u64; 4]>, AllocError> {
    let mut messages = Vec::new(alloc);
    let lists = [list(0, 6, 2), list(0, 6, 1), list(0, 2, 9), list(0, 7, 1)];
    let roots = [
        0,
        node(0, 1, 0),
        node(0, 2, 0),
        node(0, 1, 1),
        node(0, 0, 2),
    ];
    for root in roots.iter().chain(lists.iter()) {
        for word in [0, 5, 3, node(0, 1, 0), node(1, 1, 0), 0xffff_fffc] {
            for last in [0, 5, 6, 0xffff_fffc] {
                messages.push([3 << 32, *root, word, last])?;
            }
        }
    }
    Ok(messages)
}

/// Two of many messages are the same if and only if their canonical bytes are equal. The comparison is refused if and
/// only if one of the two has no canonical bytes.
#[test]
fn each_two_of_many(rt: HostRuntime) -> Result<(), Fail> {
    let alloc = rt.alloc();
    let messages = messages(alloc)?;
    let mut same = 0u32;
    let mut apart = 0u32;
    for one in &messages {
        for other in &messages {
            match compared(alloc, one, other, Limits::usual()) {
                Some(Ok(true)) => same = same.saturating_add(1),
                Some(Ok(false)) => apart = apart.saturating_add(1),
                Some(Err(_)) => {}
                None => assert!(rt; false),
            }
        }
    }
    // Some messages are stored differently but have the same value.
    assert!(rt; same as usize > messages.len());
    assert!(rt; apart > same);
    Ok(())
}
