//! Tests of comparisons of messages that hold lists.

use crate::comparisons::{expect, list, node};
use std::test::Fail;

/// Rows of different sizes are the same if the further words of the longer ones are zero and their further slots null.
#[test]
fn rows_of_different_sizes(rt: HostRuntime) -> Result<(), Fail> {
    let alloc = rt.alloc();
    let short = [4 << 32, list(0, 7, 2), node(2, 1, 0), 5, 6];
    expect(&rt, alloc, &short, &short, true);
    expect(
        &rt,
        alloc,
        &short,
        &[6 << 32, list(0, 7, 4), node(2, 2, 0), 5, 0, 6, 0],
        true,
    );
    expect(
        &rt,
        alloc,
        &short,
        &[6 << 32, list(0, 7, 4), node(2, 1, 1), 5, 0, 6, 0],
        true,
    );
    expect(
        &rt,
        alloc,
        &short,
        &[6 << 32, list(0, 7, 4), node(2, 2, 0), 5, 0, 6, 1],
        false,
    );
    expect(
        &rt,
        alloc,
        &short,
        &[4 << 32, list(0, 7, 2), node(2, 1, 0), 5, 7],
        false,
    );
    expect(
        &rt,
        alloc,
        &short,
        &[5 << 32, list(0, 7, 3), node(3, 1, 0), 5, 6, 0],
        false,
    );
    // Lists of rows without words are the same only if they have the same number of rows.
    expect(
        &rt,
        alloc,
        &[2 << 32, list(0, 7, 0), node(3, 0, 0)],
        &[2 << 32, list(0, 7, 0), node(3, 0, 0)],
        true,
    );
    expect(
        &rt,
        alloc,
        &[2 << 32, list(0, 7, 0), node(3, 0, 0)],
        &[5 << 32, list(0, 7, 3), node(3, 1, 0), 0, 0, 0],
        true,
    );
    expect(
        &rt,
        alloc,
        &[2 << 32, list(0, 7, 0), node(3, 0, 0)],
        &[2 << 32, list(0, 7, 0), node(2, 0, 0)],
        false,
    );
    expect(
        &rt,
        alloc,
        &[2 << 32, list(0, 7, 0), node(0, 2, 1)],
        &[2 << 32, list(0, 7, 0), node(0, 0, 0)],
        true,
    );
    Ok(())
}

/// Values below the slots of rows are compared.
#[test]
fn rows_with_slots(rt: HostRuntime) -> Result<(), Fail> {
    let alloc = rt.alloc();
    let one = [
        6 << 32,
        list(0, 7, 2),
        node(2, 0, 1),
        node(1, 1, 0),
        node(1, 1, 0),
        5,
        6,
    ];
    let other = [
        8 << 32,
        list(0, 7, 4),
        node(2, 1, 1),
        0,
        node(3, 1, 0),
        0,
        node(0, 1, 0),
        6,
        5,
    ];
    let third = [
        8 << 32,
        list(0, 7, 4),
        node(2, 1, 1),
        0,
        node(3, 1, 0),
        0,
        node(0, 1, 0),
        7,
        5,
    ];
    expect(&rt, alloc, &one, &other, true);
    expect(&rt, alloc, &one, &third, false);
    Ok(())
}

/// Lists without pointers differ if their kinds, their lengths or any elements differ.
#[test]
fn lists_of_numbers(rt: HostRuntime) -> Result<(), Fail> {
    let alloc = rt.alloc();
    let text = [2 << 32, list(0, 2, 4), 0x0063_6261];
    expect(&rt, alloc, &text, &text, true);
    expect(
        &rt,
        alloc,
        &text,
        &[2 << 32, list(0, 2, 4), 0x0064_6261],
        false,
    );
    expect(
        &rt,
        alloc,
        &text,
        &[2 << 32, list(0, 2, 3), 0x0063_6261],
        false,
    );
    expect(
        &rt,
        alloc,
        &text,
        &[2 << 32, list(0, 3, 2), 0x0063_6261],
        false,
    );
    // Padding after the last element is ignored.
    expect(
        &rt,
        alloc,
        &text,
        &[2 << 32, list(0, 2, 4), 0x7700_0063_6261],
        true,
    );
    expect(
        &rt,
        alloc,
        &[2 << 32, list(0, 1, 3), 0b101],
        &[2 << 32, list(0, 1, 3), 0b1101],
        true,
    );
    expect(
        &rt,
        alloc,
        &[2 << 32, list(0, 1, 3), 0b101],
        &[2 << 32, list(0, 1, 3), 0b111],
        false,
    );
    expect(
        &rt,
        alloc,
        &[3 << 32, list(0, 5, 2), 1, 2],
        &[3 << 32, list(0, 5, 2), 1, 3],
        false,
    );
    expect(
        &rt,
        alloc,
        &[3 << 32, list(0, 2, 9), 1, 2],
        &[3 << 32, list(0, 2, 9), 1, 0x302],
        true,
    );
    expect(
        &rt,
        alloc,
        &[3 << 32, list(0, 2, 9), 1, 2],
        &[3 << 32, list(0, 2, 9), 1, 3],
        false,
    );
    expect(
        &rt,
        alloc,
        &[1 << 32, list(0, 0, 3)],
        &[1 << 32, list(0, 0, 3)],
        true,
    );
    expect(
        &rt,
        alloc,
        &[1 << 32, list(0, 0, 3)],
        &[1 << 32, list(0, 0, 4)],
        false,
    );
    // Empty lists of different kinds differ.
    expect(
        &rt,
        alloc,
        &[1 << 32, list(0, 2, 0)],
        &[1 << 32, list(0, 3, 0)],
        false,
    );
    expect(
        &rt,
        alloc,
        &[1 << 32, list(0, 2, 0)],
        &[1 << 32, list(0, 2, 0)],
        true,
    );
    Ok(())
}

/// In lists of pointers each element counts, even a null one at the end.
#[test]
fn lists_of_pointers(rt: HostRuntime) -> Result<(), Fail> {
    let alloc = rt.alloc();
    let one = [4 << 32, list(0, 6, 2), node(1, 1, 0), 0, 5];
    expect(&rt, alloc, &one, &one, true);
    expect(
        &rt,
        alloc,
        &one,
        &[5 << 32, list(0, 6, 2), node(1, 2, 0), 0, 5, 0],
        true,
    );
    expect(
        &rt,
        alloc,
        &one,
        &[3 << 32, list(0, 6, 1), node(0, 1, 0), 5],
        false,
    );
    expect(
        &rt,
        alloc,
        &one,
        &[4 << 32, list(0, 6, 2), 0, node(0, 1, 0), 5],
        false,
    );
    expect(
        &rt,
        alloc,
        &one,
        &[4 << 32, list(0, 6, 2), node(1, 1, 0), 0, 6],
        false,
    );
    Ok(())
}
