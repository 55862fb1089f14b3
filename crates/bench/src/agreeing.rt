//! `agree`: tests that the operations agree on a small message of each shape.

use crate::calls::{
    canonical, changed, compared, digest, message, packed, paid, received, test, unpacked, walked,
    words_of,
};
use crate::shapes::{Shape, framed};
use anyhow::{Result, ensure};
use capn_stream::frame;
use capn_words::Bare;
use std::alloc::Global;

/// The size of each message in bytes.
const BYTES: u32 = 1 << 12;

/// Returns the frame of one segment with the contents `bytes`.
fn framed_again(alloc: Global, bytes: &[u8]) -> Result<Vec<u8>> {
    match Bare::new(bytes) {
        Ok(words) => match frame(alloc, &words) {
            Ok(framed) => Ok(framed),
            Err(_) => anyhow::bail!("no memory"),
        },
        Err(_) => anyhow::bail!("not whole words"),
    }
}

/// Tests whether the canonical bytes `once` are their own canonical bytes.
fn is_own(alloc: Global, once: &[u8]) -> Result<bool> {
    let framed = framed_again(alloc, once)?;
    Ok(canonical(alloc, &framed)?.as_slice() == once)
}

/// Checks that the canonical bytes of a message are canonical, and are their own canonical bytes.
fn check_canonical(alloc: Global, bytes: &[u8]) -> Result<()> {
    let once = canonical(alloc, bytes)?;
    ensure!(test(alloc, &once)?, "not canonical");
    ensure!(is_own(alloc, &once)?, "other canonical bytes");
    Ok(())
}

/// Tests whether `bytes` are the same after packing and unpacking.
fn is_unpacked(alloc: Global, bytes: &[u8]) -> Result<bool> {
    let text = packed(alloc, bytes)?;
    Ok(unpacked(alloc, &text)?.as_slice() == bytes)
}

fn first_words(alloc: Global, bytes: &[u8]) -> Result<u32> {
    Ok(words_of(&message(alloc, bytes)?))
}

/// Checks that unpacking inverts packing, that a framer gives the message that `first` gives, and that the walk pays
/// what the survey reports.
fn check_readings(alloc: Global, bytes: &[u8]) -> Result<()> {
    ensure!(is_unpacked(alloc, bytes)?, "other words");
    let words = first_words(alloc, bytes)?;
    ensure!(received(alloc, bytes)? == words, "another message");
    let price = paid(alloc, bytes)?;
    ensure!(walked(alloc, bytes)? == price, "another price");
    Ok(())
}

/// Checks that the changed message is accepted at the same price, and that it has another value than the message.
fn check_changed(alloc: Global, bytes: &[u8]) -> Result<()> {
    let other = changed(alloc, bytes)?;
    ensure!(
        paid(alloc, &other)? == paid(alloc, bytes)?,
        "another price of the changed message"
    );
    ensure!(
        compared(alloc, bytes, bytes)? == 1,
        "another value than its own"
    );
    ensure!(
        compared(alloc, bytes, &other)? == 0,
        "the value of the changed message"
    );
    Ok(())
}

/// Returns the digest of a message's canonical bytes, in hexadecimal.
fn digits_of(alloc: Global, bytes: &[u8]) -> Result<String> {
    let digest = digest(alloc, bytes)?;
    Ok(hex::encode(alloc, digest.as_slice())?)
}

/// Prints the line of a shape whose operations agree.
fn print_digest(rt: &impl Print, alloc: Global, shape: Shape, bytes: &[u8]) -> Result<()> {
    let digits = digits_of(alloc, bytes)?;
    println!(rt; "{}: {} bytes, {digits}, ok", shape.name(), bytes.len())?;
    Ok(())
}

/// Prints the digest of the canonical bytes of each shape, if the operations agree.
pub(crate) fn agree(rt: &impl Print, alloc: Global) -> Result<()> {
    for shape in Shape::MESSAGES {
        let bytes = framed(alloc, shape, BYTES)?;
        check_canonical(alloc, &bytes)?;
        check_readings(alloc, &bytes)?;
        check_changed(alloc, &bytes)?;
        print_digest(rt, alloc, shape, &bytes)?;
    }
    Ok(())
}
