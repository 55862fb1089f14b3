//! The functions that copy lists without pointers, each in one pass.

ghost use Rattle.std.specs.Prelude.{◌≡◌, ◌+◌, ◌*◌, ◌/◌, ◌%◌, ◌<◌, ◌≤◌, ◌^◌, ◌++◌, length, map, take};
ghost use Rattle.std.specs.Prelude.{vec_capacity, IfOk};
ghost use Rattle.std.specs.Int.{from_bool};
ghost use Rattle.std.specs.List.{range_with_len};
ghost use Rattle.capn_words.specs.Message.{IsMessage, segment_at};
ghost use Rattle.capn_value.specs.TreeOf.{tree_of};
ghost use Rattle.capn_target.specs.Target.{content_words};
ghost use Rattle.capn_walk.specs.ValueAt.{AreElements, IsInside, words_from};
ghost use Rattle.capn_target.specs.Shapes.{IsPlain, IsContent};
ghost use Rattle.capn_target.specs.declared.target.Shape.TheVariants.{Many};
ghost use Rattle.capn_words.specs.declared.pointer.Width.TheVariants.{W1, W8, W16, W32};

use capn_target::counted::{CountedSpace, Reads};
use capn_value::{Items, Value};
use capn_words::{Place, Space, Width};
use std::alloc::{AllocError, Allocator};
use std::sync::ledger::Ledger;

/// Copies into memory of `alloc` the list of `count` elements of `width` whose content starts at `at`.
#[tactic(auto, using(capn_value::specs::Views::views))]
pub fn list_at<S: Space, A: Allocator + Copy, L: Ledger>(
    alloc: A,
    space: &CountedSpace<'_, S, L>,
    at: Place,
    width: Width,
    count: u32,
    reads: &mut Reads<L>,
) -> Result<Value<A>, AllocError>
    requires message { IsMessage space.now }
    requires plain { IsPlain width }
    requires content { IsContent space.now at (content_words width count) }
    ensures value { IfOk result (λ v.
        IsInside space.now (Many width count) at.segment at.word (tree_of v)) }
    ensures reads { reads.new ≤ reads.old + content_words width count }
{
    match width {
        Width::W0 => Ok(Value::Voids(count)),
        Width::W1 => Ok(Value::Bits(bits_at(alloc, space, at, count, reads)?)),
        Width::W8 => Ok(Value::Bytes(bytes_at(alloc, space, at, count, reads)?)),
        Width::W16 => Ok(Value::Pairs(pairs_at(alloc, space, at, count, reads)?)),
        Width::W32 => Ok(Value::Quads(quads_at(alloc, space, at, count, reads)?)),
        Width::W64 => Ok(Value::Octs(words_at(alloc, space, at, count, reads)?)),
        Width::Link | Width::Rows => unreachable!(),
    }
}

/// Copies `count` words from `at` on.
#[inline(always)]
pub fn words_at<S: Space, A: Allocator, L: Ledger>(
    alloc: A,
    space: &CountedSpace<'_, S, L>,
    at: Place,
    count: u32,
    reads: &mut Reads<L>,
) -> Result<Items<u64, A>, AllocError>
    requires message { IsMessage space.now }
    requires content { IsContent space.now at count }
    ensures number { IfOk result (λ ws. length ws ≡ count) }
    ensures words { IfOk result (λ ws. take count (words_from space.now at.segment at.word) ≡ ws) }
    ensures reads { reads.new ≡ reads.old + count }
{
    let count = count as usize;
    let mut bytes = space.bytes(at, 8 * count, reads);
    let mut words = Vec::with_capacity(alloc, count)?;
    for i in 0..count {
        words.push_reserved(bytes.next_word());
    }
    Ok(Items::from_vec(words))
}

/// Copies `count` elements of four bytes from `at` on.
fn quads_at<S: Space, A: Allocator, L: Ledger>(
    alloc: A,
    space: &CountedSpace<'_, S, L>,
    at: Place,
    count: u32,
    reads: &mut Reads<L>,
) -> Result<Items<u32, A>, AllocError>
    requires content { IsContent space.now at (content_words W32 count) }
    ensures number { IfOk result (λ xs. length xs ≡ count) }
    ensures elements { IfOk result (λ xs.
        AreElements 2 32 (words_from space.now at.segment at.word) xs) }
    ensures reads { reads.new ≡ reads.old + content_words W32 count }
{
    let count = count as usize;
    let mut bytes = space.bytes(at, 4 * count, reads);
    let mut quads = Vec::with_capacity(alloc, count)?;
    for i in 0..count {
        quads.push_reserved(bytes.next_quad());
    }
    Ok(Items::from_vec(quads))
}

/// Copies `count` elements of two bytes from `at` on.
fn pairs_at<S: Space, A: Allocator, L: Ledger>(
    alloc: A,
    space: &CountedSpace<'_, S, L>,
    at: Place,
    count: u32,
    reads: &mut Reads<L>,
) -> Result<Items<u16, A>, AllocError>
    requires content { IsContent space.now at (content_words W16 count) }
    ensures number { IfOk result (λ xs. length xs ≡ count) }
    ensures elements { IfOk result (λ xs.
        AreElements 4 16 (words_from space.now at.segment at.word) xs) }
    ensures reads { reads.new ≡ reads.old + content_words W16 count }
{
    let count = count as usize;
    let mut bytes = space.bytes(at, 2 * count, reads);
    let mut pairs = Vec::with_capacity(alloc, count)?;
    for i in 0..count {
        pairs.push_reserved(bytes.next_pair());
    }
    Ok(Items::from_vec(pairs))
}

/// Copies `count` bytes from `at` on, in one operation.
fn bytes_at<S: Space, A: Allocator, L: Ledger>(
    alloc: A,
    space: &CountedSpace<'_, S, L>,
    at: Place,
    count: u32,
    reads: &mut Reads<L>,
) -> Result<Items<u8, A>, AllocError>
    requires content { IsContent space.now at (content_words W8 count) }
    ensures number { IfOk result (λ xs. length xs ≡ count) }
    ensures elements { IfOk result (λ xs.
        AreElements 8 8 (words_from space.now at.segment at.word) xs) }
    ensures reads { reads.new ≡ reads.old + content_words W8 count }
{
    space.bytes(at, count as usize, reads).into_items(alloc)
}

/// Copies `count` bits from `at` on, the least significant of each byte first.
fn bits_at<S: Space, A: Allocator, L: Ledger>(
    alloc: A,
    space: &CountedSpace<'_, S, L>,
    at: Place,
    count: u32,
    reads: &mut Reads<L>,
) -> Result<Items<bool, A>, AllocError>
    requires content { IsContent space.now at (content_words W1 count) }
    ensures number { IfOk result (λ xs. length xs ≡ count) }
    ensures elements { IfOk result (λ xs.
        AreElements 64 1 (words_from space.now at.segment at.word)
        (map from_bool xs)) }
    ensures reads { reads.new ≡ reads.old + content_words W1 count }
{
    let count = count as usize;
    let mut bytes = space.bytes(at, count.div_ceil(8), reads);
    let mut bits = Vec::with_capacity(alloc, count)?;
    for i in 0..count / 8 {
        push_bits(&mut bits, bytes.next_byte(), 8);
    }
    if count % 8 > 0 {
        push_bits(&mut bits, bytes.next_byte(), count % 8);
    }
    Ok(Items::from_vec(bits))
}

/// Appends the `count` least significant bits of `byte` to `bits`, the least significant first. The function is
/// inlined, so that the loop is unrolled in the call with the constant count 8.
#[inline(always)]
fn push_bits<A: Allocator>(bits: &mut Vec<bool, A>, byte: u8, count: usize)
    requires within { count ≤ 8 }
    requires room { length bits.old.items + count ≤ vec_capacity bits.old }
    ensures items { map from_bool bits.new.items
        ≡ map from_bool bits.old.items ++ map (λ k. byte / 2 ^ k % 2) (range_with_len 0 count) }
    ensures number { length bits.new.items ≡ length bits.old.items + count }
    ensures capacity { vec_capacity bits.new ≡ vec_capacity bits.old }
{
    for place in 0..count {
        bits.push_reserved(bit_of(byte, place));
    }
}

/// Returns bit `place` of `byte`, where bit 0 is the least significant.
fn bit_of(byte: u8, place: usize) -> bool
    requires { place < 8 }
    ensures { from_bool result ≡ byte / 2 ^ place % 2 }
{
    byte >> place & 1 == 1
}
