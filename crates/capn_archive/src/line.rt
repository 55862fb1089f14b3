//! The parts of a line of `list`, which is built from its end to its beginning.

ghost use Rattle.std.specs.Prelude.{◌≡◌, ◌+◌, ◌≤◌, ◌++◌, length};
ghost use Rattle.capn_archive.specs.Lines as spec;

use crate::message_head::MessageHead;
use capn_canon::MeasuredBare;
use capn_serve::{NumberLine, number_of};

/// Writes the position and size in `head` in front of `line`.
pub(crate) fn put_head<const ROOM: usize>(line: &mut NumberLine<ROOM>, head: &MessageHead)
    requires { 148 + length line.old ≤ ROOM }
    ensures { line.new ≡ spec.head_text head.now ++ line.old }
{
    let mut digits = itoa::Buffer::new();
    line.put_named(b" words ", head.words as u64);
    line.put_named(b" segments ", head.segments as u64);
    line.put_named(b" bytes ", head.bytes);
    line.put_named(b" at ", head.at.offset);
    line.put(digits.format(number_of(head.at.index)).as_bytes());
}

/// Writes the index `capability` in front of `line`, or `no` if `capability` is `None`.
fn put_capability<const ROOM: usize>(line: &mut NumberLine<ROOM>, capability: Option<u32>)
    requires { 20 + length line.old ≤ ROOM }
    ensures capability { line.new ≡ spec.capability_text capability ++ line.old }
    ensures few { length line.new ≤ 20 + length line.old }
{
    match capability {
        Some(index) => line.put_number(index as u64),
        None => line.put(b"no"),
    }
}

fn put_answer<const ROOM: usize>(line: &mut NumberLine<ROOM>, answer: bool)
    requires { 3 + length line.old ≤ ROOM }
    ensures answer { line.new ≡ spec.answer_text answer ++ line.old }
    ensures few { length line.new ≤ 3 + length line.old }
{
    if answer {
        line.put(b"yes");
    } else {
        line.put(b"no");
    }
}

/// Writes the figures in `measured` in front of `line`.
pub(crate) fn put_measured<const ROOM: usize>(line: &mut NumberLine<ROOM>, measured: &MeasuredBare)
    requires { 126 + length line.old ≤ ROOM }
    ensures measured { line.new ≡ spec.measured_text measured.now ++ line.old }
    ensures few { length line.new ≤ 126 + length line.old }
{
    put_answer(line, measured.survey.is_canonical);
    line.put(b" canonical ");
    put_capability(line, measured.survey.capability);
    line.put(b" capability ");
    line.put_named(b" depth ", measured.depth as u64);
    line.put_named(b" visits ", measured.survey.visits as u64);
    line.put_named(b"paid ", measured.survey.paid as u64);
}

/// Writes `digest` in front of `line`, as 64 hexadecimal digits, or as `-` if `digest` is `None`.
pub(crate) fn put_digest<const ROOM: usize>(line: &mut NumberLine<ROOM>, digest: Option<[u8; 32]>)
    requires { 64 + length line.old ≤ ROOM }
    ensures digest { line.new ≡ spec.digest_text digest ++ line.old }
    ensures few { length line.new ≤ 64 + length line.old }
{
    match digest {
        Some(digest) => {
            let mut digits = [0; 64];
            // The buffer has room for 64 digits, so the encoding cannot fail.
            let _done = hex::encode_to_slice(digest.as_slice(), &mut digits);
            line.put(&digits);
        }
        None => line.put(b"-"),
    }
}
