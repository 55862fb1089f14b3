//! Tests of messages made from texts that are read in chunks.

use crate::making::{MADE, NULL, PADDED, run};
use capn_make::{Form, MakeFault, Watched, make};
use std::alloc::Global;
use std::io::{self, Read, Write};
use std::test::Fail;

/// A reader that gives at most `most` bytes a call.
#[derive(Drop)]
pub(crate) struct Pieces<'a> {
    pub(crate) rest: &'a [u8],
    pub(crate) most: usize,
}

impl Read for Pieces<'_> {
    fn read(&mut self, buf: &mut [u8]) -> io::Result<usize> {
        let len = self.rest.len().min(buf.len()).min(self.most);
        buf[..len].copy_from_slice(&self.rest[..len]);
        self.rest = &self.rest[len..];
        Ok(len)
    }
}

/// Returns the result and the output of a run over `rest`, read in chunks of at most `most` bytes.
fn run_in_pieces(
    alloc: Global,
    form: Form,
    rest: &[u8],
    most: usize,
) -> (Result<(), MakeFault>, Vec<u8>) {
    let mut reader = Watched::new(Pieces { rest, most });
    let mut writer = Watched::new(Vec::new(alloc));
    let outcome = make(alloc, form, &mut reader, &mut writer);
    let _ = reader.into_inner();
    (outcome, writer.into_inner())
}

/// Returns the texts of three values. The second is a list of `bytes` bytes, and can be longer than one chunk.
fn long_texts(alloc: Global, bytes: usize) -> Result<Vec<u8>, Fail> {
    let mut input = Vec::new(alloc);
    input.extend_from_slice(PADDED)?;
    write!(input, "bytes {bytes}\n  ")?;
    for _ in 0..bytes {
        input.extend_from_slice(b"7f")?;
    }
    input.extend_from_slice(b"\nend\n")?;
    input.extend_from_slice(NULL)?;
    Ok(input)
}

#[test]
fn long_texts_in_pieces(rt: HostRuntime) -> Result<(), Fail> {
    let alloc = rt.alloc();
    let input = long_texts(alloc, 300_000)?;
    for form in [Form::Stream, Form::Packed] {
        let (outcome, written) = run(alloc, form, &input);
        assert!(rt; outcome == Ok(()));
        for most in [4_000, 65_536] {
            let (again, same) = run_in_pieces(alloc, form, &input, most);
            assert!(rt; again == Ok(()));
            assert!(rt; same.as_slice() == written.as_slice());
        }
        // If the last newline is missing, the last text is refused, and the messages of the other two are written.
        let short = &input[..input.len().saturating_sub(1)];
        let (fault, begun) = run_in_pieces(alloc, form, short, 65_536);
        assert!(rt; fault == Err(MakeFault::NotText(10)), "{fault:?}");
        assert!(rt; begun.len() < written.len());
        assert!(rt; begun.as_slice() == &written[..begun.len()]);
    }
    Ok(())
}

#[test]
fn each_form_in_pieces(rt: HostRuntime) {
    for (form, input, text) in MADE {
        for most in [1, 3, 11] {
            let (outcome, written) = run_in_pieces(rt.alloc(), form, input, most);
            assert!(rt; outcome == Ok(()), "{most}");
            assert!(rt; written.as_slice() == text, "{most}");
        }
    }
}
