//! A line of text that is collected in an array of 256 bytes, and is written to a writer from there.

ghost use Rattle.std.specs.Prelude.{◌≡◌, ◌+◌, ◌≤◌, [], ◌++◌, length};
ghost use Rattle.std.specs.Fmt.{decimal};
ghost use Rattle.capn_words.specs.Watched.{inner_of, has_failed};
ghost use Rattle.capn_serve.specs.Line.{Goes, Says, way};
ghost use Rattle.capn_serve.specs.Ending.{out_of_memory};

use capn_words::Watched;
use std::io::Write;
use std::marker::Model;

/// The greatest number of unwritten bytes that a line can hold.
const ROOM: usize = 256;

/// The bytes of a line that are not written yet, at most 256. They are in an array, so no memory is allocated.
#[derive(Drop)]
pub struct Line {
    bytes: [u8; ROOM],
    filled: usize,
}

impl Model for Line {
    ghost use Rattle.std.specs.Prelude.{ℕ, ◌≤◌, List, take};

    ghost Value = { List ℕ };

    ghost view = { λ line. take line.filled line.bytes };

    ghost invariant = { λ line. line.filled ≤ 256 };
}

/// Writes all of `part` to `errors`, unless `errors` has failed before.
fn write_part<E: Write>(part: &[u8], errors: &mut Watched<E>)
    ensures { Goes part.now (E.contents (inner_of errors.old)) (has_failed errors.old)
        (E.contents (inner_of errors.new)) (has_failed errors.new) }
{
    if !errors.failed() {
        let _told = errors.write_all(part);
    }
}

impl Line {
    /// Returns an empty line.
    pub fn new() -> Line
        ensures { result ≡ [] }
    {
        Line {
            bytes: [0; ROOM],
            filled: 0,
        }
    }

    /// Appends `part` to the bytes that are not written yet.
    fn hold(&mut self, part: &[u8])
        requires { length self.old + length part.now ≤ 256 }
        ensures { self.new ≡ self.old ++ part.now }
    {
        let filled = self.filled + part.len();
        self.bytes[self.filled..filled].copy_from_slice(part);
        self.filled = filled;
    }

    /// Writes the bytes that are not written yet to `errors`, unless `errors` has failed before. The line is empty
    /// afterwards.
    pub fn send<E: Write>(&mut self, errors: &mut Watched<E>)
        ensures empty { self.new ≡ [] }
        ensures sent { Says [] (way self.old (E.contents (inner_of errors.old)) (has_failed errors.old))
            (way self.new (E.contents (inner_of errors.new)) (has_failed errors.new)) }
    {
        write_part(&self.bytes[..self.filled], errors);
        self.filled = 0;
    }

    /// Appends `part` to the line. If `part` does not fit into the array, the unwritten bytes and then `part` are
    /// written to `errors`.
    pub fn put<E: Write>(&mut self, part: &[u8], errors: &mut Watched<E>)
        ensures { Says part.now (way self.old (E.contents (inner_of errors.old)) (has_failed errors.old))
            (way self.new (E.contents (inner_of errors.new)) (has_failed errors.new)) }
    {
        if part.len() <= ROOM - self.filled {
            self.hold(part);
        } else {
            self.send(errors);
            write_part(part, errors);
        }
    }

    /// Appends `out of memory`, the text of the fault `Memory`.
    pub fn put_memory<E: Write>(&mut self, errors: &mut Watched<E>)
        ensures { Says out_of_memory (way self.old (E.contents (inner_of errors.old)) (has_failed errors.old))
            (way self.new (E.contents (inner_of errors.new)) (has_failed errors.new)) }
    {
        self.put(b"out of memory", errors);
    }

    /// Appends `n`, in decimal digits.
    pub fn put_number<E: Write>(&mut self, n: u64, errors: &mut Watched<E>)
        ensures { Says (decimal n) (way self.old (E.contents (inner_of errors.old)) (has_failed errors.old))
            (way self.new (E.contents (inner_of errors.new)) (has_failed errors.new)) }
    {
        let mut digits = itoa::Buffer::new();
        self.put(digits.format(n).as_bytes(), errors);
    }

    /// Appends `name`, then `n` in decimal digits.
    pub fn put_named<E: Write>(&mut self, name: &[u8], n: u64, errors: &mut Watched<E>)
        ensures { Says (name.now ++ decimal n)
            (way self.old (E.contents (inner_of errors.old)) (has_failed errors.old))
            (way self.new (E.contents (inner_of errors.new)) (has_failed errors.new)) }
    {
        self.put(name, errors);
        self.put_number(n, errors);
    }

    /// Appends `before`, `n` in decimal digits, and `after`.
    pub fn put_between<E: Write>(
        &mut self,
        before: &[u8],
        n: u64,
        after: &[u8],
        errors: &mut Watched<E>,
    )
        ensures { Says (before.now ++ (decimal n ++ after.now))
            (way self.old (E.contents (inner_of errors.old)) (has_failed errors.old))
            (way self.new (E.contents (inner_of errors.new)) (has_failed errors.new)) }
    {
        self.put(before, errors);
        self.put_number(n, errors);
        self.put(after, errors);
    }
}
