//! The conversion of a text that arrives in chunks to its plain form.

ghost use Rattle.std.specs.Prelude.{◌≡◌, ◌≢◌, ◌≤◌, ◌+◌, ◌++◌, ℕ, List, [], ◌∷◌, length, drop, take, true, OnOk, OnErr};
ghost use Rattle.capn_text.specs.Streams.{ended_lines};
ghost use Rattle.capn_text.specs.Beginnings as beginnings;
ghost use Rattle.capn_text.specs.PlainForm as form;
ghost use Rattle.capn_text.specs.Unquoting as spec;
ghost use Rattle.capn_text.specs.Unquoting.{Unquotes, Forgets, StartFrom};

use crate::plain_form::{count_to, next_line, push_plain};
use crate::quoted_line::{looked_at, may_begin};
use std::alloc::{AllocError, Allocator};
use std::marker::Model;

/// A converter of a text with lists of bytes between quotes to its plain form. The text may arrive in chunks of any
/// sizes.
///
/// The converter stores the unfinished line while its first 1,024 bytes can begin a line with bytes between quotes.
/// [`Unquoter::own_line`] finds the line of the text for a line of the plain form. For this, the converter stores eight
/// bytes for each line with bytes between quotes until [`Unquoter::forget`] drops them.
#[derive(Debug, Drop)]
pub struct Unquoter<A: Allocator + Copy> {
    alloc: A,
    front: Vec<u8, A>,
    line: u64,
    digits: Vec<u64, A>,
    passed: u64,
    through: bool,
}

impl<A: Allocator + Copy> Model for Unquoter<A> {
    ghost use Rattle.std.specs.Prelude.{◌≡◌, ◌+◌, ◌<◌, length};
    ghost use Rattle.capn_text.specs.Streams.{ended_lines};
    ghost use Rattle.capn_text.specs.Unquoting.{Unquoting};

    ghost Value = { Unquoting };

    ghost view = { λ u.
        record {
          front = u.front.items;
          line = u.line;
          digits = u.digits.items;
          passed = u.passed;
          through = u.through;
        } };

    ghost invariant = { λ u. (ended_lines u.front.items ≡ 0) × (u.passed + length u.digits.items < u.line) };
}

/// Returns the number of elements at the front of `digits` that are less than `line`.
#[tactic(auto, using(crate::proofs::Unquotings::starts_here, crate::proofs::Unquotings::none_starts))]
fn gone_before(digits: &[u64], line: u64) -> usize
    ensures within { result ≤ length digits.now }
    ensures before { (n : ℕ) → line ≤ n → form.count_to n (take result digits.now) ≡ result }
    ensures next { StartFrom line (drop result digits.now) }
{
    for i in 0..digits.len() {
        if digits[i] >= line {
            return i;
        }
    }
    digits.len()
}

/// Drops the first `count` numbers of `digits`.
fn drop_front<A: Allocator>(digits: &mut Vec<u64, A>, count: usize)
    requires { count ≤ length digits.old.items }
    ensures { digits.new.items ≡ drop count digits.old.items }
{
    let len = digits.len();
    digits.copy_within(count..len, 0);
    digits.truncate(len - count);
}

impl<A: Allocator + Copy> Unquoter<A> {
    /// Creates a converter for the beginning of a text. Takes no memory.
    pub fn new(alloc: A) -> Unquoter<A>
        ensures { result ≡ spec.first_unquoting }
    {
        Unquoter {
            alloc,
            front: Vec::new(alloc),
            line: 1,
            digits: Vec::new(alloc),
            passed: 0,
            through: false,
        }
    }

    /// Appends `part`, in which no line ends, to the stored bytes `front` of the unfinished line.
    fn keep(&mut self, part: &[u8]) -> Result<(), AllocError>
        requires { ended_lines part.now ≡ 0 }
        ensures quiet { ended_lines self.new.front ≡ 0 }
        ensures front { OnOk result (self.new.front ≡ self.old.front ++ part.now) }
        ensures line { self.new.line ≡ self.old.line }
        ensures digits { self.new.digits ≡ self.old.digits }
        ensures passed { self.new.passed ≡ self.old.passed }
        ensures through { self.new.through ≡ self.old.through }
    {
        self.front.extend_from_slice(part)
    }

    /// Appends `part`, in which no line ends, to `out` if the front of its line is already in `out`. Otherwise appends
    /// `part` to the stored bytes of the unfinished line.
    fn take(&mut self, part: &[u8], out: &mut Vec<u8, A>) -> Result<(), AllocError>
        requires { ended_lines part.now ≡ 0 }
        ensures { OnOk result ((added : List ℕ) × (out.new.items ≡ out.old.items ++ added)
            × Unquotes self.old self.new part.now added) }
    {
        if self.through {
            out.extend_from_slice(part)?;
            return Ok(());
        }
        self.keep(part)?;
        Ok(())
    }

    /// Ends the unfinished line, of which all bytes are stored, and appends its plain form to `out`. Also fails if the
    /// number of a line would pass 64 bits.
    fn end_kept(&mut self, out: &mut Vec<u8, A>) -> Result<(), AllocError>
        ensures front { OnOk result (self.new.front ≡ []) }
        ensures line { OnOk result (self.new.line ≡ self.old.line + form.lines_of self.old.front) }
        ensures digits { OnOk result
            (self.new.digits ≡ self.old.digits ++ form.digits_of self.old.line self.old.front) }
        ensures passed { OnOk result (self.new.passed ≡ self.old.passed) }
        ensures through { OnOk result (self.new.through ≡ self.old.through) }
        ensures added { OnOk result (out.new.items ≡ out.old.items ++ form.plain_line self.old.front) }
    {
        let quoted = push_plain(self.alloc, out, &self.front)?;
        let Some(next) = self.line.checked_add(1 + u64::from(quoted)) else {
            return Err(AllocError);
        };
        if quoted {
            self.digits.push(self.line + 1)?;
        }
        self.line = next;
        self.front.clear();
        Ok(())
    }

    /// Ends the unfinished line. Appends the bytes of its plain form to `out`, unless they are already in `out`. Also
    /// fails if the number of a line would pass 64 bits.
    fn end_line(&mut self, out: &mut Vec<u8, A>) -> Result<(), AllocError>
        ensures { OnOk result ((added : List ℕ) × (out.new.items ≡ out.old.items ++ added)
            × Unquotes self.old self.new (10 ∷ []) added) }
    {
        if self.through {
            let Some(next) = self.line.checked_add(1) else {
                return Err(AllocError);
            };
            out.push(b'\n')?;
            self.line = next;
            self.front.clear();
            self.through = false;
            return Ok(());
        }
        self.end_kept(out)?;
        Ok(())
    }

    /// Appends the unfinished line to `out` unchanged, if the line cannot have bytes between quotes.
    fn pass_on(&mut self, out: &mut Vec<u8, A>) -> Result<(), AllocError>
        ensures read { OnOk result ((added : List ℕ) × (out.new.items ≡ out.old.items ++ added)
            × Unquotes self.old self.new [] added) }
        ensures empty { OnOk result (self.new.through ≡ true → self.new.front ≡ []) }
        ensures held { OnOk result (beginnings.may_begin (take beginnings.looked_at self.new.front) ≡ true) }
        ensures quiet { ended_lines self.new.front ≡ 0 }
    {
        if self.through {
            self.front.clear();
            return Ok(());
        }
        if may_begin(looked_at(&self.front)) {
            return Ok(());
        }
        out.extend_from_slice(&self.front)?;
        self.front.clear();
        self.through = true;
        Ok(())
    }

    /// Reads the next chunk, `piece`. Appends to `out` the plain form of each line that ends in `piece`. Also appends
    /// the bytes of the unfinished line that have arrived, if at most 1,024 bytes at its front show that the line has
    /// no bytes between quotes. After an error the state of the converter is unspecified.
    pub fn push(&mut self, piece: &[u8], out: &mut Vec<u8, A>) -> Result<(), AllocError>
        ensures quiet { OnOk result (ended_lines self.new.front ≡ 0) }
        ensures empty { OnOk result (self.new.through ≡ true → self.new.front ≡ []) }
        ensures held { OnOk result (beginnings.may_begin (take beginnings.looked_at self.new.front) ≡ true) }
        ensures read { OnOk result ((added : List ℕ) × (out.new.items ≡ out.old.items ++ added)
            × Unquotes self.old self.new piece.now added) }
    {
        let mut rest = piece;
        while let Some((line, after)) = next_line(rest) {
            self.take(line, out)?;
            self.end_line(out)?;
            rest = after;
        }
        self.take(rest, out)?;
        self.pass_on(out)?;
        Ok(())
    }

    /// Appends the stored bytes of the unfinished line to `out`, at the end of a text. Cannot fail if no bytes are
    /// stored.
    pub fn finish(&self, out: &mut Vec<u8, A>) -> Result<(), AllocError>
        ensures memory { OnErr result (self.now.front ≢ []) }
        ensures added { OnOk result (out.new.items ≡ out.old.items ++ self.now.front) }
    {
        out.extend_from_slice(&self.front)
    }

    /// Drops the stored numbers of the lines of digits before `line`, which is a line of the plain form. Takes no
    /// memory.
    pub fn forget(&mut self, line: u64)
        ensures { Forgets line self.old self.new }
    {
        let gone = gone_before(&self.digits, line);
        drop_front(&mut self.digits, gone);
        self.passed += gone as u64;
    }

    /// Returns the line of the text to which this `line` of the plain form belongs. `line` has to be at least each line
    /// that was given to [`Unquoter::forget`]. Takes no memory.
    pub fn own_line(&self, line: u64) -> u64
        ensures { result ≡ spec.own_at self.now line }
    {
        line.saturating_sub(self.passed)
            .saturating_sub(count_to(&self.digits, line))
    }
}
