//! The reader of texts that stand one after the other.

ghost use Rattle.std.specs.Prelude.{◌≡◌, ◌≢◌, ◌⊎◌, ◌≤◌, ◌<◌, ◌+◌, ◌-◌, ◌^◌, ◌++◌, ℕ, List, [], length};
ghost use Rattle.std.specs.Prelude.{IfOk, IfErr, OnErr, IfSome, IsSome, MatchResult};
ghost use Rattle.std.specs.Prelude.{MatchOption, Ok, Some, None, true, false};
ghost use Rattle.capn_value.specs.Tree as trees;
ghost use Rattle.capn_value.specs.Cost.{height, most_height};
ghost use Rattle.capn_value.specs.Fits.{Fits, misfit};
ghost use Rattle.capn_value.specs.InRange.{InRange};
ghost use Rattle.capn_value.specs.Text.{show_text};
ghost use Rattle.capn_value.specs.declared.misfit.Misfit.{Misfit};
ghost use Rattle.capn_value.specs.declared.misfit.Misfit.TheVariants.{Tall};
ghost use Rattle.capn_text.specs.Showable.{IsShowable};
ghost use Rattle.capn_text.specs.Streams.{end_line, ended_lines, ended_text, BeginsAs, IsFirstWrong, GoesTooDeep};
ghost use Rattle.capn_text.specs.Streams.{IsWrongAt, MayGoOn, Names, few};
ghost use Rattle.capn_text.specs.declared.fault.TextFault.TheVariants as faults;

use crate::fault::TextFault;
use crate::heads::head_at;
use crate::lines::lines_before;
use crate::one_text::{first_line, first_value, fitting, has_more};
use crate::tokens::{is_short, skip};
use capn_value::Tree;
use std::alloc::Allocator;
use std::marker::Model;

/// A reader of an input of texts, one after the other, each followed by its line `end`.
#[derive(Debug, Drop)]
pub struct Texts<'t> {
    rest: &'t [u8],
    line: u64,
}

impl<'t> Model for Texts<'t> {
    ghost use Rattle.std.specs.Prelude.{◌+◌, ◌<◌, ◌^◌, length};
    ghost use Rattle.capn_text.specs.Streams.{Place};

    ghost Value = { Place };

    ghost view = { λ t. record { rest = t.rest.now; line = t.line } };

    ghost invariant = { λ t. t.line + length t.rest.now < 2 ^ 64 };
}

impl<'t> Texts<'t> {
    /// Creates a reader of the texts of `input`. Takes no memory.
    pub fn new(input: &'t [u8]) -> Texts<'t>
        ensures { result ≡ record { rest = input.now; line = 1 } }
    {
        Texts {
            rest: input,
            line: 1,
        }
    }

    /// Creates a reader of `input`, the bytes of a longer input from the beginning of `line` on. Returns `None` if the
    /// number of the last line of `input` might exceed 64 bits. Takes no memory.
    pub fn from_line(input: &'t [u8], line: u64) -> Option<Texts<'t>>
        ensures found { IfSome result (λ t. t ≡ record { rest = input.now; line = line }) }
        ensures only { line + length input.now < 2 ^ 64 → IsSome result }
    {
        if line > u64::MAX - input.len() as u64 {
            return None;
        }
        Some(Texts { rest: input, line })
    }

    /// Returns the number of the line at which the next text begins. At the end of the input, that is the line after
    /// the last line. Lines are counted from 1 over the complete input.
    pub fn line(&self) -> u64
        ensures { result ≡ self.now.line }
    {
        self.line
    }

    /// Returns the number of bytes that have not been read. Takes no memory.
    pub fn left(&self) -> usize
        ensures { result ≡ length self.now.rest }
    {
        self.rest.len()
    }

    /// Returns `true` if the end of the input has been reached. Takes no memory.
    pub fn is_done(&self) -> bool
        ensures over { result ≡ true → self.now.rest ≡ [] }
        ensures more { result ≡ false → self.now.rest ≢ [] }
    {
        !has_more(self.rest)
    }

    /// Returns `true` if the next line begins a value. Takes no memory.
    pub fn begins(&self) -> bool
        ensures begun { result ≡ true → (v : trees.Tree) × BeginsAs self.now.rest v }
        ensures other { result ≡ false → (v : trees.Tree) → BeginsAs self.now.rest v → ⊥ }
    {
        match first_line(self.rest) {
            Ok(()) => true,
            Err(_) => false,
        }
    }

    /// Returns `true` if the next line does not begin a value, and fewer than 2,048 bytes are left. More bytes may then
    /// complete the line. Takes no memory.
    pub fn may_begin(&self) -> bool
        ensures lost { result ≡ false → ((v : trees.Tree) → BeginsAs self.now.rest v → ⊥) →
            (more : List ℕ) (v : trees.Tree) → BeginsAs (self.now.rest ++ more) v → ⊥ }
        ensures open { result ≡ true → length self.now.rest ≤ few }
    {
        match head_at(0, self.rest) {
            Ok(_) => false,
            Err(_) => is_short(self.rest),
        }
    }

    /// Reads the next text. Returns its tree, or `None` at the end of the input.
    ///
    /// A text is read together with its line `end`. If another line stands in place of `end`, the fault names that
    /// line, even if the value fits into no message. A text that goes deeper than 256 levels is `Tall`, even if a later
    /// line is wrong. After an error the reader has not moved, so the next call begins with the same text. The line of
    /// an error is counted over the complete input. A misfit belongs to the text that begins at [`Texts::line`]. A call
    /// takes memory of `alloc` for the tree, and up to twice as much for lists while they grow.
    pub fn read_next<A: Allocator + Copy>(&mut self, alloc: A) -> Result<Option<Tree<A>>, TextFault>
        // If a tree is returned, its text and the line `end` were next, and the bytes after `end` are left. If `None`
        // is returned, no bytes were left.
        ensures found { IfOk result (λ o. MatchOption o ((self.old.rest ≡ []) × (self.new ≡ self.old))
            (λ t. self.old.rest ≡ show_text t ++ (end_line ++ self.new.rest))) }
        // If the text of a tree and the line `end` are next, that tree is read, unless an allocation is refused.
        ensures only { (v : trees.Tree) (rest : List ℕ) → Fits v → InRange v →
            self.old.rest ≡ show_text v ++ (end_line ++ rest) →
            MatchResult result (λ o. (o ≡ Some v) × (self.new.rest ≡ rest)) (λ e. e ≡ faults.Memory) }
        // At the end of the input, the result is `None`.
        ensures ended { self.old.rest ≡ [] → result ≡ Ok None }
        // The line number grows by one for each line that was read.
        ensures counted { self.new.line + ended_lines self.new.rest ≡ self.old.line + ended_lines self.old.rest }
        // After an error the reader is unchanged.
        ensures kept { OnErr result (self.new ≡ self.old) }
        // If the fault names a line, the input does not go on with the text and line `end` of any showable value of at
        // most 256 levels. The value need not fit into a message.
        ensures line { IfErr result (λ e. (n : ℕ) → Names e n → (v : trees.Tree) (rest : List ℕ) →
            IsShowable v → height v ≤ most_height → self.old.rest ≢ show_text v ++ (end_line ++ rest)) }
        // If the fault names line `n`, `n` is at least the number of the line at which the text begins. `n` is at most
        // the number of the line after the last line of the input.
        ensures place { IfErr result (λ e. (n : ℕ) → Names e n →
            (self.old.line ≤ n) × (n ≤ self.old.line + ended_lines self.old.rest)) }
        // Let the text of a showable value of at most 256 levels be next. The value need not fit into a message. If the
        // fault names a line, it is the line after that text.
        ensures end { (v : trees.Tree) (rest : List ℕ) → IsShowable v → height v ≤ most_height →
            self.old.rest ≡ show_text v ++ rest →
            IfErr result (λ e. (n : ℕ) → Names e n → n ≡ self.old.line + ended_lines (show_text v)) }
        // If an error does not name the next line, that line begins some value. So no memory is needed to find a wrong
        // first line.
        ensures begun { IfErr result (λ e. (Names e self.old.line → ⊥) →
            (v : trees.Tree) × BeginsAs self.old.rest v) }
        // If the fault names a line, it is the first wrong line of a text with its line `end`.
        ensures first { IfErr result (λ e. (n : ℕ) → Names e n →
            (k : ℕ) × (n + 1 ≡ self.old.line + k) × IsFirstWrong ended_text k self.old.rest) }
        // If the fault is `Line`, that line is the first wrong line whatever bytes follow the input.
        ensures lost { IfErr result (λ e. (n : ℕ) → e ≡ faults.Line n → (more : List ℕ) →
            IsWrongAt self.old.line (self.old.rest ++ more) n) }
        // If the fault is `Cut`, the input with at most 2,048 bytes removed from its end is a prefix of the text and
        // line `end` of some value.
        ensures open { IfErr result (λ e. (n : ℕ) → e ≡ faults.Cut n → MayGoOn self.old.rest) }
        // If the fault is a misfit, there are two cases. In one, the text and line `end` of a value of at most 256
        // levels with that misfit are next. In the other, the misfit is `Tall`, and the input goes too deep.
        ensures misfit { IfErr result (λ e. (m : Misfit) → e ≡ faults.Misfit m →
            ((m ≡ Tall) × GoesTooDeep self.old.rest) ⊎ ((v : trees.Tree) × (rest : List ℕ) × InRange v
            × IsShowable v × (height v ≤ most_height) × (self.old.rest ≡ show_text v ++ (end_line ++ rest))
            × (misfit v ≡ Some m))) }
    {
        if self.rest.is_empty() {
            return Ok(None);
        }
        let (value, after) = match first_value(alloc, self.rest) {
            Ok((value, after)) => (value, after),
            Err(fault) => return Err(counted_from(self.line, fault)),
        };
        let line = self.line + lines_before(self.rest, after.len());
        let Some(rest) = skip(after, b"end\n") else {
            drop(value);
            return Err(end_fault(line, after));
        };
        let tree = fitting(value)?;
        self.rest = rest;
        self.line = line + 1;
        Ok(Some(tree))
    }
}

// Returns `fault` with its line counted from `line` instead of from 1. Returns a fault without a line unchanged.
fn counted_from(line: u64, fault: TextFault) -> TextFault
    requires { (n : ℕ) → Names fault n → line + (n - 1) < 2 ^ 64 }
    ensures memory { fault ≡ faults.Memory → result ≡ faults.Memory }
    ensures placed { (n : ℕ) → result ≡ faults.Line n → (k : ℕ) × (fault ≡ faults.Line k) × (n ≡ line + (k - 1)) }
    ensures cut { (n : ℕ) → result ≡ faults.Cut n → (k : ℕ) × (fault ≡ faults.Cut k) × (n ≡ line + (k - 1)) }
    ensures named { (n : ℕ) → Names result n → (k : ℕ) × Names fault k × (n ≡ line + (k - 1)) }
    ensures first { Names fault 1 → Names result line }
    ensures misfit { (m : Misfit) → result ≡ faults.Misfit m → fault ≡ faults.Misfit m }
{
    match fault {
        TextFault::Line(n) => TextFault::Line(line + n.saturating_sub(1)),
        TextFault::Cut(n) => TextFault::Cut(line + n.saturating_sub(1)),
        TextFault::Memory => TextFault::Memory,
        TextFault::Misfit(misfit) => TextFault::Misfit(misfit),
    }
}

// Returns the fault of a text that is not followed by its line `end`. The bytes `after` follow the text instead, from
// `line` on. The fault is `Cut` if `after` is too short for the line `end`.
fn end_fault(line: u64, after: &[u8]) -> TextFault
    ensures named { (n : ℕ) → Names result n → n ≡ line }
    ensures line { (n : ℕ) → result ≡ faults.Line n → 4 ≤ length after.now }
    ensures cut { (n : ℕ) → result ≡ faults.Cut n → length after.now ≤ 4 }
    ensures other { (m : Misfit) → result ≡ faults.Misfit m → ⊥ }
    ensures memory { result ≡ faults.Memory → ⊥ }
{
    if after.len() < 4 {
        TextFault::Cut(line)
    } else {
        TextFault::Line(line)
    }
}
