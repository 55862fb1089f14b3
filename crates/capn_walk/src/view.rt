//! The view of a message, which reads the message in place, step by step, and refuses a faulty root or slot.

ghost use Rattle.std.specs.Prelude.{◌≡◌, ◌<◌, ◌-◌, Ok, Err, length, slice_index};
ghost use Rattle.std.specs.Prelude.{IfOk, IfErr, IfSome, IsSome, OnErr, MatchResult, ◌↔◌};
ghost use Rattle.capn_words.specs.Message.{IsMessage, IsPlace};
ghost use Rattle.capn_value.specs.Cost.{base};
ghost use Rattle.capn_walk.specs.Account.{with_paid, left_of};
ghost use Rattle.capn_target.specs.Target as spec;
ghost use Rattle.capn_walk.specs.ValueAt.{AreElements};
ghost use Rattle.capn_walk.specs.View as seen;
ghost use Rattle.capn_walk.specs.declared.kind.Kind.TheVariants as kinds;

use crate::digits::{digit, per_word};
use crate::kind::{Kind, kind_of};
use crate::message_walk::may_be_root;
use crate::meter::Meter;
use crate::sizes::{len_of, slots_in, words_in};
use crate::step::{capability_of, price_within};
use capn_target::{Fault, Shape, Target, resolve, segment_length};
use capn_words::{Place, Space, Width};
use std::marker::Model;

/// A view of a slot or a row of a message: null, a capability, or an object whose words are read in place.
#[derive(Debug, Drop)]
pub struct View<'s, S: Space> {
    space: &'s S,
    target: Target,
    depth: u32,
}

impl<'s, S: Space> Model for View<'s, S> {
    ghost use Rattle.capn_words.specs.Message.{IsMessage};
    ghost use Rattle.capn_walk.specs.View.{Seen};
    ghost use Rattle.capn_target.specs.Shapes.{IsInMessage};

    ghost Value = { Seen };

    ghost view = { λ v. record { message = S.message v.space.now; found = v.target; depth = v.depth } };

    ghost invariant = { λ v. IsMessage (S.message v.space.now) × IsInMessage (S.message v.space.now) v.target };
}

impl<'s, S: Space> View<'s, S> {
    /// Returns the view of the root of the message `space`, or the fault of the step to the root. `depth` is the limit
    /// on depth. If there is no fault, the price of the step is paid from `meter`, by the meter's tariff.
    pub fn root(space: &'s S, meter: &mut Meter, depth: u32) -> Result<View<'s, S>, Fault>
        ensures found { MatchResult result
            (λ v. seen.stepped_to_root (S.message space.now) (base meter.old.tariff) depth (left_of meter.old)
            ≡ Ok v.found)
            (λ e. seen.stepped_to_root (S.message space.now) (base meter.old.tariff) depth (left_of meter.old)
            ≡ Err e) }
        ensures message { IfOk result (λ v. v.message ≡ S.message space.now) }
        ensures depth { IfOk result (λ v. v.depth ≡ depth - 1) }
        ensures paid { IfOk result (λ v. meter.new ≡ with_paid meter.old (seen.toll (base meter.old.tariff) v.found)) }
        ensures kept { OnErr result (meter.new ≡ meter.old) }
    {
        let _bounds = space.segments();
        if segment_length(space, Place::ROOT.segment) == 0 {
            return Err(Fault::NoRoot);
        }
        let target = match resolve(space, Place::ROOT) {
            Ok(target) => target,
            Err(fault) => return Err(fault),
        };
        if !may_be_root(target) {
            return Err(Fault::RootKind);
        }
        match price_within(target, depth, meter.left(), meter.tariff().base()) {
            Ok(price) => {
                meter.pay(price);
                Ok(View {
                    space,
                    target,
                    depth: depth.saturating_sub(1),
                })
            }
            Err(fault) => Err(fault),
        }
    }

    /// Returns the view of slot `i` of a struct, or of element `i` of a list of pointers, or the fault of the step. If
    /// there is no fault, the price of the step is paid from `meter`, by the meter's tariff.
    pub fn slot(&self, i: u32, meter: &mut Meter) -> Result<View<'s, S>, Fault>
        requires { i < seen.steps_in self.now.found }
        ensures found { MatchResult result
            (λ v. seen.stepped (base meter.old.tariff) self.now.depth (left_of meter.old)
            (spec.target self.now.message (seen.step_place self.now.found i)) ≡ Ok v.found)
            (λ e. seen.stepped (base meter.old.tariff) self.now.depth (left_of meter.old)
            (spec.target self.now.message (seen.step_place self.now.found i)) ≡ Err e) }
        ensures message { IfOk result (λ v. v.message ≡ self.now.message) }
        ensures depth { IfOk result (λ v. v.depth ≡ self.now.depth - 1) }
        ensures paid { IfOk result (λ v. meter.new ≡ with_paid meter.old (seen.toll (base meter.old.tariff) v.found)) }
        ensures kept { OnErr result (meter.new ≡ meter.old) }
    {
        let at = self.slot_place(i);
        let space = self.space;
        let target = match resolve(space, at) {
            Ok(target) => target,
            Err(fault) => return Err(fault),
        };
        match price_within(target, self.depth, meter.left(), meter.tariff().base()) {
            Ok(price) => {
                meter.pay(price);
                Ok(View {
                    space,
                    target,
                    depth: self.depth.saturating_sub(1),
                })
            }
            Err(fault) => Err(fault),
        }
    }

    /// Returns the kind of the value that `self` shows.
    pub fn kind(&self) -> Kind
        ensures { result ≡ seen.kind_of self.now.found }
    {
        kind_of(self.target)
    }

    /// Returns the number of elements if `self` shows a list, else 0.
    pub fn len(&self) -> u32
        ensures value { result ≡ seen.len_of self.now.found }
        ensures links { seen.kind_of self.now.found ≡ kinds.Links → result ≡ seen.links_in self.now.found }
        ensures rows { seen.kind_of self.now.found ≡ kinds.Rows → result ≡ seen.rows_in self.now.found }
    {
        len_of(self.target)
    }

    /// Returns the number of data words if `self` shows a struct, else 0.
    pub fn words(&self) -> u16
        ensures { result ≡ seen.words_in self.now.found }
    {
        words_in(self.target)
    }

    /// Returns the number of slots if `self` shows a struct, else 0.
    pub fn slots(&self) -> u16
        ensures { result ≡ seen.slots_in self.now.found }
    {
        slots_in(self.target)
    }

    /// Returns the index of the capability if `self` shows one, else `None`.
    pub fn cap(&self) -> Option<u32>
        ensures { result ≡ seen.cap_in self.now.found }
    {
        capability_of(self.target)
    }

    /// Returns the place of slot `i` of a struct, or of element `i` of a list of pointers.
    #[inline]
    pub fn slot_place(&self, i: u32) -> Place
        requires { i < seen.steps_in self.now.found }
        ensures place { result ≡ seen.step_place self.now.found i }
        ensures within { IsPlace self.now.message result }
    {
        match self.target {
            Target::Content {
                segment,
                start,
                shape,
                pads: _,
            } => match shape {
                Shape::Node { words, slots: _ } => Place {
                    segment,
                    word: start + words as u32 + i,
                },
                _ => Place {
                    segment,
                    word: start + i,
                },
            },
            _ => unreachable!(),
        }
    }

    /// Returns data word `i` of a struct.
    #[inline]
    pub fn word(&self, i: u32) -> u64
        requires { i < seen.words_in self.now.found }
        ensures { result ≡ slice_index (seen.content_of self.now.message self.now.found) i }
    {
        match self.target {
            Target::Content {
                segment,
                start,
                shape: _,
                pads: _,
            } => self.space.word(Place {
                segment,
                word: start + i,
            }),
            _ => unreachable!(),
        }
    }

    /// Returns row `i` of a list of structs. Nothing is paid, since the step to the list has paid for the rows.
    #[inline]
    pub fn row(&self, i: u32) -> View<'s, S>
        requires { i < seen.rows_in self.now.found }
        ensures message { result.message ≡ self.now.message }
        ensures depth { result.depth ≡ self.now.depth }
        ensures found { result.found ≡ seen.row_of self.now.found i }
    {
        match self.target {
            Target::Content {
                segment,
                start,
                shape,
                pads: _,
            } => match shape {
                Shape::Rows {
                    count: _,
                    words,
                    slots,
                    span: _,
                } => View {
                    space: self.space,
                    target: Target::Content {
                        segment,
                        start: start + 1 + i * (words as u32 + slots as u32),
                        shape: Shape::Node { words, slots },
                        pads: 0,
                    },
                    depth: self.depth,
                },
                _ => unreachable!(),
            },
            _ => unreachable!(),
        }
    }

    /// Returns element `i` of a list of bits, bytes, pairs, quads or octs.
    #[inline]
    pub fn number(&self, i: u32) -> u64
        requires { i < seen.numbers_in self.now.found }
        ensures { result ≡ seen.number_of self.now.message self.now.found i }
    {
        match self.target {
            Target::Content {
                segment,
                start,
                shape,
                pads: _,
            } => match shape {
                Shape::Many { width, count: _ } => {
                    let many = per_word(width);
                    let word = self.space.word(Place {
                        segment,
                        word: start + i / many,
                    });
                    digit(width, word, i % many)
                }
                _ => unreachable!(),
            },
            _ => unreachable!(),
        }
    }

    /// Returns the elements if `self` shows a list of bytes, else `None`.
    #[inline]
    pub fn bytes(&self) -> Option<&'s [u8]>
        ensures some { IsSome result ↔ (seen.kind_of self.now.found ≡ kinds.Bytes) }
        ensures number { IfSome result (λ b. length b.now ≡ seen.len_of self.now.found) }
        ensures elements { IfSome result
            (λ b. AreElements 8 8 (seen.content_of self.now.message self.now.found) b.now) }
    {
        match self.target {
            Target::Content {
                segment,
                start,
                shape,
                pads: _,
            } => match shape {
                Shape::Many { width, count } => match width {
                    Width::W8 => {
                        let space = self.space;
                        let at = Place {
                            segment,
                            word: start,
                        };
                        Some(space.bytes(at, count as usize))
                    }
                    _ => None,
                },
                _ => None,
            },
            _ => None,
        }
    }
}
