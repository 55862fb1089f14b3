//! The bytes that are written for one value, in each form.

ghost use Rattle.std.specs.Prelude.{◌≡◌, ◌%◌, ◌<◌, ◌^◌, length, None, IfOk, IfErr, OnOk};
ghost use Rattle.capn_pack.specs.Chosen.{Chosen};
ghost use Rattle.capn_value.specs.FirstCap.{first_cap};
ghost use Rattle.capn_canon.specs.Layout.{canon};
ghost use Rattle.capn_canon.specs.LayoutFault.{IsLayoutFault};
ghost use Rattle.capn_make.specs.WrittenValue as spec;
ghost use Rattle.capn_make.specs.WrittenValue.{IsInForm, IsWrittenValue};

use capn_canon::laws::canonicity;
use capn_canon::{Form, LayoutFault, layout};
use capn_pack::{PackFault, pack};
use capn_value::Tree;
use std::alloc::{AllocError, Allocator};

/// Returns the frame of one segment whose content is `bytes`, which are complete words.
fn framed<A: Allocator>(alloc: A, bytes: &[u8]) -> Result<Vec<u8, A>, AllocError>
    requires { length bytes.now < 2 ^ 35 }
    ensures { IfOk result (λ text. text.items ≡ spec.framed bytes.now) }
{
    let words = (bytes.len() / 8) as u32;
    let mut text = Vec::with_capacity(alloc, 8 + bytes.len())?;
    text.extend_from_slice(&[0; 4])?;
    text.extend_from_slice(&words.to_le_bytes())?;
    text.extend_from_slice(bytes)?;
    Ok(text)
}

/// Returns the packed text of the frame of one segment whose content is `bytes`.
fn packed<A: Allocator + Copy>(alloc: A, bytes: &[u8]) -> Result<Vec<u8, A>, AllocError>
    requires short { length bytes.now < 2 ^ 35 }
    requires whole { length bytes.now % 8 ≡ 0 }
    ensures { IfOk result (λ text. Chosen text.items (spec.framed bytes.now)) }
{
    let frame = framed(alloc, bytes)?;
    match pack(alloc, &frame) {
        Ok(text) => Ok(text),
        Err(PackFault::Memory) => Err(AllocError),
        Err(PackFault::NotWhole(_)) => unreachable!(),
    }
}

/// Returns the canonical bytes of `tree`. They are complete words, and no more than a message may have.
fn canonical<A: Allocator + Copy, B: Allocator>(
    alloc: A,
    tree: &Tree<B>,
) -> Result<Vec<u8, A>, LayoutFault>
    ensures found { IfOk result (λ bytes. bytes.items ≡ canon tree.now) }
    ensures short { IfOk result (λ bytes. length bytes.items < 2 ^ 35) }
    ensures whole { IfOk result (λ bytes. length bytes.items % 8 ≡ 0) }
    ensures free { OnOk result (first_cap tree.now ≡ None) }
    ensures refused { IfErr result (λ fault. IsLayoutFault tree.now fault) }
{
    // A tree fits and is in range, so its canonical bytes are the bytes of a message.
    canonicity();
    let _value = tree.value();
    layout(alloc, tree)
}

/// Returns the canonical `bytes` as they are written in this `form`.
fn in_form<A: Allocator + Copy>(
    alloc: A,
    form: Form,
    bytes: Vec<u8, A>,
) -> Result<Vec<u8, A>, AllocError>
    requires short { length bytes.items < 2 ^ 35 }
    requires whole { length bytes.items % 8 ≡ 0 }
    ensures { IfOk result (λ piece. IsInForm form bytes.items piece.items) }
{
    match form {
        Form::Stream => framed(alloc, &bytes),
        Form::Packed => packed(alloc, &bytes),
        Form::Bare => Ok(bytes),
    }
}

/// Returns the bytes that are written for `tree` in this `form`.
pub(crate) fn piece_of<A: Allocator + Copy, B: Allocator>(
    alloc: A,
    form: Form,
    tree: &Tree<B>,
) -> Result<Vec<u8, A>, LayoutFault>
    ensures found { IfOk result (λ piece. IsWrittenValue form tree.now piece.items) }
    ensures free { OnOk result (first_cap tree.now ≡ None) }
    ensures refused { IfErr result (λ fault. IsLayoutFault tree.now fault) }
{
    let bytes = canonical(alloc, tree)?;
    match in_form(alloc, form, bytes) {
        Ok(piece) => Ok(piece),
        Err(AllocError) => Err(LayoutFault::Memory),
    }
}
