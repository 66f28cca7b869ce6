//! The text of outputs.

ghost use Rattle.std.specs.Prelude.{◌≡◌, IfOk, OnOk, OnErr, string_bytes};
ghost use Rattle.std.specs.Fmt.{decimal};
ghost use Rattle.zs_term.specs.Output.{output_of, outputs_of, outs_list, listed};
ghost use Rattle.zs_term.specs.OutputText.{output_text, outputs_text, Adds, Extends};

use crate::outputs::{Out, Outs, Storage};
use std::alloc::{AllocError, Global};
use std::str;

/// A memory allocation failed.
pub type NoMemory = AllocError;

/// Returns the text of an output.
pub fn write_out(alloc: Global, out: &Out) -> Result<String, NoMemory>
    ensures ok { IfOk result (λ text. string_bytes text ≡ output_text (output_of out.now)) }
{
    let mut text = String::new(alloc);
    append_out(&mut text, out)?;
    Ok(text)
}

/// Appends the text of an output to a text. If that fails, the text is unchanged.
pub fn append_out(text: &mut String, out: &Out) -> Result<(), NoMemory>
    ensures ok { OnOk result (Adds text.old text.new (output_text (output_of out.now))) }
    ensures err { OnErr result (string_bytes text.new ≡ string_bytes text.old) }
    // The text so far stays at the front in any case.
    ensures kept { Extends text.old text.new }
{
    let len = text.len();
    let added = push_out(text, out);
    if added.is_err() {
        text.truncate(len);
    }
    added
}

// Appends the text of an output. If that fails, the text may end with a part of it.
#[tactic(auto, using(crate::proofs::Texts::begins_with_itself, crate::proofs::Texts::begins_pushed, crate::proofs::Texts::begins_both))]
#[cycle(texts)]
fn push_out(text: &mut String, out: &Out) -> Result<(), NoMemory>
    ensures ok { OnOk result (Adds text.old text.new (output_text (output_of out.now))) }
    ensures kept { Extends text.old text.new }
{
    match out {
        Out::Num(n) => append_number(text, *n),
        Out::Pair(a, b) => {
            text.push_str("(")?;
            push_out(text, a)?;
            text.push_str(",")?;
            push_out(text, b)?;
            text.push_str(")")
        }
        Out::Left(a) => {
            text.push_str("Left(")?;
            push_out(text, a)?;
            text.push_str(")")
        }
        Out::Right(a) => {
            text.push_str("Right(")?;
            push_out(text, a)?;
            text.push_str(")")
        }
        Out::Items(outs) => append_outs(text, outs),
    }
}

/// Appends the digits of a number to a text. If it fails, the text begins as before.
#[tactic(auto, using(crate::proofs::Texts::begins_with_itself, crate::proofs::Texts::begins_pushed, crate::proofs::Texts::begins_both))]
pub fn append_number(text: &mut String, n: u64) -> Result<(), NoMemory>
    ensures ok { OnOk result (Adds text.old text.new (decimal n)) }
    ensures kept { Extends text.old text.new }
{
    // The digits of 2^64 - 1 fill it.
    let mut room = [0; 20];
    let mut at = 19;
    let mut left = n;
    while left >= 10 {
        room[at] = b'0' + (left % 10) as u8;
        left /= 10;
        at -= 1;
    }
    room[at] = b'0' + left as u8;
    // Digits are ASCII, which the proof shows.
    text.push_str(unsafe { str::from_utf8_unchecked(&room[at..]) })
}

// Appends the text of a list of outputs. If that fails, the text may end with a part of it.
#[tactic(auto, using(crate::proofs::Texts::begins_with_itself, crate::proofs::Texts::begins_pushed, crate::proofs::Texts::begins_both))]
#[cycle(texts)]
pub(crate) fn append_outs(text: &mut String, outs: &Outs) -> Result<(), NoMemory>
    ensures ok { OnOk result
        (Adds text.old text.new (output_text (listed (outputs_of (outs_list outs.now))))) }
    ensures kept { Extends text.old text.new }
{
    text.push_str("[")?;
    append_list(text, outs)?;
    text.push_str("]")
}

// Appends the texts of a list's outputs.
#[tactic(auto, using(crate::proofs::Texts::begins_with_itself, crate::proofs::Texts::begins_pushed, crate::proofs::Texts::begins_both))]
#[cycle(texts)]
fn append_list(text: &mut String, outs: &Outs) -> Result<(), NoMemory>
    ensures ok { OnOk result (Adds text.old text.new (outputs_text (outputs_of (outs_list outs.now)))) }
    ensures kept { Extends text.old text.new }
{
    match &outs.storage {
        Storage::Own(items) => append_items(text, items),
        Storage::Shared(items) => append_items(text, items),
    }
}

// Appends the texts of outputs, separated by commas.
#[tactic(auto, using(crate::proofs::Texts::begins_with_itself, crate::proofs::Texts::begins_pushed, crate::proofs::Texts::begins_both))]
#[cycle(texts)]
fn append_items(text: &mut String, items: &[Out]) -> Result<(), NoMemory>
    ensures ok { OnOk result (Adds text.old text.new (outputs_text (outputs_of items.now))) }
    ensures kept { Extends text.old text.new }
{
    for (i, item) in items.iter().enumerate() {
        if 0 < i {
            text.push_str(",")?;
        }
        push_out(text, item)?;
    }
    Ok(())
}
