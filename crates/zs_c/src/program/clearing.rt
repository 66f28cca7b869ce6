//! The words of a state before any step.

ghost use Rattle.std.specs.Prelude.{◌≡◌, [], length};
ghost use Rattle.zs_term.specs.Schedule.{Schedule};
ghost use Rattle.zs_c.specs.Code.{IsCode, held_of, held_size};
ghost use Rattle.zs_c.specs.Leaves.{ClearsLeaf};
ghost use Rattle.zs_c.specs.Steps.{ClearsParts};

use crate::program::leaf::store;
use crate::program::node::{
    Form, HEAD, LONG_HEAD, SHORT_HEAD, Sizes, read_node, split, words_after,
};
use zs_step::Leaf;

// Resets the words of a leaf that is as before any step.
fn clear_leaf(leaf: Leaf, words: &mut [u64])
    ensures clears { ClearsLeaf leaf words.old words.new }
{
    store(&leaf, 0, words);
}

// Resets the words of a code's state to those before any step.
#[cycle(clearing)]
pub(crate) fn clear(code: &[u64], words: &mut [u64], levels: u64)
    ensures clears { (t : Schedule) → IsCode t code.now levels → length words.old ≡ held_size t
        → words.new ≡ held_of t [] }
{
    if levels == 0 {
        return;
    }
    match read_node(code) {
        Form::Leaf(leaf) => clear_leaf(leaf, words),
        Form::Both(sizes) | Form::Either(sizes) => clear_parts(code, words, sizes, levels - 1),
        Form::AndThen(sizes) => {
            if !words.is_empty() {
                words[0] = 0;
                clear_parts(code, &mut words[1..], sizes, levels - 1);
            }
        }
        Form::CollectAll => {
            if words.len() >= 2 {
                words[0] = 0;
                words[1] = 0;
                clear(words_after(code, SHORT_HEAD), &mut words[2..], levels - 1);
            }
        }
        Form::WhileInput(_) | Form::Map(_) => clear(words_after(code, HEAD), words, levels - 1),
        Form::WhileOutput(_, _) | Form::ResetWhen(_, _) => {
            clear(words_after(code, LONG_HEAD), words, levels - 1)
        }
    }
}

// Resets the words of both parts of an operator.
#[cycle(clearing)]
fn clear_parts(code: &[u64], words: &mut [u64], sizes: Sizes, levels: u64)
    ensures clears { ClearsParts sizes code.now levels words.old words.new }
{
    let (first, second) = split(code, sizes);
    let state = sizes.state as usize;
    if state <= words.len() {
        clear(first, &mut words[..state], levels);
        clear(second, &mut words[state..], levels);
    }
}
