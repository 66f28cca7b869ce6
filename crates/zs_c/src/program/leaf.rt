//! A leaf of a program: loaded from the words of its state, stepped, and stored back.

ghost use Rattle.std.specs.Prelude.{◌≡◌, ◌∷◌, length};
ghost use Rattle.zs_step.specs.History.{History};
ghost use Rattle.zs_step.specs.LeafState.{state_leaf};
ghost use Rattle.zs_c.specs.Code.{leaf_held};
ghost use Rattle.zs_c.specs.Leaves.{DecidesLeaf, Stores, loaded, stored, if_begun, past_in, first_in};

use crate::program::node::word;
use crate::room::put_words;
use zs_step::{Decision, Leaf, Past};

// The moment and the input of a step.
#[derive(Drop)]
pub(crate) struct Step {
    pub(crate) moment: u64,
    pub(crate) input: u64,
}

// Steps a leaf once, in the words of its state.
pub(crate) fn step_leaf(leaf: Leaf, words: &mut [u64], step: &Step) -> Decision
    ensures held { (h : History) → words.old ≡ leaf_held (state_leaf leaf) h
        → words.new ≡ leaf_held (state_leaf leaf) ((step.now.moment, step.now.input) ∷ h) }
    ensures decides { DecidesLeaf leaf words.old step.now result }
{
    let mut stepped = leaf;
    load(&mut stepped, words);
    let decision = stepped.step(step.moment, step.input);
    store(&stepped, word(words, 1).saturating_add(1), words);
    decision
}

// Loads what the next step of a leaf needs to know.
#[inline(always)]
fn load(leaf: &mut Leaf, words: &[u64])
    ensures value { leaf.new ≡ loaded leaf.old words.now }
{
    match leaf {
        Leaf::Forever { before } => *before = if_begun(words, 0),
        Leaf::Recurs { before, .. } => *before = if_begun(words, 0),
        Leaf::Spaced { before, .. } => *before = if_begun(words, 0),
        Leaf::Fixed { past, run, .. } => {
            *past = load_past(words);
            *run = word(words, 3);
        }
        Leaf::Exponential { next, .. } => *next = word(words, 1),
        Leaf::Fibonacci { last, next, .. } => {
            *last = word(words, 1);
            *next = word(words, 2);
        }
        Leaf::Identity { .. } => {}
        Leaf::Elapsed { first, .. } => *first = if_begun(words, 2),
        Leaf::Linear { last, .. } => *last = word(words, 1),
        Leaf::Windowed { past, .. } => *past = load_past(words),
    }
}

// Returns the word at an index, or `None` if no step was counted.
#[inline(always)]
fn if_begun(words: &[u64], at: usize) -> Option<u64>
    ensures value { result ≡ if_begun words.now at }
{
    if word(words, 1) == 0 {
        return None;
    }
    Some(word(words, at))
}

// Returns the past of a leaf that counts from its first step.
#[inline(always)]
fn load_past(words: &[u64]) -> Option<Past>
    ensures value { result ≡ past_in words.now }
{
    Some(Past {
        first: if_begun(words, 2)?,
        before: word(words, 0),
    })
}

// Stores a leaf: its output, and what its next step needs to know. `steps` is the number of steps,
// which some leaves store. Returns the number of words, also if there is no room for them.
#[inline(always)]
pub(crate) fn store(leaf: &Leaf, steps: u64, words: &mut [u64]) -> usize
    ensures size { result ≡ length (stored leaf.now steps) }
    ensures stored { Stores leaf.now steps words.old words.new }
{
    let output = leaf.output();
    match leaf {
        Leaf::Forever { .. } | Leaf::Recurs { .. } | Leaf::Spaced { .. } => {
            put_words(words, &[output, steps])
        }
        Leaf::Fixed { past, run, .. } => put_words(words, &[output, steps, first_in(*past), *run]),
        Leaf::Exponential { next, .. } => put_words(words, &[output, *next]),
        Leaf::Fibonacci { next, .. } => put_words(words, &[output, output, *next]),
        Leaf::Identity { .. } => put_words(words, &[output]),
        Leaf::Elapsed { first, .. } => put_words(words, &[output, steps, first.unwrap_or(0)]),
        Leaf::Linear { .. } => put_words(words, &[output, output]),
        Leaf::Windowed { past, .. } => put_words(words, &[output, steps, first_in(*past)]),
    }
}

// Returns the moment of the first step, or 0.
fn first_in(past: Option<Past>) -> u64
    ensures value { result ≡ first_in past }
{
    past.map_or(0, |it| it.first)
}
