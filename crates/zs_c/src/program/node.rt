//! The nodes of a program, read from the front of a code.

ghost use Rattle.std.specs.Prelude.{◌≡◌, take, drop};
ghost use Rattle.zs_c.specs.Leaves.{word_at, new_leaf, rule_at};
ghost use Rattle.zs_c.specs.Form.{cmp_of, test_of, pick_of, func_of, node_at};

use zs_step::Leaf;
use zs_term::{Cmp, Func, Pick, Test};

/// The tags of nodes: the first word of a code.
pub(crate) const FOREVER: u64 = 1;

pub(crate) const IDENTITY: u64 = 2;

pub(crate) const ELAPSED: u64 = 3;

pub(crate) const RECURS: u64 = 4;

pub(crate) const SPACED: u64 = 5;

pub(crate) const FIXED: u64 = 6;

pub(crate) const FIBONACCI: u64 = 7;

pub(crate) const LINEAR: u64 = 8;

pub(crate) const WINDOWED: u64 = 9;

pub(crate) const EXPONENTIAL: u64 = 10;

pub(crate) const BOTH: u64 = 11;

pub(crate) const EITHER: u64 = 12;

pub(crate) const AND_THEN: u64 = 13;

pub(crate) const WHILE_INPUT: u64 = 14;

pub(crate) const WHILE_OUTPUT: u64 = 15;

pub(crate) const MAP: u64 = 16;

pub(crate) const RESET_WHEN: u64 = 17;

pub(crate) const COLLECT_ALL: u64 = 18;

/// The words of an operator before its parts: its tag, and two more words.
pub(crate) const HEAD: usize = 3;

/// The words of `whileOutput` and of `resetWhen` before their part: three after the tag.
pub(crate) const LONG_HEAD: usize = 4;

/// The words of `collectAll` before its part: its tag.
pub(crate) const SHORT_HEAD: usize = 1;

// The sizes of an operator's first part: the number of words of its code, and of its state.
#[derive(Clone, Copy)]
pub(crate) struct Sizes {
    pub(crate) code: u64,
    pub(crate) state: u64,
}

// The form of a node: a leaf, or an operator without its parts.
#[derive(Clone, Copy)]
pub(crate) enum Form {
    Leaf(Leaf),
    Both(Sizes),
    Either(Sizes),
    AndThen(Sizes),
    WhileInput(Test),
    WhileOutput(Pick, Test),
    Map(Func),
    ResetWhen(Pick, Test),
    CollectAll,
}

// Reads the form of the node at the front of a code. Of words that `zs_compile` never writes it
// returns some form too.
#[inline(always)]
#[tactic(auto, unfolding(crate::specs::Form::node_at))]
pub(crate) fn read_node(code: &[u64]) -> Form
    ensures value { result ≡ node_at code.now }
{
    let (first, second, third) = (word(code, 1), word(code, 2), word(code, 3));
    let sizes = Sizes {
        code: first,
        state: second,
    };
    match word(code, 0) {
        BOTH => Form::Both(sizes),
        EITHER => Form::Either(sizes),
        AND_THEN => Form::AndThen(sizes),
        WHILE_INPUT => Form::WhileInput(read_test(first, second)),
        WHILE_OUTPUT => Form::WhileOutput(read_pick(first), read_test(second, third)),
        MAP => Form::Map(read_func(first, second)),
        RESET_WHEN => Form::ResetWhen(read_pick(first), read_test(second, third)),
        COLLECT_ALL => Form::CollectAll,
        _ => Form::Leaf(read_leaf(code)),
    }
}

// Reads the leaf at the front of a code, before any step.
#[inline(always)]
pub(crate) fn read_leaf(code: &[u64]) -> Leaf
    ensures value { result ≡ new_leaf (rule_at code.now) }
{
    let number = word(code, 1);
    match word(code, 0) {
        IDENTITY => Leaf::Identity { last: 0 },
        ELAPSED => Leaf::Elapsed {
            first: None,
            time: 0,
        },
        RECURS => Leaf::Recurs {
            limit: number,
            before: None,
        },
        SPACED => Leaf::Spaced {
            delay: number,
            before: None,
        },
        FIXED => Leaf::Fixed {
            period: number,
            past: None,
            run: 0,
        },
        FIBONACCI => Leaf::Fibonacci {
            one: number,
            last: 0,
            next: number,
        },
        LINEAR => Leaf::Linear {
            unit: number,
            last: 0,
        },
        WINDOWED => Leaf::Windowed {
            period: number,
            past: None,
        },
        EXPONENTIAL => Leaf::Exponential {
            base: number,
            factor: word(code, 2),
            last: number,
            next: number,
        },
        _ => Leaf::Forever { before: None },
    }
}

// Returns the word at an index, or 0 past the end.
#[inline(always)]
pub(crate) fn word(words: &[u64], at: usize) -> u64
    ensures value { result ≡ word_at words.now at }
{
    if at < words.len() { words[at] } else { 0 }
}

// Returns the words from an index on.
#[inline(always)]
pub(crate) fn words_after(words: &[u64], at: usize) -> &[u64]
    ensures value { result.now ≡ drop at words.now }
{
    if at <= words.len() { &words[at..] } else { &[] }
}

// Returns the first `size` words, or all words if there are fewer.
#[inline(always)]
pub(crate) fn front(words: &[u64], size: usize) -> &[u64]
    ensures value { result.now ≡ take size words.now }
{
    if size <= words.len() {
        &words[..size]
    } else {
        words
    }
}

// Returns the codes of both parts of an operator.
#[inline(always)]
pub(crate) fn split(code: &[u64], sizes: Sizes) -> (&[u64], &[u64])
    ensures first { result.0.now ≡ take sizes.code (drop 3 code.now) }
    ensures second { result.1.now ≡ drop sizes.code (drop 3 code.now) }
{
    let (rest, size) = (words_after(code, HEAD), sizes.code as usize);
    (front(rest, size), words_after(rest, size))
}

// Reads a comparison with a number.
#[inline(always)]
fn read_test(word: u64, than: u64) -> Test
    ensures value { result ≡ test_of word than }
{
    Test {
        cmp: read_cmp(word),
        than,
    }
}

// Reads a comparison.
#[inline(always)]
fn read_cmp(word: u64) -> Cmp
    ensures value { result ≡ cmp_of word }
{
    match word {
        0 => Cmp::Lt,
        1 => Cmp::Le,
        2 => Cmp::Eq,
        3 => Cmp::Ne,
        4 => Cmp::Gt,
        _ => Cmp::Ge,
    }
}

// Reads what a test reads.
#[inline(always)]
fn read_pick(word: u64) -> Pick
    ensures value { result ≡ pick_of word }
{
    match word {
        0 => Pick::Whole,
        1 => Pick::First,
        2 => Pick::Second,
        _ => Pick::Size,
    }
}

// Reads a function. `n` is its number, if it has one.
#[inline(always)]
fn read_func(word: u64, n: u64) -> Func
    ensures value { result ≡ func_of word n }
{
    match word {
        0 => Func::First,
        1 => Func::Second,
        2 => Func::Size,
        3 => Func::Merge,
        4 => Func::Const(n),
        5 => Func::Add(n),
        _ => Func::Mul(n),
    }
}
