//! The output of a node's last step, read from the words of its state.

ghost use Rattle.std.specs.Prelude.{◌≡◌, ◌-◌, take, drop};
ghost use Rattle.zs_term.specs.Output.{Output, number_in, size_in, picked, applied};
ghost use Rattle.zs_c.specs.View.{Shows, Tells, PlaceTells, IsLower};

use crate::program::node::{
    Form, HEAD, LONG_HEAD, Sizes, front, read_node, split, word, words_after,
};
use zs_term::{Func, Pick};

// A node's code and the words of its state.
#[derive(Clone, Copy)]
pub(crate) struct Place<'a> {
    pub(crate) code: &'a [u64],
    pub(crate) words: &'a [u64],
    pub(crate) levels: u64,
}

// An output: a number, the places of its parts, or the size of a list.
#[derive(Clone, Copy)]
pub(crate) enum View<'a> {
    Number(u64),
    Pair(Place<'a>, Place<'a>),
    Left(Place<'a>),
    Right(Place<'a>),
    Size(u64),
}

// Reads the output of a node's last step.
#[cycle(viewing)]
pub(crate) fn read_view(place: Place<'_>) -> View<'_>
    ensures shows { (o : Output) → PlaceTells place.entry o → Shows result o }
    ensures lower { IsLower result place.entry.levels }
{
    if place.levels == 0 {
        return View::Number(0);
    }
    match read_node(place.code) {
        Form::Leaf(_) => View::Number(word(place.words, 0)),
        Form::CollectAll => View::Size(word(place.words, 0)),
        Form::Both(sizes) | Form::Either(sizes) => {
            let (a, b) = parts(place, sizes, 0);
            View::Pair(a, b)
        }
        Form::AndThen(sizes) => {
            let (a, b) = parts(place, sizes, 1);
            if word(place.words, 0) == 0 {
                View::Left(a)
            } else {
                View::Right(b)
            }
        }
        Form::WhileInput(_) => read_view(part(place, HEAD)),
        Form::WhileOutput(_, _) | Form::ResetWhen(_, _) => read_view(part(place, LONG_HEAD)),
        Form::Map(func) => read_mapped(func, part(place, HEAD)),
    }
}

// Reads a function of a part's output.
#[cycle(viewing)]
fn read_mapped(func: Func, part: Place<'_>) -> View<'_>
    ensures shows { (o : Output) → PlaceTells part.entry o → Shows result (applied func o) }
    ensures lower { IsLower result part.entry.levels }
{
    let whole = read_view(part);
    match (func, whole) {
        (Func::First, View::Pair(a, _)) => read_view(a),
        (Func::Second, View::Pair(_, b)) => read_view(b),
        (Func::Merge, View::Left(a) | View::Right(a)) => read_view(a),
        (Func::First | Func::Second | Func::Merge, _) => whole,
        (Func::Size, _) => View::Number(size_in(whole)),
        (Func::Const(n), _) => View::Number(n),
        (Func::Add(n), _) => View::Number(number_in(whole).saturating_add(n)),
        (Func::Mul(n), _) => View::Number(number_in(whole).saturating_mul(n)),
    }
}

// Returns the part of an operator. Its code begins at the index `at`.
#[inline(always)]
pub(crate) fn part(place: Place<'_>, at: usize) -> Place<'_>
    ensures code { result.code.now ≡ drop at place.entry.code.now }
    ensures words { result.words.now ≡ place.entry.words.now }
    ensures levels { result.levels ≡ place.entry.levels - 1 }
{
    Place {
        code: words_after(place.code, at),
        words: place.words,
        levels: place.levels.saturating_sub(1),
    }
}

// Returns both parts of an operator. Their words begin at the index `at`.
#[inline(always)]
pub(crate) fn parts(place: Place<'_>, sizes: Sizes, at: usize) -> (Place<'_>, Place<'_>)
    ensures first_code { result.0.code.now ≡ take sizes.code (drop 3 place.entry.code.now) }
    ensures second_code { result.1.code.now ≡ drop sizes.code (drop 3 place.entry.code.now) }
    ensures first_words { result.0.words.now ≡ take sizes.state (drop at place.entry.words.now) }
    ensures second_words { result.1.words.now ≡ drop sizes.state (drop at place.entry.words.now) }
    ensures first_levels { result.0.levels ≡ place.entry.levels - 1 }
    ensures second_levels { result.1.levels ≡ place.entry.levels - 1 }
{
    let (first, second) = split(place.code, sizes);
    let (words, state) = (words_after(place.words, at), sizes.state as usize);
    let levels = place.levels.saturating_sub(1);
    let first = Place {
        code: first,
        words: front(words, state),
        levels,
    };
    let second = Place {
        code: second,
        words: words_after(words, state),
        levels,
    };
    (first, second)
}

// Returns the number of an output, or 0 if the output is no number.
fn number_in(view: View<'_>) -> u64
    ensures value { (o : Output) → Shows view.entry o → result ≡ number_in o }
{
    match view {
        View::Number(n) => n,
        View::Pair(_, _) | View::Left(_) | View::Right(_) | View::Size(_) => 0,
    }
}

// Returns the size of a list, or 0 if the output is no list.
fn size_in(view: View<'_>) -> u64
    ensures value { (o : Output) → Shows view.entry o → result ≡ size_in o }
{
    match view {
        View::Size(n) => n,
        View::Number(_) | View::Pair(_, _) | View::Left(_) | View::Right(_) => 0,
    }
}

// Returns the number that a test reads of the output of a node's last step.
pub(crate) fn read_number(pick: Pick, code: &[u64], words: &[u64], levels: u64) -> u64
    ensures value { (o : Output) → Tells code.now words.now levels o → result ≡ picked pick o }
{
    let whole = read_view(Place {
        code,
        words,
        levels,
    });
    match (pick, whole) {
        (Pick::First, View::Pair(a, _)) => number_in(read_view(a)),
        (Pick::Second, View::Pair(_, b)) => number_in(read_view(b)),
        (Pick::Whole | Pick::First | Pick::Second, _) => number_in(whole),
        (Pick::Size, _) => size_in(whole),
    }
}
