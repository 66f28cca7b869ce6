//! The forms of terms. The parser builds terms from them, and `Term::shape` takes terms apart.

ghost use Rattle.std.specs.Prelude.{◌≡◌};
ghost use Rattle.zs_term.specs.Schedule.{schedule_of, leaf, two, over, plain, counted};
ghost use Rattle.zs_term.specs.Machine.{piece_pick, piece_func, infix_pairing, test_modifier, scale_by};
ghost use Rattle.zs_term.specs.Parts.{test_weight};
ghost use Rattle.zs_term.specs.Shape.{shape_schedule};
ghost use Rattle.zs_term.specs.Token.{plain_word, counted_word};

use crate::term::{Cmp, Func, Pick, Term, Test};

/// A leaf without numbers.
#[derive(Clone, Copy, Drop)]
pub enum Plain {
    /// `forever`
    Forever,
    /// `identity`
    Identity,
    /// `elapsed`
    Elapsed,
}

/// A leaf with one number.
#[derive(Clone, Copy, Drop)]
pub enum Counted {
    /// `recurs`
    Recurs,
    /// `spaced`
    Spaced,
    /// `fixed`
    Fixed,
    /// `fibonacci`
    Fibonacci,
    /// `linear`
    Linear,
    /// `windowed`
    Windowed,
}

/// An operator between two terms.
#[derive(Clone, Copy, Drop)]
pub(crate) enum Infix {
    /// `&&`
    Both,
    /// `||`
    Either,
    /// `andThenEither`
    AndThen,
}

/// What follows a term and a dot, and takes arguments.
#[derive(Clone, Copy, Drop)]
pub(crate) enum Method {
    /// `.whileInput`
    WhileInput,
    /// `.whileOutput`
    WhileOutput,
    /// `.map`
    Map,
    /// `.resetWhen`
    ResetWhen,
}

/// What a test of a part of the output does.
#[derive(Clone, Copy, Drop)]
pub(crate) enum Action {
    /// `.whileOutput`: the schedule stops if the test is false.
    Stopping,
    /// `.resetWhen`: the part starts over if the test is true.
    Resetting,
}

/// What a comparison reads.
#[derive(Clone, Copy, Drop)]
pub(crate) enum Subject {
    /// The input.
    Input,
    /// A part of the output.
    Picked(Action, Pick),
}

/// A piece of an output, which a test reads or a function returns.
#[derive(Clone, Copy, Drop)]
pub(crate) enum Piece {
    /// `_1`
    First,
    /// `_2`
    Second,
    /// `size`
    Size,
}

/// A function with a number.
#[derive(Clone, Copy, Drop)]
pub(crate) enum Scale {
    /// `as`
    Constant,
    /// `+`
    Plus,
    /// `*`
    Times,
}

/// What a term consists of. `Term::shape` matches every variant of `Term`; so do only the two
/// functions of `checked.rt` that free a term.
#[derive(Clone, Copy, Drop)]
pub(crate) enum Shape<'t> {
    /// A leaf without numbers.
    Plain(Plain),
    /// A leaf with one number.
    Counted(Counted, u64),
    /// `exponential`, with its base and factor.
    Exponential(u64, u64),
    /// Two terms and the operator between them.
    Joined(Infix, &'t Term, &'t Term),
    /// A term followed by a test.
    Tested(&'t Term, Subject, Test),
    /// A term followed by `.collectAll`.
    Collected(&'t Term),
    /// A term followed by `.map`.
    Mapped(&'t Term, Func),
}

impl Term {
    /// Returns what the term consists of. Each walk over a term calls it once a node.
    #[inline(always)]
    pub(crate) fn shape(&self) -> Shape<'_>
        ensures value { shape_schedule result ≡ schedule_of self.now }
    {
        match self {
            Term::Forever => Shape::Plain(Plain::Forever),
            Term::Recurs(n) => Shape::Counted(Counted::Recurs, *n),
            Term::Spaced(n) => Shape::Counted(Counted::Spaced, *n),
            Term::Fixed(n) => Shape::Counted(Counted::Fixed, *n),
            Term::Exponential(base, factor) => Shape::Exponential(*base, *factor),
            Term::Fibonacci(n) => Shape::Counted(Counted::Fibonacci, *n),
            Term::Identity => Shape::Plain(Plain::Identity),
            Term::Elapsed => Shape::Plain(Plain::Elapsed),
            Term::Linear(n) => Shape::Counted(Counted::Linear, *n),
            Term::Windowed(n) => Shape::Counted(Counted::Windowed, *n),
            Term::Both(a, b) => Shape::Joined(Infix::Both, a, b),
            Term::Either(a, b) => Shape::Joined(Infix::Either, a, b),
            Term::AndThen(a, b) => Shape::Joined(Infix::AndThen, a, b),
            Term::WhileInput(s, test) => Shape::Tested(s, Subject::Input, *test),
            Term::WhileOutput(s, pick, test) => {
                Shape::Tested(s, Subject::Picked(Action::Stopping, *pick), *test)
            }
            Term::CollectAll(s) => Shape::Collected(s),
            Term::Map(s, func) => Shape::Mapped(s, *func),
            Term::ResetWhen(s, pick, test) => {
                Shape::Tested(s, Subject::Picked(Action::Resetting, *pick), *test)
            }
        }
    }
}

impl Plain {
    /// Returns the word.
    pub(crate) fn word(self) -> &'static str
        ensures value { result.now ≡ plain_word self }
    {
        match self {
            Plain::Forever => "forever",
            Plain::Identity => "identity",
            Plain::Elapsed => "elapsed",
        }
    }

    /// Returns the term.
    pub(crate) fn of(self) -> Term
        ensures value { schedule_of result ≡ leaf (plain self) }
    {
        match self {
            Plain::Forever => Term::Forever,
            Plain::Identity => Term::Identity,
            Plain::Elapsed => Term::Elapsed,
        }
    }
}

impl Counted {
    /// Returns the word.
    pub(crate) fn word(self) -> &'static str
        ensures value { result.now ≡ counted_word self }
    {
        match self {
            Counted::Recurs => "recurs",
            Counted::Spaced => "spaced",
            Counted::Fixed => "fixed",
            Counted::Fibonacci => "fibonacci",
            Counted::Linear => "linear",
            Counted::Windowed => "windowed",
        }
    }

    /// Returns the term with a number.
    pub(crate) fn of(self, n: u64) -> Term
        ensures value { schedule_of result ≡ leaf (counted self n) }
    {
        match self {
            Counted::Recurs => Term::Recurs(n),
            Counted::Spaced => Term::Spaced(n),
            Counted::Fixed => Term::Fixed(n),
            Counted::Fibonacci => Term::Fibonacci(n),
            Counted::Linear => Term::Linear(n),
            Counted::Windowed => Term::Windowed(n),
        }
    }
}

impl Infix {
    /// Returns the term over two parts.
    pub(crate) fn of(self, left: Box<Term>, right: Box<Term>) -> Term
        ensures value { schedule_of result
            ≡ two (infix_pairing self) (schedule_of left.value) (schedule_of right.value) }
    {
        match self {
            Infix::Both => Term::Both(left, right),
            Infix::Either => Term::Either(left, right),
            Infix::AndThen => Term::AndThen(left, right),
        }
    }
}

impl Subject {
    /// Returns the term with this test over a part.
    pub(crate) fn of(self, term: Box<Term>, test: Test) -> Term
        ensures value { schedule_of result
            ≡ over (schedule_of term.value) (test_modifier self test) }
    {
        match self {
            Subject::Input => Term::WhileInput(term, test),
            Subject::Picked(Action::Stopping, pick) => Term::WhileOutput(term, pick, test),
            Subject::Picked(Action::Resetting, pick) => Term::ResetWhen(term, pick, test),
        }
    }

    /// Returns the weight of this test over a part of the given weight.
    pub(crate) fn weight_over(self, weight: u64) -> u64
        ensures value { result ≡ test_weight self weight }
    {
        match self {
            Subject::Input | Subject::Picked(Action::Stopping, _) => weight.saturating_add(1),
            Subject::Picked(Action::Resetting, _) => weight
                .saturating_add(weight)
                .saturating_add(1),
        }
    }
}

impl Piece {
    /// Returns the piece as what a test reads.
    pub(crate) fn pick(self) -> Pick
        ensures value { result ≡ piece_pick self }
    {
        match self {
            Piece::First => Pick::First,
            Piece::Second => Pick::Second,
            Piece::Size => Pick::Size,
        }
    }

    /// Returns the piece as a function.
    pub(crate) fn func(self) -> Func
        ensures value { result ≡ piece_func self }
    {
        match self {
            Piece::First => Func::First,
            Piece::Second => Func::Second,
            Piece::Size => Func::Size,
        }
    }
}

impl Scale {
    /// Returns the function with this number.
    pub(crate) fn by(self, n: u64) -> Func
        ensures value { result ≡ scale_by self n }
    {
        match self {
            Scale::Constant => Func::Const(n),
            Scale::Plus => Func::Add(n),
            Scale::Times => Func::Mul(n),
        }
    }
}
