//! The terms of schedules.

ghost use Rattle.std.specs.Prelude.{◌≡◌};
ghost use Rattle.zs_term.specs.Output.{passes};

/// How a test compares a value with a number.
#[derive(Clone, Copy, Debug, PartialEq, Eq)]
pub enum Cmp {
    /// Less than the number.
    Lt,
    /// At most the number.
    Le,
    /// Equal to the number.
    Eq,
    /// Not equal to the number.
    Ne,
    /// Greater than the number.
    Gt,
    /// At least the number.
    Ge,
}

/// A comparison of the value on its left with a number.
#[derive(Clone, Copy, Debug, PartialEq, Eq)]
pub struct Test {
    /// The comparison.
    pub cmp: Cmp,
    /// The number on its right.
    pub than: u64,
}

impl Test {
    /// Whether a number passes the test.
    pub fn passes(self, x: u64) -> bool
        ensures value { result ≡ passes self x }
    {
        match self.cmp {
            Cmp::Lt => x < self.than,
            Cmp::Le => x <= self.than,
            Cmp::Eq => x == self.than,
            Cmp::Ne => x != self.than,
            Cmp::Gt => x > self.than,
            Cmp::Ge => x >= self.than,
        }
    }
}

/// The part of an output that a test reads.
#[derive(Clone, Copy, Debug, PartialEq, Eq)]
pub enum Pick {
    /// The whole output, a number.
    Whole,
    /// The left part of a pair, a number.
    First,
    /// The right part of a pair, a number.
    Second,
    /// The number of items of a list.
    Size,
}

/// What `map` computes from an output.
#[derive(Clone, Copy, Debug, PartialEq, Eq)]
pub enum Func {
    /// The left part of a pair.
    First,
    /// The right part of a pair.
    Second,
    /// The number of items of a list.
    Size,
    /// The content of `Left` or `Right`.
    Merge,
    /// The number, for every output: `as`.
    Const(u64),
    /// The sum of a number and this one, at most 18446744073709551615.
    Add(u64),
    /// The product of a number and this one, at most 18446744073709551615.
    Mul(u64),
}

/// A schedule as it is written; docs/SEMANTICS.md says what each form does, and as which operator
/// of ZIO. Dropping a term takes stack in proportion to its depth; `check` frees a term in constant
/// stack.
#[derive(Drop)]
pub enum Term {
    /// Always continues at once: `forever`.
    Forever,
    /// Continues at once, n times: `recurs`.
    Recurs(u64),
    /// Continues after a delay in milliseconds: `spaced`.
    Spaced(u64),
    /// Continues at the next boundary of a period in milliseconds, or at once if it is late:
    /// `fixed`.
    Fixed(u64),
    /// Continues after a delay in milliseconds that grows by a factor: `exponential`.
    Exponential(u64, u64),
    /// Continues after a delay in milliseconds that grows as the Fibonacci numbers: `fibonacci`.
    Fibonacci(u64),
    /// Continues at once and returns its input: `identity`.
    Identity,
    /// Continues at once and returns the milliseconds since the first step: `elapsed`.
    Elapsed,
    /// Continues after a delay in milliseconds that grows by its first value each step: `linear`.
    Linear(u64),
    /// Continues at the end of the current window of a length in milliseconds: `windowed`.
    Windowed(u64),
    /// Continues while both continue, at the later moment: `&&`.
    Both(Box<Term>, Box<Term>),
    /// Continues while at least one continues, at the earlier moment: `||`.
    Either(Box<Term>, Box<Term>),
    /// Follows the first until it is done, then the second: `andThenEither`.
    AndThen(Box<Term>, Box<Term>),
    /// Stops if the input fails the test: `whileInput`.
    WhileInput(Box<Term>, Test),
    /// Stops if the picked part of the output fails the test: `whileOutput`.
    WhileOutput(Box<Term>, Pick, Test),
    /// Returns the list of its part's outputs at the earlier steps at which the part continued:
    /// `collectAll`.
    CollectAll(Box<Term>),
    /// Returns a function of the output: `map`.
    Map(Box<Term>, Func),
    /// Starts over if the picked part of the output passes the test: `resetWhen`.
    ResetWhen(Box<Term>, Pick, Test),
}
