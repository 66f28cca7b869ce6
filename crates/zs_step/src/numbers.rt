//! What tests read of an output.

ghost use Rattle.std.specs.Prelude.{◌≡◌, Some, None, IfSome, true};
ghost use Rattle.zs_term.specs.Output.{Output, pair, picked, applied};
ghost use Rattle.zs_step.specs.Numbers.{IsNumber, IsNumbers, returns_piece};

use zs_term::{Func, Pick};

// What tests read of an output.
#[derive(Clone, Copy)]
pub(crate) enum Numbers {
    // The number.
    One(u64),
    // The numbers of a pair of numbers.
    Two(u64, u64),
    // The same of any pair, with 0 for what is no number.
    Mixed(u64, u64),
    // The number of items of a list.
    Size(u64),
    // Nothing, of a `Left` or `Right`.
    Side,
}

impl Numbers {
    // Returns what tests read of a pair of outputs.
    pub(crate) fn pair(self, second: Numbers) -> Numbers
        ensures value { (x y : Output) → IsNumbers self x → IsNumbers second y
            → IsNumbers result (pair x y) }
    {
        match (self.number(), second.number()) {
            (Some(a), Some(b)) => Numbers::Two(a, b),
            (a, b) => Numbers::Mixed(a.unwrap_or(0), b.unwrap_or(0)),
        }
    }

    // Returns the number, if the output is one.
    pub(crate) fn number(self) -> Option<u64>
        ensures value { (o : Output) → IsNumbers self o → IsNumber result o }
    {
        match self {
            Numbers::One(n) => Some(n),
            Numbers::Two(_, _) | Numbers::Mixed(_, _) | Numbers::Size(_) | Numbers::Side => None,
        }
    }

    // Returns the number that a test reads.
    pub(crate) fn pick(self, pick: Pick) -> u64
        ensures value { (o : Output) → IsNumbers self o → result ≡ picked pick o }
    {
        match (self, pick) {
            (Numbers::One(n), Pick::Whole | Pick::First | Pick::Second) => n,
            (Numbers::Two(n, _) | Numbers::Mixed(n, _), Pick::First) => n,
            (Numbers::Two(_, n) | Numbers::Mixed(_, n), Pick::Second) => n,
            (Numbers::Size(size), Pick::Size) => size,
            (_, _) => 0,
        }
    }

    // Returns what tests read of a function of the output, unless a piece of it has to be read.
    pub(crate) fn after(self, func: Func) -> Option<Numbers>
        ensures value { (o : Output) → IsNumbers self o
            → IfSome result (λ r. IsNumbers r (applied func o)) }
        ensures piece { result ≡ None → returns_piece func ≡ true }
    {
        match (func, self) {
            (Func::Const(n), _) => Some(Numbers::One(n)),
            (Func::Add(n), _) => Some(Numbers::One(self.pick(Pick::Whole).saturating_add(n))),
            (Func::Mul(n), _) => Some(Numbers::One(self.pick(Pick::Whole).saturating_mul(n))),
            (Func::Size, _) => Some(Numbers::One(self.pick(Pick::Size))),
            (Func::First, Numbers::Two(n, _)) => Some(Numbers::One(n)),
            (Func::Second, Numbers::Two(_, n)) => Some(Numbers::One(n)),
            (Func::First | Func::Second, Numbers::Mixed(_, _)) => None,
            (Func::Merge, Numbers::Side) => None,
            (Func::First | Func::Second | Func::Merge, _) => Some(self),
        }
    }
}
