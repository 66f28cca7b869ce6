//! The tokens of the text of terms.

use crate::forms::{Counted, Infix, Method, Piece, Plain, Scale};
use crate::term::Cmp;

/// A word or a symbol, by its role in a term.
#[derive(Clone, Copy, Drop)]
pub(crate) enum Mark {
    /// The word of a leaf without numbers.
    PlainWord(Plain),
    /// The word of a leaf with one number.
    CountedWord(Counted),
    /// `exponential`
    ExponentialWord,
    /// What is between two terms.
    Operator(Infix),
    /// What follows a dot, and takes arguments.
    MethodWord(Method),
    /// `collectAll`
    CollectAllWord,
    /// A comparison.
    Comparison(Cmp),
    /// A piece of an output.
    PieceWord(Piece),
    /// `merge`
    MergeWord,
    /// The word or symbol of a function with a number.
    ScaleWord(Scale),
    /// Letters that are no word of a form.
    OtherWord,
    /// `(`
    Open,
    /// `)`
    Close,
    /// `,`
    Comma,
    /// `.`
    Dot,
}

/// A token as the code stores it: a number above 2^64 - 1 is `None`.
#[derive(Clone, Copy, Drop)]
pub(crate) enum Lexeme {
    /// A number.
    Number(Option<u64>),
    /// A word or a symbol.
    Mark(Mark),
}
