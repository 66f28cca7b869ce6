//! The kinds of outputs.

/// What the outputs of a schedule consist of.
#[derive(Drop)]
pub enum Kind {
    /// A number.
    Num,
    /// A pair of an output of each kind.
    Pair(Box<Kind>, Box<Kind>),
    /// An output of the first kind on the left, or of the second on the right.
    Sum(Box<Kind>, Box<Kind>),
    /// A list of outputs of one kind.
    Items(Box<Kind>),
}
