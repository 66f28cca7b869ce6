//! Why a text or a term is no schedule.

use thiserror::Error;

/// Why a text or a term is no schedule. The causes are checked in this order.
#[derive(Clone, Copy, Debug, PartialEq, Eq, Error)]
pub enum TermFault {
    /// The text spells no term. `at` is the byte, from 0, at which no spelling can go on.
    #[error("no term at byte {at}")]
    NoTerm { at: u64 },
    /// The term is deeper than 64 or weighs more than 1,000.
    #[error("too big")]
    TooBig,
    /// A number in the text is above 18446744073709551615. `at` is the byte at which the first such
    /// number begins.
    #[error("number too large at byte {at}")]
    BadNumber { at: u64 },
    /// A factor of an `exponential` is 0.
    #[error("factor is 0")]
    BadFactor,
    /// A pick or a function doesn't fit the output that it is applied to.
    #[error("no kind")]
    NoKind,
    /// A window of a `windowed` is 0.
    #[error("window is 0")]
    BadWindow,
    /// Memory allocation failed.
    #[error("out of memory")]
    Memory,
}
