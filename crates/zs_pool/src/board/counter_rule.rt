//! The rule of a counter: what each seat knows, and what each step does to it.

use atomic_table::{Join, Play, Split, TableRule};

/// What a seat knows. No value of this type is made.
pub(crate) struct Count {
    /// The seat's part of the access to the counter.
    pub(crate) share: u64,
    /// How often the seat counted.
    pub(crate) count: u64,
    /// The greatest value of the word that the seat saw.
    pub(crate) seen: u64,
}

/// The word is the sum of what all seats counted.
pub(crate) struct Summed;

impl TableRule<(), Count, ()> for Summed {
    ghost use Rattle.zs_term.specs.Saturating.{max_moment};
    ghost use Rattle.zs_pool.specs.Counter.{KeepsCount, counted};

    ghost holds = { KeepsCount };

    ghost first = { λ _. counted max_moment 0 0 };
}

/// Adds 1 to the word.
pub(crate) struct Adds;

impl Play<(), Count> for Adds {
    ghost use Rattle.zs_pool.specs.Counter.{Added};

    ghost then = { Added };
}

/// Reads the word. A seat with exclusive access learns that it counted everything that it saw.
pub(crate) struct Looks;

impl Play<(), Count> for Looks {
    ghost use Rattle.zs_pool.specs.Counter.{Looked};

    ghost then = { Looked };
}

/// Splits off a seat with a share of 1, which counted nothing.
pub(crate) struct CountSharing;

impl Split<Count> for CountSharing {
    ghost use Rattle.std.specs.Prelude.{◌-◌};
    ghost use Rattle.zs_pool.specs.Counter.{counted};

    ghost left = { λ v. counted (v.share - 1) v.count v.seen };

    ghost right = { λ v. counted 1 0 v.seen };
}

impl Join<Count> for CountSharing {
    ghost use Rattle.std.specs.Prelude.{◌+◌, max};
    ghost use Rattle.zs_pool.specs.Counter.{counted};

    ghost both = { λ v w. counted (v.share + w.share) (v.count + w.count) (max v.seen w.seen) };

    ghost spent = { counted 0 0 0 };
}
