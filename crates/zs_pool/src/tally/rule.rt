//! The rule of a tally: what each seat knows, and what each step does to it.

use atomic_table::{Join, Play, Split, TableRule};

/// What a seat knows. No value of this type is made.
pub(crate) struct Tallied {
    /// How often the seat counted.
    pub(crate) count: u64,
    /// How often the seat may still count.
    pub(crate) allowance: u64,
    /// The value of the word that the seat saw last.
    pub(crate) seen: u64,
    /// How much of the allowance is about to be split off.
    pub(crate) noted: u64,
}

/// The word is the sum of what all seats counted.
pub(crate) struct Exact;

impl TableRule<(), Tallied, ()> for Exact {
    ghost use Rattle.zs_pool.specs.Tally.{KeepsTally, tallied};
    ghost use Rattle.zs_term.specs.Saturating.{max_moment};

    ghost holds = { KeepsTally };

    ghost first = { λ _. tallied 0 max_moment 0 0 };
}

/// Adds 1 to the word.
pub(crate) struct Counts;

impl Play<(), Tallied> for Counts {
    ghost use Rattle.zs_pool.specs.Tally.{CountsOne};

    ghost then = { CountsOne };
}

/// Reads the word.
pub(crate) struct Sees;

impl Play<(), Tallied> for Sees {
    ghost use Rattle.zs_pool.specs.Tally.{Loaded};

    ghost then = { Loaded };
}

/// Notes how much of the allowance is about to be split off. The word is unchanged.
pub(crate) struct Notes;

impl Play<(), Tallied> for Notes {
    ghost use Rattle.zs_pool.specs.Tally.{Noted};

    ghost then = { Noted };
}

/// Reads the word, to learn that the allowance fits.
pub(crate) struct Fits;

impl Play<(), Tallied> for Fits {
    ghost use Rattle.zs_pool.specs.Tally.{Fitting};

    ghost then = { Fitting };
}

/// Splits off a seat with the noted allowance, which counted nothing.
pub(crate) struct TallySharing;

impl Split<Tallied> for TallySharing {
    ghost use Rattle.std.specs.Prelude.{◌-◌};
    ghost use Rattle.zs_pool.specs.Tally.{tallied};

    ghost left = { λ v. tallied v.count (v.allowance - v.noted) v.seen 0 };

    ghost right = { λ v. tallied 0 v.noted v.seen 0 };
}

impl Join<Tallied> for TallySharing {
    ghost use Rattle.std.specs.Prelude.{◌+◌, max};
    ghost use Rattle.zs_pool.specs.Tally.{tallied};

    ghost both = { λ v w.
        tallied (v.count + w.count) (v.allowance + w.allowance) (max v.seen w.seen) 0 };

    ghost spent = { tallied 0 0 0 0 };
}
