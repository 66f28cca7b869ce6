//! The rule of a shelf: what each pass knows, and what each step does to it.

use crossbeam_queue::protocol::{Join, Lesson, Outcome, Protocol, Split};
use std::collections::LinkedList;

/// What a pass knows. No value of this type is made.
pub(crate) struct Hands<T> {
    /// The pass's part of the access to the shelf.
    pub(crate) share: u64,
    /// What the pass put.
    pub(crate) put: LinkedList<T>,
    /// What the pass took.
    pub(crate) taken: LinkedList<T>,
}

/// Each value that was put is taken once, or is queued.
pub(crate) struct EachOnce;

impl<T> Protocol<T, Hands<T>> for EachOnce {
    ghost use Rattle.std.specs.Prelude.{[]};
    ghost use Rattle.zs_term.specs.Saturating.{max_moment};
    ghost use Rattle.zs_pool.specs.Shelf.{ShelfRun, hands};

    ghost holds = { ShelfRun };

    ghost first = { hands max_moment [] [] };
}

/// Puts a value.
pub(crate) struct Puts;

impl<T> Outcome<T, Hands<T>> for Puts {
    ghost use Rattle.std.specs.Prelude.{◌≡◌, ◌++◌, ◌∷◌, []};
    ghost use Rattle.zs_pool.specs.Shelf.{hands};

    ghost then = { λ v x w. w ≡ hands v.share (v.put ++ x ∷ []) v.taken };
}

impl<T> Lesson<T, Hands<T>> for Puts {
    ghost use Rattle.zs_pool.specs.Shelf.{IsLeft};

    ghost fact = { IsLeft };
}

/// Takes a value.
pub(crate) struct Takes;

impl<T> Outcome<T, Hands<T>> for Takes {
    ghost use Rattle.std.specs.Prelude.{◌≡◌, ◌++◌, ◌∷◌, []};
    ghost use Rattle.zs_pool.specs.Shelf.{hands};

    ghost then = { λ v x w. w ≡ hands v.share v.put (v.taken ++ x ∷ []) };
}

impl<T> Lesson<T, Hands<T>> for Takes {
    ghost use Rattle.zs_pool.specs.Shelf.{IsLeft};

    ghost fact = { IsLeft };
}

/// Splits off a pass with a share of 1, which put and took nothing.
pub(crate) struct HandSharing;

impl<T> Split<Hands<T>> for HandSharing {
    ghost use Rattle.std.specs.Prelude.{◌-◌, []};
    ghost use Rattle.zs_pool.specs.Shelf.{hands};

    ghost left = { λ v. hands (v.share - 1) v.put v.taken };

    ghost right = { λ v. hands 1 [] [] };
}

impl<T> Join<Hands<T>> for HandSharing {
    ghost use Rattle.std.specs.Prelude.{◌+◌, ◌++◌, []};
    ghost use Rattle.zs_pool.specs.Shelf.{hands};

    ghost both = { λ v w. hands (v.share + w.share) (v.put ++ w.put) (v.taken ++ w.taken) };

    ghost spent = { hands 0 [] [] };
}
