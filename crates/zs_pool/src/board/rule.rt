//! The rule of a board: what each pass knows, and what each step does to it.

use crossbeam_queue::protocol::{Join, Lesson, Outcome, Protocol, Split};
use std::collections::LinkedList;

/// What a pass knows. No value of this type is made.
pub(crate) struct Claims<T> {
    /// The pass's part of the access to the board.
    pub(crate) share: u64,
    /// All batches that were put.
    pub(crate) batches: LinkedList<T>,
    /// The numbers of those that the pass took.
    pub(crate) taken: LinkedList<u64>,
}

/// Batches are taken from the front, each once.
pub(crate) struct InTurn;

impl<T> Protocol<T, Claims<T>> for InTurn {
    ghost use Rattle.std.specs.Prelude.{[]};
    ghost use Rattle.zs_term.specs.Saturating.{max_moment};
    ghost use Rattle.zs_pool.specs.Board.{BoardRun, claims};

    ghost holds = { BoardRun };

    ghost first = { claims max_moment [] [] };
}

/// Puts a batch.
pub(crate) struct PutsBatch;

impl<T> Outcome<T, Claims<T>> for PutsBatch {
    ghost use Rattle.std.specs.Prelude.{◌≡◌, ◌++◌, ◌∷◌, []};
    ghost use Rattle.zs_pool.specs.Board.{claims};

    ghost then = { λ v x w. w ≡ claims v.share (v.batches ++ x ∷ []) v.taken };
}

impl<T> Lesson<T, Claims<T>> for PutsBatch {
    ghost use Rattle.zs_pool.specs.Board.{IsRest};

    ghost fact = { IsRest };
}

/// Takes a batch.
pub(crate) struct TakesBatch;

impl<T> Outcome<T, Claims<T>> for TakesBatch {
    ghost use Rattle.zs_pool.specs.Board.{Took};

    ghost then = { Took };
}

impl<T> Lesson<T, Claims<T>> for TakesBatch {
    ghost use Rattle.zs_pool.specs.Board.{IsRest};

    ghost fact = { IsRest };
}

/// Splits off a pass with a share of 1, which took nothing.
pub(crate) struct ClaimSharing;

impl<T> Split<Claims<T>> for ClaimSharing {
    ghost use Rattle.std.specs.Prelude.{◌-◌, []};
    ghost use Rattle.zs_pool.specs.Board.{claims};

    ghost left = { λ v. claims (v.share - 1) v.batches v.taken };

    ghost right = { λ v. claims 1 v.batches [] };
}

impl<T> Join<Claims<T>> for ClaimSharing {
    ghost use Rattle.std.specs.Prelude.{◌+◌, ◌++◌, []};
    ghost use Rattle.zs_pool.specs.Board.{claims};

    ghost both = { λ v w. claims (v.share + w.share) v.batches (v.taken ++ w.taken) };

    ghost spent = { claims 0 [] [] };
}
