//! Laws of every schedule, stated about its definition.

ghost use Rattle.std.specs.Prelude.{◌≡◌, ◌<◌, ◌≤◌, ◌+◌, ◌↔◌, ℕ, Some, None, [], ◌∷◌, length};
ghost use Rattle.zs_term.specs.Saturating.{max_moment, saturated};
ghost use Rattle.zs_term.specs.OutputKind.{OutputKind, HasKind};
ghost use Rattle.zs_term.specs.Kinds.{kind_of};
ghost use Rattle.zs_term.specs.Schedule.{Schedule, weight, leaf, two, over, forever, recurs, fixed, windowed, and_then, while_output};
ghost use Rattle.zs_term.specs.declared.term.Test.{Test};
ghost use Rattle.zs_term.specs.declared.term.Pick.{Pick};
ghost use Rattle.zs_term.specs.declared.term.Pick.TheVariants.{Whole};
ghost use Rattle.zs_step.specs.History.{History, first_moment, last_moment, IsInOrder};
ghost use Rattle.zs_step.specs.Answer.{answer_of, from_done, since_reset, next_run};
ghost use Rattle.zs_step.specs.declared.leaf.Leaf.{Leaf};
ghost use Rattle.zs_step.specs.LeafState.{before_of, next_count, past_of};
ghost use Rattle.zs_step.specs.Visits.{visits};
ghost use Rattle.zs_step.specs.Laws.{GoesOnThroughout, IsFromFirstDone, in_left, in_right, below, IsNotBefore, IsWithoutReset, IsFromLastReset, ContinuesAt, IsBoundaryAfter, IsInTime, HasCounted};

/// The second part of `andThenEither` begins at the least step at which the first is done, and
/// determines the result from there on.
pub fn second_part_begins_where_the_first_is_done()
    // The search finds exactly the part from the first done step on.
    ensures found { (a : Schedule) (h part : History) → (from_done (answer_of a) h ≡ Some part)
        ↔ IsFromFirstDone (answer_of a) h part }
    ensures none { (a : Schedule) (h : History) → (from_done (answer_of a) h ≡ None)
        ↔ GoesOnThroughout (answer_of a) h }
    // The result from that step on, and before it.
    ensures second { (a b : Schedule) (h part : History) → IsFromFirstDone (answer_of a) h part
        → answer_of (two and_then a b) h ≡ in_right (answer_of b part) }
    ensures first { (a b : Schedule) (h : History) → GoesOnThroughout (answer_of a) h
        → answer_of (two and_then a b) h ≡ in_left (answer_of a h) }
{}

/// `recurs(k)` returns what `forever.whileOutput(< k)` returns.
pub fn recurs_is_forever_below_its_limit()
    ensures value { (k : ℕ) (h : History) → k ≤ max_moment → answer_of (leaf (recurs k)) h
        ≡ answer_of (over (leaf forever) (while_output Whole (below k))) h }
{}

/// A schedule never continues at a moment before that of its step.
pub fn decisions_are_not_in_the_past()
    ensures value { (t : Schedule) (h : History) → last_moment h ≤ max_moment
        → IsNotBefore (last_moment h) (answer_of t h).decision }
{}

/// Every output of a schedule has its kind, so every pick and every function fits.
pub fn outputs_have_kinds()
    ensures value { (t : Schedule) (a : OutputKind) (h : History) → kind_of t ≡ Some a
        → HasKind (answer_of t h).output a }
{}

/// The visits of a step are at most the schedule's weight, however long its history is.
pub fn visits_are_at_most_the_weight()
    ensures value { (t : Schedule) (h : History) → visits t h ≤ weight t }
{}

/// The part of `resetWhen` counts from the last step that reset it, or from the first step if none
/// did.
pub fn a_part_counts_from_its_last_reset()
    ensures reset { (s : Schedule) (k : Pick) (t : Test) (h part : History)
        → IsFromLastReset (answer_of s) k t h part → since_reset (answer_of s) k t h ≡ part }
    ensures none { (s : Schedule) (k : Pick) (t : Test) (h : History)
        → IsWithoutReset (answer_of s) k t h [] → since_reset (answer_of s) k t h ≡ h }
{}

/// `windowed(n)` continues at the least boundary after its step. A boundary is the first moment
/// plus a whole number of periods.
pub fn a_window_ends_at_the_next_boundary()
    ensures value { (n x : ℕ) (h : History) → 1 ≤ n → IsInOrder h → IsBoundaryAfter n h x
        → ContinuesAt (leaf (windowed n)) h (saturated x) }
{}

/// `fixed(n)` continues at the least boundary after its step, or at once if the step is more than a
/// period after the run before it.
pub fn a_fixed_run_is_at_the_next_boundary()
    // At the first step, at a later step that is in time, and at a late one.
    ensures first { (n x : ℕ) (p : ℕ × ℕ) → 1 ≤ n → IsBoundaryAfter n (p ∷ []) x
        → ContinuesAt (leaf (fixed n)) (p ∷ []) (saturated x) }
    ensures value { (n x : ℕ) (p q : ℕ × ℕ) (h : History) → 1 ≤ n → IsInTime n (p ∷ q ∷ h)
        → IsBoundaryAfter n (p ∷ q ∷ h) x → ContinuesAt (leaf (fixed n)) (p ∷ q ∷ h) (saturated x) }
    ensures behind { (n : ℕ) (p q : ℕ × ℕ) (h : History) → next_run n (q ∷ h) + n < p.0
        → ContinuesAt (leaf (fixed n)) (p ∷ q ∷ h) p.0 }
{}

/// A leaf stores the number of steps before the last one. With one more, which saturates, that is
/// the number of steps.
pub fn a_leaf_counts_its_steps()
    ensures value { (h : History) → next_count (before_of h) ≡ saturated (length h) }
    ensures past { (p : ℕ × ℕ) (h : History) → past_of (p ∷ h)
        ≡ Some (record { first = first_moment (p ∷ h); before = saturated (length h) }) }
    // So the number of steps is read from every state that represents a history.
    ensures counted { (l : Leaf) (h : History) → HasCounted l h }
{}
