//! When a job runs again: ZIO schedules, from a whole history and one step at a time.
//!
//! `plain` evaluates a whole history, and is the reference. `Compiled` has a state in place of the
//! history. Both return `answer_of` (`specs/Answer.antt`), so a caller may use either.
//!
//! ```rust
//! let schedule = zs_term::read(alloc, "(exponential(10) && recurs(3))")?;
//! let mut policy = Compiled::new(alloc, schedule)?;
//! assert_eq!(rt; policy.step(1, 7)?.decision, Decision::Next(11));
//! ```
#![tactic(auto)]

mod collected;
mod compiled;
mod decision;
mod evaluation;
mod fault;
mod following;
mod interval;
mod laws;
mod leaf;
mod leaves;
mod numbers;
mod state;
mod stepped;
mod stepping;
mod view;

pub use compiled::Compiled;
pub use decision::Decision;
pub use evaluation::plain;
pub use fault::StepFault;
pub use following::follow;
pub use interval::Interval;
pub use laws::{
    a_fixed_run_is_at_the_next_boundary, a_leaf_counts_its_steps,
    a_part_counts_from_its_last_reset, a_window_ends_at_the_next_boundary,
    decisions_are_not_in_the_past, outputs_have_kinds, recurs_is_forever_below_its_limit,
    second_part_begins_where_the_first_is_done, visits_are_at_most_the_weight,
};
pub use leaf::{Leaf, Past};
pub use stepped::Stepped;
