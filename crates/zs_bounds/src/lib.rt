//! What a schedule does for every history that a driver can make: how often it is stepped, how long
//! it waits, and how long the attempts and the waits take together.
//!
//! `bounds` steps a state with intervals in place of numbers. What it returns holds for every input
//! and everything that a `Driver` may do.
//! Start with `specs/Driven.antt` and `specs/Bounds.antt`, which say what is promised.
//!
//! ```rust
//! let schedule = zs_term::read(alloc, "(exponential(100) && recurs(5))")?;
//! let driver = Driver { least: 1, most: Some(5000), waits: Waits::exact() };
//! let told = bounds(alloc, &schedule, driver, 1000)?;
//! assert_eq!(rt; told.most, Some(6));
//! assert_eq!(rt; told.longest_run, Some(33_100));
//! ```
#![tactic(auto)]

mod answers;
mod beginning;
mod bounding;
mod decisions;
mod driver;
mod endless;
mod latest;
mod laws;
mod leaves;
mod node;
mod ranges;
mod span;
mod stepping;
mod told;
mod waits;
mod within;

pub use bounding::bounds;
pub use driver::Driver;
pub use endless::never_gives_up;
pub use laws::{
    bounds_hold, bounds_hold_for_schedule_waits, calls_are_attempts, drawn_leaves_are_a_drawn_whole,
};
pub use told::Bounds;
pub use waits::Waits;
pub use within::attempts_within;
