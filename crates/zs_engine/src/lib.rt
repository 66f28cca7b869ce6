//! Runs many jobs concurrently up to a clock's horizon, in rounds over a timer queue.
//!
//! Each task of the result has the timeline that its job alone has at the horizon
//! (`specs/Answers.antt`). This is true for every cut of the rounds and every gate, on a clock of
//! every millisecond and on listed ticks.
//!
//! ```rust
//! let clock = Clock::every_ms(1000).expect(&rt, "within the limit");
//! let cut = Cut::new(2, 1).expect(&rt, "within the limits");
//! let answer = run_jobs(&rt, alloc, cut, &OpenGate, clock, jobs)?;
//! assert_eq!(rt; answer.polls, 6);
//! ```
#![tactic(auto)]

mod answer;
mod engine;
mod fault;
mod jobs;
mod laws;
mod slots;

pub use answer::Answer;
pub use fault::EngineFault;
pub use jobs::run_jobs;
pub use laws::listed_ticks;
