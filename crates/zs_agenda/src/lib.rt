//! A clock of milliseconds, and a timer queue of the jobs that wait for a moment.
//!
//! The clock finds the first tick at or after a moment (`specs/Ticks.antt`). The timer queue
//! returns the earliest moment with all its jobs, each once, and loses no job of another moment
//! (`specs/Timers.antt`).
//!
//! ```rust
//! let mut agenda = Agenda::new(alloc)?;
//! agenda.set(3, 50)?;
//! agenda.set(1, 50)?;
//! let (moment, jobs) = agenda.take()?.unwrap(); // 50, [1, 3]
//! ```
#![tactic(auto)]

mod agenda;
mod clock;
mod fault;
mod index;
mod laws;

pub use agenda::Agenda;
pub use clock::Clock;
pub use fault::AgendaFault;
pub use laws::{clocks_are_tested, one_take};
