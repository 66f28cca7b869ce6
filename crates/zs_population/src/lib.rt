//! A population of jobs from its lines to the bytes of its report, a block of jobs at a time.
//!
//! `run_words` does what the words of a command line say. At success the bytes that it writes for a
//! range of jobs, or for all, are their `report_of`, as if they were one plan
//! (`specs/Population.antt`, `specs/Ending.antt`). A rejected line is reported by its number, after
//! the blocks before it were written. Memory is needed for one block and all names.
//!
//! ```rust
//! let mut reader = Marked::new(lines);
//! let mut writer = Marked::new(&mut text);
//! run_words(&rt, rt.alloc(), &OpenGate, words, &mut reader, &mut writer)?;
//! ```
#![tactic(auto)]

mod block;
mod digest;
mod fault;
mod joining;
mod laws;
mod lines;
mod program;
mod range;
mod report;
mod running;
mod trailer;
mod words;

pub use fault::{OptionFault, PopulationFault, ReportFault, exit_code, status};
pub use joining::Files;
pub use laws::ranges_join;
pub use program::run_words;
