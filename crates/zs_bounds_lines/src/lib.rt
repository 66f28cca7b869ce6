//! Bounds of policies, from lines of text to lines of JSON.
//!
//! `run_words` does what the words of a command line say. Without a word, it writes `bounds_lines`
//! of the lines that it reads (`specs/BoundsLines.antt`): for each policy its bounds, flushed
//! before the next line is read. A rejected line is reported by its number, after the lines before
//! it were written. Begin with `specs/Ending.antt`.
//!
//! ```rust
//! let mut reader = Marked::new(policies);
//! let mut writer = Marked::new(&mut text);
//! run_words(rt.alloc(), words, &mut reader, &mut writer)?;
//! ```
#![tactic(auto)]

mod fault;
mod json;
mod options;
mod policy;
mod program;
mod running;
mod words;
mod work;

pub use fault::{BoundsFault, OptionFault, PolicyFault, exit_code, status};
pub use program::{reads_lines, run_words};
