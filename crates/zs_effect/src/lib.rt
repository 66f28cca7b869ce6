//! Effects that follow a script, and their attempts as futures that are polled by hand.
//!
//! An attempt is ready exactly if it has seen its end, and then returns the same at every poll.
//!
//! ```text
//! let script = Script::new(beats)?;
//! let mut attempt = Attempt::start(script.beat(1), 10);
//! attempt.see(attempt.end());     // the next poll is ready
//! ```
#![tactic(auto)]

mod attempt;
mod script;

pub use attempt::Attempt;
pub use script::{Beat, Outcome, Script, ScriptFault};
