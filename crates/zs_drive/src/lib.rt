//! ZIO's `retry` and `repeat` as futures that are polled by hand.
//!
//! A task's attempts are those of its job alone on a clock that ticks at the moments at which the
//! task was polled while it was due. Polls that come too early change nothing.
//!
//! ```text
//! let mut task = Task::new(alloc, 0, job)?;
//! if let Some(due) = task.due() {
//!     task.see(due);
//!     let polled = task.poll(&mut context); // begins the first attempt
//! }
//! ```
//!
//! Begin with `specs/Timeline.antt` and `specs/Tasks.antt`.
#![tactic(auto)]

mod fault;
mod job;
mod laws;
mod progress;
mod record;
mod task;

pub use fault::DriveFault;
pub use job::{Job, Mode};
pub use laws::{due_polls_suffice, moments_rise, one_timeline, timelines_are_whole};
pub use record::{Attempted, Ended, Ending};
pub use task::Task;
