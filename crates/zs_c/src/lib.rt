//! The calls of the library for C, and for every language that calls C. `zsched_c` exports them.
//!
//! No call stores anything. `zs_check` returns whether a text is a schedule. `zs_bounds` returns
//! what that schedule does for every input. `zs_compile` writes it as a program, whose state is a
//! fixed number of words, which the caller stores. Of a list the state has the size alone.
//! `zs_program_step` steps the program, and `zs_output` returns the output of its last step.
//! `zs_plan` steps it at the end of an attempt, and plans the next one.
//!
//! `include/zsched.h` says how C calls them. Begin with `specs/Program.antt`.
#![tactic(auto)]

mod bounding;
mod exports;
mod program;
mod reading;
mod refusal;
mod room;
mod texts;
mod turn;

pub use bounding::{BoundsTold, GivenDriver};
pub use exports::{zs_bounds, zs_check, zs_strerror, zs_version};
pub use program::exports::{
    zs_compile, zs_output, zs_plan, zs_program_begin, zs_program_size, zs_program_step,
};
pub use program::laws::{attempts_end_in_time, one_schedule};
pub use turn::Turn;
