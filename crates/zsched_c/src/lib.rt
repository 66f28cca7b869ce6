//! The calls of `zs_c` as functions of a static library, which C and every language that calls C
//! can call. `include/zsched.h` says how.
//!
//! It is a separate crate, since a static library is proved again when its archive is built.
#![tactic(auto)]

mod policies;
mod programs;

pub use policies::{zs_bounds, zs_check, zs_strerror, zs_version};
pub use programs::{
    zs_compile, zs_output, zs_plan, zs_program_begin, zs_program_size, zs_program_step,
};
