//! Schedules that are compiled to words once, and stepped from those words.

mod clearing;
mod coding;
mod compiling;
mod denial;
pub(crate) mod exports;
pub(crate) mod laws;
mod leaf;
mod node;
mod opening;
mod output_text;
mod outputs;
mod planning;
mod running;
mod stepping;
