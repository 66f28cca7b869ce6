//! The lines of a reader, one after another, and whole numbers in text.
//!
//! Each line that `Buffer::next_line` returns is the next one of `lines_of` the reader's bytes
//! (`specs/Lines.antt`), if those are known. Only bytes of one pull are stored beside the line.
//!
//! ```rust
//! let mut buffer = Buffer::new(alloc);
//! let mut line = Vec::new(alloc);
//! while buffer.next_line(&mut reader, &mut line, 100)? {}
//! ```
#![tactic(auto)]

mod buffer;
mod numbers;

pub use buffer::{Buffer, LineFault};
pub use numbers::{digits, number};
