//! Terms of schedules: their text, their kinds and their outputs.
//!
//! A `Checked` is the one schedule of its text. `read` returns it, or the first fault of the text
//! with its byte. `write` returns its one canonical spelling. Start with `specs/Grammar.antt` and
//! `specs/Causes.antt`.
//!
//! ```rust
//! let schedule = read(alloc, "(exponential(10) && recurs(3))")?;
//! assert_eq!(rt; write(alloc, &schedule)?.as_str(), "(exponential(10, 2) && recurs(3))");
//! ```
#![tactic(auto)]

mod checked;
mod dropping;
mod fault;
mod forms;
mod inference;
mod kind;
mod laws;
mod lexer;
mod limits;
mod out_text;
mod outputs;
mod parser;
mod part;
mod printer;
mod reader;
mod term;
mod token;

pub use checked::{Checked, check};
pub use fault::TermFault;
pub use kind::Kind;
pub use laws::{
    canonical_spells, one_fault, one_term, one_verdict, round_trip, tokens_of_text,
    verdict_is_the_one,
};
pub use limits::{MAX_DEPTH, MAX_WEIGHT};
pub use out_text::{NoMemory, append_number, append_out, write_out};
pub use outputs::{Out, Outs, make_left, make_list, make_pair, make_right};
pub use printer::write;
pub use reader::read;
pub use term::{Cmp, Func, Pick, Term, Test};
