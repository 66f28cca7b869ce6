//! One moment's due polls, shared among workers: `round` returns the due tasks, each polled at the
//! moment and counted once.
//!
//! The result is the same for every number of workers, every cutting into batches, every order of
//! the threads' steps and every gate. Its parts can be used alone: a `Board` of batches, a `Shelf`
//! of polled batches, and a `Tally` of polls, each a queue or a word under a rule that every step
//! obeys.
//!
//! ```rust
//! let (tally, mut seat) = Tally::new(alloc)?;
//! let cut = Cut::new(4, 16).expect(&rt, "within the limits");
//! let tasks = round(&rt, alloc, cut, &OpenGate, &tally, &mut seat, now, tasks)?;
//! assert_eq!(rt; tally.close(seat), tasks.len() as u64);
//! ```
#![tactic(auto)]

mod batch;
mod board;
mod fault;
mod gate;
mod polled;
mod poller;
mod polling;
mod rounds;
mod shelf;
mod tally;

pub use batch::Batch;
pub use board::{Board, BoardPass};
pub use fault::PoolFault;
pub use gate::{Gate, OpenGate};
pub use polled::Polled;
pub use poller::{Poller, Polling};
pub use polling::poll_batch;
pub use rounds::cut::{Cut, MAX_TASKS};
pub use rounds::{round, round_in};
pub use shelf::{Shelf, ShelfPass};
pub use tally::{Tally, TallySeat};
