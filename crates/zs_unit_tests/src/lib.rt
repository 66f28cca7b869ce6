//! Tests of the crates that start no thread: the text of terms, decisions, attempts, tasks that are
//! polled by hand, the clock and the timer queue.
#![tactic(auto)]

#[cfg(test)]
mod tests;
