//! Tests that cross the crates: rounds and runs of jobs under gates that hold threads, plans that
//! are read or rejected, reports, and whole runs over readers and writers that fail.
#![tactic(auto)]

#[cfg(test)]
mod tests;
