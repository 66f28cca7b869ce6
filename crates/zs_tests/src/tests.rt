//! Rounds, runs of jobs, plans that are read or rejected, reports, and the texts of faults.

mod engine;
mod gates;
mod marks;
mod names;
mod plans;
mod pool;
mod refused;
mod reports;
mod runs;
mod runs_under_gates;
mod streams;
mod support;
mod surface;
