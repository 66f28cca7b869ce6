//! What the crates below the pool return from their public calls, with values from the documents.
//!
//! The proof of a test grows with what is alive while it asserts. So a test passes its cases to a
//! helper, which asserts on text and has no task, schedule or agenda alive while it does.

// An attempt of a table that succeeds. A constant can't call a function.
macro_rules! good {
    ($ms:expr, $value:expr) => {
        Beat {
            ms: $ms,
            outcome: Outcome::Good($value),
        }
    };
}

// An attempt of a table that fails.
macro_rules! bad {
    ($ms:expr, $code:expr) => {
        Beat {
            ms: $ms,
            outcome: Outcome::Bad($code),
        }
    };
}

mod agreement;
mod attempts;
mod limits;
mod steps;
mod support;
mod surface;
mod tasks;
mod terms;
mod timers;
