//! One run of an effect, as a future.
ghost use Rattle.std.specs.Prelude.{◌≡◌, ◌≤◌, ◌<◌, ◌+◌, ℕ};
ghost use Rattle.futures.specs.Poll.{IfReady, OnPending};
ghost use Rattle.futures.specs.Task.{IsArmed, Keeps};
ghost use Rattle.zs_term.specs.Saturating.{saturated};

use crate::script::{Beat, Outcome};
use futures::Future;
use futures::task::{Context, Poll};
use std::marker::Model;

/// An attempt that is running or over, with the last moment that it saw.
#[derive(Drop)]
pub struct Attempt {
    outcome: Outcome,
    end: u64,
    seen: u64,
}

impl Model for Attempt {
    ghost use Rattle.zs_effect.specs.Attempts.{AttemptValue};

    ghost Value = { AttemptValue };

    ghost view = { λ a. record { outcome = a.outcome; end = a.end; seen = a.seen } };
}

impl Attempt {
    /// Starts an attempt at a moment in milliseconds. Its end saturates at 2^64 - 1.
    pub fn start(beat: Beat, now: u64) -> Attempt
        ensures value { result
            ≡ record { outcome = beat.outcome; end = saturated (now + beat.ms); seen = now } }
    {
        Attempt {
            outcome: beat.outcome,
            end: now.saturating_add(beat.ms),
            seen: now,
        }
    }

    /// Returns the moment at which it ends, in milliseconds.
    pub fn end(&self) -> u64
        ensures value { result ≡ self.now.end }
    {
        self.end
    }

    /// Sets the moment of the next poll, in milliseconds. It must not be before the last one seen.
    pub fn see(&mut self, now: u64)
        requires later { self.old.seen ≤ now }
        ensures value { self.new ≡ record self.old { seen = now } }
    {
        self.seen = now;
    }
}

impl Future for Attempt {
    type Output = Outcome;

    ghost gives = { λ a outcome. outcome ≡ a.outcome };

    /// Ready with the outcome if the moment seen is at or after the end, else pending.
    fn poll(&mut self, cx: &mut Context<'_>) -> Poll<Outcome>
        ensures ready { self.old.end ≤ self.old.seen → result ≡ Poll.Ready self.old.outcome }
        ensures pending { self.old.seen < self.old.end → result ≡ Poll.Pending }
        ensures unchanged { self.new ≡ self.old }
        ensures value { IfReady result (λ outcome. outcome ≡ self.old.outcome) }
        // For executors: a pending poll arranges the next one, and nothing that was arranged is
        // lost.
        ensures armed { OnPending result (IsArmed cx.new) }
        ensures kept { Keeps cx.old cx.new }
    {
        if self.seen < self.end {
            return cx.yield_now();
        }
        Poll::Ready(self.outcome)
    }
}
