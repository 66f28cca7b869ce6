//! A schedule without parts: its numbers, and what its output and its next step need to know.

ghost use Rattle.std.specs.Prelude.{◌≡◌, ℕ, ◌∷◌, []};
ghost use Rattle.zs_step.specs.History.{History};
ghost use Rattle.zs_step.specs.Answer.{run_after, window_end};
ghost use Rattle.zs_step.specs.LeafState.{state_leaf, leaf_output, before_in, next_count, next_past, LeafRepresents, LeafAnswers, HasOutput, HasDecision};

use crate::decision::Decision;

/// The past of a leaf that counts from its first step.
#[derive(Clone, Copy)]
pub struct Past {
    /// The moment of the first step, in milliseconds.
    pub first: u64,
    /// The number of steps before the last one.
    pub before: u64,
}

/// A leaf. `before` is the number of steps before the last one, and `past` has it too: None before
/// the first step.
#[derive(Clone, Copy)]
pub enum Leaf {
    /// `forever`.
    Forever {
        before: Option<u64>,
    },
    /// `recurs`.
    Recurs {
        limit: u64,
        before: Option<u64>,
    },
    /// `spaced`, with its delay in milliseconds.
    Spaced {
        delay: u64,
        before: Option<u64>,
    },
    /// `fixed`, with its period and its next run in milliseconds.
    Fixed {
        period: u64,
        past: Option<Past>,
        run: u64,
    },
    /// `exponential`, with the delays of the last step and of the next one in milliseconds.
    Exponential {
        base: u64,
        factor: u64,
        last: u64,
        next: u64,
    },
    /// `fibonacci`, with the delays of the last step and of the next one in milliseconds.
    Fibonacci {
        one: u64,
        last: u64,
        next: u64,
    },
    /// `identity`, with the last input.
    Identity {
        last: u64,
    },
    /// `elapsed`, with the first moment, and the time from it to the last one, in milliseconds.
    Elapsed {
        first: Option<u64>,
        time: u64,
    },
    /// `linear`, with the delay of the last step in milliseconds.
    Linear {
        unit: u64,
        last: u64,
    },
    /// `windowed`, with its period in milliseconds.
    Windowed {
        period: u64,
        past: Option<Past>,
    },
}

impl Leaf {
    /// Takes one more step, at a moment in milliseconds.
    pub fn step(&mut self, now: u64, input: u64) -> Decision
        ensures same { state_leaf self.new ≡ state_leaf self.old }
        ensures answered { (h : History) → LeafRepresents self.old h
            → LeafAnswers self.new (state_leaf self.old) ((now, input) ∷ h) result }
        ensures stands { (h : History) → LeafRepresents self.old h
            → LeafRepresents self.new ((now, input) ∷ h) }
    {
        self.update(now, input);
        self.decide(now)
    }

    // Updates the numbers at one more step.
    fn update(&mut self, now: u64, input: u64)
        ensures same { state_leaf self.new ≡ state_leaf self.old }
        ensures output { (h : History) → LeafRepresents self.old h
            → HasOutput self.new (state_leaf self.old) ((now, input) ∷ h) }
        ensures stands { (h : History) → LeafRepresents self.old h
            → LeafRepresents self.new ((now, input) ∷ h) }
    {
        match self {
            Leaf::Forever { before } => *before = Some(count(*before)),
            Leaf::Recurs { before, .. } => *before = Some(count(*before)),
            Leaf::Spaced { before, .. } => *before = Some(count(*before)),
            Leaf::Fixed { period, past, run } => {
                *run = match *past {
                    None => now.saturating_add(*period),
                    Some(Past { first, .. }) => run_after(*period, first, *run, now),
                };
                *past = Some(pass(*past, now));
            }
            Leaf::Exponential {
                factor,
                last,
                next,
                ..
            } => {
                *last = *next;
                *next = last.saturating_mul(*factor);
            }
            Leaf::Fibonacci { last, next, .. } => {
                let delay = *next;
                *next = delay.saturating_add(*last);
                *last = delay;
            }
            Leaf::Identity { last } => *last = input,
            Leaf::Elapsed { first, time } => {
                let start = first.unwrap_or(now);
                *first = Some(start);
                *time = now.saturating_sub(start);
            }
            Leaf::Linear { unit, last } => *last = last.saturating_add(*unit),
            Leaf::Windowed { past, .. } => *past = Some(pass(*past, now)),
        }
    }

    // Returns the decision of the last step, which was at this moment.
    fn decide(&self, now: u64) -> Decision
        ensures value { (h : History) (input : ℕ) → LeafRepresents self.now ((now, input) ∷ h)
            → HasDecision self.now (state_leaf self.now) ((now, input) ∷ h) result }
    {
        match self {
            Leaf::Forever { .. } | Leaf::Identity { .. } | Leaf::Elapsed { .. } => {
                Decision::Next(now)
            }
            Leaf::Recurs { limit, .. } => Decision::Next(now).only_if(self.output() < *limit),
            Leaf::Spaced { delay, .. } => Decision::after(now, *delay),
            Leaf::Fixed { run, .. } => Decision::Next(*run),
            Leaf::Exponential { .. } | Leaf::Fibonacci { .. } | Leaf::Linear { .. } => {
                Decision::after(now, self.output())
            }
            Leaf::Windowed { period, past } => match *past {
                None => Decision::Next(now),
                Some(Past { first, .. }) => Decision::Next(window_end(*period, first, now)),
            },
        }
    }

    /// Returns the output of the last step.
    pub fn output(&self) -> u64
        ensures value { result ≡ leaf_output self.now }
    {
        match self {
            Leaf::Forever { before } => before.unwrap_or(0),
            Leaf::Recurs { before, .. } => before.unwrap_or(0),
            Leaf::Spaced { before, .. } => before.unwrap_or(0),
            Leaf::Fixed { past, .. } | Leaf::Windowed { past, .. } => before_in(*past),
            Leaf::Exponential { last, .. } | Leaf::Fibonacci { last, .. } => *last,
            Leaf::Identity { last } | Leaf::Linear { last, .. } => *last,
            Leaf::Elapsed { time, .. } => *time,
        }
    }

    // Resets the leaf, so that it represents the empty history.
    pub(crate) fn clear(&mut self)
        ensures same { state_leaf self.new ≡ state_leaf self.old }
        ensures represents { LeafRepresents self.new [] }
    {
        match self {
            Leaf::Forever { before } => *before = None,
            Leaf::Recurs { before, .. } => *before = None,
            Leaf::Spaced { before, .. } => *before = None,
            Leaf::Fixed { past, run, .. } => {
                *past = None;
                *run = 0;
            }
            Leaf::Exponential { base, next, .. } => *next = *base,
            Leaf::Fibonacci { one, last, next } => {
                *last = 0;
                *next = *one;
            }
            Leaf::Identity { .. } => {}
            Leaf::Elapsed { first, .. } => *first = None,
            Leaf::Linear { last, .. } => *last = 0,
            Leaf::Windowed { past, .. } => *past = None,
        }
    }
}

// Returns the number of steps, given that before the last one.
fn count(before: Option<u64>) -> u64
    ensures value { result ≡ next_count before }
{
    before.map_or(0, |steps| steps.saturating_add(1))
}

// Takes one more step.
fn pass(past: Option<Past>, now: u64) -> Past
    ensures value { result ≡ next_past past now }
{
    let (first, before) = match past {
        None => (now, 0),
        Some(Past { first, before }) => (first, before.saturating_add(1)),
    };
    Past { first, before }
}

// Returns the number of steps before the last one, or 0.
fn before_in(past: Option<Past>) -> u64
    ensures value { result ≡ before_in past }
{
    past.map_or(0, |past| past.before)
}

// Returns the end of the window that contains a moment.
pub(crate) fn window_end(period: u64, first: u64, now: u64) -> u64
    ensures value { result ≡ window_end period first now }
{
    if period == 0 {
        return now;
    }
    let late = now.saturating_sub(first) % period;
    now.saturating_add(period - late)
}

// Returns the next run of `fixed` at a step after the first.
pub(crate) fn run_after(period: u64, first: u64, run: u64, now: u64) -> u64
    ensures value { result ≡ run_after period first run now }
{
    if period == 0 || now.saturating_sub(run) > period {
        return now;
    }
    let late = now.saturating_sub(first) % period;
    now.saturating_add(period - late)
}
