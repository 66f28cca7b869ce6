//! A tick clock: the moments at which something can happen.

ghost use Rattle.std.specs.Prelude.{◌≡◌, ◌≤◌, ◌<◌, ◌-◌, ◌↔◌, ℕ, IsSome, IsTrue, IfOk, IfSome, MatchOption, length, slice_get, slice_index, find, nat_le};
ghost use Rattle.std.specs.List.Sorted.{IsStrictlyIncreasing};
ghost use Rattle.zs_agenda.specs.Ticks.{HasNoTickFrom, IsFirstTick, IsTick, IsTickList, every_ms, first_tick, horizon, listed, max_horizon};

use std::alloc::AllocError;
use std::marker::Model;

// The latest last tick that a clock may have.
const MAX_HORIZON: u64 = 999_999_999_999_999;

// The greatest number of ticks in a list.
const MAX_TICKS: usize = 1_000_000;

// Where the ticks come from: each millisecond up to a last one, or a rising list of moments.
#[derive(Drop)]
enum TickSource {
    EveryMs(u64),
    Listed(Vec<u64>),
}

/// A tick clock: the moments, in milliseconds, at which something can happen. Only `copy` takes
/// memory.
#[derive(Drop)]
pub struct Clock {
    source: TickSource,
}

impl Model for Clock {
    ghost use Rattle.zs_agenda.specs.Ticks.{Ticks, IsClock};
    ghost use Rattle.zs_agenda.specs.Sources.{ticks_in};

    ghost Value = { Ticks };

    ghost view = { λ c. ticks_in c.source };

    ghost invariant = { λ c. IsClock (ticks_in c.source) };
}

impl Clock {
    ghost use Rattle.zs_agenda.specs.Ticks.{IsClock};

    /// Makes a clock that ticks at each millisecond from 0 to `horizon`, at most
    /// 999,999,999,999,999.
    pub fn every_ms(horizon: u64) -> Option<Clock>
        ensures within { IsSome result ↔ (horizon ≤ max_horizon) }
        ensures value { IfSome result (λ clock. clock ≡ every_ms horizon) }
    {
        if horizon <= MAX_HORIZON {
            Some(Clock {
                source: TickSource::EveryMs(horizon),
            })
        } else {
            None
        }
    }

    /// Makes a clock that ticks at 1 to 1,000,000 listed moments. They must rise strictly, and the
    /// last is at most 999,999,999,999,999.
    pub fn of_ticks(ticks: Vec<u64>) -> Option<Clock>
        ensures within { IsSome result ↔ IsTickList ticks.items }
        ensures value { IfSome result (λ clock. clock ≡ listed ticks.items) }
    {
        if is_tick_list(&ticks) {
            Some(Clock {
                source: TickSource::Listed(ticks),
            })
        } else {
            None
        }
    }

    /// Copies the clock, with its list of ticks if it has one.
    pub fn copy(&self) -> Result<Clock, AllocError>
        ensures same { IfOk result (λ copy. copy ≡ self.now) }
    {
        let source = match &self.source {
            TickSource::EveryMs(last) => TickSource::EveryMs(*last),
            TickSource::Listed(ticks) => {
                TickSource::Listed(Vec::from_slice(*ticks.allocator(), ticks)?)
            },
        };
        Ok(Clock { source })
    }

    /// Returns the last tick, in milliseconds: at most 999,999,999,999,999.
    pub fn horizon(&self) -> u64
        ensures value { result ≡ horizon self.now }
        // In other words: it is a tick, and no tick is after it.
        ensures tick { IsTick self.now result }
        ensures last { (t : ℕ) → IsTick self.now t → t ≤ result }
        // What is true of every clock.
        ensures limit { result ≤ max_horizon }
        ensures lawful { IsClock self.now }
    {
        match &self.source {
            TickSource::EveryMs(last) => *last,
            TickSource::Listed(ticks) => last_of(ticks),
        }
    }

    /// Returns the least tick at or after `due`, in milliseconds, or `None` if there is none. In a
    /// list of n ticks it looks at about log2(n).
    pub fn tick(&self, due: u64) -> Option<u64>
        ensures value { result ≡ first_tick self.now due }
        // In other words: `None` if no tick is late enough, else the least one that is.
        ensures first { MatchOption result (HasNoTickFrom self.now due) (IsFirstTick self.now due) }
        ensures within { IfSome result (λ t. t ≤ horizon self.now) }
    {
        match &self.source {
            TickSource::EveryMs(last) => if due <= *last { Some(due) } else { None },
            TickSource::Listed(ticks) => first_from(ticks, due),
        }
    }
}

// Whether a clock may have these ticks.
fn is_tick_list(ticks: &[u64]) -> bool
    ensures value { IsTrue result ↔ IsTickList ticks.now }
{
    if ticks.is_empty() || ticks.len() > MAX_TICKS {
        return false;
    }
    last_of(ticks) <= MAX_HORIZON && ticks.windows(2).all(|pair| pair[0] < pair[1])
}

// Returns the last of some ticks.
fn last_of(ticks: &[u64]) -> u64
    requires within { 0 < length ticks.now }
    ensures value { result ≡ slice_index ticks.now (length ticks.now - 1) }
{
    ticks[ticks.len() - 1]
}

// Returns the first of some rising ticks that isn't before `due`.
fn first_from(ticks: &[u64], due: u64) -> Option<u64>
    requires rising { IsStrictlyIncreasing ticks.now }
    ensures value { result ≡ find (λ t. nat_le due t) ticks.now }
{
    // A binary search.
    let place = ticks.partition_point(|tick| *tick < due);
    tick_at(ticks, place)
}

// Returns the tick at a place of the list, if there is one.
fn tick_at(ticks: &[u64], place: usize) -> Option<u64>
    ensures value { result ≡ slice_get ticks.now place }
{
    ticks.get(place).copied()
}
