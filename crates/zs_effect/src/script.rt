//! The outcomes and durations of an effect's attempts.
ghost use Rattle.std.specs.Prelude.{◌≡◌, ◌≤◌, ◌<◌, ℕ, length, MatchResult};
ghost use Rattle.zs_effect.specs.Scripts.{IsScript, IsFirstFault, entry_at};

use std::marker::Model;
use thiserror::Error;

/// The greatest number of entries.
const MAX_BEATS: usize = 1000;

/// How an attempt ends: with a value, or with an error code.
#[derive(Clone, Copy, Debug, Drop, PartialEq, Eq)]
pub enum Outcome {
    /// It succeeds with this value.
    Good(u64),
    /// It fails with this error code.
    Bad(u64),
}

/// One entry of a script: how long an attempt takes, and how it ends.
#[derive(Clone, Copy, Debug, Drop, PartialEq, Eq)]
pub struct Beat {
    /// The duration in milliseconds, at least 1 in a script.
    pub ms: u64,
    /// How it ends.
    pub outcome: Outcome,
}

/// Why a list of entries is no script. The causes are checked in this order.
#[derive(Clone, Copy, Debug, Drop, Error, PartialEq, Eq)]
pub enum ScriptFault {
    /// There is no entry.
    #[error("empty")]
    Empty,
    /// There are more than 1,000 entries.
    #[error("more than 1000 entries")]
    TooLong,
    /// An attempt would take no time.
    #[error("an entry takes 0 ms")]
    ZeroMs,
}

/// What the attempts of an effect do, one entry each. After the last entry that entry repeats.
#[derive(Drop)]
pub struct Script {
    beats: Vec<Beat>,
}

impl Model for Script {
    ghost use Rattle.std.specs.Prelude.{List};
    ghost use Rattle.zs_effect.specs.declared.script.Beat.{Beat};

    ghost Value = { List Beat };

    ghost use Rattle.zs_effect.specs.Scripts.{IsScript};

    ghost view = { λ s. s.beats.items };

    ghost invariant = { λ s. IsScript s.beats.items };
}

impl Script {
    /// Makes a script of 1 to 1,000 entries of at least 1 ms each. For any other list it returns
    /// the first `ScriptFault`, and drops the list.
    pub fn new(beats: Vec<Beat>) -> Result<Script, ScriptFault>
        // The script has these entries.
        ensures kept { MatchResult result (λ script. script ≡ beats.items) (λ _. Unit {0}) }
        // Succeeds exactly for a valid list, else returns its first fault.
        ensures script { MatchResult result (λ _. IsScript beats.items) (IsFirstFault beats.items) }
    {
        if beats.is_empty() {
            return Err(ScriptFault::Empty);
        }
        if beats.len() > MAX_BEATS {
            return Err(ScriptFault::TooLong);
        }
        if beats.iter().any(|beat| beat.ms == 0) {
            return Err(ScriptFault::ZeroMs);
        }
        Ok(Script { beats })
    }

    /// Returns the `k`-th entry, counted from 1, or the last one if there are fewer.
    pub fn beat(&self, k: u64) -> Beat
        requires counted { 1 ≤ k }
        ensures beat { result ≡ entry_at self.now k }
        // It has an entry, no more than it may have, and each lasts at least 1 ms.
        ensures lawful { IsScript self.now }
    {
        let last = self.beats.len() as u64;
        self.beats[(k.min(last) - 1) as usize]
    }
}
