//! The records of a job's attempts.
ghost use Rattle.std.specs.Prelude.{◌≡◌, ◌<◌, ◌++◌, [], ◌∷◌, length, map, OnOk, OnErr};
ghost use Rattle.zs_drive.specs.Values.{attempted_of};
ghost use Rattle.zs_drive.specs.Recorded.{runs};
ghost use Rattle.zs_drive.specs.Turns.{HasEnd, IsFull};

use std::alloc::AllocError;
use zs_effect::Outcome;
use zs_step::Decision;
use zs_term::Out;

// The records that a full list gets room for next, at least.
const LEAST_ROOM: usize = 4;

/// An attempt, which is running if it has no end.
#[derive(Drop)]
pub struct Attempted {
    /// When it began, in milliseconds.
    pub begun: u64,
    /// How it ended, if it has.
    pub ended: Option<Ended>,
}

/// How an attempt ended. The schedule wasn't stepped if the outcome itself ended the job.
#[derive(Drop)]
pub struct Ended {
    /// When it ended, in milliseconds.
    pub at: u64,
    /// The outcome of the effect.
    pub outcome: Outcome,
    /// The schedule's output and decision, if it was stepped.
    pub step: Option<(Out, Decision)>,
}

/// How a job ended. The result of `Finished` is the output of the last step in the records.
#[derive(Clone, Copy, Debug, PartialEq, Eq)]
pub enum Ending {
    /// A retry succeeded with this value.
    Succeeded(u64),
    /// A repeat failed with this error, or a retry's schedule is done after it.
    Failed(u64),
    /// The schedule of a repeat is done.
    Finished,
}

/// Adds the record of an attempt that begins. A full list grows by a quarter, since many tasks have
/// one at once. Only its growth can fail.
pub(crate) fn add(records: &mut Vec<Attempted>, begun: u64) -> Result<(), AllocError>
    ensures begun { OnOk result (map attempted_of records.new.items
        ≡ map attempted_of records.old.items ++ runs begun ∷ []) }
    ensures same { OnErr result (records.new.items ≡ records.old.items) }
    ensures full { OnErr result (IsFull records.old) }
{
    if records.len() == records.capacity() {
        records.reserve_exact(LEAST_ROOM.max(records.len() / 4))?;
    }
    records.push(Attempted { begun, ended: None })?;
    Ok(())
}

/// Sets the end of the record at this place.
pub(crate) fn set_end(records: &mut Vec<Attempted>, index: usize, ended: Ended)
    requires within { index < length records.old.items }
    ensures ended { HasEnd records.old.items records.new.items index ended }
{
    let record = &mut records[index];
    record.ended = Some(ended);
}
