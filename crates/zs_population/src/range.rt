//! Which jobs of a population are run.

ghost use Rattle.std.specs.Prelude.{◌≡◌, IfSome};
ghost use Rattle.zs_population.specs.Population.{FitsPopulation};
ghost use Rattle.zs_population.specs.Words.{after_dots, jobs_of};

use crate::block::MAX_POPULATION;
use zs_lines::{digits, number};

/// Which jobs of a population are run: `count` of them from number `first` on, as far as there are
/// any.
#[derive(Clone, Copy, Debug, PartialEq, Eq)]
pub(crate) struct JobRange {
    /// The number of the first one, from 0.
    pub(crate) first: u64,
    /// How many they are, at most.
    pub(crate) count: u64,
    /// Whether they are a part, so that a trailer follows their report.
    pub(crate) is_part: bool,
}

// The number that a text is after two dots.
fn after_dots(text: &[u8]) -> Option<u64>
    ensures value { result ≡ after_dots text.now }
{
    let (first, rest) = text.split_first()?;
    let (second, rest) = rest.split_first()?;
    if *first == b'.' && *second == b'.' {
        number(rest)
    } else {
        None
    }
}

/// The jobs that a text is, as `5..20`.
pub(crate) fn read_range(text: &[u8]) -> Option<JobRange>
    ensures value { result ≡ jobs_of text.now }
    ensures few { IfSome result FitsPopulation }
{
    let (first, count) = digits(text)?;
    if count == 0 {
        return None;
    }
    let end = after_dots(&text[count..])?;
    if first <= end && end <= MAX_POPULATION {
        Some(JobRange {
            first,
            count: end - first,
            is_part: true,
        })
    } else {
        None
    }
}
