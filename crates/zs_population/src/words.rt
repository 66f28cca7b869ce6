//! The request that the words of a command line are.
ghost use Rattle.std.specs.Prelude.{◌≡◌, IfOk, map, string_bytes};
ghost use Rattle.zs_population.specs.Words.{FitsRequest, option_request, request_of};

use crate::fault::OptionFault;
use crate::range::{JobRange, read_range};

/// What the program is to do.
#[derive(Clone, Copy, Debug, PartialEq, Eq)]
pub(crate) enum Request {
    /// The text that says how the program is used.
    Help,
    /// The program's name and version.
    Version,
    /// The report of the jobs of a range.
    Run(JobRange),
    /// The report of all jobs, from those of the ranges that the words after the first name.
    Join,
}

// The request of an option, by its name and its value.
#[tactic(auto, unfolding(crate::specs::Words::option_request))]
fn option_request(name: &str, value: &str) -> Result<Request, OptionFault>
    ensures value { result ≡ option_request name.now value.now }
    ensures few { IfOk result FitsRequest }
{
    if name == "--jobs" {
        match read_range(value.as_bytes()) {
            Some(range) => Ok(Request::Run(range)),
            None => Err(OptionFault::Jobs),
        }
    } else if name == "--help" {
        Ok(Request::Help)
    } else if name == "--version" {
        Ok(Request::Version)
    } else {
        Err(OptionFault::Unknown)
    }
}

/// The request of the words after the program's name.
pub(crate) fn request_of(words: &[String]) -> Result<Request, OptionFault>
    ensures value { result ≡ request_of (map string_bytes words.now) }
    ensures few { IfOk result FitsRequest }
{
    let Some((name, rest)) = words.split_first() else {
        return Ok(Request::Run(JobRange {
            first: 0,
            count: u64::MAX,
            is_part: false,
        }));
    };
    if name.as_str() == "--check" {
        return if rest.is_empty() {
            Err(OptionFault::Check)
        } else {
            Ok(Request::Join)
        };
    }
    let Some((value, rest)) = rest.split_first() else {
        return option_request(name.as_str(), "");
    };
    if rest.is_empty() {
        option_request(name.as_str(), value.as_str())
    } else {
        Err(OptionFault::Unknown)
    }
}
