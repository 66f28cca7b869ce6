//! The request that the words of a command line are.
ghost use Rattle.std.specs.Prelude.{◌≡◌, ◌+◌, ◌≤◌, IfSome, length, map, string_bytes};
ghost use Rattle.zs_bounds_lines.specs.Words.{between, dots_from, duration_of, durations_of, late_of, percent_of, percents_of, request_from, unit_of, with_option};

use crate::fault::OptionFault;
use crate::options::Options;
use zs_lines::{digits, number};

/// What the program is to do.
#[derive(Clone, Copy, Debug, PartialEq, Eq)]
pub(crate) enum Request {
    /// The text that says how the program is used.
    Help,
    /// The program's name and version.
    Version,
    /// The bounds of the policies on standard input.
    Run(Options),
}

// The milliseconds of a unit.
#[tactic(auto, unfolding(crate::specs::Words::unit_of))]
fn unit(name: &[u8]) -> Option<u64>
    ensures value { result ≡ unit_of name.now }
{
    if name == b"ms".as_slice() {
        Some(1)
    } else if name == b"s".as_slice() {
        Some(1000)
    } else if name == b"m".as_slice() {
        Some(60_000)
    } else if name == b"min".as_slice() {
        Some(60_000)
    } else if name == b"h".as_slice() {
        Some(3_600_000)
    } else {
        None
    }
}

// The duration that a text is, in milliseconds.
fn duration(text: &[u8]) -> Option<u64>
    ensures value { result ≡ duration_of text.now }
{
    let (number, count) = digits(text)?;
    if count == 0 {
        return None;
    }
    let unit = unit(&text[count..])?;
    number.checked_mul(unit)
}

// The place of the first two dots.
#[tactic(auto, using(crate::proofs::WordLemmas::dots_here, crate::proofs::WordLemmas::dots_next, crate::proofs::WordLemmas::dots_end))]
fn dots(text: &[u8]) -> Option<usize>
    ensures value { result ≡ dots_from 0 text.now }
    ensures within { IfSome result (λ at. at + 2 ≤ length text.now) }
{
    let mut at = 0;
    while at + 1 < text.len() {
        if text[at] == b'.' && text[at + 1] == b'.' {
            return Some(at);
        }
        at += 1;
    }
    None
}

// A least and a most number, in order, none of them below the floor.
fn between(floor: u64, least: Option<u64>, most: Option<u64>) -> Option<(u64, u64)>
    ensures value { result ≡ between floor least most }
{
    let least = least?;
    let most = most?;
    if floor <= least && least <= most {
        Some((least, most))
    } else {
        None
    }
}

// The least and the most duration that a text is, as `5s` or `20ms..5s`.
#[tactic(auto, unfolding(crate::specs::Words::durations_of))]
fn durations(text: &[u8]) -> Option<(u64, u64)>
    ensures value { result ≡ durations_of text.now }
{
    match dots(text) {
        None => between(1, Some(1), duration(text)),
        Some(at) => between(1, duration(&text[..at]), duration(&text[at + 2..])),
    }
}

// The number before a percent sign.
fn percent(text: &[u8]) -> Option<u64>
    ensures value { result ≡ percent_of text.now }
{
    let (number, count) = digits(text)?;
    if 0 < count && &text[count..] == b"%".as_slice() {
        Some(number)
    } else {
        None
    }
}

// The least and the most percentage that a text is, as `80..120%`.
#[tactic(auto, unfolding(crate::specs::Words::percents_of))]
fn percents(text: &[u8]) -> Option<(u64, u64)>
    ensures value { result ≡ percents_of text.now }
{
    match dots(text) {
        None => None,
        Some(at) => between(0, number(&text[..at]), percent(&text[at + 2..])),
    }
}

// How late an attempt may begin, by a text: a duration, or `any`.
fn late(text: &[u8]) -> Option<u64>
    ensures value { result ≡ late_of text.now }
{
    if text == b"any".as_slice() {
        Some(u64::MAX)
    } else {
        duration(text)
    }
}

// The options with one more, by its name and its value.
#[tactic(auto, unfolding(crate::specs::Words::with_option))]
fn with_option(name: &str, value: &str, options: Options) -> Result<Options, OptionFault>
    ensures value { result ≡ with_option name.now value.now options }
{
    let value = value.as_bytes();
    let mut new = options;
    if name == "--attempt" {
        let Some((least, most)) = durations(value) else {
            return Err(OptionFault::Attempt);
        };
        new.driver.least = least;
        new.driver.most = Some(most);
    } else if name == "--wait" {
        let Some((least, most)) = percents(value) else {
            return Err(OptionFault::Wait);
        };
        new.driver.waits.least_percent = least;
        new.driver.waits.most_percent = most;
    } else if name == "--late" {
        let Some(time) = late(value) else {
            return Err(OptionFault::Late);
        };
        new.driver.waits.late = time;
    } else if name == "--asked" {
        let Some(time) = duration(value) else {
            return Err(OptionFault::Asked);
        };
        new.driver.waits.asked = time;
    } else if name == "--steps" {
        let Some(steps) = number(value) else {
            return Err(OptionFault::Steps);
        };
        new.steps = Some(steps);
    } else if name == "--within" {
        let Some(time) = duration(value) else {
            return Err(OptionFault::Within);
        };
        new.within = Some(time);
    } else {
        return Err(OptionFault::Unknown);
    }
    Ok(new)
}

/// The request of words, after those of some options.
#[tactic(auto, using(crate::proofs::WordLemmas::two_words), unfolding(crate::specs::Words::unless_alone))]
pub(crate) fn request_from(options: Options, words: &[String]) -> Result<Request, OptionFault>
    ensures value { result ≡ request_from options (map string_bytes words.now) }
{
    let Some((name, rest)) = words.split_first() else {
        return Ok(Request::Run(options));
    };
    if name.as_str() == "--help" {
        return Ok(Request::Help);
    }
    if name.as_str() == "--version" {
        return Ok(Request::Version);
    }
    match rest.split_first() {
        None => {
            let options = with_option(name.as_str(), "", options)?;
            Ok(Request::Run(options))
        }
        Some((value, rest)) => {
            let options = with_option(name.as_str(), value.as_str(), options)?;
            request_from(options, rest)
        }
    }
}
