//! Bounds as a line of JSON.
ghost use Rattle.std.specs.Prelude.{◌≡◌, OnOk, IfOk, string_bytes};
ghost use Rattle.zs_term.specs.OutputText.{Adds};
ghost use Rattle.zs_term.specs.Schedule.{schedule_of};
ghost use Rattle.zs_bounds_lines.specs.BoundsLines.{begun_within, bounds_line, json_line, late_limit, limit_text, range_text, steps_text, times_text, truth_text, waits_text, within_text};

use crate::options::Options;
use crate::work::steps_for;
use std::alloc::{AllocError, Global};
use zs_bounds::{Bounds, Driver, Waits, attempts_within, bounds, never_gives_up};
use zs_term::{Checked, write};

// Appends a number, or null.
fn push_limit(text: &mut String, limit: Option<u64>) -> Result<(), AllocError>
    ensures text { OnOk result (Adds text.old text.new (limit_text limit)) }
{
    match limit {
        Some(number) => write!(text, "{number}"),
        None => text.push_str("null"),
    }
}

// Appends whether something is so.
fn push_truth(text: &mut String, truth: bool) -> Result<(), AllocError>
    ensures text { OnOk result (Adds text.old text.new (truth_text truth)) }
{
    if truth {
        text.push_str("true")
    } else {
        text.push_str("false")
    }
}

// Appends the least and the most of something.
fn push_range(text: &mut String, least: u64, most: Option<u64>) -> Result<(), AllocError>
    ensures text { OnOk result (Adds text.old text.new (range_text least most)) }
{
    write!(text, "{{\"least\":{least},\"most\":")?;
    push_limit(text, most)?;
    text.push_str("}")?;
    Ok(())
}

// How late an attempt may begin, unless it may by any time.
fn late_limit(late: u64) -> Option<u64>
    ensures value { result ≡ late_limit late }
{
    if late < u64::MAX { Some(late) } else { None }
}

// Appends how a driver waits.
fn push_waits(text: &mut String, waits: Waits) -> Result<(), AllocError>
    ensures text { OnOk result (Adds text.old text.new (waits_text waits)) }
{
    let (least, most, asked) = (waits.least_percent, waits.most_percent, waits.asked);
    write!(text, "{{\"least_percent\":{least}")?;
    write!(text, ",\"most_percent\":{most},\"late\":")?;
    push_limit(text, late_limit(waits.late))?;
    write!(text, ",\"asked\":{asked}}}")?;
    Ok(())
}

// Appends the longest wait, a limit of every wait, all waits, and the longest run.
fn push_times(text: &mut String, told: &Bounds) -> Result<(), AllocError>
    ensures text { OnOk result (Adds text.old text.new (times_text told.now)) }
{
    let longest = told.longest;
    write!(text, ",\"longest_wait\":{longest},\"every\":")?;
    push_limit(text, told.every)?;
    text.push_str(",\"total_wait\":")?;
    push_limit(text, told.total)?;
    text.push_str(",\"longest_run\":")?;
    push_limit(text, told.longest_run)?;
    Ok(())
}

// Appends the steps that were looked at, whether there may be more, and the end of the line.
fn push_steps(text: &mut String, told: &Bounds) -> Result<(), AllocError>
    ensures text { OnOk result (Adds text.old text.new (steps_text told.now)) }
{
    let seen = told.seen;
    write!(text, ",\"steps_seen\":{seen},\"is_cut\":")?;
    push_truth(text, told.is_cut)?;
    text.push_str("}\n")?;
    Ok(())
}

// Appends a time and the attempts that begin within it, or null.
fn push_within(text: &mut String, within: Option<(u64, u64)>) -> Result<(), AllocError>
    ensures text { OnOk result (Adds text.old text.new (within_text within)) }
{
    match within {
        Some((time, most)) => write!(text, ",\"within\":{{\"time\":{time},\"most\":{most}}}"),
        None => text.push_str(",\"within\":null"),
    }
}

// Appends the line of a policy with what the driver may do, whether it never gives up, its bounds,
// and how many attempts begin within a time.
fn push_line(
    text: &mut String,
    policy: &str,
    driver: Driver,
    endless: bool,
    told: &Bounds,
    within: Option<(u64, u64)>,
) -> Result<(), AllocError>
    ensures text { OnOk result
        (Adds text.old text.new (json_line policy.now driver endless told.now within)) }
{
    write!(text, "{{\"policy\":\"{policy}\",\"attempt\":")?;
    push_range(text, driver.least, driver.most)?;
    text.push_str(",\"wait\":")?;
    push_waits(text, driver.waits)?;
    text.push_str(",\"attempts\":")?;
    push_range(text, told.least, told.most)?;
    text.push_str(",\"never_gives_up\":")?;
    push_truth(text, endless)?;
    push_times(text, told)?;
    push_within(text, within)?;
    push_steps(text, told)?;
    Ok(())
}

// The time that is given, and the attempts that begin within it.
fn begun_within(
    alloc: Global,
    options: Options,
    policy: &Checked,
    steps: u64,
) -> Result<Option<(u64, u64)>, AllocError>
    ensures value { IfOk result (λ within. within ≡
        begun_within (schedule_of policy.now) options.driver steps options.within) }
{
    let Some(time) = options.within else {
        return Ok(None);
    };
    let most = attempts_within(alloc, policy, options.driver, time, steps)?;
    Ok(Some((time, most)))
}

/// The line of a policy with its bounds.
pub(crate) fn line_of(
    alloc: Global,
    options: Options,
    policy: &Checked,
) -> Result<String, AllocError>
    ensures text { IfOk result (λ text.
        string_bytes text ≡ bounds_line options (schedule_of policy.now)) }
{
    let steps = steps_for(options.steps, policy);
    let told = bounds(alloc, policy, options.driver, steps)?;
    let within = begun_within(alloc, options, policy, steps)?;
    let spelling = write(alloc, policy)?;
    let endless = never_gives_up(policy);
    let mut text = String::new(alloc);
    push_line(
        &mut text,
        spelling.as_str(),
        options.driver,
        endless,
        &told,
        within,
    )?;
    Ok(text)
}
