//! The report of a range, as a caller hands it in: the lines of its jobs, their polls, and whether
//! it is the one that is expected.

ghost use Rattle.std.specs.Prelude.{◌≡◌, ◌<◌, ◌^◌, [], ℕ, IfOk, IfErr, IfSome, Some, None};
ghost use Rattle.zs_run.specs.PlanReport.{with_total};
ghost use Rattle.zs_population.specs.Joining.{IsPart, ReportFails};
ghost use Rattle.zs_population.specs.Parts.{IsOpen, IsPartRange, IsSplit, NamesRange, part_record};
ghost use Rattle.zs_population.specs.declared.range.JobRange.{JobRange};

use crate::fault::ReportFault;
use crate::lines::Sums;
use crate::range::{JobRange, read_range};
use crate::trailer::{append_origin, append_trailer};
use memchr::{memchr, memrchr};
use sha2::{Digest, Sha256};
use std::alloc::{AllocError, Global};
use zs_run::append_total;

/// What a report of a range has: the lines of its jobs, their range and the number of their polls.
#[derive(Drop)]
pub(crate) struct PartReport<'a> {
    pub(crate) lines: &'a [u8],
    pub(crate) range: JobRange,
    pub(crate) polls: u128,
}

// Splits the last line off, with its newline. There is none if the text doesn't end with one.
fn split_last_line(text: &[u8]) -> Option<(&[u8], &[u8])>
    ensures some { IfSome result (λ parts. IsSplit text.now parts.0.now parts.1.now) }
    ensures none { result ≡ None → IsOpen text.now }
{
    let (last, rest) = text.split_last()?;
    if *last != b'\n' {
        return None;
    }
    match memrchr(b'\n', rest) {
        Some(at) => Some(text.split_at(at + 1)),
        None => Some(text.split_at(0)),
    }
}

// The range that a trailer names.
fn range_of(trailer: &[u8]) -> Option<JobRange>
    ensures fits { IfSome result IsPartRange }
    ensures found { (range : JobRange) → IsPartRange range → NamesRange trailer.now range
        → result ≡ Some range }
{
    let rest = trailer.strip_prefix(b"{\"jobs\":\"")?;
    let end = memchr(b'"', rest)?;
    read_range(&rest[..end])
}

// The number of polls in the last line of a report.
fn polls_of(alloc: Global, total: &[u8]) -> Result<Option<u128>, AllocError>
    ensures some { IfOk result (λ found. IfSome found (λ polls. total.now ≡ with_total [] polls)) }
    ensures found { IfOk result (λ found. (polls : ℕ) → polls < 2 ^ 128
        → total.now ≡ with_total [] polls → found ≡ Some polls) }
{
    let Some(digits) = total.strip_prefix(b"polls ") else {
        return Ok(None)
    };
    let Some(digits) = digits.strip_suffix(b"\n") else {
        return Ok(None)
    };
    let Ok(digits) = str::from_utf8(digits) else {
        return Ok(None)
    };
    let Ok(polls) = digits.parse::<u128>() else {
        return Ok(None)
    };
    let mut text = String::new(alloc);
    append_total(&mut text, polls)?;
    Ok(if text.as_bytes() == total {
        Some(polls)
    } else {
        None
    })
}

/// The part of a report whose jobs begin with `next`, of the population with these sums.
pub(crate) fn part_of<'a>(
    alloc: Global,
    report: &'a [u8],
    next: u64,
    sums: &Sums,
) -> Result<PartReport<'a>, ReportFault>
    ensures part { IfOk result (λ part. IsPart sums.now report.now (part_record part)) }
    ensures next { IfOk result (λ part. part.range.first ≡ next) }
    ensures fault { IfErr result (ReportFails sums.now next 0 (Some report.now)) }
{
    let Some((body, trailer)) = split_last_line(report) else {
        return Err(ReportFault::Incomplete)
    };
    let Some(range) = range_of(trailer) else {
        return Err(ReportFault::Incomplete)
    };
    let mut expected = String::new(alloc);
    append_origin(&mut expected, range, sums)?;
    if !trailer.starts_with(expected.as_bytes()) {
        return Err(ReportFault::Population);
    }
    if range.first != next {
        return Err(ReportFault::Order {
            next,
            first: range.first,
        });
    }
    expected.clear();
    let mut digest = Sha256::new_with_prefix(body);
    append_trailer(&mut expected, range, sums, &mut digest)?;
    if trailer != expected.as_bytes() {
        return Err(ReportFault::Changed);
    }
    let Some((lines, total)) = split_last_line(body) else {
        return Err(ReportFault::Incomplete)
    };
    let found = polls_of(alloc, total)?;
    let Some(polls) = found else {
        return Err(ReportFault::Incomplete)
    };
    Ok(PartReport {
        lines,
        range,
        polls,
    })
}
