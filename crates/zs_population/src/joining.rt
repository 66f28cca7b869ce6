//! The report of a population, from the reports of its ranges.

ghost use Rattle.std.specs.Prelude.{◌≡◌, ◌≤◌, ◌<◌, ◌+◌, ◌*◌, ◌^◌, ◌↔◌, ℕ, List, Option, Some, true, false, length, map, string_bytes, IfOk, IfErr, IfSome, IsErrOf, IsTrue, OnOk};
ghost use Rattle.zs_lines.specs.Streams.{ByWriter, reading};
ghost use Rattle.zs_population.specs.Joining.{IsPart, IsUnread, PathsEnd, ReportFails, WasRead};
ghost use Rattle.zs_population.specs.Parts.{part_record};
ghost use Rattle.zs_population.specs.Population.{max_population};
ghost use Rattle.zs_population.specs.JoinProgress.{AddFails, AddsReport, PopulationFails};

use crate::block::{BLOCK, read_block, read_first, write_block};
use crate::fault::{PopulationFault, ReportFault};
use crate::lines::{LineReader, Sums};
use crate::report::{PartReport, part_of};
use std::alloc::Global;
use std::collections::BTreeSet;
use zs_run::{Drain, Source, append_total};

/// Files that a caller names.
pub trait Files {
    // the bytes of the file with this path, if they are known
    ghost contents: { Self → List ℕ → Option (List ℕ) };

    /// All bytes of a file.
    fn read(&self, alloc: Global, path: &str) -> Result<Vec<u8>, ReportFault>
        ensures bytes { IfOk result (λ bytes.
            IfSome (contents self.now path.now) (λ known. bytes.items ≡ known)) }
        ensures fault { IfErr result (λ fault. IsUnread fault) };
}

// How far reports were joined: how many, up to which job, their polls, and the bytes written.
#[derive(Drop)]
struct JoinProgress {
    reports: u64,
    next: u64,
    polls: u128,
    sent: u128,
}

// Reads all lines of a population. Returns how many jobs it has, and the sums of its lines.
fn read_jobs<R: Source>(alloc: Global, reader: &mut R) -> Result<(u64, Sums), PopulationFault>
    requires clear { R.mark reader.old ≡ false }
    ensures read { IfOk result (λ read. WasRead (reading R.remaining R.mark reader.old reader.new)
        (λ plan sums. (read.0 ≡ length plan.jobs) × (read.1 ≡ sums))) }
    ensures fault { IfErr result (PopulationFails (R.remaining reader.old)) }
    ensures marks { IsTrue (R.mark reader.new) ↔ IsErrOf result PopulationFault.Read }
{
    let mut lines = LineReader::new(alloc);
    read_first(alloc, reader, &mut lines)?;
    let mut names = BTreeSet::new(alloc);
    let mut count = 0;
    loop {
        let jobs = read_block(alloc, reader, &mut lines, &mut names, count, BLOCK as u64)?;
        count += jobs.len() as u64;
        if jobs.len() < BLOCK {
            return Ok((count, lines.sums()));
        }
    }
}

// The part of a report, if it continues those that were joined and its polls can be added.
fn next_part<'a>(
    alloc: Global,
    report: &'a [u8],
    joined: &JoinProgress,
    sums: &Sums,
) -> Result<PartReport<'a>, ReportFault>
    ensures part { IfOk result (λ part. IsPart sums.now report.now (part_record part)) }
    ensures next { IfOk result (λ part. part.range.first ≡ joined.now.next) }
    ensures room { IfOk result (λ part. joined.now.polls + part.polls < 2 ^ 128) }
    ensures fault { IfErr result
        (ReportFails sums.now joined.now.next joined.now.polls (Some report.now)) }
{
    let part = part_of(alloc, report, joined.next, sums)?;
    match joined.polls.checked_add(part.polls) {
        Some(_) => Ok(part),
        None => Err(ReportFault::Incomplete),
    }
}

// Reads a report, checks that it continues those that were joined, and writes its lines.
fn add_report<F: Files, W: Drain>(
    alloc: Global,
    files: &F,
    path: &str,
    sums: &Sums,
    joined: &mut JoinProgress,
    writer: &mut W,
) -> Result<(), PopulationFault>
    requires clear { W.mark writer.old ≡ false }
    requires few { joined.old.reports + 1 < 2 ^ 64 }
    requires room { joined.old.sent ≤ joined.old.reports * 2 ^ 64 }
    ensures count { OnOk result (joined.new.reports ≡ joined.old.reports + 1) }
    ensures room { OnOk result (joined.new.sent ≤ joined.new.reports * 2 ^ 64) }
    ensures added { OnOk result (AddsReport sums.now (F.contents files.now path.now)
        joined.old joined.new (W.contents writer.old) (W.contents writer.new)) }
    ensures flushed { OnOk result (W.flushed writer.new ≡ true) }
    ensures fault { IfErr result (λ fault. ByWriter W.contents W.mark W.flushed writer.old writer.new
        (AddFails sums.now (F.contents files.now path.now) joined.old fault)) }
    ensures clear { OnOk result (W.mark writer.new ≡ false) }
{
    let number = joined.reports + 1;
    let report = match files.read(alloc, path) {
        Ok(report) => report,
        Err(fault) => return Err(PopulationFault::Report { number, fault }),
    };
    let part = match next_part(alloc, report.as_slice(), joined, sums) {
        Ok(part) => part,
        Err(fault) => return Err(PopulationFault::Report { number, fault }),
    };
    joined.sent = write_block(writer, part.lines, joined.sent)?;
    joined.reports = number;
    joined.next += part.range.count;
    joined.polls += part.polls;
    Ok(())
}

/// Reads a population, and the reports of ranges that make it up, in order. Writes the report of
/// all jobs.
pub(crate) fn join_reports<F: Files, R: Source, W: Drain>(
    alloc: Global,
    files: &F,
    paths: &[String],
    reader: &mut R,
    writer: &mut W,
) -> Result<(), PopulationFault>
    requires reader_clear { R.mark reader.old ≡ false }
    requires writer_clear { W.mark writer.old ≡ false }
    ensures ends { ByWriter W.contents W.mark W.flushed writer.old writer.new (PathsEnd result
        (F.contents files.now) paths.now (reading R.remaining R.mark reader.old reader.new)) }
{
    let (count, sums) = read_jobs(alloc, reader)?;
    let mut joined = JoinProgress {
        reports: 0,
        next: 0,
        polls: 0,
        sent: 0,
    };
    for path in paths {
        add_report(alloc, files, path.as_str(), &sums, &mut joined, writer)?;
    }
    if joined.next < count {
        return Err(PopulationFault::Missing { next: joined.next });
    }
    let mut total = String::new(alloc);
    append_total(&mut total, joined.polls)?;
    write_block(writer, total.as_bytes(), joined.sent)?;
    Ok(())
}
