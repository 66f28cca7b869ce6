//! The run of a population, from its lines to the bytes of its report.
ghost use Rattle.std.specs.Prelude.{◌≡◌, ◌≤◌, ◌+◌, ◌↔◌, ℕ, List, [], Some, true, false, IfErr, IfOk, IfSome, IsErrOf, IsTrue, OnOk};
ghost use Rattle.zs_lines.specs.Buffers.{ahead};
ghost use Rattle.zs_lines.specs.Streams.{ByWriter, reading};
ghost use Rattle.zs_population.specs.Ending.{BlocksEnd, Ends};
ghost use Rattle.zs_population.specs.Population.{FitsPopulation, max_population};
ghost use Rattle.zs_population.specs.Sums.{IsSummed, sums_of};
ghost use Rattle.zs_population.specs.Tails.{EndFault, EndsReport, StaysAtEnd};

use crate::block::{BLOCK, block_size, read_block, read_first, run_block, skip_lines, write_block};
use crate::digest::ReportDigest;
use crate::fault::PopulationFault;
use crate::lines::{LineReader, Sums};
use crate::range::JobRange;
use crate::trailer::append_trailer;
use std::alloc::Global;
use std::collections::BTreeSet;
use std::sync::Wait;
use std::thread::Threads;
use zs_engine::EngineFault;
use zs_lines::LineFault;
use zs_pool::Gate;
use zs_run::{Drain, Head, Source};

// The head, and the jobs that are run.
#[derive(Drop)]
struct RangePlan {
    head: Head,
    range: JobRange,
}

// Reads a population to its end.
fn read_on<R: Source>(
    alloc: Global,
    reader: &mut R,
    lines: &mut LineReader,
) -> Result<Sums, PopulationFault>
    requires clear { R.mark reader.old ≡ false }
    ensures sums { IfOk result (λ sums. (all : List (List ℕ)) → IsSummed all lines.old
        (ahead R.remaining lines.old.buffer reader.old) → sums ≡ sums_of all) }
    ensures end { OnOk result (IfSome (ahead R.remaining lines.old.buffer reader.old)
        (λ known. R.remaining reader.new ≡ Some [])) }
    ensures fault { IfErr result EndFault }
    ensures marks { IsTrue (R.mark reader.new) ↔ IsErrOf result PopulationFault.Read }
{
    match lines.read_on(alloc, reader) {
        Ok(sums) => Ok(sums),
        Err(LineFault::Read) => Err(PopulationFault::Read),
        Err(LineFault::TooLong | LineFault::Memory) => Err(PopulationFault::Engine(
            EngineFault::Memory,
        )),
    }
}

// Ends the report of a range: appends the trailer, if the range is a part. The trailer has the sums
// of all lines, so the population is read to its end.
fn end_report<R: Source>(
    alloc: Global,
    range: JobRange,
    reader: &mut R,
    lines: &mut LineReader,
    digest: &mut ReportDigest,
    text: &mut String,
) -> Result<(), PopulationFault>
    requires clear { R.mark reader.old ≡ false }
    requires few { range.is_part ≡ true → range.first + range.count ≤ max_population }
    requires on { digest.old.is_on ≡ range.is_part }
    ensures text { OnOk result (EndsReport range lines.old
        (ahead R.remaining lines.old.buffer reader.old) digest.old text.old text.new) }
    ensures end { OnOk result (StaysAtEnd (ahead R.remaining lines.old.buffer reader.old)
        (R.remaining reader.new)) }
    ensures fault { IfErr result EndFault }
    ensures marks { IsTrue (R.mark reader.new) ↔ IsErrOf result PopulationFault.Read }
{
    if range.is_part {
        let sums = read_on(alloc, reader, lines)?;
        append_trailer(text, range, &sums, &mut digest.hasher)?;
    }
    Ok(())
}

// Runs the jobs of a part, block by block. The reader is at the first one.
fn run_blocks<T: Threads + Wait + Sync, G: Gate, R: Source, W: Drain>(
    rt: &T,
    alloc: Global,
    gate: &G,
    part: &RangePlan,
    lines: &mut LineReader,
    reader: &mut R,
    writer: &mut W,
) -> Result<(), PopulationFault>
    requires reader_clear { R.mark reader.old ≡ false }
    requires writer_clear { W.mark writer.old ≡ false }
    requires few { FitsPopulation part.now.range }
    ensures ends { ByWriter W.contents W.mark W.flushed writer.old writer.new (BlocksEnd result
        lines.old part.now (reading R.remaining R.mark reader.old reader.new)) }
{
    let mut names = BTreeSet::new(alloc);
    let mut polls = 0;
    let mut sent = 0;
    let mut blocks = 0;
    let mut digest = ReportDigest::new(part.range.is_part);
    loop {
        let first = part.range.first + blocks * BLOCK as u64;
        let size = block_size(part.range.count, blocks);
        let jobs = read_block(alloc, reader, lines, &mut names, first, size)?;
        let is_last = jobs.len() < BLOCK;
        let mut text = match run_block(rt, alloc, gate, &part.head, jobs, &mut polls) {
            Ok(text) => text,
            Err(fault) => return Err(PopulationFault::Engine(fault)),
        };
        digest.add(text.as_str());
        if is_last {
            end_report(alloc, part.range, reader, lines, &mut digest, &mut text)?;
            write_block(writer, text.as_bytes(), sent)?;
            return Ok(());
        }
        sent = write_block(writer, text.as_bytes(), sent)?;
        blocks += 1;
    }
}

/// Reads a population to the end of its range, a block of at most 10,000 jobs at a time. Runs each
/// block, writes its report and flushes. The last line is the total of all polls. If the range is a
/// part, the rest of the population is read too, and the trailer follows.
///
/// Without memory the result is `Line` while a line is read, else `Engine`. The clauses on bytes
/// hold if reader and writer expose theirs.
pub(crate) fn run_population<T: Threads + Wait + Sync, G: Gate, R: Source, W: Drain>(
    rt: &T,
    alloc: Global,
    gate: &G,
    range: JobRange,
    reader: &mut R,
    writer: &mut W,
) -> Result<(), PopulationFault>
    requires reader_clear { R.mark reader.old ≡ false }
    requires writer_clear { W.mark writer.old ≡ false }
    requires few { FitsPopulation range }

    // Success and each fault, by the reader, the writer, and whether the writer is unchanged.
    ensures ends { ByWriter W.contents W.mark W.flushed writer.old writer.new
        (Ends range result (reading R.remaining R.mark reader.old reader.new)) }
{
    let mut lines = LineReader::new(alloc);
    let head = read_first(alloc, reader, &mut lines)?;
    skip_lines(alloc, reader, &mut lines, range.first)?;
    let part = RangePlan { head, range };
    run_blocks(rt, alloc, gate, &part, &mut lines, reader, writer)
}
