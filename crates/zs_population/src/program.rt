//! The program, by the words of its command line.
ghost use Rattle.std.specs.Prelude.{◌≡◌, false, map, string_bytes};
ghost use Rattle.zs_lines.specs.Streams.{ByWriter, reading};
ghost use Rattle.zs_population.specs.Words.{WordsEnd, help_text, version_text};

use crate::fault::PopulationFault;
use crate::joining::{Files, join_reports};
use crate::running::run_population;
use crate::words::{Request, request_of};
use std::alloc::Global;
use std::sync::Wait;
use std::thread::Threads;
use zs_pool::Gate;
use zs_run::{Drain, Source, write_all};

// What `--help` prints.
fn help() -> &'static str
    ensures text { result.now ≡ help_text }
{
    "usage: zsched-population [--jobs A..B | --check REPORT..] < POPULATION

Reads JSON lines: first a plan without jobs, then a job a line.
Writes the report of all jobs, as of one plan.

  --jobs A..B       runs jobs A to B - 1 alone, counted from 0. Ends with a line
                    that says of which jobs and which population the report is
  --check REPORT..  joins such reports, in order, to the report of all jobs
  --help            prints this
  --version         prints the version
"
}

// What `--version` prints.
fn version() -> &'static str
    ensures text { result.now ≡ version_text }
{
    "zsched-population 0.3.0\n"
}

/// Does what the words after the program's name say: without a word, it runs all jobs. The report
/// of a range of jobs is followed by its trailer. `--check` joins reports of ranges that follow
/// each other up to the last job, each with a trailer of this population. A failed write has
/// written the first `sent` bytes. Wrong words write nothing.
pub fn run_words<T: Threads + Wait + Sync, G: Gate, F: Files, R: Source, W: Drain>(
    rt: &T,
    alloc: Global,
    gate: &G,
    words: &[String],
    files: &F,
    reader: &mut R,
    writer: &mut W,
) -> Result<(), PopulationFault>
    requires reader_clear { R.mark reader.old ≡ false }
    requires writer_clear { W.mark writer.old ≡ false }

    ensures ends { ByWriter W.contents W.mark W.flushed writer.old writer.new (WordsEnd result
        (F.contents files.now) words.now (reading R.remaining R.mark reader.old reader.new)) }
{
    let text = match request_of(words) {
        Ok(Request::Run(range)) => return run_population(rt, alloc, gate, range, reader, writer),
        Ok(Request::Join) => return join_reports(alloc, files, &words[1..], reader, writer),
        Ok(Request::Help) => help(),
        Ok(Request::Version) => version(),
        Err(fault) => return Err(PopulationFault::Words(fault)),
    };
    write_all(writer, text.as_bytes()).map_err(|sent| PopulationFault::Write { sent: sent as u128 })
}
