//! The program, by the words of its command line.
ghost use Rattle.std.specs.Prelude.{◌≡◌, false, map, string_bytes};
ghost use Rattle.zs_lines.specs.Streams.{ByWriter, reading};
ghost use Rattle.zs_bounds_lines.specs.Words.{WordsEnd, reads_lines};
ghost use Rattle.zs_bounds_lines.specs.Words.{request_from, usual_options, help_text, version_text};

use crate::fault::{BoundsFault, OptionFault};
use crate::options::Options;
use crate::running::run_bounds;
use crate::words::{Request, request_from};
use std::alloc::Global;
use zs_bounds::Driver;
use zs_run::{Drain, Source, write_all};

// What `--help` prints.
fn help() -> &'static str
    ensures text { result.now ≡ help_text }
{
    "usage: zsched-bounds [--attempt [LEAST..]MOST] [--wait LEAST..MOST%]
                     [--late TIME|any] [--asked TIME] [--within TIME] [--steps N]
                     < POLICIES

Reads a policy a line, and writes what is proved of each as a line of JSON.
Empty lines, and lines that begin with #, are passed over.

  --attempt 20ms..5s  how long an attempt takes; 5s is at most 5 s (ms, s, m, h)
  --wait 80..120%     how long waits are, of those of the policy (100..100%)
  --late 50ms         how much later an attempt may begin; any: by any time (0ms)
  --asked 30s         the longest Retry-After that is honoured (0ms)
  --within 10s        also how many attempts begin within that time of the first
  --steps N           looks at no more than N steps of each policy (1200000
                      divided by the number of its nodes)
  --help              prints this
  --version           prints the version
"
}

// What `--version` prints.
fn version() -> &'static str
    ensures text { result.now ≡ version_text }
{
    "zsched-bounds 0.3.0\n"
}

// The request of the words after the program's name.
fn request_of(words: &[String]) -> Result<Request, OptionFault>
    ensures value { result ≡ request_from usual_options (map string_bytes words.now) }
{
    let usual = Options {
        driver: Driver::exact(),
        steps: None,
        within: None,
    };
    request_from(usual, words)
}

/// Whether the program reads lines, by the words after its name.
pub fn reads_lines(words: &[String]) -> bool
    ensures value { result ≡
        reads_lines (request_from usual_options (map string_bytes words.now)) }
{
    matches!(request_of(words), Ok(Request::Run(_)))
}

/// Does what the words after the program's name say. At success it wrote and flushed the bounds of
/// the lines, or the text of an option, and nothing else. Wrong words write nothing.
pub fn run_words<R: Source, W: Drain>(
    alloc: Global,
    words: &[String],
    reader: &mut R,
    writer: &mut W,
) -> Result<(), BoundsFault>
    requires reader_clear { R.mark reader.old ≡ false }
    requires writer_clear { W.mark writer.old ≡ false }

    ensures ends { ByWriter W.contents W.mark W.flushed writer.old writer.new (WordsEnd
        (map string_bytes words.now) result (reading R.remaining R.mark reader.old reader.new)) }
{
    let text = match request_of(words) {
        Ok(Request::Run(options)) => return run_bounds(alloc, options, reader, writer),
        Ok(Request::Help) => help(),
        Ok(Request::Version) => version(),
        Err(fault) => return Err(BoundsFault::Words(fault)),
    };
    write_all(writer, text.as_bytes()).map_err(|_| BoundsFault::Write)
}
