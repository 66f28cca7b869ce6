//! The run over the lines of a reader.
ghost use Rattle.std.specs.Prelude.{◌≡◌, ◌↔◌, false, IsErrOf, IsTrue};
ghost use Rattle.zs_lines.specs.Streams.{ByWriter, reading};
ghost use Rattle.zs_bounds_lines.specs.Ending.{Ends};
ghost use Rattle.zs_bounds_lines.specs.Steps.{LineEnds};

use crate::fault::BoundsFault;
use crate::json::line_of;
use crate::options::Options;
use crate::policy::read_policy;
use std::alloc::Global;
use zs_lines::{Buffer, LineFault};
use zs_run::{Drain, Source, write_all};

// Writes and flushes what belongs to the line with this number.
fn write_line<W: Drain>(
    alloc: Global,
    options: Options,
    number: u64,
    line: &[u8],
    writer: &mut W,
) -> Result<(), BoundsFault>
    requires clear { W.mark writer.old ≡ false }
    ensures ends { ByWriter W.contents W.mark W.flushed writer.old writer.new
        (LineEnds options number line.now result) }
{
    let Some(policy) = read_policy(alloc, number, line)? else {
        return Ok(());
    };
    let Ok(text) = line_of(alloc, options, &policy) else {
        return Err(BoundsFault::Memory);
    };
    match write_all(writer, text.as_bytes()) {
        Ok(()) => Ok(()),
        Err(_) => Err(BoundsFault::Write),
    }
}

/// Reads policies to the end of input, a line each. Writes the bounds of each as a line of JSON,
/// and flushes, before the next line is read.
///
/// The clauses on bytes hold if reader and writer expose theirs.
pub(crate) fn run_bounds<R: Source, W: Drain>(
    alloc: Global,
    options: Options,
    reader: &mut R,
    writer: &mut W,
) -> Result<(), BoundsFault>
    requires reader_clear { R.mark reader.old ≡ false }
    requires writer_clear { W.mark writer.old ≡ false }

    // Success and each fault, by the reader, the writer, and whether the writer is unchanged.
    ensures ends { ByWriter W.contents W.mark W.flushed writer.old writer.new
        (Ends options result (reading R.remaining R.mark reader.old reader.new)) }
{
    let mut buffer = Buffer::new(alloc);
    let mut line = Vec::new(alloc);
    let mut count = 0;
    while count < u64::MAX {
        match buffer.next_line(reader, &mut line, usize::MAX) {
            Ok(true) => {}
            Ok(false) => return Ok(()),
            Err(LineFault::Read) => return Err(BoundsFault::Read),
            Err(LineFault::TooLong | LineFault::Memory) => return Err(BoundsFault::Memory),
        }
        count += 1;
        write_line(alloc, options, count, line.as_slice(), writer)?;
    }
    // No reader has this number of lines.
    Err(BoundsFault::Memory)
}
