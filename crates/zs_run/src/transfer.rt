//! All of a reader's bytes, and all of a text to a writer.
ghost use Rattle.std.specs.Prelude.{◌≡◌, ◌≤◌, ◌+◌, ◌↔◌, [], length, take, is_err, true, false, OnOk, IfErr, IsErrOf, IsTrue};
ghost use Rattle.std.specs.Io.KnownBytes.{Appends};
ghost use Rattle.zs_run.specs.Streams.{ReadsUpTo};

use crate::streams::{Drain, Failed, Source};

// The most bytes of one pull.
const CHUNK: usize = 65_536;

/// Why the bytes of a reader could not be read.
#[derive(Clone, Copy, Debug, Drop, PartialEq, Eq)]
pub(crate) enum InputFault {
    /// The reader failed.
    Read,
    /// Memory ran out.
    Memory,
}

/// Adds what is read up to the end of input, or until `limit` bytes were read.
pub(crate) fn read_up_to<R: Source>(
    reader: &mut R,
    limit: usize,
    bytes: &mut Vec<u8>,
) -> Result<(), InputFault>
    requires clear { R.mark reader.old ≡ false }
    requires empty { bytes.old.items ≡ [] }
    ensures ok { OnOk result
        (ReadsUpTo limit (R.remaining reader.old) (R.remaining reader.new) bytes.new.items) }
    ensures marks { IsTrue (R.mark reader.new) ↔ IsErrOf result InputFault.Read }
    ensures pulls { R.pulls reader.new ≤ R.pulls reader.old + limit }
{
    let mut chunk = [0u8; CHUNK];
    while bytes.len() < limit {
        let room = (limit - bytes.len()).min(CHUNK);
        let Ok(count) = reader.pull(&mut chunk[..room]) else {
            return Err(InputFault::Read);
        };
        if count == 0 {
            return Ok(());
        }
        if bytes.extend_from_slice(&chunk[..count]).is_err() {
            return Err(InputFault::Memory);
        }
    }
    Ok(())
}

/// Writes all of the bytes and flushes. The error is how many of them were written before a
/// failure.
pub fn write_all<W: Drain>(writer: &mut W, bytes: &[u8]) -> Result<(), usize>
    requires clear { W.mark writer.old ≡ false }
    ensures ok { OnOk result (Appends (W.contents writer.old) (W.contents writer.new) bytes.now) }
    ensures flushed { OnOk result (W.flushed writer.new ≡ true) }
    ensures within { IfErr result (λ sent. sent ≤ length bytes.now) }
    ensures err { IfErr result (λ sent.
        Appends (W.contents writer.old) (W.contents writer.new) (take sent bytes.now)) }
    ensures marks { W.mark writer.new ≡ is_err result }
{
    let mut sent = 0;
    while sent < bytes.len() {
        match writer.give(&bytes[sent..]) {
            Ok(count) => sent += count,
            Err(Failed) => return Err(sent),
        }
    }
    writer.flush().map_err(|_| sent)
}
