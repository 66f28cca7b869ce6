//! The lines of a population, counted and digested as they are read.
ghost use Rattle.std.specs.Prelude.{◌≡◌, ◌<◌, ◌^◌, ◌↔◌, ◌-◌, [], List, ℕ, Err, Ok, Some, true, false, IfOk, IfSome, IsErrOf, IsTrue, OnOk};
ghost use Rattle.zs_lines.specs.Buffers.{LineRead, ahead};
ghost use Rattle.zs_lines.specs.Lines.{lines_of};
ghost use Rattle.zs_population.specs.Sums.{CountsLines, IsSummed, sums_of};

use sha2::{Digest, Sha256};
use std::alloc::Global;
use zs_lines::{Buffer, LineFault};
use zs_run::Source;

/// The lines of a population: the bytes that come next, and the number and digest of the lines
/// before.
#[derive(Drop)]
pub(crate) struct LineReader {
    buffer: Buffer,
    digest: Sha256,
    count: u64,
}

/// The number of lines of a population, and the digest of their bytes.
#[derive(Clone, Copy, Debug, PartialEq, Eq)]
pub(crate) struct Sums {
    pub(crate) lines: u64,
    pub(crate) digest: [u8; 32],
}

impl LineReader {
    /// No line was read yet.
    pub(crate) fn new(alloc: Global) -> LineReader
        ensures empty { result.buffer ≡ [] }
        ensures sums { (known : List ℕ) → IsSummed (lines_of known) result (Some known) }
    {
        LineReader {
            buffer: Buffer::new(alloc),
            digest: Sha256::new(),
            count: 0,
        }
    }

    /// Moves the next line into `line`, without its newline. Returns whether there was one. Fails
    /// if the line has more bytes than `limit`, or if 2^64 lines were read.
    pub(crate) fn next_line<R: Source>(
        &mut self,
        reader: &mut R,
        line: &mut Vec<u8>,
        limit: usize,
    ) -> Result<bool, LineFault>
        requires clear { R.mark reader.old ≡ false }
        ensures line { LineRead limit result (ahead R.remaining self.old.buffer reader.old)
            (ahead R.remaining self.new.buffer reader.new) line.new.items }
        ensures limit { result ≡ Err LineFault.TooLong → limit < 2 ^ 64 - 1 }
        ensures sums { OnOk result
            (CountsLines R.remaining self.old reader.old self.new reader.new) }
        ensures counts { result ≡ Ok true → (self.old.count < self.new.count)
            × (self.new.count < 2 ^ 64) }
        ensures marks { IsTrue (R.mark reader.new) ↔ IsErrOf result LineFault.Read }
    {
        let is_line = self.buffer.next_line(reader, line, limit)?;
        if is_line {
            let Some(count) = self.count.checked_add(1) else {
                return Err(LineFault::Memory);
            };
            self.count = count;
            self.digest.update(line.as_slice());
            self.digest.update(b"\n");
        }
        Ok(is_line)
    }

    /// Reads all lines that remain, without looking at them. Returns the sums of all lines.
    pub(crate) fn read_on<R: Source>(
        &mut self,
        alloc: Global,
        reader: &mut R,
    ) -> Result<Sums, LineFault>
        requires clear { R.mark reader.old ≡ false }
        ensures sums { IfOk result (λ sums. (all : List (List ℕ)) → IsSummed all self.old
            (ahead R.remaining self.old.buffer reader.old) → sums ≡ sums_of all) }
        ensures end { OnOk result (IfSome (ahead R.remaining self.old.buffer reader.old)
            (λ known. R.remaining reader.new ≡ Some [])) }
        ensures marks { IsTrue (R.mark reader.new) ↔ IsErrOf result LineFault.Read }
    {
        let mut line = Vec::new(alloc);
        while self.next_line(reader, &mut line, usize::MAX)? {}
        Ok(self.sums())
    }

    /// The number of the lines that were read, and their digest. Forgets the digest.
    pub(crate) fn sums(&mut self) -> Sums
        ensures sums { (all : List (List ℕ)) → IsSummed all self.old (Some []) → result ≡ sums_of all }
        ensures buffer { self.new.buffer ≡ self.old.buffer }
    {
        Sums {
            lines: self.count,
            digest: self.digest.finalize_reset(),
        }
    }
}
