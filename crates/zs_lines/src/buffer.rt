//! Bytes that were read and not used yet, and the lines that they are.
ghost use Rattle.std.specs.Prelude.{◌≡◌, ◌≤◌, ◌<◌, ◌+◌, ◌-◌, ◌^◌, ◌++◌, ◌∷◌, ◌↔◌, [], ℕ, List, Bool, Result, Ok, Err, length, true, false, IsErrOf, IsTrue};
ghost use Rattle.std.specs.Io.KnownBytes.{Consumes, IsAtEnd, prepend_known};
ghost use Rattle.zs_lines.specs.Buffers.{IsOneLine, LineRead};

use memchr::memchr;
use std::alloc::{AllocError, Global};
use std::marker::Model;
use zs_run::Source;

// The most bytes that one pull reads.
const CHUNK: usize = 65_536;

/// Why the next line can't be read.
#[derive(Clone, Copy, Debug, Drop, PartialEq, Eq)]
pub enum LineFault {
    /// The reader failed.
    Read,
    /// The line is longer than a line may be.
    TooLong,
    /// Memory ran out.
    Memory,
}

/// Bytes that were read and not used yet.
#[derive(Drop)]
pub struct Buffer {
    bytes: Vec<u8>,
    from: usize,
}

impl Model for Buffer {
    ghost use Rattle.std.specs.Prelude.{◌≤◌, ℕ, List, drop, length};
    ghost use Rattle.zs_lines.specs.Buffers.{chunk};

    ghost Value = { List ℕ };

    ghost view = { λ b. drop b.from b.bytes.items };

    ghost invariant = { λ b. (b.from ≤ length b.bytes.items) × (length b.bytes.items ≤ chunk) };
}

impl Buffer {
    /// No bytes yet.
    pub fn new(alloc: Global) -> Buffer
        ensures empty { result ≡ [] }
    {
        Buffer {
            bytes: Vec::new(alloc),
            from: 0,
        }
    }

    // Appends the bytes up to the next newline to the line, or all bytes if there is none. Drops
    // the newline. Returns whether there was one.
    fn take_piece(&mut self, line: &mut Vec<u8>) -> Result<bool, AllocError>
        ensures ended { result ≡ Ok true → (piece : List ℕ) × IsOneLine piece
            × (line.new.items ≡ line.old.items ++ piece) × (self.old ≡ piece ++ 10 ∷ self.new) }
        ensures open { result ≡ Ok false → IsOneLine self.old
            × (line.new.items ≡ line.old.items ++ self.old) × (self.new ≡ []) }
    {
        let unread = &self.bytes[self.from..];
        match memchr(b'\n', unread) {
            Some(at) => {
                line.extend_from_slice(&unread[..at])?;
                self.from += at + 1;
                Ok(true)
            }
            None => {
                line.extend_from_slice(unread)?;
                self.from = self.bytes.len();
                Ok(false)
            }
        }
    }

    // Reads more bytes into an empty buffer. Returns whether there were any.
    fn fill<R: Source>(&mut self, reader: &mut R) -> Result<bool, LineFault>
        requires clear { R.mark reader.old ≡ false }
        requires empty { self.old ≡ [] }
        ensures some { result ≡ Ok true → (0 < length self.new)
            × Consumes (R.remaining reader.old) (R.remaining reader.new) self.new }
        ensures none { result ≡ Ok false → self.new ≡ [] }
        ensures end { result ≡ Ok false → IsAtEnd (R.remaining reader.new)
            × Consumes (R.remaining reader.old) (R.remaining reader.new) [] }
        ensures marks { IsTrue (R.mark reader.new) ↔ IsErrOf result LineFault.Read }
        ensures fault { result ≡ Err LineFault.TooLong → ⊥ }
    {
        let mut chunk = [0u8; CHUNK];
        let Ok(count) = reader.pull(&mut chunk) else {
            return Err(LineFault::Read);
        };
        self.bytes.clear();
        self.from = 0;
        match self.bytes.extend_from_slice(&chunk[..count]) {
            Ok(()) => Ok(count > 0),
            Err(_) => Err(LineFault::Memory),
        }
    }

    /// Moves the next line into `line`, without its newline. Returns whether there was one. Fails
    /// if the line has more bytes than `limit`.
    pub fn next_line<R: Source>(
        &mut self,
        reader: &mut R,
        line: &mut Vec<u8>,
        limit: usize,
    ) -> Result<bool, LineFault>
        requires clear { R.mark reader.old ≡ false }
        ensures line { LineRead limit result (prepend_known self.old (R.remaining reader.old))
            (prepend_known self.new (R.remaining reader.new)) line.new.items }
        // No line has more bytes than a `usize` counts.
        ensures limit { result ≡ Err LineFault.TooLong → limit < 2 ^ 64 - 1 }
        ensures marks { IsTrue (R.mark reader.new) ↔ IsErrOf result LineFault.Read }
    {
        line.clear();
        loop {
            match self.take_piece(line) {
                Ok(true) => return Ok(true),
                Ok(false) => {}
                Err(AllocError) => return Err(LineFault::Memory),
            }
            if line.len() > limit {
                return Err(LineFault::TooLong);
            }
            if !self.fill(reader)? {
                return Ok(!line.is_empty());
            }
        }
    }
}
