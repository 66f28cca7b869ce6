//! Readers and writers that fail, or transfer a few bytes a call. Each is one of `std` and one of
//! `zs_run`.
ghost use Rattle.std.specs.Prelude.{◌≡◌, ◌≤◌, ◌<◌, false, length, IfOk, IfSome, None};

use std::alloc::Global;
use std::io;
use std::io::{Read, Write};
use zs_run::{Drain, Failed, Source};

/// Gives `step` bytes a call, and fails once `left` bytes were given.
#[derive(Drop)]
pub struct Halting<'a> {
    pub bytes: &'a [u8],
    pub step: usize,
    pub left: usize,
    pub error: io::ErrorKind,
    pub failed: bool,
    pub pulls: u64,
}

impl Halting<'_> {
    /// Makes a reader of the text, in pieces of `step` bytes, that fails after `left` bytes.
    pub fn of(text: &str, step: usize, left: usize) -> Halting<'_>
        ensures clear { result.failed ≡ false }
    {
        Halting {
            bytes: text.as_bytes(),
            step,
            left,
            error: io::ErrorKind::Other,
            failed: false,
            pulls: 0,
        }
    }

    // Fills the front of the buffer, or nothing if the reader has to fail.
    fn fill(&mut self, buf: &mut [u8]) -> Option<usize>
        ensures within { IfSome result (λ count. count ≤ length buf.new) }
        ensures mark { self.new.failed ≡ self.old.failed }
        ensures pulls { self.new.pulls ≡ self.old.pulls }
    {
        if self.left == 0 {
            return None;
        }
        let count = self
            .step
            .min(self.left)
            .min(buf.len())
            .min(self.bytes.len());
        let bytes: &[u8] = self.bytes;
        buf[..count].copy_from_slice(&bytes[..count]);
        self.bytes = &bytes[count..];
        self.left -= count;
        Some(count)
    }
}

impl Read for Halting<'_> {
    fn read(&mut self, buf: &mut [u8]) -> io::Result<usize> {
        match self.fill(buf) {
            Some(count) => Ok(count),
            None => Err(io::Error::from(self.error)),
        }
    }
}

impl Source for Halting<'_> {
    ghost remaining = { λ _. None };

    ghost mark = { λ h. h.failed };

    ghost pulls = { λ h. h.pulls };

    fn pull(&mut self, buf: &mut [u8]) -> Result<usize, Failed> {
        self.pulls = self.pulls.saturating_add(1);
        match self.fill(buf) {
            Some(count) => Ok(count),
            None => {
                self.failed = true;
                Err(Failed)
            }
        }
    }

    fn failed(&self) -> bool {
        self.failed
    }
}

/// Takes `step` bytes a call and `room` bytes in all, and may fail to flush.
#[derive(Drop)]
pub struct Limited {
    pub taken: Vec<u8>,
    pub step: usize,
    pub room: usize,
    pub flushes: bool,
    pub flushed: bool,
    pub failed: bool,
}

impl Limited {
    /// Makes a writer that takes pieces of `step` bytes, and `room` bytes in all.
    pub fn of(alloc: Global, step: usize, room: usize, flushes: bool) -> Limited
        ensures clear { result.failed ≡ false }
    {
        Limited {
            taken: Vec::new(alloc),
            step,
            room,
            flushes,
            flushed: false,
            failed: false,
        }
    }

    // Takes the front of the bytes, or nothing if there is no room.
    fn store(&mut self, buf: &[u8]) -> usize
        ensures within { result ≤ length buf.now }
        ensures mark { self.new.failed ≡ self.old.failed }
        ensures flushed { self.new.flushed ≡ self.old.flushed }
    {
        let count = self.step.min(self.room).min(buf.len());
        if self.taken.extend_from_slice(&buf[..count]).is_err() {
            return 0;
        }
        self.room -= count;
        count
    }
}

impl Write for Limited {
    fn write(&mut self, buf: &[u8]) -> io::Result<usize> {
        self.flushed = false;
        Ok(self.store(buf))
    }

    fn flush(&mut self) -> io::Result<()> {
        if self.flushes {
            self.flushed = true;
            Ok(())
        } else {
            Err(io::Error::from(io::ErrorKind::Other))
        }
    }
}

impl Drain for Limited {
    ghost contents = { λ _. None };

    ghost mark = { λ l. l.failed };

    ghost flushed = { λ l. l.flushed };

    fn give(&mut self, buf: &[u8]) -> Result<usize, Failed> {
        self.flushed = false;
        let count = self.store(buf);
        if count == 0 {
            self.failed = true;
            return Err(Failed);
        }
        Ok(count)
    }

    fn flush(&mut self) -> Result<(), Failed> {
        if !self.flushes {
            self.failed = true;
            return Err(Failed);
        }
        self.flushed = true;
        Ok(())
    }

    fn failed(&self) -> bool {
        self.failed
    }
}

/// Errors of a reader or a writer. After some of them other programs would try again.
pub const KINDS: [io::ErrorKind; 4] = [
    io::ErrorKind::Interrupted,
    io::ErrorKind::WouldBlock,
    io::ErrorKind::BrokenPipe,
    io::ErrorKind::Other,
];

/// A reader or a writer that fails at one call, and at the next continues as before.
#[derive(Drop)]
pub struct Stumbling<T> {
    pub inner: T,
    /// The kind of its one error.
    pub kind: io::ErrorKind,
    /// The number of good calls before the one that fails.
    pub before: u64,
    /// The number of calls after it.
    pub after: u64,
    has_failed: bool,
}

impl<T> Stumbling<T> {
    /// Makes a reader or writer that fails after `before` good calls, with an error of this kind.
    pub fn of(inner: T, kind: io::ErrorKind, before: u64) -> Stumbling<T> {
        Stumbling {
            inner,
            kind,
            before,
            after: 0,
            has_failed: false,
        }
    }

    // Whether this call is the one that fails.
    fn fails_now(&mut self) -> bool {
        if self.has_failed {
            self.after = self.after.saturating_add(1);
            return false;
        }
        self.has_failed = self.before == 0;
        self.before = self.before.saturating_sub(1);
        self.has_failed
    }
}

impl<R: Read> Read for Stumbling<R> {
    fn read(&mut self, buf: &mut [u8]) -> io::Result<usize> {
        if self.fails_now() {
            return Err(io::Error::from(self.kind));
        }
        self.inner.read(buf)
    }
}

impl<W: Write> Write for Stumbling<W> {
    fn write(&mut self, buf: &[u8]) -> io::Result<usize> {
        if self.fails_now() {
            return Err(io::Error::from(self.kind));
        }
        self.inner.write(buf)
    }

    fn flush(&mut self) -> io::Result<()> {
        if self.fails_now() {
            return Err(io::Error::from(self.kind));
        }
        self.inner.flush()
    }
}

/// Endless spaces, with the number of bytes that were read.
#[derive(Drop)]
pub struct Spaces {
    pub given: u64,
}

impl Read for Spaces {
    fn read(&mut self, buf: &mut [u8]) -> io::Result<usize> {
        buf.fill(b' ');
        self.given = self.given.wrapping_add(buf.len() as u64);
        Ok(buf.len())
    }
}

/// Returns the same at every call: a number of bytes, or an error of a kind.
#[derive(Clone, Copy, Drop)]
pub enum Answers {
    Count(usize),
    Error(io::ErrorKind),
}

impl Answers {
    // Returns the number of bytes, at most `most`.
    fn within(self, most: usize) -> io::Result<usize>
        ensures within { IfOk result (λ count. count ≤ most) }
    {
        match self {
            Answers::Count(count) => Ok(count.min(most)),
            Answers::Error(kind) => Err(io::Error::from(kind)),
        }
    }
}

impl Read for Answers {
    fn read(&mut self, buf: &mut [u8]) -> io::Result<usize> {
        self.within(buf.len())
    }
}

impl Write for Answers {
    fn write(&mut self, buf: &[u8]) -> io::Result<usize> {
        self.within(buf.len())
    }

    fn flush(&mut self) -> io::Result<()> {
        match self {
            Answers::Count(_) => Ok(()),
            Answers::Error(kind) => Err(io::Error::from(*kind)),
        }
    }
}

/// A reader or a writer that counts its calls. One call of a writer, counted from 0, may take
/// nothing.
#[derive(Drop)]
pub struct CallCounter<T> {
    pub inner: T,
    pub calls: u64,
    pub idle: Option<u64>,
}

impl<T> CallCounter<T> {
    // Counts a call, and returns whether it is the one that takes nothing.
    fn is_idle(&mut self) -> bool {
        let call = self.calls;
        self.calls = call.wrapping_add(1);
        self.idle == Some(call)
    }
}

impl<R: Read> Read for CallCounter<R> {
    fn read(&mut self, buf: &mut [u8]) -> io::Result<usize> {
        let _ = self.is_idle();
        self.inner.read(buf)
    }
}

impl<W: Write> Write for CallCounter<W> {
    fn write(&mut self, buf: &[u8]) -> io::Result<usize> {
        if self.is_idle() {
            return Ok(0);
        }
        self.inner.write(buf)
    }

    fn flush(&mut self) -> io::Result<()> {
        let _ = self.is_idle();
        self.inner.flush()
    }
}
