//! Readers and writers of `std` that record a failed call.
ghost use Rattle.std.specs.Prelude.{◌≡◌, false};

use crate::streams::{Drain, Failed, Source};
use std::io::{Read, Write};

/// A reader or writer of `std`, with a mark that a failed call sets.
#[derive(Drop)]
pub struct Marked<T> {
    inner: T,
    failed: bool,
    flushed: bool,
    pulls: u64,
}

impl<T> Marked<T> {
    ghost use Rattle.zs_run.specs.Marked.{marked_inner, marked_failed, marked_pulls};

    /// Wraps a reader or writer. Its mark is clear.
    pub fn new(inner: T) -> Marked<T>
        ensures inner { marked_inner result ≡ inner }
        ensures clear { marked_failed result ≡ false }
        ensures unread { marked_pulls result ≡ 0 }
    {
        Marked {
            inner,
            failed: false,
            flushed: false,
            pulls: 0,
        }
    }
}

impl<R: Read> Source for Marked<R> {
    ghost use Rattle.zs_run.specs.Marked.{marked_inner, marked_failed, marked_pulls};

    ghost remaining = { λ m. R.remaining (marked_inner m) };

    ghost mark = { marked_failed };

    ghost pulls = { marked_pulls };

    fn failed(&self) -> bool {
        self.failed
    }

    fn pull(&mut self, buf: &mut [u8]) -> Result<usize, Failed> {
        self.pulls = self.pulls.saturating_add(1);
        match self.inner.read(buf) {
            Ok(count) => Ok(count),
            Err(_) => {
                self.failed = true;
                Err(Failed)
            }
        }
    }
}

impl<W: Write> Drain for Marked<W> {
    ghost use Rattle.zs_run.specs.Marked.{marked_inner, marked_failed, marked_flushed};

    ghost contents = { λ m. W.contents (marked_inner m) };

    ghost mark = { marked_failed };

    ghost flushed = { marked_flushed };

    fn failed(&self) -> bool {
        self.failed
    }

    fn give(&mut self, buf: &[u8]) -> Result<usize, Failed> {
        self.flushed = false;
        match self.inner.write(buf) {
            Ok(count) if count > 0 => Ok(count),
            _ => {
                self.failed = true;
                Err(Failed)
            }
        }
    }

    fn flush(&mut self) -> Result<(), Failed> {
        match self.inner.flush() {
            Ok(()) => {
                self.flushed = true;
                Ok(())
            }
            Err(_) => {
                self.failed = true;
                Err(Failed)
            }
        }
    }
}
