//! The reader of a plan and the writer of a report.
ghost use Rattle.std.specs.Prelude.{◌≡◌, ◌≤◌, ◌<◌, ◌+◌, ◌||◌, ℕ, List, Bool, false, true, Option, length, is_err, IfOk, OnOk};
ghost use Rattle.std.specs.Io.KnownBytes.{Keeps, ReadConsumes, WriteAppends};
ghost use Rattle.zs_term.specs.Saturating.{saturated};

/// A pull, a give or a flush failed. It moved no bytes.
#[derive(Clone, Copy, Debug, Drop, PartialEq, Eq)]
pub struct Failed;

/// A reader that records whether a call has failed.
pub trait Source {
    // The bytes that remain, if they are known.
    ghost remaining: { Self → Option (List ℕ) };

    // A call has returned `Failed`.
    ghost mark: { Self → Bool };

    // The number of pulls, saturated at 2^64 - 1.
    ghost pulls: { Self → ℕ };

    /// Fills the front of a buffer that isn't empty. `Ok(0)` is the end of input.
    fn pull(&mut self, buf: &mut [u8]) -> Result<usize, Failed>
        requires room { 0 < length buf.old }
        ensures within { IfOk result (λ n. n ≤ length buf.new) }
        // It takes the bytes that it returns from the front of those that remain.
        ensures bytes { ReadConsumes (remaining self.old) (remaining self.new) result buf.new }
        ensures marks { mark self.new ≡ (mark self.old || is_err result) }
        ensures counts { pulls self.new ≡ saturated (pulls self.old + 1) };

    /// Whether a call has failed.
    fn failed(&self) -> bool
        ensures value { result ≡ mark self.now };
}

/// A writer that records whether a call has failed.
pub trait Drain {
    // The bytes that were taken, if they are known.
    ghost contents: { Self → Option (List ℕ) };

    // A call has returned `Failed`.
    ghost mark: { Self → Bool };

    // A flush succeeded, and no give was tried since.
    ghost flushed: { Self → Bool };

    /// Takes at least one byte from the front of a slice that isn't empty, or fails.
    fn give(&mut self, buf: &[u8]) -> Result<usize, Failed>
        requires room { 0 < length buf.now }
        ensures within { IfOk result (λ n. n ≤ length buf.now) }
        ensures some { IfOk result (λ n. 0 < n) }
        // It appends the bytes that it takes.
        ensures bytes { WriteAppends (contents self.old) (contents self.new) result buf.now }
        ensures marks { mark self.new ≡ (mark self.old || is_err result) }
        // These bytes aren't flushed yet.
        ensures stale { flushed self.new ≡ false };

    /// Flushes everything that was taken.
    fn flush(&mut self) -> Result<(), Failed>
        ensures bytes { Keeps (contents self.old) (contents self.new) }
        ensures marks { mark self.new ≡ (mark self.old || is_err result) }
        ensures flushed { OnOk result (flushed self.new ≡ true) };

    /// Whether a call has failed.
    fn failed(&self) -> bool
        ensures value { result ≡ mark self.now };
}
