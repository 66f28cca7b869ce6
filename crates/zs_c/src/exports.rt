//! The functions that C calls.

ghost use Rattle.std.specs.Prelude.{◌≡◌, ◌<◌, [], ◌∷◌, ◌++◌, length};
ghost use Rattle.zs_c.specs.Bounded.{IsBounded, IsBoundsRefusal};
ghost use Rattle.zs_c.specs.FaultText.{fault_text, version_number};
ghost use Rattle.zs_c.specs.Refusals.{SpellsSome};
ghost use Rattle.zs_c.specs.Told.{IsRefusedFor, IsTextRefused, written};

use crate::bounding::{BoundsTold, GivenDriver, bounds_in};
use crate::reading::schedule_in;
use crate::room::{put, put_after};
use crate::texts::{fault_words, has_byte};
use itoa::Buffer;
use std::alloc::Global;

/// Checks whether a text spells a schedule. Returns 0 if it does, else the number of the reason.
/// Sets `at` to the byte at which a fault shows, or to 0.
pub fn zs_check(alloc: Global, text: &[u8], at: &mut u64) -> u32
    ensures spelled { result ≡ 0 → SpellsSome text.now }
    ensures nowhere { result ≡ 0 → at.new ≡ 0 }
    ensures refused { 0 < result → IsTextRefused text.now result at.new }
{
    match schedule_in(alloc, text) {
        Ok(_checked) => {
            *at = 0;
            0
        }
        Err(why) => {
            *at = why.place();
            why.number()
        }
    }
}

/// Returns in `bounds` what the schedule of a text does for every input, with any driver that does
/// what `driver` says. At most `steps` steps are examined. Returns 0, or the number of an error,
/// and sets `at` to the byte at which a fault shows, or to 0. After an error `bounds` is unchanged.
pub fn zs_bounds(
    alloc: Global,
    text: &[u8],
    driver: &GivenDriver,
    steps: u64,
    bounds: &mut BoundsTold,
    at: &mut u64,
) -> u32
    ensures bounded { result ≡ 0 → IsBounded text.now driver.now steps bounds.new }
    ensures nowhere { result ≡ 0 → at.new ≡ 0 }
    // Also if a struct has another size, or no driver does what `driver` says.
    ensures refused { 0 < result
        → IsRefusedFor (IsBoundsRefusal text.now driver.now bounds.old) result at.new }
    ensures kept { 0 < result → bounds.new ≡ bounds.old }
{
    match bounds_in(alloc, text, driver, steps, bounds) {
        Ok(told) => {
            *bounds = told;
            *at = 0;
            0
        }
        Err(why) => {
            *at = why.place();
            why.number()
        }
    }
}

/// Writes the text of a number, and of the place that goes with it, and a byte 0 to the front of
/// `out`, as far as they fit. Returns the length of the text in bytes, without the byte 0. It is 0
/// if the number is no fault.
pub fn zs_strerror(number: u32, at: u64, out: &mut [u8]) -> u64
    ensures size { result ≡ length (fault_text number at) }
    ensures text { out.new ≡ written (fault_text number at ++ (0 ∷ [])) out.old }
{
    let words = fault_words(number).as_bytes();
    put(out, words);
    if !has_byte(number) {
        put_after(out, words.len(), b"\0");
        return words.len() as u64;
    }
    let mut buffer = Buffer::new();
    let digits = buffer.format(at).as_bytes();
    let place = b" at byte ";
    put_after(out, words.len(), place);
    put_after(out, words.len() + place.len(), digits);
    put_after(out, words.len() + place.len() + digits.len(), b"\0");
    (words.len() + place.len() + digits.len()) as u64
}

/// The version of the library: a million times the first of its numbers, plus a thousand times the
/// second, plus the third.
pub fn zs_version() -> u32
    ensures value { result ≡ version_number }
{
    3_000
}
