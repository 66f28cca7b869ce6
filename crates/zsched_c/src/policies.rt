//! The calls that take the text of a schedule.

ghost use Rattle.std.specs.Prelude.{◌≡◌, ◌<◌, [], ◌∷◌, ◌++◌, length};
ghost use Rattle.zs_c.specs.Bounded.{IsBounded, IsBoundsRefusal};
ghost use Rattle.zs_c.specs.FaultText.{fault_text, version_number};
ghost use Rattle.zs_c.specs.Refusals.{SpellsSome};
ghost use Rattle.zs_c.specs.Told.{IsRefusedFor, IsTextRefused, written};

use std::alloc::Global;
use zs_c::{BoundsTold, GivenDriver};

/// Checks whether a text spells a schedule. Returns 0 if it does, else the number of the reason.
/// Sets `at` to the byte at which a fault shows, or to 0.
#[unsafe(no_mangle)]
pub extern "C" fn zs_check(alloc: Global, text: &[u8], at: &mut u64) -> u32
    ensures spelled { result ≡ 0 → SpellsSome text.now }
    ensures nowhere { result ≡ 0 → at.new ≡ 0 }
    ensures refused { 0 < result → IsTextRefused text.now result at.new }
{
    zs_c::zs_check(alloc, text, at)
}

/// Returns in `bounds` what the schedule of a text does for every input, with any driver that does
/// what `driver` says. At most `steps` steps are examined. Returns 0, or the number of an error,
/// and sets `at` to the byte at which a fault shows, or to 0. After an error `bounds` is unchanged.
#[unsafe(no_mangle)]
pub extern "C" fn zs_bounds(
    alloc: Global,
    text: &[u8],
    driver: &GivenDriver,
    steps: u64,
    bounds: &mut BoundsTold,
    at: &mut u64,
) -> u32
    ensures bounded { result ≡ 0 → IsBounded text.now driver.now steps bounds.new }
    ensures nowhere { result ≡ 0 → at.new ≡ 0 }
    ensures refused { 0 < result
        → IsRefusedFor (IsBoundsRefusal text.now driver.now bounds.old) result at.new }
    ensures kept { 0 < result → bounds.new ≡ bounds.old }
{
    zs_c::zs_bounds(alloc, text, driver, steps, bounds, at)
}

/// Writes the text of a number, and of the place that goes with it, and a byte 0 to the front of
/// `out`, as far as they fit. Returns the length of the text in bytes, without the byte 0. It is 0
/// if the number is no fault.
#[unsafe(no_mangle)]
pub extern "C" fn zs_strerror(number: u32, at: u64, out: &mut [u8]) -> u64
    ensures size { result ≡ length (fault_text number at) }
    ensures text { out.new ≡ written (fault_text number at ++ (0 ∷ [])) out.old }
{
    zs_c::zs_strerror(number, at, out)
}

/// The version of the library: a million times the first of its numbers, plus a thousand times the
/// second, plus the third.
#[unsafe(no_mangle)]
pub extern "C" fn zs_version() -> u32
    ensures value { result ≡ version_number }
{
    zs_c::zs_version()
}
