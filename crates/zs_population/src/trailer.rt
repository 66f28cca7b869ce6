//! The line after the report of a range: of which jobs and of which population it is the report.

ghost use Rattle.std.specs.Prelude.{◌≡◌, ◌≤◌, ◌+◌, OnOk, string_bytes};
ghost use Rattle.zs_term.specs.OutputText.{Adds};
ghost use Rattle.hex.specs.Hex.{encode_lower};
ghost use Rattle.zs_population.specs.Population.{max_population};
ghost use Rattle.zs_population.specs.Tails.{AppendsTrailer};
ghost use Rattle.zs_population.specs.Trailer.{origin_text};

use crate::lines::Sums;
use crate::range::JobRange;
use hex::encode_to_slice;
use sha2::{Digest, Sha256};
use std::alloc::AllocError;

// Appends a digest as 64 hex digits.
fn append_digest(text: &mut String, digest: &[u8; 32]) -> Result<(), AllocError>
    ensures text { OnOk result (Adds text.old text.new (encode_lower digest.now)) }
{
    let mut digits = [0u8; 64];
    let _ = encode_to_slice(digest, &mut digits);
    for digit in digits.iter() {
        text.push(char::from(*digit))?;
    }
    Ok(())
}

/// Appends the part of a trailer up to its digest.
pub(crate) fn append_origin(
    text: &mut String,
    range: JobRange,
    sums: &Sums,
) -> Result<(), AllocError>
    requires few { range.first + range.count ≤ max_population }
    ensures text { OnOk result (Adds text.old text.new (origin_text range sums.now)) }
{
    let end = range.first + range.count;
    write!(
        text,
        "{{\"jobs\":\"{}..{end}\",\"lines\":{},\"population\":\"",
        range.first, sums.lines
    )?;
    append_digest(text, &sums.digest)?;
    text.push_str("\",\"report\":\"")
}

/// Appends the trailer of a report. Its digest is that of what was digested, the report, and of the
/// trailer up to it.
pub(crate) fn append_trailer(
    text: &mut String,
    range: JobRange,
    sums: &Sums,
    digest: &mut Sha256,
) -> Result<(), AllocError>
    requires few { range.first + range.count ≤ max_population }
    ensures text { OnOk result (AppendsTrailer range sums.now digest.old text.old text.new) }
{
    let before = text.as_bytes().len();
    append_origin(text, range, sums)?;
    digest.update(&text.as_bytes()[before..]);
    append_digest(text, &digest.finalize_reset())?;
    text.push_str("\"}\n")?;
    Ok(())
}
