//! The policy of a line.
ghost use Rattle.std.specs.Prelude.{◌≡◌, Ok, IfOk, IfErr, option_map};
ghost use Rattle.zs_term.specs.Schedule.{schedule_of};
ghost use Rattle.zs_bounds_lines.specs.Policies.{is_passed_over, policy_of, without_return};
ghost use Rattle.zs_bounds_lines.specs.Steps.{IsNoPolicy};

use crate::fault::{BoundsFault, PolicyFault};
use std::alloc::Global;
use zs_term::{Checked, TermFault, read};

// The line without the carriage return at its end.
fn without_return(line: &[u8]) -> &[u8]
    ensures value { result.now ≡ without_return line.now }
{
    let Some((last, rest)) = line.split_last() else {
        return line;
    };
    if *last == b'\r' { rest } else { line }
}

// Whether the text is empty, or begins with `#`.
fn is_passed_over(text: &[u8]) -> bool
    ensures value { result ≡ is_passed_over text.now }
{
    match text.first() {
        None => true,
        Some(byte) => *byte == b'#',
    }
}

/// The policy of the line with this number, if it has one.
pub(crate) fn read_policy(
    alloc: Global,
    number: u64,
    line: &[u8],
) -> Result<Option<Checked>, BoundsFault>
    ensures policy { IfOk result (λ policy.
        policy_of line.now ≡ Ok (option_map schedule_of policy)) }
    ensures fault { IfErr result (IsNoPolicy number line.now) }
{
    let Ok(text) = std::str::from_utf8(without_return(line)) else {
        let fault = PolicyFault::NotUtf8;
        return Err(BoundsFault::Line {
            line: number,
            fault,
        });
    };
    if is_passed_over(text.as_bytes()) {
        return Ok(None);
    }
    match read(alloc, text) {
        Ok(policy) => Ok(Some(policy)),
        Err(TermFault::Memory) => Err(BoundsFault::Memory),
        Err(fault) => Err(BoundsFault::Line {
            line: number,
            fault: PolicyFault::Term(fault),
        }),
    }
}
