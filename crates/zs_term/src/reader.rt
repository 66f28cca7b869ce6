//! Reads schedules from their text.

ghost use Rattle.std.specs.Prelude.{◌≡◌, IfOk, IfErr};
ghost use Rattle.zs_term.specs.Schedule.{schedule_of};
ghost use Rattle.zs_term.specs.Token.{Token};
ghost use Rattle.zs_term.specs.Parts.{kept_of};
ghost use Rattle.zs_term.specs.Scan.{IsLexeme};
ghost use Rattle.zs_term.specs.Causes.{IsCause, IsRead, SpellsSchedule};
ghost use Rattle.zs_term.specs.Reading.{IsWhole, huge_with};
ghost use Rattle.zs_term.specs.Verdict.{verdict_of, IsVerdict};

use crate::checked::{Checked, check_small};
use crate::fault::TermFault;
use crate::lexer::{Scan, scan_at};
use crate::limits::{MAX_DEPTH, MAX_WEIGHT};
use crate::parser::{Parser, Stage};
use crate::part::Part;
use crate::term::Term;
use crate::token::Lexeme;
use std::alloc::Global;

// Returns the place of the first number that doesn't fit, after one more token.
fn huge_after(huge: Option<u64>, place: usize, lexeme: Lexeme) -> Option<u64>
    ensures value { (t : Token) → IsLexeme lexeme t → result ≡ huge_with huge place t }
{
    if huge.is_some() {
        return huge;
    }
    match lexeme {
        Lexeme::Number(None) => Some(place as u64),
        Lexeme::Number(Some(_)) | Lexeme::Mark(_) => None,
    }
}

// Parses the whole text: returns the part, and the place of the first number that doesn't fit.
fn whole(alloc: Global, text: &[u8]) -> Result<(Part, Option<u64>), TermFault>
    ensures ok { IfOk result (λ found. IsWhole text.now (kept_of found.0) found.1) }
    ensures err { IfErr result (IsCause text.now) }
{
    let mut parser = Parser {
        alloc,
        build: true,
        bare: 0,
        joined: Vec::new(alloc),
    };
    let mut stage = Stage::Start;
    let mut huge: Option<u64> = None;
    let mut from: usize = 0;
    loop {
        match scan_at(text, from) {
            Scan::End => match parser.finish(stage) {
                Some(part) => return Ok((part, huge)),
                None => return Err(TermFault::NoTerm {
                    at: text.len() as u64,
                }),
            },
            Scan::Stuck(place) => return Err(TermFault::NoTerm { at: place as u64 }),
            Scan::Next(place, lexeme, end) => match parser.after_lexeme(stage, lexeme) {
                Err(_) => return Err(TermFault::Memory),
                Ok(None) => return Err(TermFault::NoTerm { at: place as u64 }),
                Ok(Some(next)) => {
                    stage = next;
                    parser.watch(&mut stage);
                    huge = huge_after(huge, place, lexeme);
                    from = end;
                }
            },
        }
    }
}

// Returns the term that a text spells, if it is within the limits and its numbers fit.
fn term_in(alloc: Global, text: &[u8]) -> Result<Term, TermFault>
    ensures ok { IfOk result (λ term. IsRead text.now (schedule_of term)) }
    ensures err { IfErr result (IsCause text.now) }
{
    let (part, huge) = whole(alloc, text)?;
    if MAX_DEPTH < part.depth || MAX_WEIGHT < part.weight {
        return Err(TermFault::TooBig);
    }
    if let Some(at) = huge {
        return Err(TermFault::BadNumber { at });
    }
    match part.term {
        Some(term) => Ok(Box::into_inner(term)),
        None => unreachable!(),
    }
}

// Parses and checks a text.
fn judge(alloc: Global, text: &str) -> Result<Checked, TermFault>
    ensures ok { IfOk result (λ checked. SpellsSchedule text.now (schedule_of checked)) }
    ensures err { IfErr result (IsCause text.now) }
{
    let term = term_in(alloc, text.as_bytes())?;
    check_small(alloc, term)
}

/// Returns the schedule that a text spells, or the first fault of the text in the order of
/// `TermFault`.
pub fn read(alloc: Global, text: &str) -> Result<Checked, TermFault>
    ensures ok { IfOk result (λ checked. SpellsSchedule text.now (schedule_of checked)) }
    ensures err { IfErr result (IsCause text.now) }
    // Once more, by the definition that computes: `verdict_of` determines the result.
    ensures verdict { IsVerdict (verdict_of text.now) result }
{
    judge(alloc, text)
}
