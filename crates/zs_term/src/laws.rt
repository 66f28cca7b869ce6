//! Laws of spellings, texts and faults.

ghost use Rattle.zs_term.specs.Laws.{OneTerm, OneFault, OneVerdict, CanonicalSpells, RoundTrip};
ghost use Rattle.zs_term.specs.Places.{TokensOfText};
ghost use Rattle.zs_term.specs.Verdict.{VerdictIsTheOne};

/// The tokens of a text are determined: each is the longest at its place, after nothing but spaces.
pub fn tokens_of_text()
    ensures law { TokensOfText }
{}

/// No token list spells two terms.
pub fn one_term()
    ensures law { OneTerm }
{}

/// A text has at most one fault that is checked first, at one place. `Memory` doesn't count.
pub fn one_fault()
    ensures law { OneFault }
{}

/// A text that spells a schedule has no fault but `Memory`.
pub fn one_verdict()
    ensures law { OneVerdict }
{}

/// The canonical spelling of a term spells it, whatever its size and kind, if its numbers are below
/// 2^64.
pub fn canonical_spells()
    ensures law { CanonicalSpells }
{}

/// Reading the canonical spelling of a schedule returns the schedule.
pub fn round_trip()
    ensures law { RoundTrip }
{}

/// The computed verdict on a text is the one schedule that it spells, or its first fault.
pub fn verdict_is_the_one()
    ensures law { VerdictIsTheOne }
{}
