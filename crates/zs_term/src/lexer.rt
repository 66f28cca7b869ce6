//! The tokens of a text, found one by one.

ghost use Rattle.std.specs.Prelude.{◌≡◌, ℕ, ◌+◌, ◌*◌, ◌<◌, ◌≤◌, length, take_while, slice_index, drop, ◌≢◌, MatchOption, Some, None, true, nat_lt, ◌&&◌, ◌==◌};
ghost use Rattle.std.specs.Char.{is_ascii_alphabetic, is_ascii_digit, digit_value};
ghost use Rattle.std.specs.Int.{IsInRange};
ghost use Rattle.std.specs.Str.{bytes_eq};
ghost use Rattle.std.specs.Str.Parse.{AllDigits, digits_value};
ghost use Rattle.zs_term.specs.Token.{plain_of, counted_of, method_of, other_mark, word_mark, pair_mark, single_mark, word_at, number_at, symbol_at, token_at, lex};
ghost use Rattle.zs_term.specs.Scan.{IsFoundAs, Scans};
ghost use Rattle.zs_term.specs.Number.{fit};

use crate::forms::{Counted, Infix, Method, Piece, Plain, Scale};
use crate::term::Cmp;
use crate::token::{Lexeme, Mark};

// Counts the letters at the front.
fn letter_count(bytes: &[u8]) -> usize
    ensures value { result ≡ length (take_while is_ascii_alphabetic bytes.now) }
{
    bytes.iter().take_while(|b| b.is_ascii_alphabetic()).count()
}

// Counts the digits at the front.
fn digit_count(bytes: &[u8]) -> usize
    ensures value { result ≡ length (take_while is_ascii_digit bytes.now) }
{
    bytes.iter().take_while(|b| b.is_ascii_digit()).count()
}

// Returns the letters at the front.
#[tactic(auto, using(crate::proofs::Lexing::take_front, crate::proofs::Lexing::front_within))]
fn letters(bytes: &[u8]) -> &[u8]
    ensures value { result.now ≡ take_while is_ascii_alphabetic bytes.now }
    ensures within { length result.now ≤ length bytes.now }
{
    &bytes[..letter_count(bytes)]
}

// Returns the digits at the front.
#[tactic(auto, using(crate::proofs::Lexing::take_front, crate::proofs::Lexing::front_within))]
fn digits(bytes: &[u8]) -> &[u8]
    ensures value { result.now ≡ take_while is_ascii_digit bytes.now }
    ensures within { length result.now ≤ length bytes.now }
{
    &bytes[..digit_count(bytes)]
}

// Whether letters spell a word.
fn is_word(letters: &[u8], word: &str) -> bool
    ensures value { result ≡ bytes_eq letters.now word.now }
{
    letters == word.as_bytes()
}

// Returns the leaf without numbers that these letters name.
fn plain(letters: &[u8]) -> Option<Plain>
    ensures value { result ≡ plain_of letters.now }
{
    if is_word(letters, Plain::Forever.word()) {
        Some(Plain::Forever)
    } else if is_word(letters, Plain::Identity.word()) {
        Some(Plain::Identity)
    } else if is_word(letters, Plain::Elapsed.word()) {
        Some(Plain::Elapsed)
    } else {
        None
    }
}

// Returns the leaf with one number that these letters name.
fn read_counted(letters: &[u8]) -> Option<Counted>
    ensures value { result ≡ counted_of letters.now }
{
    if is_word(letters, Counted::Recurs.word()) {
        Some(Counted::Recurs)
    } else if is_word(letters, Counted::Spaced.word()) {
        Some(Counted::Spaced)
    } else if is_word(letters, Counted::Fixed.word()) {
        Some(Counted::Fixed)
    } else if is_word(letters, Counted::Fibonacci.word()) {
        Some(Counted::Fibonacci)
    } else if is_word(letters, Counted::Linear.word()) {
        Some(Counted::Linear)
    } else if is_word(letters, Counted::Windowed.word()) {
        Some(Counted::Windowed)
    } else {
        None
    }
}

// Returns the method with arguments that these letters name.
fn method(letters: &[u8]) -> Option<Method>
    ensures value { result ≡ method_of letters.now }
{
    if is_word(letters, "whileInput") {
        Some(Method::WhileInput)
    } else if is_word(letters, "whileOutput") {
        Some(Method::WhileOutput)
    } else if is_word(letters, "map") {
        Some(Method::Map)
    } else if is_word(letters, "resetWhen") {
        Some(Method::ResetWhen)
    } else {
        None
    }
}

// Returns what any other letters mean.
fn other(letters: &[u8]) -> Mark
    ensures value { result ≡ other_mark letters.now }
{
    if is_word(letters, "exponential") {
        Mark::ExponentialWord
    } else if is_word(letters, "andThenEither") {
        Mark::Operator(Infix::AndThen)
    } else if is_word(letters, "collectAll") {
        Mark::CollectAllWord
    } else if is_word(letters, "size") {
        Mark::PieceWord(Piece::Size)
    } else if is_word(letters, "merge") {
        Mark::MergeWord
    } else if is_word(letters, "as") {
        Mark::ScaleWord(Scale::Constant)
    } else {
        Mark::OtherWord
    }
}

// Returns what a word means.
fn word(letters: &[u8]) -> Mark
    ensures value { result ≡ word_mark letters.now }
{
    if let Some(form) = plain(letters) {
        return Mark::PlainWord(form);
    }
    if let Some(form) = read_counted(letters) {
        return Mark::CountedWord(form);
    }
    if let Some(form) = method(letters) {
        return Mark::MethodWord(form);
    }
    other(letters)
}

// Returns the symbol of two bytes.
fn pair(first: u8, second: u8) -> Option<Mark>
    ensures value { result ≡ pair_mark first second }
{
    match (first, second) {
        (b'_', b'1') => Some(Mark::PieceWord(Piece::First)),
        (b'_', b'2') => Some(Mark::PieceWord(Piece::Second)),
        (b'&', b'&') => Some(Mark::Operator(Infix::Both)),
        (b'|', b'|') => Some(Mark::Operator(Infix::Either)),
        (b'<', b'=') => Some(Mark::Comparison(Cmp::Le)),
        (b'!', b'=') => Some(Mark::Comparison(Cmp::Ne)),
        (b'>', b'=') => Some(Mark::Comparison(Cmp::Ge)),
        _ => None,
    }
}

// Returns the symbol of one byte.
fn single(byte: u8) -> Option<Mark>
    ensures value { result ≡ single_mark byte }
{
    match byte {
        b'(' => Some(Mark::Open),
        b')' => Some(Mark::Close),
        b',' => Some(Mark::Comma),
        b'.' => Some(Mark::Dot),
        b'<' => Some(Mark::Comparison(Cmp::Lt)),
        b'=' => Some(Mark::Comparison(Cmp::Eq)),
        b'>' => Some(Mark::Comparison(Cmp::Gt)),
        b'+' => Some(Mark::ScaleWord(Scale::Plus)),
        b'*' => Some(Mark::ScaleWord(Scale::Times)),
        _ => None,
    }
}

// Returns the number that digits write, if it fits in 64 bits.
#[tactic(auto, using(std::proofs::lemmas::Str::Parse::digit_at, std::proofs::lemmas::Int::Digits::digits_value_more))]
fn value(digits: &[u8]) -> Option<u64>
    requires digits { AllDigits 10 digits.now }
    ensures value { result ≡ fit (digits_value 10 digits.now) }
{
    let mut sum: Option<u64> = Some(0);
    for digit in digits {
        sum = more(sum, *digit);
    }
    sum
}

// Appends one digit to a number.
fn more(sum: Option<u64>, digit: u8) -> Option<u64>
    requires digit { IsInRange 48 57 digit }
    ensures value { (n : ℕ) → sum ≡ fit n → result ≡ fit (n * 10 + digit_value digit) }
{
    let sum = sum?;
    sum.checked_mul(10)?.checked_add(u64::from(digit - b'0'))
}

/// A token at the front of some bytes, with its length in bytes.
#[derive(Clone, Copy, Drop)]
pub(crate) struct Found {
    pub(crate) lexeme: Lexeme,
    pub len: usize,
}

// Whether a number has several digits and begins with a 0.
fn is_padded(digits: &[u8]) -> bool
    ensures value { result ≡ (nat_lt 1 (length digits.now) && slice_index digits.now 0 == 48) }
{
    1 < digits.len() && digits[0] == b'0'
}

// Returns the number at the front, which begins with a digit.
#[tactic(auto, using(crate::proofs::Lexing::all_digits, crate::proofs::Lexing::some_digits))]
fn number(bytes: &[u8]) -> Option<Found>
    requires digit { is_ascii_digit (slice_index bytes.now 0) ≡ true }
    ensures value { MatchOption result (number_at bytes.now ≡ None) (λ found.
        IsFoundAs (number_at bytes.now) bytes.now found) }
{
    let digits = digits(bytes);
    if is_padded(digits) {
        return None;
    }
    let len = digits.len();
    let lexeme = Lexeme::Number(value(digits));
    Some(Found { lexeme, len })
}

// Returns the word at the front, which begins with a letter.
#[tactic(auto, using(crate::proofs::Lexing::some_letters))]
fn word_at(bytes: &[u8]) -> Found
    requires letter { is_ascii_alphabetic (slice_index bytes.now 0) ≡ true }
    ensures value { IsFoundAs (Some (word_at bytes.now)) bytes.now result }
{
    let letters = letters(bytes);
    Found {
        lexeme: Lexeme::Mark(word(letters)),
        len: letters.len(),
    }
}

// Returns the symbol at the front; of two that fit, the longer one.
fn symbol(bytes: &[u8]) -> Option<Found>
    requires some { 0 < length bytes.now }
    ensures value { MatchOption result (symbol_at bytes.now ≡ None) (λ found.
        IsFoundAs (symbol_at bytes.now) bytes.now found) }
{
    let first = bytes[0];
    let second = if 1 < bytes.len() { bytes[1] } else { 0 };
    let (mark, len) = match pair(first, second) {
        Some(mark) => (mark, 2),
        None => (single(first)?, 1),
    };
    let lexeme = Lexeme::Mark(mark);
    Some(Found { lexeme, len })
}

// Returns the token at the front.
fn token_at(bytes: &[u8]) -> Option<Found>
    requires some { 0 < length bytes.now }
    ensures value { MatchOption result (token_at bytes.now ≡ None) (λ found.
        IsFoundAs (token_at bytes.now) bytes.now found) }
{
    let first = bytes[0];
    if first.is_ascii_alphabetic() {
        return Some(word_at(bytes));
    }
    if first.is_ascii_digit() {
        return number(bytes);
    }
    symbol(bytes)
}

/// What comes next in a text after any spaces: the end, a byte at which no token begins, or a token
/// with its place and the place after it.
#[derive(Clone, Copy, Drop)]
pub(crate) enum Scan {
    End,
    Stuck(usize),
    Next(usize, Lexeme, usize),
}

// Returns the place after the spaces at a place.
#[tactic(auto, using(crate::proofs::Lexing::lex_space))]
fn skip_spaces(text: &[u8], from: usize) -> usize
    requires within { from ≤ length text.now }
    ensures forward { from ≤ result }
    ensures within { result ≤ length text.now }
    ensures no_space { result < length text.now → slice_index text.now result ≢ 32 }
    ensures same { lex 0 from (drop from text.now) ≡ lex 0 result (drop result text.now) }
{
    let mut at = from;
    while at < text.len() {
        if text[at] != b' ' {
            return at;
        }
        at += 1;
    }
    at
}

// Returns the text from a place on.
fn text_from(text: &[u8], at: usize) -> &[u8]
    requires within { at ≤ length text.now }
    ensures value { result.now ≡ drop at text.now }
{
    &text[at..]
}

/// Returns what comes next in a text from a place on.
#[tactic(auto, using(crate::proofs::Lexing::lex_end))]
pub(crate) fn scan_at(text: &[u8], from: usize) -> Scan
    requires within { from ≤ length text.now }
    ensures value { Scans text.now from result }
{
    let at = skip_spaces(text, from);
    if at == text.len() {
        return Scan::End;
    }
    let rest = text_from(text, at);
    match token_at(rest) {
        None => Scan::Stuck(at),
        Some(found) => Scan::Next(at, found.lexeme, at + found.len),
    }
}
