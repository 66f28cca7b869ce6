//! Whole numbers in text.
ghost use Rattle.std.specs.Prelude.{◌≡◌, ◌≤◌, IfSome, length};
ghost use Rattle.zs_lines.specs.Numbers.{digits_from, number_of};

/// The number of the digits at the front of a text, and how many they are. There is none if it has
/// more than 64 bits.
pub fn digits(text: &[u8]) -> Option<(u64, usize)>
    ensures value { result ≡ digits_from 0 0 text.now }
    ensures within { IfSome result (λ found. found.1 ≤ length text.now) }
{
    let mut number = 0u64;
    let mut count = 0;
    while count < text.len() && text[count].is_ascii_digit() {
        let digit = u64::from(text[count] - b'0');
        number = number.checked_mul(10)?.checked_add(digit)?;
        count += 1;
    }
    Some((number, count))
}

/// The number that a text is.
pub fn number(text: &[u8]) -> Option<u64>
    ensures value { result ≡ number_of text.now }
{
    let (number, count) = digits(text)?;
    if 0 < count && count == text.len() {
        Some(number)
    } else {
        None
    }
}
