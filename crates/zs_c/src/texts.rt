//! The texts of the numbers that calls return to C.

ghost use Rattle.std.specs.Prelude.{◌≡◌};
ghost use Rattle.zs_c.specs.FaultText.{fault_words, has_byte};

// Returns the text of a number, or an empty text if the number is no fault.
pub(crate) fn fault_words(number: u32) -> &'static str
    ensures value { result.now ≡ fault_words number }
{
    match number {
        2 => "no step was made yet",
        3 => "the moment is below that of the step before it",
        4 => "not UTF-8",
        5 => "out of memory",
        6 => "an output with a list has no state of fixed size",
        7 => "fewer words than zs_program_size returns",
        8 => "no program of this version, or one that was changed",
        9 => "the state of another program",
        10 => "no driver does this",
        11 => "no term",
        12 => "too big",
        13 => "number too large",
        14 => "factor is 0",
        15 => "no kind",
        16 => "window is 0",
        17 => "a struct of another size",
        18 => "no state of this version",
        _ => "",
    }
}

// Whether the place that goes with a number is a byte of the text.
pub(crate) fn has_byte(number: u32) -> bool
    ensures value { result ≡ has_byte number }
{
    number == 4 || number == 11 || number == 13
}
