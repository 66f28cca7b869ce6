//! Why a call over a program fails.

ghost use Rattle.std.specs.Prelude.{◌≡◌};
ghost use Rattle.zs_c.specs.Programs.{denial_number};

/// Why a call over a program fails.
#[derive(Clone, Copy)]
pub(crate) enum Denial {
    /// No step was made yet.
    NoStep,
    /// The words are no program of this version, or were changed.
    NoProgram,
    /// The words are fewer than the state has.
    NoRoom,
    /// The words are the state of another program.
    OtherState,
    /// The moment is below that of the last step.
    Falls,
    /// A struct isn't of the size that this version reads.
    OtherSize,
    /// The words don't begin with the version of states.
    OtherVersion,
}

impl Denial {
    // Returns its number for C.
    pub(crate) fn number(self) -> u32
        ensures value { result ≡ denial_number self }
    {
        match self {
            Denial::NoStep => 2,
            Denial::Falls => 3,
            Denial::NoRoom => 7,
            Denial::NoProgram => 8,
            Denial::OtherState => 9,
            Denial::OtherSize => 17,
            Denial::OtherVersion => 18,
        }
    }
}
