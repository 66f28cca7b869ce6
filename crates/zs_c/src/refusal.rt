//! Why a call fails, and the number of each reason for C.

ghost use Rattle.std.specs.Prelude.{◌≡◌};
ghost use Rattle.zs_c.specs.Numbers.{fault_number, fault_place, refusal_number, refusal_place};
ghost use Rattle.zs_c.specs.declared.refusal.Refusal.TheVariants.{Memory};

use std::alloc::AllocError;
use zs_step::StepFault;
use zs_term::TermFault;

/// Why a call fails.
#[derive(Clone, Copy)]
pub(crate) enum Refusal {
    /// The text isn't UTF-8 from the byte `at` on.
    NotUtf8 { at: u64 },
    /// Memory ran out.
    Memory,
    /// The output shows a list, of which words store only the size.
    KeepsList,
    /// The words are fewer than the schedule's state has.
    NoRoom,
    /// No driver does what is given.
    NoDriver,
    /// A struct isn't of the size that this version reads.
    OtherSize,
    /// The text spells no schedule.
    Text { fault: TermFault },
}

impl Refusal {
    // Returns its number for C.
    pub(crate) fn number(self) -> u32
        ensures value { result ≡ refusal_number self }
    {
        match self {
            Refusal::NotUtf8 { at: _ } => 4,
            Refusal::Memory => 5,
            Refusal::KeepsList => 6,
            Refusal::NoRoom => 7,
            Refusal::NoDriver => 10,
            Refusal::OtherSize => 17,
            Refusal::Text { fault } => number_of(fault),
        }
    }

    // Returns the byte at which it shows, or 0.
    pub(crate) fn place(self) -> u64
        ensures value { result ≡ refusal_place self }
    {
        match self {
            Refusal::Memory
            | Refusal::KeepsList
            | Refusal::NoRoom
            | Refusal::NoDriver
            | Refusal::OtherSize => 0,
            Refusal::NotUtf8 { at } => at,
            Refusal::Text { fault } => place_of(fault),
        }
    }
}

// Returns the number of a text's fault.
fn number_of(fault: TermFault) -> u32
    ensures value { result ≡ fault_number fault }
{
    match fault {
        TermFault::Memory => 5,
        TermFault::NoTerm { at: _ } => 11,
        TermFault::TooBig => 12,
        TermFault::BadNumber { at: _ } => 13,
        TermFault::BadFactor => 14,
        TermFault::NoKind => 15,
        TermFault::BadWindow => 16,
    }
}

// Returns the byte at which a text's fault shows, or 0.
fn place_of(fault: TermFault) -> u64
    ensures value { result ≡ fault_place fault }
{
    match fault {
        TermFault::NoTerm { at } | TermFault::BadNumber { at } => at,
        TermFault::TooBig
        | TermFault::BadFactor
        | TermFault::NoKind
        | TermFault::BadWindow
        | TermFault::Memory => 0,
    }
}

impl From<StepFault> for Refusal {
    ghost from_gives = { λ _ r. r ≡ Memory };

    fn from(_refused: StepFault) -> Refusal {
        Refusal::Memory
    }
}

impl From<AllocError> for Refusal {
    ghost from_gives = { λ _ r. r ≡ Memory };

    fn from(_refused: AllocError) -> Refusal {
        Refusal::Memory
    }
}
