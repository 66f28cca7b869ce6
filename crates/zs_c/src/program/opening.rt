//! Whether words are a program.

ghost use Rattle.std.specs.Prelude.{◌≡◌, IfSome, IfNone};
ghost use Rattle.zs_term.specs.Schedule.{Schedule};
ghost use Rattle.zs_c.specs.Program.{check_word, check_in, state_size_in, IsChecked, IsProgram};
ghost use Rattle.zs_c.specs.Opened.{Opens};

/// The first word of each program: the version of its form.
pub(crate) const PROGRAM_VERSION: u64 = 0x7a73_6368_6564_0003;

/// The places of the version and of the check word, in a program and in its states.
pub(crate) const VERSION: usize = 0;

pub(crate) const CHECK: usize = 1;

/// The places of the sizes of a program's code and of its state.
const CODE_SIZE: usize = 2;

const STATE_SIZE: usize = 3;

/// The number of these words. The code comes after them.
const PROGRAM_HEAD: usize = 4;

/// The check word of no words.
pub(crate) const CHECK_START: u64 = 0xcbf2_9ce4_8422_2325;

/// The factor of a check word before each word is added to it. It is odd.
pub(crate) const CHECK_FACTOR: u64 = 0x9e37_79b9_7f4a_7c15;

// A program's check word, the number of words of its schedule's state, and its code.
#[derive(Clone, Copy)]
pub(crate) struct Opened<'a> {
    pub(crate) check: u64,
    pub(crate) state: usize,
    pub(crate) code: &'a [u64],
}

// Opens the program at the front of words. Returns `None` if they begin with no program.
#[inline(always)]
pub(crate) fn open(program: &[u64]) -> Option<Opened<'_>>
    ensures some { IfSome result (λ o. (t : Schedule) → IsProgram program.now t → Opens o t) }
    ensures checked { IfSome result (λ _. IsChecked program.now) }
    ensures check { IfSome result (λ o. o.check ≡ check_in program.now) }
    ensures state { IfSome result (λ o. o.state ≡ state_size_in program.now) }
    ensures none { IfNone result ((t : Schedule) → IsProgram program.now t → ⊥) }
{
    if program.len() < PROGRAM_HEAD || program[VERSION] != PROGRAM_VERSION {
        return None;
    }
    let size = program[CODE_SIZE] as usize;
    if size == 0 || program.len() - PROGRAM_HEAD < size {
        return None;
    }
    if check_word(&program[CODE_SIZE..size + PROGRAM_HEAD]) != program[CHECK] {
        return None;
    }
    Some(Opened {
        check: program[CHECK],
        state: program[STATE_SIZE] as usize,
        code: &program[PROGRAM_HEAD..size + PROGRAM_HEAD],
    })
}

// Returns the check word of some words.
pub(crate) fn check_word(words: &[u64]) -> u64
    ensures value { result ≡ check_word words.now }
{
    let mut check = CHECK_START;
    for word in words {
        check = check.wrapping_mul(CHECK_FACTOR).wrapping_add(*word);
    }
    check
}
