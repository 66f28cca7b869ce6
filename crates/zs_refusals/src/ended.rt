//! A case, and the result of its calls.
use std::alloc::Global;
use std::fmt;
use std::fmt::{Debug, Write};

/// The name of all other work than the call under test: making its arguments, and reading its
/// result.
pub const SET_UP: &str = "set-up";

/// A case: the input of its calls, and the name of the current call.
#[derive(Drop)]
pub struct Case<'a> {
    pub alloc: Global,
    pub input: &'a str,
    pub call: &'static str,
}

/// The name of a fault, in a fixed array: nothing is allocated after an allocation failed.
#[derive(Clone, Copy, Drop)]
pub struct Name {
    bytes: [u8; 24],
    length: usize,
}

impl Name {
    /// Returns the name, or an empty text if it doesn't fit.
    pub fn as_str(&self) -> &str {
        let bytes = self.bytes.get(..self.length).unwrap_or(b"".as_slice());
        std::str::from_utf8(bytes).unwrap_or("")
    }
}

impl fmt::Write for Name {
    fn write_str(&mut self, text: &str) -> fmt::Result {
        for byte in text.as_bytes() {
            let Some(place) = self.bytes.get_mut(self.length) else {
                return Err(fmt::Error);
            };
            *place = *byte;
            self.length = self.length.wrapping_add(1);
        }
        Ok(())
    }
}

/// Why a call failed. It has no `Debug`, so that every fault, which has it, converts to it.
#[derive(Clone, Copy, Drop)]
pub enum CallFault {
    /// An allocation failed. The call returned this fault, and satisfied its contract.
    Refused(Name),
    /// An allocation of a poll failed, and its task and its message are broken.
    Broken,
    /// The call returned or changed something else.
    Wrong(&'static str),
}

/// The result of the calls of a case: the text that they made, or an empty one.
pub type Answer = Result<String, CallFault>;

impl<E: Debug + Drop> From<E> for CallFault {
    fn from(fault: E) -> CallFault {
        let mut name = Name {
            bytes: [0; 24],
            length: 0,
        };
        match write!(name, "{fault:?}") {
            Ok(()) => CallFault::Refused(name),
            Err(_) => CallFault::Wrong("a fault with a longer name"),
        }
    }
}

/// Fails unless the findings are right.
pub fn right_if(is_right: bool, what: &'static str) -> Result<(), CallFault> {
    if is_right {
        Ok(())
    } else {
        Err(CallFault::Wrong(what))
    }
}
