//! Causes of refused calls, and their codes.

ghost use Rattle.std.specs.Prelude.{◌≡◌, ◌<◌, ◌^◌, IfOk};
ghost use Rattle.authority_handle.specs.Refusals.{code_of, length_or_code, line_code, number_of};

use authority_load::LoadError;
use std::alloc::{AllocError, AllocFailed};

/// Why a call was refused.
#[derive(Clone, Copy, Debug, PartialEq, Eq)]
pub enum Refusal {
    /// Allocation failed.
    OutOfMemory,
    /// The reply does not fit the buffer.
    NoRoom,
    /// An address has neither 4 nor 16 octets.
    WrongAddress,
    /// The text is not a fully qualified name.
    WrongName,
    /// The text is not UTF-8.
    WrongText,
    /// A setting has an unknown value, or a prefix is longer than its address.
    WrongSetting,
    /// More octets than a message can hold, or than are read.
    TooLong,
    /// Neither a zone nor a blocklist has this name.
    NotFound,
    /// A line of the zone text is refused.
    Line(LoadError),
}

impl Refusal {
    /// The number returned to other languages: negative, or the number of the line.
    pub fn code(self) -> i64
        ensures { result ≡ code_of self }
    {
        match self {
            Refusal::OutOfMemory => -1,
            Refusal::NoRoom => -2,
            Refusal::WrongAddress => -3,
            Refusal::WrongName => -4,
            Refusal::WrongText => -5,
            Refusal::WrongSetting => -6,
            Refusal::TooLong => -7,
            Refusal::NotFound => -8,
            Refusal::Line(error) => line_number(error.line),
        }
    }
}

// The number of a line, at most `i64::MAX`.
fn line_number(line: usize) -> i64
    ensures { result ≡ line_code line }
{
    match i64::try_from(line) {
        Ok(number) => number,
        Err(_) => i64::MAX,
    }
}

/// The number that a call returns: 0, or the code of its refusal.
pub(crate) fn number(done: Result<(), Refusal>) -> i64
    ensures { result ≡ number_of done }
{
    match done {
        Ok(()) => 0,
        Err(refusal) => refusal.code(),
    }
}

/// The number that a call returns: a length, or the code of its refusal.
pub(crate) fn length_or_code(done: Result<usize, Refusal>) -> i64
    requires { IfOk done (λ length. length < 2 ^ 63) }
    ensures { result ≡ length_or_code done }
{
    match done {
        Ok(length) => length as i64,
        Err(refusal) => refusal.code(),
    }
}

impl From<AllocError> for Refusal {
    ghost use Rattle.authority_handle.specs.declared.refusal.Refusal.TheVariants.{OutOfMemory};

    ghost from_gives = { λ _ refusal. refusal ≡ OutOfMemory };

    fn from(_refused: AllocError) -> Refusal {
        Refusal::OutOfMemory
    }
}

impl<T: Drop> From<AllocFailed<T>> for Refusal {
    ghost use Rattle.authority_handle.specs.declared.refusal.Refusal.TheVariants.{OutOfMemory};

    ghost from_gives = { λ _ refusal. refusal ≡ OutOfMemory };

    fn from(_refused: AllocFailed<T>) -> Refusal {
        Refusal::OutOfMemory
    }
}
