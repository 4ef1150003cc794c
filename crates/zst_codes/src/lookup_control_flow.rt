//! What a handler's answer says to those behind it in a chain.
ghost use Rattle.std.specs.Prelude.{◌≡◌, ◌↔◌, Some, IsNone};

use crate::lookup_error::LookupError;
use std::fmt;

/// What one handler of a chain answers, and whether those behind it are asked.
#[derive(Drop)]
pub enum LookupControlFlow<T, E = LookupError> {
    /// A result that the handlers behind this one may change.
    Continue(Result<T, E>),
    /// A result that is final: no handler behind this one is asked.
    Break(Result<T, E>),
    /// No result: the next handler is asked.
    Skip,
}

impl<T, E> LookupControlFlow<T, E> {
    ghost use Rattle.zst_codes.specs.ControlFlow.{is_continue, is_break, flow_result, HoldsOk, HoldsErr, ForHeldOk, ForHeldErr, UnwrapsFlowOrElse, KeepsFlow, MapsOk, MapsErr};

    /// Whether this is `Continue`.
    pub fn is_continue(&self) -> bool
        ensures { result ≡ is_continue self.now }
    {
        matches!(self, Self::Continue(_))
    }

    /// Whether this is `Break`.
    pub fn is_break(&self) -> bool
        ensures { result ≡ is_break self.now }
    {
        matches!(self, Self::Break(_))
    }

    /// The result; `None` for `Skip`.
    pub fn map_result(self) -> Option<Result<T, E>>
        ensures value { result ≡ flow_result self }
        ensures skip { IsNone result ↔ (self ≡ LookupControlFlow.Skip) }
    {
        match self {
            Self::Continue(outcome) | Self::Break(outcome) => Some(outcome),
            Self::Skip => None,
        }
    }

    /// The value of a result that is `Ok`. The message, which says why it is, is read by people alone.
    pub fn expect(self, _message: &str) -> T
        requires { HoldsOk self }
        ensures { flow_result self ≡ Some (Ok result) }
    {
        self.unwrap()
    }

    /// The error of a result that is `Err`. The message, which says why it is, is read by people alone.
    pub fn expect_err(self, _message: &str) -> E
        requires { HoldsErr self }
        ensures { flow_result self ≡ Some (Err result) }
    {
        self.unwrap_err()
    }

    /// The value of a result that is `Ok`.
    pub fn unwrap(self) -> T
        requires { HoldsOk self }
        ensures { flow_result self ≡ Some (Ok result) }
    {
        match self {
            Self::Continue(outcome) | Self::Break(outcome) => outcome.unwrap(),
            Self::Skip => unreachable!(),
        }
    }

    /// The error of a result that is `Err`.
    pub fn unwrap_err(self) -> E
        requires { HoldsErr self }
        ensures { flow_result self ≡ Some (Err result) }
    {
        match self {
            Self::Continue(outcome) | Self::Break(outcome) => outcome.unwrap_err(),
            Self::Skip => unreachable!(),
        }
    }

    /// The value of a result that is `Ok`, or the default: for an error and for `Skip`.
    pub fn unwrap_or_default(self) -> T
    where
        T: Default,
        E: Drop,
        ensures { UnwrapsFlowOrElse self T.is_default result }
    {
        match self {
            Self::Continue(outcome) | Self::Break(outcome) => outcome.unwrap_or_default(),
            Self::Skip => T::default(),
        }
    }

    /// What a function makes of the value; errors and `Skip` stay, and so does whether others are asked.
    pub fn map<U, F: FnOnce(T) -> U>(self, op: F) -> LookupControlFlow<U, E>
        requires { ForHeldOk self (F.pre op) }
        ensures mapped { KeepsFlow (MapsOk (F.post op)) self result }
        ensures continues { is_continue result ≡ is_continue self }
        ensures breaks { is_break result ≡ is_break self }
    {
        match self {
            Self::Continue(outcome) => LookupControlFlow::Continue(outcome.map(op)),
            Self::Break(outcome) => LookupControlFlow::Break(outcome.map(op)),
            Self::Skip => LookupControlFlow::Skip,
        }
    }

    /// What a function makes of the error; values and `Skip` stay, and so does whether others are asked.
    pub fn map_err<U, F: FnOnce(E) -> U>(self, op: F) -> LookupControlFlow<T, U>
        requires { ForHeldErr self (F.pre op) }
        ensures mapped { KeepsFlow (MapsErr (F.post op)) self result }
        ensures continues { is_continue result ≡ is_continue self }
        ensures breaks { is_break result ≡ is_break self }
    {
        match self {
            Self::Continue(outcome) => LookupControlFlow::Continue(outcome.map_err(op)),
            Self::Break(outcome) => LookupControlFlow::Break(outcome.map_err(op)),
            Self::Skip => LookupControlFlow::Skip,
        }
    }
}

impl<T, E> fmt::Display for LookupControlFlow<T, E> {
    ghost use Rattle.zst_codes.specs.ControlFlow.{flow_text};

    ghost output = { λ flow. Some (flow_text flow) };

    /// Writes the case, and that of its result.
    fn fmt<W: fmt::Write>(&self, f: &mut fmt::Formatter<W>) -> fmt::Result {
        f.write_str(match self {
            Self::Continue(Ok(_)) => "LookupControlFlow::Continue(Ok)",
            Self::Continue(Err(_)) => "LookupControlFlow::Continue(Err)",
            Self::Break(Ok(_)) => "LookupControlFlow::Break(Ok)",
            Self::Break(Err(_)) => "LookupControlFlow::Break(Err)",
            Self::Skip => "LookupControlFlow::Skip",
        })
    }
}
