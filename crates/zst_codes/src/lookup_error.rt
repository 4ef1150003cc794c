//! Why a lookup has no records.
ghost use Rattle.std.specs.Prelude.{◌≡◌, false, None, IsNone};
ghost use Rattle.std.specs.IoError.{error_kind, raw_os_error};
ghost use Rattle.std.specs.declared.io.ErrorKind.TheVariants.{Other};

use crate::response_code::ResponseCode;
use dnw_name::ProtoError;
use std::io;
use thiserror::Error;

/// Why a lookup has no records.
#[derive(Debug, Drop, Error)]
pub enum LookupError {
    /// A message of another number of questions than one.
    #[error("{0} questions in place of one")]
    BadQueryCount(usize),
    /// The name exists, without a record of this type.
    #[error("the name exists, without a record of this type")]
    NameExists,
    /// The response code that says why.
    #[error("response code: {0}")]
    ResponseCode(ResponseCode),
    /// Another server was not reached.
    #[error("the network failed")]
    NetError,
    /// Input or output failed.
    #[error("input or output: {0}")]
    Io(io::Error),
}

impl LookupError {
    ghost use Rattle.zst_codes.specs.LookupError.{is_nx_domain};

    /// That the name exists, without a record of the type asked for.
    pub fn for_name_exists() -> LookupError
        ensures { result ≡ LookupError.NameExists }
    {
        Self::NameExists
    }

    /// Whether the name is absent: the response code is NXDomain (RFC 2308 2.1).
    pub fn is_nx_domain(&self) -> bool
        ensures { result ≡ is_nx_domain self.now }
    {
        match self {
            Self::ResponseCode(code) => *code == ResponseCode::NXDomain,
            _ => false,
        }
    }

    /// Whether another server said that there are no records, which a `NetError` doesn't keep: never.
    pub fn is_no_records_found(&self) -> bool
        ensures { result ≡ false }
    {
        false
    }

    /// The SOA record that another server sent with its denial, of the type that a caller keeps records in. A `NetError`
    /// doesn't keep it: none.
    pub fn into_soa<R>(self) -> Option<R>
        ensures { result ≡ None }
    {
        None
    }

    /// The records of authority that another server sent with its denial, of the type that a caller keeps records in. A
    /// `NetError` doesn't keep them: none.
    pub fn authorities<R>(&self) -> Option<&[R]>
        ensures { IsNone result }
    {
        None
    }
}

impl From<ResponseCode> for LookupError {
    ghost use Rattle.zst_codes.specs.declared.lookup_error.LookupError.TheVariants.{ResponseCode as by_code};

    ghost from_gives = { λ code error. error ≡ by_code code };

    fn from(given: ResponseCode) -> LookupError {
        Self::ResponseCode(given)
    }
}

impl From<io::Error> for LookupError {
    ghost use Rattle.zst_codes.specs.declared.lookup_error.LookupError.TheVariants.{Io};

    ghost from_gives = { λ cause error. error ≡ Io cause };

    fn from(cause: io::Error) -> LookupError {
        Self::Io(cause)
    }
}

impl From<ProtoError> for LookupError {
    ghost use Rattle.zst_codes.specs.declared.lookup_error.LookupError.TheVariants.{NetError};

    ghost from_gives = { λ _ error. error ≡ NetError };

    /// What failed on the way to another server isn't kept.
    fn from(_cause: ProtoError) -> LookupError {
        Self::NetError
    }
}

impl From<LookupError> for io::Error {
    ghost from_gives = { λ _ error. (error_kind error ≡ Other) × (raw_os_error error ≡ None) };

    /// An error of the kind `Other`, which says in words what failed.
    fn from(error: LookupError) -> io::Error {
        io::Error::other(match error {
            LookupError::BadQueryCount(_) => "not one question",
            LookupError::NameExists => "no record of this type",
            LookupError::ResponseCode(code) => code.to_str(),
            LookupError::NetError => "the network failed",
            LookupError::Io(_) => "input or output failed",
        })
    }
}
