//! Why reading and writing fail.
use crate::record_type::RecordType;
use std::alloc::AllocError;
use thiserror::Error;

/// Why octets, or the text of a code, could not be read.
#[derive(Clone, Copy, Debug, PartialEq, Eq, Error)]
pub enum DecodeError {
    /// An OPT record whose owner isn't the root (RFC 6891 6.1.2).
    #[error("the owner of an OPT record is not the root")]
    EdnsNameNotRoot,
    /// Record data that don't fill their length.
    #[error("record data of {len} octets were read to {read}")]
    IncorrectRDataLengthRead { read: usize, len: usize },
    /// The octets end too early.
    #[error("insufficient octets")]
    InsufficientBytes,
    /// A record of length 0 where its type or its message has none.
    #[error("a record without data")]
    InvalidEmptyRecord,
    /// A slice from an index that is ahead of the decoder.
    #[error("an index ahead of the decoder")]
    InvalidPreviousIndex,
    /// A pointer whose target isn't before its segment.
    #[error("a pointer at {index} to {target}, which is not before its segment")]
    PointerNotPriorToLabel { index: usize, target: u16 },
    /// A label of more than 63 octets.
    #[error("a label of {0} octets")]
    LabelBytesTooLong(usize),
    /// A length octet whose top bits are 01 or 10.
    #[error("unrecognized label code {0:#010b}")]
    UnrecognizedLabelCode(u8),
    /// A name of more than 255 octets.
    #[error("a domain name of {0} octets")]
    DomainNameTooLong(usize),
    /// Labels behind a pointer that run into the segment it came from.
    #[error("a label at {label} overlaps with the segment at {other}")]
    LabelOverlapsWithOther { label: usize, other: usize },
    /// A text that is no class.
    #[error("unknown class")]
    UnknownDnsClassStr,
    /// A number that is no class.
    #[error("unknown class {0}")]
    UnknownDnsClassValue(u16),
    /// A text that is no type.
    #[error("unknown record type")]
    UnknownRecordTypeStr,
    /// A number that is no type.
    #[error("unknown record type {0}")]
    UnknownRecordTypeValue(u16),
    /// CSYNC flags beyond bits 1 and 2 (RFC 7477 2.1.1.2).
    #[error("unrecognized CSYNC flags {0:#018b}")]
    UnrecognizedCsyncFlags(u16),
    /// A record behind the message's SIG or TSIG.
    #[error("a record behind SIG or TSIG")]
    RecordAfterSig,
    /// A record of this type that stands outside the additional section.
    #[error("a record of type {0} outside the additional section")]
    RecordNotInAdditionalSection(RecordType),
    /// A second OPT record.
    #[error("a second OPT record")]
    DuplicateEdns,
    /// Keys of an SVCB record that don't rise strictly (RFC 9460 2.2).
    #[error("SVCB parameters out of order")]
    SvcParamsOutOfOrder,
    /// A key of an SVCB record without its value.
    #[error("an SVCB parameter without a value")]
    SvcParamMissingValue,
    /// A window of a bit map whose length isn't 1 to 32, or which isn't there whole.
    #[error("a bit map out of bounds")]
    NsecBitmapOutOfBounds,
    /// A CAA tag that isn't 1 to 15 ASCII letters and digits (RFC 8659 4.1).
    #[error("invalid CAA tag")]
    CaaTagInvalid,
    /// An address family other than 1 and 2 (RFC 7871 6).
    #[error("unknown address family {0}")]
    UnknownAddressFamily(u16),
    /// Octets that are no UTF-8.
    #[error("not UTF-8")]
    Utf8,
    /// A growth was refused.
    #[error("out of memory")]
    Memory,
}

/// Why an operation on DNS octets failed.
#[derive(Debug, Drop, Error)]
pub enum ProtoError {
    /// A string of more octets than its length octet can count.
    #[error("a string of {len} octets, above {max}")]
    CharacterDataTooLong { max: usize, len: usize },
    /// Octets that could not be read.
    #[error("decoding: {0}")]
    Decode(#[from] DecodeError),
    /// A request that is no message.
    #[error("format error")]
    FormError,
    /// A write that passes the encoder's maximum size.
    #[error("the maximum size of {0} octets is exceeded")]
    MaxBufferSizeExceeded(usize),
    #[error("{0}")]
    Message(&'static str),
    #[error("{0}")]
    Msg(String),
    /// Records that stayed behind for want of room, after this many were written.
    #[error("only {count} records were written")]
    NotAllRecordsWritten { count: usize },
    /// A message that is no response.
    #[error("not a response")]
    NotAResponse,
    /// Octets that are no UTF-8.
    #[error("not UTF-8")]
    Utf8,
    /// Octets that are no UTF-8, where text was to be made of them.
    #[error("not UTF-8 text")]
    FromUtf8,
    /// A text that is no number.
    #[error("not a number")]
    ParseInt,
    /// A growth was refused.
    #[error("out of memory")]
    Memory(#[from(alloc)] AllocError),
}

/// Why the words of a text could not be told apart.
#[derive(Clone, Copy, Debug, PartialEq, Eq, Error)]
pub enum LexerError {
    /// The text ended inside a word.
    #[error("unexpected end of the text")]
    EOF,
    /// A character that has no place in a text.
    #[error("illegal character {0:?}")]
    IllegalCharacter(char),
    #[error("illegal state: {0}")]
    IllegalState(&'static str),
    #[error("{0}")]
    Message(&'static str),
    /// A list without its `)`.
    #[error("unclosed list")]
    UnclosedList,
    /// A quoted string without its closing quote.
    #[error("unclosed quoted string")]
    UnclosedQuotedString,
    /// A character that has no place where it stands.
    #[error("unrecognized character {0:?}")]
    UnrecognizedChar(char),
    /// A word that begins with `$` and is no directive.
    #[error("unrecognized directive")]
    UnrecognizedDollar,
    /// An escape that stands for no octet of a text.
    #[error("unrecognized octet {0:o}")]
    UnrecognizedOctet(u32),
    /// A growth was refused.
    #[error("out of memory")]
    Memory,
}

/// Why a text could not be read.
#[derive(Debug, Drop, Error)]
pub enum ParseError {
    /// A character that is no digit.
    #[error("no digit: {0:?}")]
    CharToInt(char),
    #[error("{0}")]
    Message(&'static str),
    /// A word that is missing.
    #[error("missing token: {0}")]
    MissingToken(&'static str),
    #[error("{0}")]
    Msg(String),
    /// A text that is no time.
    #[error("not a time")]
    ParseTime,
    /// A word that has no place where it stands.
    #[error("unexpected token")]
    UnexpectedToken,
    /// A text that is no address.
    #[error("not an address")]
    AddrParse,
    /// A text that is no base64 or no hex.
    #[error("not encoded data")]
    DataEncoding,
    #[error("input or output failed")]
    Io,
    #[error("lexer: {0}")]
    Lexer(#[from] LexerError),
    /// A text that is no number.
    #[error("not a number")]
    ParseInt,
    #[error("{0}")]
    Proto(#[from] ProtoError),
    /// A text that is no type.
    #[error("unknown record type")]
    UnknownRecordType,
    /// A type whose data have no text.
    #[error("unsupported record type {0}")]
    UnsupportedRecordType(RecordType),
    /// A growth was refused.
    #[error("out of memory")]
    Memory(#[from(alloc)] AllocError),
}

/// What reading a text gives.
pub type ParseResult<T> = Result<T, ParseError>;
