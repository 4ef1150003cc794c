//! Why a reply is refused.

use thiserror::Error;

/// Why a reply is refused. The causes are tested in their order: the first five on the whole reply, the next three on each
/// answer in turn, but the last. `OutOfMemory` hides none that was tested before the allocation.
#[derive(Clone, Copy, Debug, PartialEq, Eq, Error)]
pub enum TransferError {
    /// The octets are no message.
    #[error("NotAMessage")]
    NotAMessage,
    /// The message is no reply to a query, or its response code isn't NoError.
    #[error("NotAReply")]
    NotAReply,
    /// TC is set: records are missing.
    #[error("Truncated")]
    Truncated,
    /// The message has a TSIG or a SIG, which is not verified here.
    #[error("Signed")]
    Signed,
    /// There are fewer than two answers, or the first is no SOA of the origin, or the last isn't equal to it.
    #[error("NoFrame")]
    NoFrame,
    /// The owner of an answer is outside the zone.
    #[error("OutsideZone")]
    OutsideZone,
    /// An answer is of a type that signing adds: RRSIG, NSEC, NSEC3, NSEC3PARAM.
    #[error("DnssecRecord")]
    DnssecRecord,
    /// The class of an answer isn't IN, or it may not be owned beside the records before it: another type or another target
    /// beside an alias, or a second SOA.
    #[error("Record {index}")]
    Record {
        /// The index of the answer, from 0.
        index: usize,
    },
    /// An allocation failed.
    #[error("OutOfMemory")]
    OutOfMemory,
}
