//! The reply as a whole: what it says, and whether its answers are those of a transfer.

ghost use Rattle.std.specs.Prelude.{◌≡◌, true, false, IfErr, IfOk, MatchOption, None, Some};
ghost use Rattle.std.specs.List.{list_any};
ghost use Rattle.zsv_message.specs.Messages.{IsMessage, Message};
ghost use Rattle.zsv_message.specs.zst_record.dnw_name.DomainName.{DomainName};
ghost use Rattle.authority_transfer.specs.Transfers.{IsReplyFault, IsUnframed, ReplyGives, but_last, fault_read, is_answer, is_framed, is_response, is_sig, is_signed, reply_fault, unread};

use crate::answers::read_answers;
use crate::error::TransferError;
use crate::frame::begins_with;
use std::alloc::Global;
use std::mem;
use zsv_message::{
    DecodeError, MessageRequest, MessageType, Metadata, Name, OpCode, Record, RecordType,
    ResponseCode,
};

// Whether a message is a reply.
fn is_response(message_type: MessageType) -> bool
    ensures { result ≡ is_response message_type }
{
    matches!(message_type, MessageType::Response)
}

// Whether a message is a reply to a query, without an error. The response code has the bits of the options.
fn is_answer(metadata: Metadata) -> bool
    ensures { result ≡ is_answer metadata }
{
    is_response(metadata.message_type)
        && metadata.op_code == OpCode::Query
        && metadata.response_code == ResponseCode::NoError
}

// Whether one of the records is a SIG.
fn has_sig(records: &[Record]) -> bool
    ensures { result ≡ list_any is_sig records.now }
{
    records
        .iter()
        .any(|standing| standing.record_type() == RecordType::SIG)
}

// Whether a message is signed, by a shared or a public key.
fn is_signed(message: &MessageRequest<'_>) -> bool
    ensures { result ≡ is_signed message.now }
{
    message.signature().is_some() || has_sig(message.additionals())
}

// The first cause that refuses a message, whatever its answers are.
fn reply_fault(message: &MessageRequest<'_>) -> Option<TransferError>
    ensures { result ≡ reply_fault message.now }
{
    let metadata = message.metadata();
    if !is_answer(metadata) {
        return Some(TransferError::NotAReply);
    }
    if metadata.truncation {
        return Some(TransferError::Truncated);
    }
    if is_signed(message) {
        return Some(TransferError::Signed);
    }
    None
}

// Why no message is read.
fn unread(cause: DecodeError) -> TransferError
    ensures { result ≡ unread cause }
{
    match cause {
        DecodeError::Memory => TransferError::OutOfMemory,
        _ => TransferError::NotAMessage,
    }
}

// Why nothing was read, or the first cause that refuses the message that was, whatever its answers are.
fn fault_of(read: Result<MessageRequest<'_>, DecodeError>) -> Option<TransferError>
    ensures { result ≡ fault_read read.entry }
{
    match read {
        Ok(message) => {
            let fault = reply_fault(&message);
            mem::drop(message);
            fault
        }
        Err(cause) => Some(unread(cause)),
    }
}

// Why the octets are no message, or the first cause that refuses it whatever its answers are.
fn message_fault(alloc: Global, reply: &[u8]) -> Option<TransferError>
    ensures first { MatchOption result ((m : Message) × IsMessage reply.now m × (reply_fault m ≡ None))
        (λ e. (origin : DomainName) → IsReplyFault origin reply.now e) }
    ensures framed { result ≡ Some TransferError.NoFrame → ⊥ }
{
    fault_of(MessageRequest::read(alloc, reply))
}

// The answers but the last one, where they are those of a transfer.
fn between(origin: &Name, mut answers: Vec<Record>) -> Result<Vec<Record>, TransferError>
    ensures ok { IfOk result (λ records. (is_framed origin.now answers.items ≡ true) × (records.items ≡ but_last answers.items)) }
    ensures unframed { IfErr result (λ e. (e ≡ TransferError.NoFrame) × (is_framed origin.now answers.items ≡ false)) }
{
    let Some(last) = answers.pop() else {
        return Err(TransferError::NoFrame);
    };
    let framed = begins_with(origin, answers.first(), &last);
    mem::drop(last);
    if framed {
        Ok(answers)
    } else {
        mem::drop(answers);
        Err(TransferError::NoFrame)
    }
}

/// The records that a reply transfers to the zone of an origin: its answers but the last one.
pub fn transferred(alloc: Global, origin: &Name, reply: &[u8]) -> Result<Vec<Record>, TransferError>
    ensures gives { ReplyGives origin.now reply.now (λ records. records.items) result }
    ensures unframed { IfErr result (λ e. e ≡ TransferError.NoFrame → IsUnframed origin.now reply.now) }
{
    if let Some(fault) = message_fault(alloc, reply) {
        return Err(fault);
    }
    let Ok(answers) = read_answers(alloc, reply) else {
        return Err(TransferError::OutOfMemory);
    };
    between(origin, answers)
}
