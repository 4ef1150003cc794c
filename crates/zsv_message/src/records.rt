//! The records that a message holds.

ghost use Rattle.std.specs.Prelude.{◌≡◌, IfOk, IfErr, slice_get};
ghost use Rattle.zsv_message.specs.Holding.{additionals_held, answers_held, authorities_held, signature_held};
ghost use Rattle.zsv_message.specs.zst_record.dnw_decoder.Reading.{IsWantOfMemory};

use std::alloc::Global;
use zsv_sections::{DecodeError, Record, TsigRecord, push};

/// The records of a message by section, and its signature.
#[derive(Debug, Drop)]
pub(crate) struct HeldRecords {
    /// The answers.
    pub(crate) answers: Vec<Record>,
    /// The records of authority.
    pub(crate) authorities: Vec<Record>,
    /// The additional records, without options and a signature by a shared key.
    pub(crate) additionals: Vec<Record>,
    /// The signature by a shared key, in a list of at most one: it is large, and few messages have one.
    pub(crate) signature: Vec<TsigRecord>,
}

impl HeldRecords {
    /// These records, in a list of at most one, which takes no memory where there are none.
    pub(crate) fn listed(
        alloc: Global,
        answers: Vec<Record>,
        authorities: Vec<Record>,
        additionals: Vec<Record>,
        signature: Vec<TsigRecord>,
    ) -> Result<Vec<HeldRecords>, DecodeError>
        ensures answers { IfOk result (λ held. answers_held (slice_get held.items 0) ≡ answers.items) }
        ensures authorities { IfOk result (λ held. authorities_held (slice_get held.items 0) ≡ authorities.items) }
        ensures additionals { IfOk result (λ held. additionals_held (slice_get held.items 0) ≡ additionals.items) }
        ensures signature { IfOk result (λ held. signature_held (slice_get held.items 0) ≡ slice_get signature.items 0) }
        ensures memory { IfErr result IsWantOfMemory }
    {
        let mut held = Vec::new(alloc);
        if answers.is_empty()
            && authorities.is_empty()
            && additionals.is_empty()
            && signature.is_empty()
        {
            return Ok(held);
        }
        let records = HeldRecords {
            answers,
            authorities,
            additionals,
            signature,
        };
        let Ok(()) = push(&mut held, records) else {
            return Err(DecodeError::Memory);
        };
        Ok(held)
    }
}
