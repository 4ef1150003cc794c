//! The records of an answer, those of signed zones left out where they aren't asked for.

ghost use Rattle.std.specs.Prelude.{◌≡◌};
ghost use Rattle.std.specs.Iterator.{YieldsFirstBy, item_count};
ghost use Rattle.zst_request.specs.dnw_codes.declared.record_type.RecordType.{RecordType};
ghost use Rattle.zsv_answer.specs.Shown.{is_dnssec_record, is_shown, shown_to};
ghost use Rattle.zsv_answer.specs.zsv_reply.zst_record.Lending.{seen};

use std::marker::Model;
use zst_request::{LookupRecordsIter, RecordRef, RecordType};

/// The records of an answer to a question, lent field by field. A contract sees it as the records that are left.
#[derive(Drop)]
pub struct ShownRecords<'r> {
    records: LookupRecordsIter<'r>,
    // The type that is asked for, where the records of signed zones are left out.
    asked: Option<RecordType>,
}

impl<'r> Model for ShownRecords<'r> {
    ghost use Rattle.std.specs.Prelude.{List};
    ghost use Rattle.zsv_answer.specs.Shown.{shown_if};
    ghost use Rattle.zsv_answer.specs.zsv_reply.zst_record.declared.records.Record.{Record as Entry};

    ghost Value = { List Entry };

    ghost view = { λ shown. shown_if shown.asked shown.records };
}

impl<'r> ShownRecords<'r> {
    ghost use Rattle.zsv_answer.specs.Shown.{shown_if};

    /// These records, without those of signed zones but of the type that is asked for, if one is given.
    pub fn new(records: LookupRecordsIter<'r>, asked: Option<RecordType>) -> ShownRecords<'r>
        ensures { result ≡ shown_if asked records.entry }
    {
        ShownRecords { records, asked }
    }
}

impl<'r> Iterator for ShownRecords<'r> {
    type Item = RecordRef<'r>;

    ghost next_gives = { YieldsFirstBy (λ lent. seen lent) (λ records. records) };

    ghost remaining = { item_count (λ records. records) };

    #[inline(always)]
    fn next(&mut self) -> Option<RecordRef<'r>> {
        match self.asked {
            None => self.records.next(),
            Some(asked) => next_shown(&mut self.records, asked),
        }
    }
}

// The next record that is shown to whom asks for a type, and not for all of signed zones.
fn next_shown<'r>(records: &mut LookupRecordsIter<'r>, asked: RecordType) -> Option<RecordRef<'r>>
    ensures { YieldsFirstBy (λ lent. seen lent) (shown_to asked) records.old result records.new }
{
    'records: loop {
        let next = records.next()?;
        if is_shown(asked, &next) {
            return Some(next);
        }
    }
}

// Whether a record is shown to whom asks for a type, and not for all of signed zones.
fn is_shown(asked: RecordType, record: &RecordRef<'_>) -> bool
    ensures { result ≡ is_shown asked (seen record.now) }
{
    let record_type = record.rdata.record_type();
    record_type == asked || !is_dnssec_record(record_type)
}

// Whether the type is one of signed zones.
fn is_dnssec_record(record_type: RecordType) -> bool
    ensures { result ≡ is_dnssec_record record_type }
{
    [
        RecordType::DS,
        RecordType::DNSKEY,
        RecordType::KEY,
        RecordType::SIG,
        RecordType::RRSIG,
        RecordType::NSEC,
        RecordType::NSEC3,
        RecordType::NSEC3PARAM,
        RecordType::CDS,
        RecordType::CDNSKEY,
    ]
    .contains(&record_type)
}
