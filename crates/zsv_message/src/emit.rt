//! Messages that are written whole (RFC 1035 section 4.1, RFC 6891 section 6.1.1, RFC 8945 section 5.1).

ghost use Rattle.std.specs.Prelude.{◌≡◌, ◌+◌, ◌<◌, ◌≤◌, ◌^◌, ◌++◌, ℕ, List, length, option_copied, option_to_list, IfErr, IfOk, OnOk, MatchResult};
ghost use Rattle.zsv_sections.specs.zst_record.dnw_encoder.Effects.{Emitted, IsRefusal, Writes, WritesOctets};
ghost use Rattle.zsv_sections.specs.zst_record.dnw_encoder.Encoders.{state};
ghost use Rattle.zsv_sections.specs.zst_record.Writing.{EmitsRecord, RefusesRecord};
ghost use Rattle.zsv_sections.specs.zsv_parts.Headers.{header_octets};
ghost use Rattle.zsv_message.specs.Writing.{EmitsMessage, HasManyRecords, IsCountable, RefusesAmong, RefusesEmission, TellsManyRecords, additional_count, all_records, header_over};

use crate::request::MessageRequest;
use zsv_sections::{
    BinEncodable, BinEncoder, Header, HeaderCounts, Metadata, ProtoError, ResponseCode,
};

// How many records there are, if 16 bits count them.
fn count_of(records: usize) -> Result<u16, ProtoError>
    ensures { MatchResult result (λ count. count ≡ records) (λ e. (2 ^ 16 ≤ records) × TellsManyRecords e) }
{
    match u16::try_from(records) {
        Ok(count) => Ok(count),
        Err(_) => Err(ProtoError::Message("more records than 16 bits count")),
    }
}

// Writes values one behind the other, all of them.
fn emit_list<E: BinEncodable>(encoder: &mut BinEncoder<'_>, values: &[E]) -> Result<(), ProtoError>
    ensures same_reference { encoder.new.buffer.ghost_name ≡ encoder.old.buffer.ghost_name }
    ensures writes { Writes (state encoder.old) (state encoder.new) }
    ensures ok { OnOk result (Emitted E.emits (state encoder.old) values.now (state encoder.new)) }
    ensures cause { IfErr result
        (λ e. RefusesAmong E.emits (λ value at. E.refuses value at e (state encoder.new)) (state encoder.old) values.now) }
{
    let mut left = values;
    'values: while let Some((value, later)) = left.split_first() {
        value.emit(encoder)?;
        left = later;
    }
    Ok(())
}

// Writes a value, if there is one.
fn emit_any<E: BinEncodable>(
    encoder: &mut BinEncoder<'_>,
    value: Option<&E>,
) -> Result<(), ProtoError>
    ensures same_reference { encoder.new.buffer.ghost_name ≡ encoder.old.buffer.ghost_name }
    ensures writes { Writes (state encoder.old) (state encoder.new) }
    ensures ok { OnOk result (Emitted E.emits (state encoder.old) (option_to_list (option_copied value.entry)) (state encoder.new)) }
    ensures cause { IfErr result
        (λ e. RefusesAmong E.emits (λ value at. E.refuses value at e (state encoder.new)) (state encoder.old)
        (option_to_list (option_copied value.entry))) }
{
    match value {
        Some(value) => value.emit(encoder),
        None => Ok(()),
    }
}

impl MessageRequest<'_> {
    // How many records the additional section has, if 16 bits count them: options and signature are among them.
    fn additional_count(&self) -> Result<u16, ProtoError>
        ensures { MatchResult result (λ count. count ≡ additional_count self.now)
            (λ e. (2 ^ 16 ≤ additional_count self.now) × TellsManyRecords e) }
    {
        let options = usize::from(self.edns().is_some());
        let signatures = usize::from(self.signature().is_some());
        count_of(self.additionals().len() + options + signatures)
    }

    // The header over the message, if 16 bits count the records of each section.
    fn header(&self) -> Result<Header, ProtoError>
        ensures { MatchResult result (λ header. (header ≡ header_over self.now) × IsCountable self.now)
            (HasManyRecords self.now) }
    {
        let metadata = self.metadata();
        let response_code = ResponseCode::from(0, metadata.response_code.low());
        let counts = HeaderCounts {
            queries: self.queries().len() as u16,
            answers: count_of(self.answers().len())?,
            authorities: count_of(self.authorities().len())?,
            additionals: self.additional_count()?,
        };
        let metadata = Metadata {
            response_code,
            ..metadata
        };
        Ok(Header { metadata, counts })
    }

    // Writes the header, and the questions as they were read.
    fn emit_front(&self, header: Header, encoder: &mut BinEncoder<'_>) -> Result<(), ProtoError>
        ensures same_reference { encoder.new.buffer.ghost_name ≡ encoder.old.buffer.ghost_name }
        ensures writes { Writes (state encoder.old) (state encoder.new) }
        ensures ok { OnOk result (WritesOctets (header_octets header ++ self.now.asked.octets) (state encoder.old) (state encoder.new)) }
        ensures fits { OnOk result ((state encoder.old).offset + (12 + length self.now.asked.octets) ≤ (state encoder.old).maximum) }
        ensures cause { IfErr result (IsRefusal (state encoder.old) (12 + length self.now.asked.octets)) }
    {
        header.emit(encoder)?;
        encoder.emit_vec(self.queries().as_bytes())
    }

    // Writes the records, section by section.
    fn emit_records(&self, encoder: &mut BinEncoder<'_>) -> Result<(), ProtoError>
        ensures same_reference { encoder.new.buffer.ghost_name ≡ encoder.old.buffer.ghost_name }
        ensures writes { Writes (state encoder.old) (state encoder.new) }
        ensures ok { OnOk result (Emitted EmitsRecord (state encoder.old) (all_records self.now) (state encoder.new)) }
        ensures cause { IfErr result
            (λ e. RefusesAmong EmitsRecord (λ r at. RefusesRecord r at e) (state encoder.old) (all_records self.now)) }
    {
        emit_list(encoder, self.answers())?;
        emit_list(encoder, self.authorities())?;
        emit_list(encoder, self.additionals())
    }
}

impl BinEncodable for MessageRequest<'_> {
    ghost emits = { EmitsMessage };

    ghost refuses = { RefusesEmission };

    /// Writes the message whole: header, questions as they were read, the records of each section, options and signature.
    /// The header counts what is written, and has the last four bits of the response code. A message isn't cut, since it
    /// would be another: one that doesn't fit is refused. So is one of more records in a section than 16 bits count.
    fn emit(&self, encoder: &mut BinEncoder<'_>) -> Result<(), ProtoError> {
        let header = self.header()?;
        self.emit_front(header, encoder)?;
        self.emit_records(encoder)?;
        emit_any(encoder, self.edns())?;
        emit_any(encoder, self.signature())
    }
}
