//! Record data in messages.
ghost use Rattle.std.specs.Prelude.{◌≡◌, ◌+◌, ◌<◌, ◌≤◌, ◌⊎◌, ◌↔◌, ℕ, length as size, IfOk, IfErr, IsTrue, OnOk};
ghost use Rattle.drd_types.specs.dnw_codes.declared.error.DecodeError.TheVariants.{UnknownRecordTypeValue};
ghost use Rattle.drd_types.specs.dnw_codes.declared.error.DecodeError.{DecodeError as Error};
ghost use Rattle.drd_types.specs.dnw_codes.declared.error.ProtoError.{ProtoError as WritingError};
ghost use Rattle.drd_types.specs.dnw_decoder.Reading.{IsWantOfMemory};
ghost use Rattle.drd_types.specs.dnw_encoder.State.{State};
ghost use Rattle.drd_rdata.specs.declared.rdata.RData.{RData as Rdata};
ghost use Rattle.drd_rdata.specs.Order.{HasCanonical, canonical_data};
ghost use Rattle.drd_rdata.specs.Reading.{IsEmptyOf, IsOther, HoldsAs, ReadsAs, RefusesAs, Shows, WantsMemoryAs};
ghost use Rattle.drd_rdata.specs.ReadingBack.{IsReadBack};
ghost use Rattle.drd_rdata.specs.Types.{Is, type_of};
ghost use Rattle.drd_rdata.specs.Writing.{RefusesRData, WantsRoom};

use crate::case::Case;
use crate::rdata::RData;
use drd_names_keys::{
    ANAME, BinDecoder, CERT, CNAME, CSYNC, MX, NS, OPENPGPKEY, PTR, SMIMEA, SOA, SRV, SSHFP, TLSA,
};
use drd_svcb::{A, AAAA, HTTPS, SVCB};
use drd_types::{
    CAA, DecodeError, HINFO, NAPTR, NULL, OPT, RecordDataDecodable, RecordType, Restrict, TXT,
};
use std::alloc::Global;

impl RData {
    /// The data of a record of this type, so many octets at the decoder's index, which moves behind them. No octets are
    /// `Update0`, for OPT no options. Refused are octets that aren't data of the type: by their number, where reading
    /// stopped before their end or behind it, else by the cause. On an error the decoder is where reading stopped.
    #[tactic(auto, using(crate::proofs::WritingLaws::read_room, crate::proofs::BackLaws::read_canonical))]
    pub fn read(
        alloc: Global,
        decoder: &mut BinDecoder<'_>,
        record_type: RecordType,
        length: Restrict<u16>,
    ) -> Result<RData, DecodeError>
        ensures ok { IfOk result (λ value. ReadsAs record_type decoder.old.octets decoder.old.index length value) }
        ensures kind { IfOk result (λ value. type_of value ≡ record_type) }

        // Its equality and order with other data of the type are those of the canonical octets.
        ensures canonical { IfOk result (λ value. HasCanonical value (canonical_data value)) }

        // It is written wherever there are memory and room.
        ensures written { IfOk result (λ value. (old : State) (e : WritingError) → RefusesRData value old e → WantsRoom old e) }

        // Where it is written, in any mode, data of the type stand that are equal to it, and no others.
        ensures back { 0 < length → IfOk result (λ value. IsReadBack record_type value) }
        ensures end { OnOk result (decoder.new.index ≡ decoder.old.index + length) }
        ensures same { decoder.new.octets ≡ decoder.old.octets }
        ensures forward { decoder.old.index ≤ decoder.new.index }
        ensures within { decoder.new.index ≤ size decoder.new.octets }
        ensures refused { IfErr result (λ e. (0 < length) × (WantsMemoryAs record_type decoder.old.octets decoder.old.index length e
            ⊎ RefusesAs record_type decoder.old.octets decoder.old.index length e)) }
        ensures none { IfErr result (λ e. IsWantOfMemory e
            ⊎ ((value : Rdata) → ReadsAs record_type decoder.old.octets decoder.old.index length value → ⊥)) }
    {
        let _start = decoder.index();
        if length.unverified() == 0 {
            return Ok(RData::empty(alloc, record_type));
        }
        RData::read_some(alloc, decoder, record_type, length)
    }

    // The data of a record of this type without octets.
    fn empty(alloc: Global, record_type: RecordType) -> RData
        ensures value { IsEmptyOf record_type result }
        ensures kind { type_of result ≡ record_type }
    {
        match record_type {
            RecordType::OPT => RData::OPT(OPT::new(Vec::new(alloc))),
            other => RData::Update0(other),
        }
    }

    // The data of a record of this type with octets.
    fn read_some(
        alloc: Global,
        decoder: &mut BinDecoder<'_>,
        record_type: RecordType,
        length: Restrict<u16>,
    ) -> Result<RData, DecodeError>
        ensures ok { IfOk result (λ value. HoldsAs record_type decoder.old.octets decoder.old.index value (decoder.old.index + length)) }
        ensures kind { IfOk result (λ value. type_of value ≡ record_type) }
        ensures end { OnOk result (decoder.new.index ≡ decoder.old.index + length) }
        ensures same { decoder.new.octets ≡ decoder.old.octets }
        ensures forward { decoder.old.index ≤ decoder.new.index }
        ensures within { decoder.new.index ≤ size decoder.new.octets }
        ensures refused { IfErr result (λ e. WantsMemoryAs record_type decoder.old.octets decoder.old.index length e
            ⊎ RefusesAs record_type decoder.old.octets decoder.old.index length e) }
        ensures none { IfErr result (λ e. IsWantOfMemory e
            ⊎ ((value : Rdata) → HoldsAs record_type decoder.old.octets decoder.old.index value (decoder.old.index + length) → ⊥)) }
    {
        match record_type {
            RecordType::A => read_as::<A>(alloc, decoder, length),
            RecordType::AAAA => read_as::<AAAA>(alloc, decoder, length),
            RecordType::ANAME => read_as::<ANAME>(alloc, decoder, length),
            RecordType::CAA => read_as::<CAA>(alloc, decoder, length),
            RecordType::CERT => read_as::<CERT>(alloc, decoder, length),
            RecordType::CNAME => read_as::<CNAME>(alloc, decoder, length),
            RecordType::CSYNC => read_as::<CSYNC>(alloc, decoder, length),
            RecordType::HINFO => read_as::<HINFO>(alloc, decoder, length),
            RecordType::HTTPS => read_as::<HTTPS>(alloc, decoder, length),
            RecordType::MX => read_as::<MX>(alloc, decoder, length),
            RecordType::NAPTR => read_as::<NAPTR>(alloc, decoder, length),
            RecordType::NULL => read_as::<NULL>(alloc, decoder, length),
            RecordType::NS => read_as::<NS>(alloc, decoder, length),
            RecordType::OPENPGPKEY => read_as::<OPENPGPKEY>(alloc, decoder, length),
            RecordType::OPT => read_as::<OPT>(alloc, decoder, length),
            RecordType::PTR => read_as::<PTR>(alloc, decoder, length),
            RecordType::SMIMEA => read_as::<SMIMEA>(alloc, decoder, length),
            RecordType::SOA => read_as::<SOA>(alloc, decoder, length),
            RecordType::SRV => read_as::<SRV>(alloc, decoder, length),
            RecordType::SSHFP => read_as::<SSHFP>(alloc, decoder, length),
            RecordType::SVCB => read_as::<SVCB>(alloc, decoder, length),
            RecordType::TLSA => read_as::<TLSA>(alloc, decoder, length),
            RecordType::TXT => read_as::<TXT>(alloc, decoder, length),
            RecordType::ZERO => read_none(decoder, 0, length),
            RecordType::IXFR => read_none(decoder, 251, length),
            RecordType::AXFR => read_none(decoder, 252, length),
            RecordType::ANY => read_none(decoder, 255, length),
            other => read_unknown(alloc, decoder, other, length),
        }
    }
}

// The data of one type, as data of all types.
fn read_as<T: RecordDataDecodable + Case + Drop>(
    alloc: Global,
    decoder: &mut BinDecoder<'_>,
    length: Restrict<u16>,
) -> Result<RData, DecodeError>
    ensures ok { IfOk result (λ value. Is T.rdata (λ x. T.reads decoder.old.octets decoder.old.index x (decoder.old.index + length)) value) }
    ensures end { OnOk result (decoder.new.index ≡ decoder.old.index + length) }
    ensures same { decoder.new.octets ≡ decoder.old.octets }
    ensures forward { decoder.old.index ≤ decoder.new.index }
    ensures within { decoder.new.index ≤ size decoder.new.octets }
    ensures refused { IfErr result (λ e. (IsWantOfMemory e × (at : ℕ)
        × T.refuses decoder.old.octets decoder.old.index (decoder.old.index + length) e at) ⊎ ((cause : Error) × (at : ℕ)
        × T.refuses decoder.old.octets decoder.old.index (decoder.old.index + length) cause at
        × (IsWantOfMemory cause → ⊥) × Shows decoder.old.index length cause at e)) }
    ensures none { IfErr result (λ e. IsWantOfMemory e ⊎ ((value : Rdata)
        → Is T.rdata (λ x. T.reads decoder.old.octets decoder.old.index x (decoder.old.index + length)) value → ⊥)) }
{
    let start = decoder.index();
    match T::read_data(alloc, decoder, length) {
        Ok(data) => Ok(data.into_rdata()),
        Err(cause) => Err(shown(
            start,
            usize::from(length.unverified()),
            decoder.index(),
            cause,
        )),
    }
}

// The error of data that stopped at an index.
fn shown(start: usize, len: usize, stop: usize, cause: DecodeError) -> DecodeError
    requires { start ≤ stop }
    ensures memory { IsWantOfMemory cause → result ≡ cause }
    ensures shown { IsWantOfMemory cause ⊎ ((IsWantOfMemory cause → ⊥) × Shows start len cause stop result) }
{
    if is_memory(&cause) {
        return cause;
    }
    let read = stop - start;
    if read == len {
        return cause;
    }
    DecodeError::IncorrectRDataLengthRead { read, len }
}

// Whether memory was wanted.
fn is_memory(cause: &DecodeError) -> bool
    ensures { IsTrue result ↔ IsWantOfMemory cause.now }
{
    matches!(cause, DecodeError::Memory)
}

// The refusal of the type of this number, which has no data.
fn read_none(
    decoder: &BinDecoder<'_>,
    number: u16,
    length: Restrict<u16>,
) -> Result<RData, DecodeError>
    ensures refused { IfErr result (λ e. Shows decoder.now.index length (UnknownRecordTypeValue number) decoder.now.index e) }
    ensures none { IfOk result (λ value. ⊥) }
    ensures within { decoder.now.index ≤ size decoder.now.octets }
{
    let start = decoder.index();
    let cause = DecodeError::UnknownRecordTypeValue(number);
    Err(shown(start, usize::from(length.unverified()), start, cause))
}

// The octets of a type without a form of its own.
fn read_unknown(
    alloc: Global,
    decoder: &mut BinDecoder<'_>,
    code: RecordType,
    length: Restrict<u16>,
) -> Result<RData, DecodeError>
    requires { IsOther code }
    ensures ok { IfOk result (λ value. HoldsAs code decoder.old.octets decoder.old.index value (decoder.old.index + length)) }
    ensures end { OnOk result (decoder.new.index ≡ decoder.old.index + length) }
    ensures same { decoder.new.octets ≡ decoder.old.octets }
    ensures forward { decoder.old.index ≤ decoder.new.index }
    ensures within { decoder.new.index ≤ size decoder.new.octets }
    ensures refused { IfErr result (λ e. WantsMemoryAs code decoder.old.octets decoder.old.index length e
        ⊎ RefusesAs code decoder.old.octets decoder.old.index length e) }
    ensures none { IfErr result (λ e. IsWantOfMemory e
        ⊎ ((value : Rdata) → HoldsAs code decoder.old.octets decoder.old.index value (decoder.old.index + length) → ⊥)) }
{
    let start = decoder.index();
    match NULL::read_data(alloc, decoder, length) {
        Ok(rdata) => Ok(RData::Unknown { code, rdata }),
        Err(cause) => Err(shown(
            start,
            usize::from(length.unverified()),
            decoder.index(),
            cause,
        )),
    }
}
