//! The record of a line.

ghost use Rattle.std.specs.Prelude.{◌≡◌, ◌<◌, ◌∷◌, ℕ, List, length, IfErr, IfOk, MatchOption};
ghost use Rattle.zst_zone.specs.dnw_name.DomainName.{DomainName, lowercase_name};
ghost use Rattle.zst_zone.specs.zst_record.Records.{belongs_to_message};
ghost use Rattle.authority_load.specs.declared.loader.LoadCause.TheVariants as causes;
ghost use Rattle.authority_load.specs.ZoneText.{cause_order, data_text, words_of, is_internet, with_cause, DataGives, HeaderGives, IsHeading, IsOwnerText, LineGives, MayJoin, RefusesValue};

use crate::joining::fault_of;
use crate::loader::LoadCause;
use crate::text::{TextError, parse_owner, parse_rdata, parse_type, ttl_seconds};
use crate::words::first_word;
use drd_record_data::numbers_fit;
use std::alloc::Global;
use std::mem;
use zst_zone::{DNSClass, Name, NameKey, RData, Record, RecordType, StoredZone};

/// The fields of a line: the first four words, and the text after them.
#[derive(Clone, Copy)]
struct Fields<'a> {
    owner: &'a str,
    ttl: &'a str,
    dns_class: &'a str,
    record_type: &'a str,
    rdata: &'a str,
}

/// The fields as values, and the text of the data.
#[derive(Drop)]
struct Header<'a> {
    name: Name,
    ttl: u32,
    record_type: RecordType,
    rdata: &'a str,
}

/// A record and the key of its owner.
#[derive(Drop)]
pub struct KeyedRecord {
    pub key: NameKey,
    pub next: Record,
}

/// The record of a line, which may join the zone, with its owner's key; or the first cause why the line is refused.
pub fn record_of(alloc: Global, zone: &StoredZone, line: &str) -> Result<KeyedRecord, LoadCause>
    ensures gives { LineGives zone.now line.now (λ taken. taken.next) result }
    ensures keyed { IfOk result (λ taken. taken.key ≡ lowercase_name taken.next.name) }
{
    let header = header_of(alloc, line)?;
    let key = match NameKey::of(alloc, &header.name) {
        Ok(key) => key,
        Err(_) => return Err(LoadCause::OutOfMemory),
    };
    let rdata = data_at(alloc, zone, &key, &header)?;
    numbers_fit(&rdata);
    let next = Record {
        name: header.name,
        dns_class: DNSClass::IN,
        ttl: header.ttl,
        rdata,
    };
    tested(zone, key, next)
}

/// A record that may join the zone, with its owner's key; or the first cause that keeps it out.
fn tested(zone: &StoredZone, key: NameKey, next: Record) -> Result<KeyedRecord, LoadCause>
    requires { key ≡ lowercase_name next.name }
    ensures ok { IfOk result (λ taken. (taken.next ≡ next) × (taken.key ≡ key) × MayJoin zone.now next) }
    ensures refused { IfErr result (λ cause. RefusesValue zone.now next cause) }
{
    match fault_of(zone, &key, &next) {
        Some(cause) => {
            mem::drop(next);
            mem::drop(key);
            Err(cause)
        }
        None => Ok(KeyedRecord { key, next }),
    }
}

/// The data of a line whose owner has this key; or that the owner is outside the zone, or the text malformed.
fn data_at(
    alloc: Global,
    zone: &StoredZone,
    key: &NameKey,
    header: &Header<'_>,
) -> Result<RData, LoadCause>
    requires { key.now ≡ lowercase_name header.now.name }
    ensures { (line : List ℕ)
        → IsHeading line (record { name = header.now.name; ttl = header.now.ttl; record_type = header.now.record_type; rdata = header.now.rdata.now })
        → DataGives zone.now line (record { name = header.now.name; ttl = header.now.ttl; record_type = header.now.record_type; rdata = header.now.rdata.now }) result }
{
    if !zone.is_in_zone(key) {
        return Err(LoadCause::OutsideZone);
    }
    or_cause(
        parse_rdata(alloc, header.record_type, header.rdata),
        LoadCause::Data,
    )
}

/// The fields of a line as values, or the first cause why they have none.
fn header_of(alloc: Global, line: &str) -> Result<Header<'_>, LoadCause>
    ensures { HeaderGives (cause_order causes.Owner) line.now
        (λ h. record { name = h.name; ttl = h.ttl; record_type = h.record_type; rdata = h.rdata.now }) result }
{
    let Some(fields) = fields_of(line) else {
        return Err(LoadCause::FieldCount);
    };
    let name = or_cause(
        parse_owner(alloc, fields.owner.as_bytes()),
        LoadCause::Owner,
    )?;
    let (ttl, record_type) = ttl_and_type(alloc, &fields)?;
    Ok(Header {
        name,
        ttl,
        record_type,
        rdata: fields.rdata,
    })
}

/// The values of the fields after the owner.
fn ttl_and_type(alloc: Global, fields: &Fields<'_>) -> Result<(u32, RecordType), LoadCause>
    ensures { (line : List ℕ) (name : DomainName)
        → words_of line ≡ fields.now.owner.now ∷ fields.now.ttl.now ∷ fields.now.dns_class.now ∷ fields.now.record_type.now ∷ words_of fields.now.rdata.now
        → IsOwnerText fields.now.owner.now name
        → HeaderGives (cause_order causes.UnknownType) line (λ told. record { name = name; ttl = told.0; record_type = told.1; rdata = data_text line }) result }
{
    let Some(ttl) = ttl_seconds(fields.ttl) else {
        return Err(LoadCause::Ttl);
    };
    if !is_internet_word(fields.dns_class.as_bytes()) {
        return Err(LoadCause::Class);
    }
    let record_type = or_cause(
        parse_type(alloc, fields.record_type),
        LoadCause::UnknownType,
    )?;
    if is_of_messages(record_type) {
        return Err(LoadCause::TypeNotLoaded);
    }
    Ok((ttl, record_type))
}

/// The fields of a line, if it has four words.
fn fields_of(line: &str) -> Option<Fields<'_>>
    ensures { MatchOption result (length (words_of line.now) < 4)
        (λ f. (words_of line.now ≡ f.owner.now ∷ f.ttl.now ∷ f.dns_class.now ∷ f.record_type.now ∷ words_of f.rdata.now)
        × (f.rdata.now ≡ data_text line.now)) }
{
    let (owner, behind_owner) = first_word(line)?;
    let (ttl, behind_ttl) = first_word(behind_owner)?;
    let (dns_class, behind_class) = first_word(behind_ttl)?;
    let (record_type, rdata) = first_word(behind_class)?;
    Some(Fields {
        owner,
        ttl,
        dns_class,
        record_type,
        rdata,
    })
}

/// The value, or for a malformed text this cause.
fn or_cause<X>(read: Result<X, TextError>, cause: LoadCause) -> Result<X, LoadCause>
    ensures { result ≡ with_cause cause read }
{
    match read {
        Ok(value) => Ok(value),
        Err(TextError::Malformed) => Err(cause),
        Err(TextError::OutOfMemory) => Err(LoadCause::OutOfMemory),
    }
}

/// Whether a word is the class IN.
fn is_internet_word(word: &[u8]) -> bool
    ensures { result ≡ is_internet word.now }
{
    word.eq_ignore_ascii_case(b"IN")
}

/// Whether a type belongs to one message and never to a zone.
fn is_of_messages(record_type: RecordType) -> bool
    ensures { result ≡ belongs_to_message record_type }
{
    matches!(
        record_type,
        RecordType::OPT | RecordType::SIG | RecordType::TSIG
    )
}
