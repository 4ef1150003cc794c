//! The prescan of the records of an update (RFC 2136 section 3.4.1). It takes no memory.

ghost use Rattle.std.specs.Prelude.{◌≡◌, ◌||◌};
ghost use Rattle.zst_request.specs.Prerequisites.{asks_any, asks_transfer, first_refused, has_data, is_well_formed, prescan_refused};

use zst_draft::{DNSClass, Name, RData, Record, RecordType, ResponseCode};

/// Why the first record is refused that is, in the zone of this origin.
pub(crate) fn prescan(origin: &Name, changes: &[Record]) -> Option<ResponseCode>
    ensures { result ≡ first_refused (prescan_refused origin.now) changes.now }
{
    for change in changes.iter() {
        if let Some(code) = refusal(origin, change) {
            return Some(code);
        }
    }
    None
}

// Why one record is refused, if it is.
fn refusal(origin: &Name, change: &Record) -> Option<ResponseCode>
    ensures { result ≡ prescan_refused origin.now change.now }
{
    if !origin.zone_of(&change.name) {
        return Some(ResponseCode::NotZone);
    }
    if !is_well_formed(change) {
        return Some(ResponseCode::FormErr);
    }
    None
}

// Whether time to live, type and RDATA are those of a record that is added (IN) or deleted (ANY, NONE).
fn is_well_formed(change: &Record) -> bool
    ensures { result ≡ is_well_formed change.now change.now.dns_class }
{
    match change.dns_class {
        DNSClass::IN => has_data(change) && !asks_any_or_transfer(change),
        DNSClass::ANY => change.ttl == 0 && !has_data_or_asks_transfer(change),
        DNSClass::NONE => change.ttl == 0 && !asks_any_or_transfer(change),
        _ => false,
    }
}

fn asks_any_or_transfer(change: &Record) -> bool
    ensures { result ≡ (asks_any change.now || asks_transfer change.now) }
{
    asks_any(change) || asks_transfer(change)
}

fn has_data_or_asks_transfer(change: &Record) -> bool
    ensures { result ≡ (has_data change.now || asks_transfer change.now) }
{
    has_data(change) || asks_transfer(change)
}

/// Whether a record of an update has RDATA.
pub(crate) fn has_data(asked: &Record) -> bool
    ensures { result ≡ has_data asked.now }
{
    !matches!(&asked.rdata, RData::Update0(_))
}

/// Whether a record of an update is for all sets of its name.
pub(crate) fn asks_any(asked: &Record) -> bool
    ensures { result ≡ asks_any asked.now }
{
    asked.record_type() == RecordType::ANY
}

// Whether the type is that of a question for a transfer, which no record has (RFC 5936, RFC 1995).
fn asks_transfer(asked: &Record) -> bool
    ensures { result ≡ asks_transfer asked.now }
{
    asked.record_type() == RecordType::AXFR || asked.record_type() == RecordType::IXFR
}
