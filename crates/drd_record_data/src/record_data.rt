//! What the types of record data share.
use drd_rdata::{RData, RecordType};

mod keys;
mod names;
mod others;
mod plain;

/// A type of record data.
pub trait RecordData: Sized {
    ghost use Rattle.std.specs.Prelude.{◌≡◌, IfSome, IfNone};
    ghost use Rattle.drd_rdata.specs.Types.{type_of, is_update0};
    ghost use Rattle.drd_rdata.specs.declared.rdata.RData.{RData as Rdata};

    // The value among the data of all types.
    ghost rdata: { Self → Rdata };

    /// The value in record data, where they are of this type.
    fn try_borrow(record_data: &RData) -> Option<&Self>
        ensures some { IfSome result (λ value. record_data.now ≡ rdata value.now) }
        ensures none { IfNone result ((value : Self) → record_data.now ≡ rdata value → ⊥) };

    /// The type of the record.
    fn record_type(&self) -> RecordType
        ensures { result ≡ type_of (rdata self.now) };

    /// The value as record data.
    fn into_rdata(self) -> RData
        ensures { result ≡ rdata self };

    /// Whether these are the data of a record of an update that has none (RFC 2136 2.4, 2.5).
    fn is_update(&self) -> bool
        ensures { result ≡ is_update0 (rdata self.now) };
}

impl RecordData for RData {
    ghost rdata = { λ value. value };

    fn try_borrow(record_data: &RData) -> Option<&RData> {
        Some(record_data)
    }

    fn record_type(&self) -> RecordType {
        RData::record_type(self)
    }

    fn into_rdata(self) -> RData {
        self
    }

    fn is_update(&self) -> bool {
        matches!(self, RData::Update0(_))
    }
}
