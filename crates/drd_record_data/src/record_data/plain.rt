//! Addresses, strings and rules of names.
ghost use Rattle.drd_rdata.specs.declared.rdata.RData.TheVariants as rdata;

use crate::record_data::RecordData;
use drd_rdata::{A, AAAA, HINFO, NAPTR, RData, RecordType, TXT};

impl RecordData for A {
    ghost rdata = { rdata.A };

    fn try_borrow(record_data: &RData) -> Option<&A> {
        match record_data {
            RData::A(a) => Some(a),
            _ => None,
        }
    }

    fn record_type(&self) -> RecordType {
        RecordType::A
    }

    fn into_rdata(self) -> RData {
        RData::A(self)
    }

    fn is_update(&self) -> bool {
        false
    }
}

impl RecordData for AAAA {
    ghost rdata = { rdata.AAAA };

    fn try_borrow(record_data: &RData) -> Option<&AAAA> {
        match record_data {
            RData::AAAA(aaaa) => Some(aaaa),
            _ => None,
        }
    }

    fn record_type(&self) -> RecordType {
        RecordType::AAAA
    }

    fn into_rdata(self) -> RData {
        RData::AAAA(self)
    }

    fn is_update(&self) -> bool {
        false
    }
}

impl RecordData for HINFO {
    ghost rdata = { rdata.HINFO };

    fn try_borrow(record_data: &RData) -> Option<&HINFO> {
        match record_data {
            RData::HINFO(hinfo) => Some(hinfo),
            _ => None,
        }
    }

    fn record_type(&self) -> RecordType {
        RecordType::HINFO
    }

    fn into_rdata(self) -> RData {
        RData::HINFO(self)
    }

    fn is_update(&self) -> bool {
        false
    }
}

impl RecordData for NAPTR {
    ghost rdata = { rdata.NAPTR };

    fn try_borrow(record_data: &RData) -> Option<&NAPTR> {
        match record_data {
            RData::NAPTR(naptr) => Some(naptr),
            _ => None,
        }
    }

    fn record_type(&self) -> RecordType {
        RecordType::NAPTR
    }

    fn into_rdata(self) -> RData {
        RData::NAPTR(self)
    }

    fn is_update(&self) -> bool {
        false
    }
}

impl RecordData for TXT {
    ghost rdata = { rdata.TXT };

    fn try_borrow(record_data: &RData) -> Option<&TXT> {
        match record_data {
            RData::TXT(txt) => Some(txt),
            _ => None,
        }
    }

    fn record_type(&self) -> RecordType {
        RecordType::TXT
    }

    fn into_rdata(self) -> RData {
        RData::TXT(self)
    }

    fn is_update(&self) -> bool {
        false
    }
}
