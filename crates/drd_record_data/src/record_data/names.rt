//! Data that hold names.
ghost use Rattle.drd_rdata.specs.declared.rdata.RData.TheVariants as rdata;

use crate::record_data::RecordData;
use drd_rdata::{ANAME, CNAME, MX, NS, PTR, RData, RecordType, SOA, SRV};

impl RecordData for ANAME {
    ghost rdata = { rdata.ANAME };

    fn try_borrow(record_data: &RData) -> Option<&ANAME> {
        match record_data {
            RData::ANAME(aname) => Some(aname),
            _ => None,
        }
    }

    fn record_type(&self) -> RecordType {
        RecordType::ANAME
    }

    fn into_rdata(self) -> RData {
        RData::ANAME(self)
    }

    fn is_update(&self) -> bool {
        false
    }
}

impl RecordData for CNAME {
    ghost rdata = { rdata.CNAME };

    fn try_borrow(record_data: &RData) -> Option<&CNAME> {
        match record_data {
            RData::CNAME(cname) => Some(cname),
            _ => None,
        }
    }

    fn record_type(&self) -> RecordType {
        RecordType::CNAME
    }

    fn into_rdata(self) -> RData {
        RData::CNAME(self)
    }

    fn is_update(&self) -> bool {
        false
    }
}

impl RecordData for MX {
    ghost rdata = { rdata.MX };

    fn try_borrow(record_data: &RData) -> Option<&MX> {
        match record_data {
            RData::MX(mx) => Some(mx),
            _ => None,
        }
    }

    fn record_type(&self) -> RecordType {
        RecordType::MX
    }

    fn into_rdata(self) -> RData {
        RData::MX(self)
    }

    fn is_update(&self) -> bool {
        false
    }
}

impl RecordData for NS {
    ghost rdata = { rdata.NS };

    fn try_borrow(record_data: &RData) -> Option<&NS> {
        match record_data {
            RData::NS(ns) => Some(ns),
            _ => None,
        }
    }

    fn record_type(&self) -> RecordType {
        RecordType::NS
    }

    fn into_rdata(self) -> RData {
        RData::NS(self)
    }

    fn is_update(&self) -> bool {
        false
    }
}

impl RecordData for PTR {
    ghost rdata = { rdata.PTR };

    fn try_borrow(record_data: &RData) -> Option<&PTR> {
        match record_data {
            RData::PTR(ptr) => Some(ptr),
            _ => None,
        }
    }

    fn record_type(&self) -> RecordType {
        RecordType::PTR
    }

    fn into_rdata(self) -> RData {
        RData::PTR(self)
    }

    fn is_update(&self) -> bool {
        false
    }
}

impl RecordData for SOA {
    ghost rdata = { rdata.SOA };

    fn try_borrow(record_data: &RData) -> Option<&SOA> {
        match record_data {
            RData::SOA(soa) => Some(soa),
            _ => None,
        }
    }

    fn record_type(&self) -> RecordType {
        RecordType::SOA
    }

    fn into_rdata(self) -> RData {
        RData::SOA(self)
    }

    fn is_update(&self) -> bool {
        false
    }
}

impl RecordData for SRV {
    ghost rdata = { rdata.SRV };

    fn try_borrow(record_data: &RData) -> Option<&SRV> {
        match record_data {
            RData::SRV(srv) => Some(srv),
            _ => None,
        }
    }

    fn record_type(&self) -> RecordType {
        RecordType::SRV
    }

    fn into_rdata(self) -> RData {
        RData::SRV(self)
    }

    fn is_update(&self) -> bool {
        false
    }
}
