//! Data with a form of their own.
ghost use Rattle.drd_rdata.specs.declared.rdata.RData.TheVariants as rdata;

use crate::record_data::RecordData;
use drd_rdata::{CAA, CSYNC, HTTPS, OPT, RData, RecordType, SVCB};

impl RecordData for CAA {
    ghost rdata = { rdata.CAA };

    fn try_borrow(record_data: &RData) -> Option<&CAA> {
        match record_data {
            RData::CAA(caa) => Some(caa),
            _ => None,
        }
    }

    fn record_type(&self) -> RecordType {
        RecordType::CAA
    }

    fn into_rdata(self) -> RData {
        RData::CAA(self)
    }

    fn is_update(&self) -> bool {
        false
    }
}

impl RecordData for CSYNC {
    ghost rdata = { rdata.CSYNC };

    fn try_borrow(record_data: &RData) -> Option<&CSYNC> {
        match record_data {
            RData::CSYNC(csync) => Some(csync),
            _ => None,
        }
    }

    fn record_type(&self) -> RecordType {
        RecordType::CSYNC
    }

    fn into_rdata(self) -> RData {
        RData::CSYNC(self)
    }

    fn is_update(&self) -> bool {
        false
    }
}

impl RecordData for HTTPS {
    ghost rdata = { rdata.HTTPS };

    fn try_borrow(record_data: &RData) -> Option<&HTTPS> {
        match record_data {
            RData::HTTPS(https) => Some(https),
            _ => None,
        }
    }

    fn record_type(&self) -> RecordType {
        RecordType::HTTPS
    }

    fn into_rdata(self) -> RData {
        RData::HTTPS(self)
    }

    fn is_update(&self) -> bool {
        false
    }
}

impl RecordData for OPT {
    ghost rdata = { rdata.OPT };

    fn try_borrow(record_data: &RData) -> Option<&OPT> {
        match record_data {
            RData::OPT(opt) => Some(opt),
            _ => None,
        }
    }

    fn record_type(&self) -> RecordType {
        RecordType::OPT
    }

    fn into_rdata(self) -> RData {
        RData::OPT(self)
    }

    fn is_update(&self) -> bool {
        false
    }
}

impl RecordData for SVCB {
    ghost rdata = { rdata.SVCB };

    fn try_borrow(record_data: &RData) -> Option<&SVCB> {
        match record_data {
            RData::SVCB(svcb) => Some(svcb),
            _ => None,
        }
    }

    fn record_type(&self) -> RecordType {
        RecordType::SVCB
    }

    fn into_rdata(self) -> RData {
        RData::SVCB(self)
    }

    fn is_update(&self) -> bool {
        false
    }
}
