//! Keys, certificates, and any octets.
ghost use Rattle.drd_rdata.specs.declared.rdata.RData.TheVariants as rdata;

use crate::record_data::RecordData;
use drd_rdata::{CERT, NULL, OPENPGPKEY, RData, RecordType, SMIMEA, SSHFP, TLSA};

impl RecordData for CERT {
    ghost rdata = { rdata.CERT };

    fn try_borrow(record_data: &RData) -> Option<&CERT> {
        match record_data {
            RData::CERT(cert) => Some(cert),
            _ => None,
        }
    }

    fn record_type(&self) -> RecordType {
        RecordType::CERT
    }

    fn into_rdata(self) -> RData {
        RData::CERT(self)
    }

    fn is_update(&self) -> bool {
        false
    }
}

impl RecordData for NULL {
    ghost rdata = { rdata.NULL };

    fn try_borrow(record_data: &RData) -> Option<&NULL> {
        match record_data {
            RData::NULL(null) => Some(null),
            _ => None,
        }
    }

    fn record_type(&self) -> RecordType {
        RecordType::NULL
    }

    fn into_rdata(self) -> RData {
        RData::NULL(self)
    }

    fn is_update(&self) -> bool {
        false
    }
}

impl RecordData for OPENPGPKEY {
    ghost rdata = { rdata.OPENPGPKEY };

    fn try_borrow(record_data: &RData) -> Option<&OPENPGPKEY> {
        match record_data {
            RData::OPENPGPKEY(openpgpkey) => Some(openpgpkey),
            _ => None,
        }
    }

    fn record_type(&self) -> RecordType {
        RecordType::OPENPGPKEY
    }

    fn into_rdata(self) -> RData {
        RData::OPENPGPKEY(self)
    }

    fn is_update(&self) -> bool {
        false
    }
}

impl RecordData for SMIMEA {
    ghost rdata = { rdata.SMIMEA };

    fn try_borrow(record_data: &RData) -> Option<&SMIMEA> {
        match record_data {
            RData::SMIMEA(smimea) => Some(smimea),
            _ => None,
        }
    }

    fn record_type(&self) -> RecordType {
        RecordType::SMIMEA
    }

    fn into_rdata(self) -> RData {
        RData::SMIMEA(self)
    }

    fn is_update(&self) -> bool {
        false
    }
}

impl RecordData for SSHFP {
    ghost rdata = { rdata.SSHFP };

    fn try_borrow(record_data: &RData) -> Option<&SSHFP> {
        match record_data {
            RData::SSHFP(sshfp) => Some(sshfp),
            _ => None,
        }
    }

    fn record_type(&self) -> RecordType {
        RecordType::SSHFP
    }

    fn into_rdata(self) -> RData {
        RData::SSHFP(self)
    }

    fn is_update(&self) -> bool {
        false
    }
}

impl RecordData for TLSA {
    ghost rdata = { rdata.TLSA };

    fn try_borrow(record_data: &RData) -> Option<&TLSA> {
        match record_data {
            RData::TLSA(tlsa) => Some(tlsa),
            _ => None,
        }
    }

    fn record_type(&self) -> RecordType {
        RecordType::TLSA
    }

    fn into_rdata(self) -> RData {
        RData::TLSA(self)
    }

    fn is_update(&self) -> bool {
        false
    }
}
