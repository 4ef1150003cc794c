//! Each type of record data as one case of all.
ghost use Rattle.std.proofs.Common.{refl};
ghost use Rattle.drd_types.specs.dnw_codes.declared.record_type.RecordType.TheVariants as of;
ghost use Rattle.drd_rdata.specs.declared.rdata.RData.TheVariants as rdata;

use crate::rdata::RData;
use drd_names_keys::{
    ANAME, CERT, CNAME, CSYNC, MX, NS, OPENPGPKEY, PTR, SMIMEA, SOA, SRV, SSHFP, TLSA,
};
use drd_svcb::{A, AAAA, HTTPS, SVCB};
use drd_types::{CAA, HINFO, NAPTR, NULL, OPT, TXT};

/// A type whose data are one case of `RData`.
pub(crate) trait Case: Sized {
    ghost use Rattle.std.specs.Prelude.{◌≡◌};
    ghost use Rattle.drd_types.specs.dnw_codes.declared.record_type.RecordType.{RecordType};
    ghost use Rattle.drd_rdata.specs.Types.{type_of};
    ghost use Rattle.drd_rdata.specs.declared.rdata.RData.{RData as Rdata};

    // The value among the data of all types.
    ghost rdata: { Self → Rdata };

    // The type of the records.
    ghost kind: { RecordType };

    /// The value as record data.
    fn into_rdata(self) -> RData
        ensures { result ≡ rdata self };

    ghost named: { (x : Self) → type_of (rdata x) ≡ kind };
}

impl Case for A {
    ghost rdata = { rdata.A };

    ghost kind = { of.A };

    ghost named = { λ x. refl };

    fn into_rdata(self) -> RData {
        RData::A(self)
    }
}

impl Case for AAAA {
    ghost rdata = { rdata.AAAA };

    ghost kind = { of.AAAA };

    ghost named = { λ x. refl };

    fn into_rdata(self) -> RData {
        RData::AAAA(self)
    }
}

impl Case for ANAME {
    ghost rdata = { rdata.ANAME };

    ghost kind = { of.ANAME };

    ghost named = { λ x. refl };

    fn into_rdata(self) -> RData {
        RData::ANAME(self)
    }
}

impl Case for CAA {
    ghost rdata = { rdata.CAA };

    ghost kind = { of.CAA };

    ghost named = { λ x. refl };

    fn into_rdata(self) -> RData {
        RData::CAA(self)
    }
}

impl Case for CERT {
    ghost rdata = { rdata.CERT };

    ghost kind = { of.CERT };

    ghost named = { λ x. refl };

    fn into_rdata(self) -> RData {
        RData::CERT(self)
    }
}

impl Case for CNAME {
    ghost rdata = { rdata.CNAME };

    ghost kind = { of.CNAME };

    ghost named = { λ x. refl };

    fn into_rdata(self) -> RData {
        RData::CNAME(self)
    }
}

impl Case for CSYNC {
    ghost rdata = { rdata.CSYNC };

    ghost kind = { of.CSYNC };

    ghost named = { λ x. refl };

    fn into_rdata(self) -> RData {
        RData::CSYNC(self)
    }
}

impl Case for HINFO {
    ghost rdata = { rdata.HINFO };

    ghost kind = { of.HINFO };

    ghost named = { λ x. refl };

    fn into_rdata(self) -> RData {
        RData::HINFO(self)
    }
}

impl Case for HTTPS {
    ghost rdata = { rdata.HTTPS };

    ghost kind = { of.HTTPS };

    ghost named = { λ x. refl };

    fn into_rdata(self) -> RData {
        RData::HTTPS(self)
    }
}

impl Case for MX {
    ghost rdata = { rdata.MX };

    ghost kind = { of.MX };

    ghost named = { λ x. refl };

    fn into_rdata(self) -> RData {
        RData::MX(self)
    }
}

impl Case for NAPTR {
    ghost rdata = { rdata.NAPTR };

    ghost kind = { of.NAPTR };

    ghost named = { λ x. refl };

    fn into_rdata(self) -> RData {
        RData::NAPTR(self)
    }
}

impl Case for NULL {
    ghost rdata = { rdata.NULL };

    ghost kind = { of.NULL };

    ghost named = { λ x. refl };

    fn into_rdata(self) -> RData {
        RData::NULL(self)
    }
}

impl Case for NS {
    ghost rdata = { rdata.NS };

    ghost kind = { of.NS };

    ghost named = { λ x. refl };

    fn into_rdata(self) -> RData {
        RData::NS(self)
    }
}

impl Case for OPENPGPKEY {
    ghost rdata = { rdata.OPENPGPKEY };

    ghost kind = { of.OPENPGPKEY };

    ghost named = { λ x. refl };

    fn into_rdata(self) -> RData {
        RData::OPENPGPKEY(self)
    }
}

impl Case for OPT {
    ghost rdata = { rdata.OPT };

    ghost kind = { of.OPT };

    ghost named = { λ x. refl };

    fn into_rdata(self) -> RData {
        RData::OPT(self)
    }
}

impl Case for PTR {
    ghost rdata = { rdata.PTR };

    ghost kind = { of.PTR };

    ghost named = { λ x. refl };

    fn into_rdata(self) -> RData {
        RData::PTR(self)
    }
}

impl Case for SMIMEA {
    ghost rdata = { rdata.SMIMEA };

    ghost kind = { of.SMIMEA };

    ghost named = { λ x. refl };

    fn into_rdata(self) -> RData {
        RData::SMIMEA(self)
    }
}

impl Case for SOA {
    ghost rdata = { rdata.SOA };

    ghost kind = { of.SOA };

    ghost named = { λ x. refl };

    fn into_rdata(self) -> RData {
        RData::SOA(self)
    }
}

impl Case for SRV {
    ghost rdata = { rdata.SRV };

    ghost kind = { of.SRV };

    ghost named = { λ x. refl };

    fn into_rdata(self) -> RData {
        RData::SRV(self)
    }
}

impl Case for SSHFP {
    ghost rdata = { rdata.SSHFP };

    ghost kind = { of.SSHFP };

    ghost named = { λ x. refl };

    fn into_rdata(self) -> RData {
        RData::SSHFP(self)
    }
}

impl Case for SVCB {
    ghost rdata = { rdata.SVCB };

    ghost kind = { of.SVCB };

    ghost named = { λ x. refl };

    fn into_rdata(self) -> RData {
        RData::SVCB(self)
    }
}

impl Case for TLSA {
    ghost rdata = { rdata.TLSA };

    ghost kind = { of.TLSA };

    ghost named = { λ x. refl };

    fn into_rdata(self) -> RData {
        RData::TLSA(self)
    }
}

impl Case for TXT {
    ghost rdata = { rdata.TXT };

    ghost kind = { of.TXT };

    ghost named = { λ x. refl };

    fn into_rdata(self) -> RData {
        RData::TXT(self)
    }
}
