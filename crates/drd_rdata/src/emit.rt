//! Record data that are written.
ghost use Rattle.drd_rdata.specs.Writing.{EmitsRData, RefusesRData};

use crate::rdata::RData;
use drd_types::{BinEncodable, BinEncoder, ProtoError};

impl BinEncodable for RData {
    ghost emits = { EmitsRData };

    ghost refuses = { λ value old e new. RefusesRData value old e };

    /// Writes the data by their type. `Update0` and `ZERO` write nothing.
    fn emit(&self, encoder: &mut BinEncoder<'_>) -> Result<(), ProtoError> {
        let _start = encoder.offset();
        match self {
            RData::A(a) => a.emit(encoder),
            RData::AAAA(aaaa) => aaaa.emit(encoder),
            RData::ANAME(aname) => aname.emit(encoder),
            RData::CAA(caa) => caa.emit(encoder),
            RData::CERT(cert) => cert.emit(encoder),
            RData::CNAME(cname) => cname.emit(encoder),
            RData::CSYNC(csync) => csync.emit(encoder),
            RData::HINFO(hinfo) => hinfo.emit(encoder),
            RData::HTTPS(https) => https.emit(encoder),
            RData::MX(mx) => mx.emit(encoder),
            RData::NAPTR(naptr) => naptr.emit(encoder),
            RData::NULL(null) => null.emit(encoder),
            RData::NS(ns) => ns.emit(encoder),
            RData::OPENPGPKEY(openpgpkey) => openpgpkey.emit(encoder),
            RData::OPT(opt) => opt.emit(encoder),
            RData::PTR(ptr) => ptr.emit(encoder),
            RData::SMIMEA(smimea) => smimea.emit(encoder),
            RData::SOA(soa) => soa.emit(encoder),
            RData::SRV(srv) => srv.emit(encoder),
            RData::SSHFP(sshfp) => sshfp.emit(encoder),
            RData::SVCB(svcb) => svcb.emit(encoder),
            RData::TLSA(tlsa) => tlsa.emit(encoder),
            RData::TXT(txt) => txt.emit(encoder),
            RData::Unknown { rdata, .. } => rdata.emit(encoder),
            RData::Update0(_) | RData::ZERO => Ok(()),
        }
    }
}
