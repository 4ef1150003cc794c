//! Record data that are printed.
ghost use Rattle.std.specs.Prelude.{Some};
ghost use Rattle.drd_rdata.specs.Texts.{rdata_print};

use crate::rdata::RData;
use std::fmt;

impl fmt::Display for RData {
    ghost output = { λ value. Some (rdata_print value) };

    /// Writes the data in words, as their type does; octets of an unknown type in base64.
    fn fmt<W: fmt::Write>(&self, f: &mut fmt::Formatter<W>) -> fmt::Result {
        match self {
            RData::A(a) => fmt::Display::fmt(a, f),
            RData::AAAA(aaaa) => fmt::Display::fmt(aaaa, f),
            RData::ANAME(aname) => fmt::Display::fmt(aname, f),
            RData::CAA(caa) => fmt::Display::fmt(caa, f),
            RData::CERT(cert) => fmt::Display::fmt(cert, f),
            RData::CNAME(cname) => fmt::Display::fmt(cname, f),
            RData::CSYNC(csync) => fmt::Display::fmt(csync, f),
            RData::HINFO(hinfo) => fmt::Display::fmt(hinfo, f),
            RData::HTTPS(https) => fmt::Display::fmt(https, f),
            RData::MX(mx) => fmt::Display::fmt(mx, f),
            RData::NAPTR(naptr) => fmt::Display::fmt(naptr, f),
            RData::NULL(null) => fmt::Display::fmt(null, f),
            RData::NS(ns) => fmt::Display::fmt(ns, f),
            RData::OPENPGPKEY(openpgpkey) => fmt::Display::fmt(openpgpkey, f),
            RData::OPT(opt) => fmt::Display::fmt(opt, f),
            RData::PTR(ptr) => fmt::Display::fmt(ptr, f),
            RData::SMIMEA(smimea) => fmt::Display::fmt(smimea, f),
            RData::SOA(soa) => fmt::Display::fmt(soa, f),
            RData::SRV(srv) => fmt::Display::fmt(srv, f),
            RData::SSHFP(sshfp) => fmt::Display::fmt(sshfp, f),
            RData::SVCB(svcb) => fmt::Display::fmt(svcb, f),
            RData::TLSA(tlsa) => fmt::Display::fmt(tlsa, f),
            RData::TXT(txt) => fmt::Display::fmt(txt, f),
            RData::Unknown { rdata, .. } => fmt::Display::fmt(rdata, f),
            RData::Update0(_) => f.write_str("UPDATE"),
            RData::ZERO => Ok(()),
        }
    }
}
