//! Whether record data can be read.
ghost use Rattle.std.specs.Prelude.{◌↔◌, IsTrue};
ghost use Rattle.drd_rdata.specs.Reading.{IsReadable, IsValid};
ghost use Rattle.drd_types.specs.drd_caa.Fields.{IsCaa};
ghost use Rattle.drd_rdata.specs.Readable.{CanBeRead};

use crate::kinds::{can_read_csync, is_other};
use crate::rdata::RData;
use drd_names_keys::{is_named_cert, is_named_sshfp, is_named_tlsa};
use drd_svcb::{are_params, can_read_service};
use drd_types::{CAA, FieldData, are_readable, can_read_opt, is_tag, verify_flags};

/// Whether record data can be read: in some message they stand as data of their type, and take octets (RFC 1035 3.2.1).
/// They do where all names end at the root, strings have at most 255 octets, and there is at least one in TXT; where flags
/// of NAPTR are letters and digits, and a tag of CAA is one; where NULL, OPENPGPKEY and data of any other type have octets,
/// those of a type that records have, and that has no form of its own here; where the parameters of a service have rising
/// keys, each with a value of its own; and where options stand under their codes in their own form. Data of an update and of
/// type 0 can't.
pub fn is_readable(rdata: &RData) -> bool
    ensures { IsTrue result ↔ IsReadable rdata.now }
{
    can_be_read(rdata)
}

// Whether data hold what their type asks for.
fn can_be_read(rdata: &RData) -> bool
    ensures { IsTrue result ↔ CanBeRead rdata.now }
{
    match rdata {
        RData::CSYNC(csync) => can_read_csync(csync),
        RData::HTTPS(https) => can_read_service(&https.0),
        RData::OPT(opt) => can_read_opt(opt),
        RData::SVCB(svcb) => can_read_service(svcb),
        _ => is_valid(rdata) && are_readable(rdata.fields().as_slice()),
    }
}

// Whether data hold what their type asks for beyond the form of their fields.
fn is_valid(rdata: &RData) -> bool
    ensures { IsTrue result ↔ IsValid rdata.now }
{
    match rdata {
        RData::CAA(caa) => is_property(caa),
        RData::CERT(cert) => is_named_cert(cert),
        RData::HTTPS(https) => are_params(&https.0.svc_params),
        RData::NAPTR(naptr) => verify_flags(&naptr.flags),
        RData::SMIMEA(smimea) => is_named_tlsa(&smimea.0),
        RData::SSHFP(sshfp) => is_named_sshfp(sshfp),
        RData::SVCB(svcb) => are_params(&svcb.svc_params),
        RData::TLSA(tlsa) => is_named_tlsa(tlsa),
        RData::Unknown { code, .. } => is_other(*code),
        RData::Update0(_) | RData::ZERO => false,
        RData::A(_)
        | RData::AAAA(_)
        | RData::ANAME(_)
        | RData::CNAME(_)
        | RData::CSYNC(_)
        | RData::HINFO(_)
        | RData::MX(_)
        | RData::NULL(_)
        | RData::NS(_)
        | RData::OPENPGPKEY(_)
        | RData::OPT(_)
        | RData::PTR(_)
        | RData::SOA(_)
        | RData::SRV(_)
        | RData::TXT(_) => true,
    }
}

// Whether the tag is 1 to 15 letters and digits, and the reserved flags have seven bits (RFC 8659 4.1).
fn is_property(caa: &CAA) -> bool
    ensures { IsTrue result ↔ IsCaa caa.now }
{
    is_tag(&caa.tag) && caa.reserved_flags < 128
}
