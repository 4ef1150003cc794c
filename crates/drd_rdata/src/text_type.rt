//! Types whose data have a text.
ghost use Rattle.std.proofs.Common.{refl};

use crate::case::Case;
use drd_names_keys::{
    ANAME, CERT, CNAME, CSYNC, MX, NS, OPENPGPKEY, PTR, SMIMEA, SOA, SRV, SSHFP, TLSA,
};
use drd_svcb::{A, AAAA, HTTPS, SVCB, TextData};
use drd_types::{CAA, HINFO, NAPTR, TXT};

/// A type whose data words write.
pub(crate) trait TextType: TextData + Case {
    ghost use Rattle.std.specs.Prelude.{◌≡◌, ℕ, List, Option, true};
    ghost use Rattle.drd_types.specs.dnw_codes.declared.error.ParseError.{ParseError};
    ghost use Rattle.drd_svcb.specs.dnw_name.DomainName.{DomainName};
    ghost use Rattle.drd_rdata.specs.declared.rdata.RData.{RData as Rdata};
    ghost use Rattle.drd_rdata.specs.Texts.{IsTextOf, RefusesTextOf, has_text};

    ghost has: { has_text Self.kind ≡ true };

    // Words that write data by themselves write data of this type.
    ghost writes: { (words : List (List ℕ)) (origin : Option DomainName) (x : Self) → Self.is_text words origin x
        → IsTextOf Self.kind words origin (Self.rdata x) };

    // Words that write data of this type write them by themselves.
    ghost alone: { (words : List (List ℕ)) (origin : Option DomainName) (value : Rdata) → IsTextOf Self.kind words origin value
        → (x : Self) × (value ≡ Self.rdata x) × Self.is_text words origin x };

    // They are refused as words of this type are.
    ghost stops: { (words : List (List ℕ)) (origin : Option DomainName) (e : ParseError) → Self.refuses words origin e
        → RefusesTextOf Self.kind words origin e };
}

impl TextType for A {
    ghost has = { refl };

    ghost writes = { λ words origin x written. (x, refl, written) };

    ghost alone = { λ words origin value written. written };

    ghost stops = { λ words origin e refused. refused };
}

impl TextType for AAAA {
    ghost has = { refl };

    ghost writes = { λ words origin x written. (x, refl, written) };

    ghost alone = { λ words origin value written. written };

    ghost stops = { λ words origin e refused. refused };
}

impl TextType for ANAME {
    ghost has = { refl };

    ghost writes = { λ words origin x written. (x, refl, written) };

    ghost alone = { λ words origin value written. written };

    ghost stops = { λ words origin e refused. refused };
}

impl TextType for CAA {
    ghost has = { refl };

    ghost writes = { λ words origin x written. (x, refl, written) };

    ghost alone = { λ words origin value written. written };

    ghost stops = { λ words origin e refused. refused };
}

impl TextType for CERT {
    ghost has = { refl };

    ghost writes = { λ words origin x written. (x, refl, written) };

    ghost alone = { λ words origin value written. written };

    ghost stops = { λ words origin e refused. refused };
}

impl TextType for CNAME {
    ghost has = { refl };

    ghost writes = { λ words origin x written. (x, refl, written) };

    ghost alone = { λ words origin value written. written };

    ghost stops = { λ words origin e refused. refused };
}

impl TextType for CSYNC {
    ghost has = { refl };

    ghost writes = { λ words origin x written. (x, refl, written) };

    ghost alone = { λ words origin value written. written };

    ghost stops = { λ words origin e refused. refused };
}

impl TextType for HINFO {
    ghost has = { refl };

    ghost writes = { λ words origin x written. (x, refl, written) };

    ghost alone = { λ words origin value written. written };

    ghost stops = { λ words origin e refused. refused };
}

impl TextType for HTTPS {
    ghost has = { refl };

    ghost writes = { λ words origin x written. (x, refl, written) };

    ghost alone = { λ words origin value written. written };

    ghost stops = { λ words origin e refused. refused };
}

impl TextType for MX {
    ghost has = { refl };

    ghost writes = { λ words origin x written. (x, refl, written) };

    ghost alone = { λ words origin value written. written };

    ghost stops = { λ words origin e refused. refused };
}

impl TextType for NAPTR {
    ghost has = { refl };

    ghost writes = { λ words origin x written. (x, refl, written) };

    ghost alone = { λ words origin value written. written };

    ghost stops = { λ words origin e refused. refused };
}

impl TextType for NS {
    ghost has = { refl };

    ghost writes = { λ words origin x written. (x, refl, written) };

    ghost alone = { λ words origin value written. written };

    ghost stops = { λ words origin e refused. refused };
}

impl TextType for OPENPGPKEY {
    ghost has = { refl };

    ghost writes = { λ words origin x written. (x, refl, written) };

    ghost alone = { λ words origin value written. written };

    ghost stops = { λ words origin e refused. refused };
}

impl TextType for PTR {
    ghost has = { refl };

    ghost writes = { λ words origin x written. (x, refl, written) };

    ghost alone = { λ words origin value written. written };

    ghost stops = { λ words origin e refused. refused };
}

impl TextType for SMIMEA {
    ghost has = { refl };

    ghost writes = { λ words origin x written. (x, refl, written) };

    ghost alone = { λ words origin value written. written };

    ghost stops = { λ words origin e refused. refused };
}

impl TextType for SOA {
    ghost has = { refl };

    ghost writes = { λ words origin x written. (x, refl, written) };

    ghost alone = { λ words origin value written. written };

    ghost stops = { λ words origin e refused. refused };
}

impl TextType for SRV {
    ghost has = { refl };

    ghost writes = { λ words origin x written. (x, refl, written) };

    ghost alone = { λ words origin value written. written };

    ghost stops = { λ words origin e refused. refused };
}

impl TextType for SSHFP {
    ghost has = { refl };

    ghost writes = { λ words origin x written. (x, refl, written) };

    ghost alone = { λ words origin value written. written };

    ghost stops = { λ words origin e refused. refused };
}

impl TextType for SVCB {
    ghost has = { refl };

    ghost writes = { λ words origin x written. (x, refl, written) };

    ghost alone = { λ words origin value written. written };

    ghost stops = { λ words origin e refused. refused };
}

impl TextType for TLSA {
    ghost has = { refl };

    ghost writes = { λ words origin x written. (x, refl, written) };

    ghost alone = { λ words origin value written. written };

    ghost stops = { λ words origin e refused. refused };
}

impl TextType for TXT {
    ghost has = { refl };

    ghost writes = { λ words origin x written. (x, refl, written) };

    ghost alone = { λ words origin value written. written };

    ghost stops = { λ words origin e refused. refused };
}
