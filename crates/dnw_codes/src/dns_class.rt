//! Classes of records (RFC 1035 3.2.4, RFC 6895 3.2).
ghost use Rattle.std.specs.Prelude.{◌≡◌, Some, find, max};
ghost use Rattle.std.specs.Cmp.{partial_order_from_own_ties};
ghost use Rattle.std.specs.Cmp.Rules.{comparing, hashing};
ghost use Rattle.std.specs.Hash as fed;
ghost use Rattle.std.specs.Option.{ok_or};
ghost use Rattle.std.specs.Ordering.{as_partial_cmp};
ghost use Rattle.std.specs.Str.{bytes_eq};
ghost use Rattle.std.proofs.Common.{rules};
ghost use Rattle.dnw_codes.specs.DNSClass.{class_name, named_classes};
ghost use Rattle.dnw_codes.specs.declared.error.DecodeError.TheVariants.{UnknownDnsClassStr};

use crate::digits::number_behind;
use crate::error::DecodeError;
use std::cmp::Ordering;
use std::fmt;
use std::hash::{Hash, Hasher};
use std::str::FromStr;

/// The class of a record or of a question. Two classes are equal where their numbers are.
#[derive(Clone, Copy, Debug)]
pub enum DNSClass {
    /// The Internet.
    IN,
    /// Chaos.
    CH,
    /// Hesiod.
    HS,
    /// No class: an update's record that is to go (RFC 2136 2.4).
    NONE,
    /// Every class (RFC 1035 3.2.5).
    ANY,
    /// The payload size, in octets, that stands in an OPT record's place of a class (RFC 6891 6.1.2).
    OPT(u16),
    /// Any other number.
    Unknown(u16),
}

impl DNSClass {
    /// The class field of an OPT record: the payload size, where a value below 512 means 512 (RFC 6891 6.2.3).
    pub fn for_opt(value: u16) -> DNSClass
        ensures { result ≡ DNSClass.OPT (max value 512) }
    {
        DNSClass::OPT(value.max(512))
    }
}

impl From<u16> for DNSClass {
    ghost use Rattle.dnw_codes.specs.DNSClass.{class_of, class_number};

    ghost from_gives = { λ number class. (class ≡ class_of number) × (class_number class ≡ number) };

    fn from(number: u16) -> DNSClass {
        match number {
            1 => DNSClass::IN,
            3 => DNSClass::CH,
            4 => DNSClass::HS,
            254 => DNSClass::NONE,
            255 => DNSClass::ANY,
            _ => DNSClass::Unknown(number),
        }
    }
}

impl From<DNSClass> for u16 {
    ghost use Rattle.dnw_codes.specs.DNSClass.{class_number};

    ghost from_gives = { λ class number. number ≡ class_number class };

    fn from(class: DNSClass) -> u16 {
        match class {
            DNSClass::IN => 1,
            DNSClass::CH => 3,
            DNSClass::HS => 4,
            DNSClass::NONE => 254,
            DNSClass::ANY => 255,
            DNSClass::OPT(payload) => payload,
            DNSClass::Unknown(number) => number,
        }
    }
}

impl PartialEq for DNSClass {
    ghost use Rattle.dnw_codes.specs.DNSClass.{same_class};

    ghost eq = { same_class };

    ghost laws = { Prim.search (comparing, rules) };

    fn eq(&self, other: &DNSClass) -> bool {
        u16::from(*self) == u16::from(*other)
    }
}

impl Eq for DNSClass {
    ghost laws = { Prim.search (comparing, rules) };
}

impl Ord for DNSClass {
    ghost use Rattle.dnw_codes.specs.DNSClass.{class_cmp};

    ghost cmp = { class_cmp };

    ghost total = { Prim.search (comparing, rules) };

    ghost matches_partial_cmp = { Prim.search (comparing, rules) };

    ghost matches_eq = { Prim.search (comparing, rules) };

    fn cmp(&self, other: &DNSClass) -> Ordering {
        u16::from(*self).cmp(&u16::from(*other))
    }
}

impl PartialOrd for DNSClass {
    ghost use Rattle.dnw_codes.specs.DNSClass.{class_cmp};

    ghost partial_cmp = { as_partial_cmp class_cmp };

    ghost laws = { partial_order_from_own_ties (Prim.search (comparing, rules)) (Prim.search (comparing, rules)) };

    fn partial_cmp(&self, other: &DNSClass) -> Option<Ordering> {
        Some(self.cmp(other))
    }
}

impl Hash for DNSClass {
    ghost use Rattle.dnw_codes.specs.DNSClass.{class_number};

    ghost hash_input = { λ class. fed.u16 (class_number class) };

    ghost respects_eq = { Prim.search (hashing, rules) };

    fn hash<H: Hasher>(&self, state: &mut H) {
        u16::from(*self).hash(state);
    }
}

impl From<DNSClass> for &'static str {
    ghost use Rattle.dnw_codes.specs.DNSClass.{class_name};

    ghost from_gives = { λ class name. name.now ≡ class_name class };

    fn from(class: DNSClass) -> &'static str {
        match class {
            DNSClass::IN => "IN",
            DNSClass::CH => "CH",
            DNSClass::HS => "HS",
            DNSClass::NONE => "NONE",
            DNSClass::ANY => "ANY",
            DNSClass::OPT(_) => "OPT",
            DNSClass::Unknown(_) => "UNKNOWN",
        }
    }
}

impl fmt::Display for DNSClass {
    ghost use Rattle.dnw_codes.specs.DNSClass.{class_text};

    ghost output = { λ class. Some (class_text class) };

    fn fmt<W: fmt::Write>(&self, f: &mut fmt::Formatter<W>) -> fmt::Result {
        match self {
            DNSClass::OPT(number) | DNSClass::Unknown(number) => write!(f, "CLASS{number}"),
            named => f.write_str((*named).into()),
        }
    }
}

// The classes that have a name, by rising number.
const NAMED: [DNSClass; 5] = [
    DNSClass::IN,
    DNSClass::CH,
    DNSClass::HS,
    DNSClass::NONE,
    DNSClass::ANY,
];

fn named(text: &str) -> Option<DNSClass>
    ensures { result ≡ find (λ named. bytes_eq (class_name named) text.now) named_classes }
{
    NAMED.iter().copied().find(|named| {
        let name: &'static str = (*named).into();
        name == text
    })
}

impl FromStr for DNSClass {
    ghost use Rattle.dnw_codes.specs.DNSClass.{class_of_text};

    type Err = DecodeError;

    ghost from_str_gives = { λ text result. result ≡ ok_or (class_of_text text) UnknownDnsClassStr };

    /// Reads a name in capitals, or `CLASS` and decimal digits. The error is `UnknownDnsClassStr`.
    fn from_str(text: &str) -> Result<DNSClass, DecodeError> {
        if let Some(class) = named(text) {
            return Ok(class);
        }
        match number_behind("CLASS", text) {
            Some(number) => Ok(DNSClass::from(number)),
            None => Err(DecodeError::UnknownDnsClassStr),
        }
    }
}
