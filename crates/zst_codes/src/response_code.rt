//! Response codes (RFC 1035 4.1.1, RFC 2136 2.2, RFC 6891 6.1.3, and the registry "DNS RCODEs").
ghost use Rattle.std.specs.Prelude.{◌≡◌, ◌+◌, ◌*◌, ◌%◌, Some};
ghost use Rattle.std.specs.Cmp.Rules.{comparing, hashing};
ghost use Rattle.std.specs.Hash as fed;
ghost use Rattle.std.proofs.Common.{rules};

use std::fmt;
use std::hash::{Hash, Hasher};

/// How a request was answered. Two codes are equal where their numbers are.
#[derive(Clone, Copy, Debug)]
pub enum ResponseCode {
    /// As asked (RFC 1035 4.1.1).
    NoError,
    /// The request is not one that can be read (RFC 1035 4.1.1).
    FormErr,
    /// The server failed (RFC 1035 4.1.1).
    ServFail,
    /// No such name (RFC 1035 4.1.1).
    NXDomain,
    /// No such operation here (RFC 1035 4.1.1).
    NotImp,
    /// The server does not answer this (RFC 1035 4.1.1).
    Refused,
    /// A name exists that should not (RFC 2136 2.2, RFC 6672 2.2).
    YXDomain,
    /// A set of records exists that should not (RFC 2136 2.2).
    YXRRSet,
    /// A set of records is absent that should not be (RFC 2136 2.2).
    NXRRSet,
    /// The server is no authority for the zone, or a signature is refused (RFC 2136 2.2, RFC 8945 5.2).
    NotAuth,
    /// A name is not in the zone (RFC 2136 2.2).
    NotZone,
    /// No such version of EDNS here (RFC 6891 6.1.3).
    BADVERS,
    /// The key is not known (RFC 8945 5.2.1).
    BADKEY,
    /// The signature is not of this time (RFC 8945 5.2.3).
    BADTIME,
    /// No such mode of keys (RFC 2930 2.6).
    BADMODE,
    /// The name of the key is there already (RFC 2930 2.6).
    BADNAME,
    /// No such algorithm here (RFC 2930 2.6).
    BADALG,
    /// The signature is cut too short (RFC 8945 5.2.4).
    BADTRUNC,
    /// The cookie is missing or wrong (RFC 7873 5.2.3).
    BADCOOKIE,
    /// Any other code, by its number.
    Unknown(u16),
}

impl From<u16> for ResponseCode {
    ghost use Rattle.zst_codes.specs.ResponseCode.{response_code_of, response_code_number};

    ghost from_gives = { λ number code. (code ≡ response_code_of number) × (response_code_number code ≡ number) };

    fn from(number: u16) -> ResponseCode {
        match number {
            0 => ResponseCode::NoError,
            1 => ResponseCode::FormErr,
            2 => ResponseCode::ServFail,
            3 => ResponseCode::NXDomain,
            4 => ResponseCode::NotImp,
            5 => ResponseCode::Refused,
            6 => ResponseCode::YXDomain,
            7 => ResponseCode::YXRRSet,
            8 => ResponseCode::NXRRSet,
            9 => ResponseCode::NotAuth,
            10 => ResponseCode::NotZone,
            16 => ResponseCode::BADVERS,
            17 => ResponseCode::BADKEY,
            18 => ResponseCode::BADTIME,
            19 => ResponseCode::BADMODE,
            20 => ResponseCode::BADNAME,
            21 => ResponseCode::BADALG,
            22 => ResponseCode::BADTRUNC,
            23 => ResponseCode::BADCOOKIE,
            _ => ResponseCode::Unknown(number),
        }
    }
}

impl From<ResponseCode> for u16 {
    ghost use Rattle.zst_codes.specs.ResponseCode.{response_code_number};

    ghost from_gives = { λ code number. number ≡ response_code_number code };

    fn from(code: ResponseCode) -> u16 {
        match code {
            ResponseCode::NoError => 0,
            ResponseCode::FormErr => 1,
            ResponseCode::ServFail => 2,
            ResponseCode::NXDomain => 3,
            ResponseCode::NotImp => 4,
            ResponseCode::Refused => 5,
            ResponseCode::YXDomain => 6,
            ResponseCode::YXRRSet => 7,
            ResponseCode::NXRRSet => 8,
            ResponseCode::NotAuth => 9,
            ResponseCode::NotZone => 10,
            ResponseCode::BADVERS => 16,
            ResponseCode::BADKEY => 17,
            ResponseCode::BADTIME => 18,
            ResponseCode::BADMODE => 19,
            ResponseCode::BADNAME => 20,
            ResponseCode::BADALG => 21,
            ResponseCode::BADTRUNC => 22,
            ResponseCode::BADCOOKIE => 23,
            ResponseCode::Unknown(number) => number,
        }
    }
}

impl ResponseCode {
    ghost use Rattle.zst_codes.specs.ResponseCode.{response_code_number, response_code_text, low_bits, high_bits, joined_code};

    /// The code of the eight bits of an OPT record and the four bits of a header; of `low` the last four bits are
    /// taken (RFC 6891 6.1.3).
    pub fn from(high: u8, low: u8) -> ResponseCode
        ensures value { result ≡ joined_code high low }
        ensures high { high_bits result ≡ high }
        ensures low { low_bits result ≡ low % 16 }
    {
        let number = 16 * u16::from(high) + u16::from(low % 16);
        number.into()
    }

    /// The code of the four bits of a header, which are the last four of `low` (RFC 1035 4.1.1).
    pub fn from_low(low: u8) -> ResponseCode
        ensures value { result ≡ joined_code 0 low }
        ensures low { low_bits result ≡ low % 16 }
    {
        u16::from(low % 16).into()
    }

    /// The last four bits of the number, which a header holds (RFC 1035 4.1.1).
    pub fn low(&self) -> u8
        ensures { result ≡ low_bits self.now }
    {
        (u16::from(*self) % 16) as u8
    }

    /// The eight bits above the last four, which an OPT record holds (RFC 6891 6.1.3). Of a number above 4095, which no
    /// message can hold, the bits above these twelve are left out.
    pub fn high(&self) -> u8
        ensures value { result ≡ high_bits self.now }
        ensures joined { 16 * result + low_bits self.now ≡ response_code_number self.now % 4096 }
    {
        (u16::from(*self) / 16 % 256) as u8
    }

    /// What the code means, in words.
    pub fn to_str(&self) -> &'static str
        ensures { result.now ≡ response_code_text self.now }
    {
        match self {
            ResponseCode::NoError => "No Error",
            ResponseCode::FormErr => "Form Error",
            ResponseCode::ServFail => "Server Failure",
            ResponseCode::NXDomain => "Non-Existent Domain",
            ResponseCode::NotImp => "Not Implemented",
            ResponseCode::Refused => "Query Refused",
            ResponseCode::YXDomain => "Name should not exist",
            ResponseCode::YXRRSet => "RR Set should not exist",
            ResponseCode::NXRRSet => "RR Set does not exist",
            ResponseCode::NotAuth => "Not authorized",
            ResponseCode::NotZone => "Name not in zone",
            ResponseCode::BADVERS => "Bad option versions",
            ResponseCode::BADKEY => "Key not recognized",
            ResponseCode::BADTIME => "Signature out of time window",
            ResponseCode::BADMODE => "Bad TKEY mode",
            ResponseCode::BADNAME => "Duplicate key name",
            ResponseCode::BADALG => "Algorithm not supported",
            ResponseCode::BADTRUNC => "Bad truncation",
            ResponseCode::BADCOOKIE => "Bad server cookie",
            ResponseCode::Unknown(_) => "Unknown response code",
        }
    }
}

impl PartialEq for ResponseCode {
    ghost use Rattle.zst_codes.specs.ResponseCode.{same_response_code};

    ghost eq = { same_response_code };

    ghost laws = { Prim.search (comparing, rules) };

    fn eq(&self, other: &ResponseCode) -> bool {
        u16::from(*self) == u16::from(*other)
    }
}

impl Eq for ResponseCode {
    ghost laws = { Prim.search (comparing, rules) };
}

impl Hash for ResponseCode {
    ghost use Rattle.zst_codes.specs.ResponseCode.{response_code_number};

    ghost hash_input = { λ code. fed.u16 (response_code_number code) };

    ghost respects_eq = { Prim.search (hashing, rules) };

    fn hash<H: Hasher>(&self, state: &mut H) {
        u16::from(*self).hash(state);
    }
}

impl fmt::Display for ResponseCode {
    ghost use Rattle.zst_codes.specs.ResponseCode.{response_code_text};

    ghost output = { λ code. Some (response_code_text code) };

    /// Writes what the code means.
    fn fmt<W: fmt::Write>(&self, f: &mut fmt::Formatter<W>) -> fmt::Result {
        f.write_str(self.to_str())
    }
}
