//! The codes of EDNS options.
ghost use Rattle.std.specs.Prelude.{◌≡◌, ◌==◌, find};
ghost use Rattle.std.specs.Cmp.{partial_order_from_own_ties};
ghost use Rattle.std.specs.Cmp.Rules.{comparing, hashing};
ghost use Rattle.std.specs.Hash as fed;
ghost use Rattle.std.specs.Ordering.{as_partial_cmp};
ghost use Rattle.std.proofs.Common.{rules};

use std::cmp::Ordering;
use std::hash::{Hash, Hasher};

/// The code of an EDNS option (RFC 6891 6.1.2). Codes are compared by their numbers.
#[derive(Clone, Copy, Debug)]
pub enum EdnsCode {
    /// Code 0, which is reserved.
    Zero,
    /// Queries that stay open (RFC 8764).
    LLQ,
    /// The lease of an update (RFC 9664).
    UL,
    /// The identifier of a name server (RFC 5001).
    NSID,
    /// Algorithms of signatures that are understood (RFC 6975).
    DAU,
    /// Algorithms of DS hashes that are understood (RFC 6975).
    DHU,
    /// Algorithms of NSEC3 hashes that are understood (RFC 6975).
    N3U,
    /// The network of a client (RFC 7871).
    Subnet,
    /// The time after which a secondary's zone expires (RFC 7314).
    Expire,
    /// Cookies of client and server (RFC 7873).
    Cookie,
    /// How long an idle TCP connection stays open (RFC 7828).
    Keepalive,
    /// Octets that only lengthen a message (RFC 7830).
    Padding,
    /// The closest trust point of a chain query (RFC 7901).
    Chain,
    /// Any other number.
    Unknown(u16),
}

impl From<u16> for EdnsCode {
    ghost use Rattle.drd_opt.specs.Codes.{edns_code_number, edns_code_of};

    ghost from_gives = { λ number code. (code ≡ edns_code_of number) × (edns_code_number code ≡ number) };

    fn from(number: u16) -> EdnsCode {
        match number {
            0 => EdnsCode::Zero,
            1 => EdnsCode::LLQ,
            2 => EdnsCode::UL,
            3 => EdnsCode::NSID,
            5 => EdnsCode::DAU,
            6 => EdnsCode::DHU,
            7 => EdnsCode::N3U,
            8 => EdnsCode::Subnet,
            9 => EdnsCode::Expire,
            10 => EdnsCode::Cookie,
            11 => EdnsCode::Keepalive,
            12 => EdnsCode::Padding,
            13 => EdnsCode::Chain,
            _ => EdnsCode::Unknown(number),
        }
    }
}

impl From<EdnsCode> for u16 {
    ghost use Rattle.drd_opt.specs.Codes.{edns_code_number};

    ghost from_gives = { λ code number. number ≡ edns_code_number code };

    fn from(code: EdnsCode) -> u16 {
        match code {
            EdnsCode::Zero => 0,
            EdnsCode::LLQ => 1,
            EdnsCode::UL => 2,
            EdnsCode::NSID => 3,
            EdnsCode::DAU => 5,
            EdnsCode::DHU => 6,
            EdnsCode::N3U => 7,
            EdnsCode::Subnet => 8,
            EdnsCode::Expire => 9,
            EdnsCode::Cookie => 10,
            EdnsCode::Keepalive => 11,
            EdnsCode::Padding => 12,
            EdnsCode::Chain => 13,
            EdnsCode::Unknown(number) => number,
        }
    }
}

impl PartialEq for EdnsCode {
    ghost use Rattle.drd_opt.specs.Codes.{same_edns_code};

    ghost eq = { same_edns_code };

    ghost laws = { Prim.search (comparing, rules) };

    fn eq(&self, other: &EdnsCode) -> bool {
        u16::from(*self) == u16::from(*other)
    }
}

impl Eq for EdnsCode {
    ghost laws = { Prim.search (comparing, rules) };
}

impl Ord for EdnsCode {
    ghost use Rattle.drd_opt.specs.Codes.{edns_code_cmp};

    ghost cmp = { edns_code_cmp };

    ghost total = { Prim.search (comparing, rules) };

    ghost matches_partial_cmp = { Prim.search (comparing, rules) };

    ghost matches_eq = { Prim.search (comparing, rules) };

    /// Compares the numbers.
    fn cmp(&self, other: &EdnsCode) -> Ordering {
        u16::from(*self).cmp(&u16::from(*other))
    }
}

impl PartialOrd for EdnsCode {
    ghost use Rattle.drd_opt.specs.Codes.{edns_code_cmp};

    ghost partial_cmp = { as_partial_cmp edns_code_cmp };

    ghost laws = { partial_order_from_own_ties (Prim.search (comparing, rules)) (Prim.search (comparing, rules)) };

    fn partial_cmp(&self, other: &EdnsCode) -> Option<Ordering> {
        Some(self.cmp(other))
    }
}

impl Hash for EdnsCode {
    ghost use Rattle.drd_opt.specs.Codes.{edns_code_number};

    ghost hash_input = { λ code. fed.u16 (edns_code_number code) };

    ghost respects_eq = { Prim.search (hashing, rules) };

    fn hash<H: Hasher>(&self, state: &mut H) {
        u16::from(*self).hash(state);
    }
}
