//! Options of EDNS.
ghost use Rattle.std.specs.Prelude.{◌≡◌, ◌≤◌, ◌<◌, ◌⊎◌, ◌∷◌, [], nat_eq, nat_le, Some, length, IfOk, IfErr, OnOk};
ghost use Rattle.std.proofs.Common.{rules};
ghost use Rattle.std.specs.Cmp.{partial_order_from_own_ties};
ghost use Rattle.std.specs.Cmp.Rules.{comparing, hashing};
ghost use Rattle.std.specs.Ordering.{as_partial_cmp};
ghost use Rattle.std.specs.Cmp.Lexicographic.{pointwise};
ghost use Rattle.drd_fields.specs.dnw_codes.ProtoError.{IsMemory};
ghost use Rattle.drd_fields.specs.dnw_encoder.declared.modes.RDataEncoding.TheVariants.{Other};
ghost use Rattle.drd_fields.specs.Fields.{rest};
ghost use Rattle.drd_fields.specs.Writing.{EmitsData, RefusesFields};
ghost use Rattle.drd_opt.specs.Codes.{edns_code_number, edns_code_of};
ghost use Rattle.drd_opt.specs.Options.{option_code, option_octets, option_input, option_cmp, counted_cmp, same_option, IsOptionOf, IsLongIdentifier};
ghost use Rattle.hex.specs.Hex.{encode_lower};

use crate::code::EdnsCode;
use crate::nsid::NSIDPayload;
use crate::subnet::ClientSubnet;
use drd_fields::{
    BinDecodable, BinEncodable, BinEncoder, ProtoError, RDataEncoding, RestField, emit_data,
};
use drd_words::fmt_hex;
use std::alloc::{AllocError, Global};
use std::cmp::Ordering;
use std::fmt;
use std::hash::{Hash, Hasher};

/// An option of EDNS. Options are compared by their codes, then by the number of their octets, then by these from the left,
/// which is the order of what is written of them (RFC 6891 6.1.2).
#[derive(Clone, Debug, Drop)]
pub enum EdnsOption {
    /// The algorithms of signatures that are understood, an octet each (RFC 6975 3).
    DAU(Vec<u8>),
    /// The network of a client (RFC 7871 6).
    Subnet(ClientSubnet),
    /// The identifier of a name server (RFC 5001 2.3).
    NSID(NSIDPayload),
    /// The code and the octets of any other option, and of a subnet that can't be read.
    Unknown(u16, Vec<u8>),
}

impl EdnsOption {
    /// The option of a code and its octets. A subnet that can't be read is kept as `Unknown`. Refused are more than 65,531
    /// octets of an NSID.
    pub fn new(alloc: Global, code: EdnsCode, octets: &[u8]) -> Result<EdnsOption, ProtoError>
        ensures ok { IfOk result (IsOptionOf (edns_code_number code) octets.now) }
        ensures few { OnOk result (edns_code_number code ≡ 3 → length octets.now ≤ 65531) }
        ensures refused { IfErr result (λ e. IsMemory e ⊎ ((edns_code_number code ≡ 3) × IsLongIdentifier octets.now e)) }
    {
        let number = u16::from(code);
        if number == 8 {
            return subnet_of(alloc, octets);
        }
        let octets = match Vec::from_slice(alloc, octets) {
            Ok(octets) => octets,
            Err(refused) => return Err(ProtoError::Memory(refused)),
        };
        match number {
            3 => match NSIDPayload::new(octets) {
                Ok(payload) => Ok(EdnsOption::NSID(payload)),
                Err(refused) => Err(refused),
            },
            5 => Ok(EdnsOption::DAU(octets)),
            _ => Ok(EdnsOption::Unknown(number, octets)),
        }
    }

    /// The code, by its name where it has one.
    pub fn code(&self) -> EdnsCode
        ensures value { result ≡ edns_code_of (option_code self.now) }
        ensures number { edns_code_number result ≡ option_code self.now }
    {
        match self {
            EdnsOption::DAU(_) => EdnsCode::DAU,
            EdnsOption::Subnet(_) => EdnsCode::Subnet,
            EdnsOption::NSID(_) => EdnsCode::NSID,
            EdnsOption::Unknown(number, _) => EdnsCode::from(*number),
        }
    }

    /// Whether the octets are at most 65,535, which 16 bits can count.
    pub fn is_countable(&self) -> bool
        ensures { result ≡ nat_le (length (option_octets self.now)) 65535 }
    {
        self.size() <= 65535
    }

    /// The number of octets, which are at most 65,535.
    pub fn len(&self) -> u16
        requires { length (option_octets self.now) ≤ 65535 }
        ensures { result ≡ length (option_octets self.now) }
    {
        self.size() as u16
    }

    /// Whether there are no octets.
    pub fn is_empty(&self) -> bool
        ensures { result ≡ nat_eq (length (option_octets self.now)) 0 }
    {
        self.size() == 0
    }

    /// A copy of the octets.
    pub fn octets(&self, alloc: Global) -> Result<Vec<u8>, AllocError>
        ensures { IfOk result (λ octets. octets.items ≡ option_octets self.now) }
    {
        match self {
            EdnsOption::DAU(octets) | EdnsOption::Unknown(_, octets) => {
                Vec::from_slice(alloc, octets)
            }
            EdnsOption::NSID(payload) => Vec::from_slice(alloc, payload.as_ref()),
            EdnsOption::Subnet(subnet) => {
                let (octets, len) = subnet.to_octets();
                Vec::from_slice(alloc, &octets[..len])
            }
        }
    }

    // The number of octets.
    fn size(&self) -> usize
        ensures { result ≡ length (option_octets self.now) }
    {
        match self {
            EdnsOption::DAU(octets) | EdnsOption::Unknown(_, octets) => octets.len(),
            EdnsOption::NSID(payload) => payload.as_ref().len(),
            EdnsOption::Subnet(subnet) => usize::from(subnet.len()),
        }
    }

    /// Whether another option has the same octets, whatever the codes are.
    pub fn has_octets_of(&self, other: &EdnsOption) -> bool
        ensures { result ≡ pointwise nat_eq (option_octets self.now) (option_octets other.now) }
    {
        match other {
            EdnsOption::DAU(octets) | EdnsOption::Unknown(_, octets) => self.has_octets(octets),
            EdnsOption::NSID(payload) => self.has_octets(payload.as_ref()),
            EdnsOption::Subnet(subnet) => {
                let (octets, len) = subnet.to_octets();
                self.has_octets(&octets[..len])
            }
        }
    }

    /// The order of the octets of two options, whatever the codes are: by their number, then from the left.
    pub fn cmp_octets_of(&self, other: &EdnsOption) -> Ordering
        ensures { result ≡ counted_cmp (option_octets self.now) (option_octets other.now) }
    {
        match other {
            EdnsOption::DAU(octets) | EdnsOption::Unknown(_, octets) => self.cmp_octets(octets),
            EdnsOption::NSID(payload) => self.cmp_octets(payload.as_ref()),
            EdnsOption::Subnet(subnet) => {
                let (octets, len) = subnet.to_octets();
                self.cmp_octets(&octets[..len])
            }
        }
    }

    /// Feeds the octets to a hasher in one write.
    pub fn hash_octets<H: Hasher>(&self, state: &mut H)
        ensures { state.new ≡ H.write state.old (option_octets self.now) }
    {
        match self {
            EdnsOption::DAU(octets) | EdnsOption::Unknown(_, octets) => state.write(octets),
            EdnsOption::NSID(payload) => state.write(payload.as_ref()),
            EdnsOption::Subnet(subnet) => {
                let (octets, len) = subnet.to_octets();
                state.write(&octets[..len]);
            }
        }
    }

    // Whether these are the octets.
    fn has_octets(&self, other: &[u8]) -> bool
        ensures { result ≡ pointwise nat_eq (option_octets self.now) other.now }
    {
        match self {
            EdnsOption::DAU(octets) | EdnsOption::Unknown(_, octets) => octets.as_slice() == other,
            EdnsOption::NSID(payload) => payload.as_ref() == other,
            EdnsOption::Subnet(subnet) => {
                let (octets, len) = subnet.to_octets();
                &octets[..len] == other
            }
        }
    }

    // The order of the octets and others.
    fn cmp_octets(&self, other: &[u8]) -> Ordering
        ensures { result ≡ counted_cmp (option_octets self.now) other.now }
    {
        match self {
            EdnsOption::DAU(octets) | EdnsOption::Unknown(_, octets) => cmp_counted(octets, other),
            EdnsOption::NSID(payload) => cmp_counted(payload.as_ref(), other),
            EdnsOption::Subnet(subnet) => {
                let (octets, len) = subnet.to_octets();
                cmp_counted(&octets[..len], other)
            }
        }
    }
}

// The order of octets by their number, then from the left.
fn cmp_counted(octets: &[u8], others: &[u8]) -> Ordering
    ensures { result ≡ counted_cmp octets.now others.now }
{
    match octets.len().cmp(&others.len()) {
        Ordering::Equal => octets.cmp(others),
        unequal => unequal,
    }
}

// The subnet at the front of these octets, or the octets as they are.
fn subnet_of(alloc: Global, octets: &[u8]) -> Result<EdnsOption, ProtoError>
    ensures ok { IfOk result (IsOptionOf 8 octets.now) }
    ensures refused { IfErr result IsMemory }
{
    match ClientSubnet::from_bytes(alloc, octets) {
        Ok(subnet) => Ok(EdnsOption::Subnet(subnet)),
        Err(_) => match Vec::from_slice(alloc, octets) {
            Ok(octets) => Ok(EdnsOption::Unknown(8, octets)),
            Err(refused) => Err(ProtoError::Memory(refused)),
        },
    }
}

impl BinEncodable for EdnsOption {
    ghost emits = { λ option. EmitsData Other (rest (option_octets option) ∷ []) };

    ghost refuses = { λ option old e new. RefusesFields (rest (option_octets option) ∷ []) old e };

    /// Writes the octets, without code and length.
    fn emit(&self, encoder: &mut BinEncoder<'_>) -> Result<(), ProtoError> {
        match self {
            EdnsOption::DAU(octets) | EdnsOption::Unknown(_, octets) => {
                emit_data(encoder, RDataEncoding::Other, &RestField(octets))
            }
            EdnsOption::NSID(payload) => {
                emit_data(encoder, RDataEncoding::Other, &RestField(payload.as_ref()))
            }
            EdnsOption::Subnet(subnet) => subnet.emit(encoder),
        }
    }
}

impl PartialEq for EdnsOption {
    ghost eq = { same_option };

    ghost laws = { Prim.search (comparing, rules) };

    fn eq(&self, other: &EdnsOption) -> bool {
        self.code() == other.code() && self.has_octets_of(other)
    }
}

impl Eq for EdnsOption {
    ghost laws = { Prim.search (comparing, rules) };
}

impl Ord for EdnsOption {
    ghost cmp = { option_cmp };

    ghost total = { Prim.search (comparing, rules) depth 12 };

    ghost matches_partial_cmp = { Prim.search (comparing, rules) };

    ghost matches_eq = { Prim.search (comparing, rules) };

    fn cmp(&self, other: &EdnsOption) -> Ordering {
        match self.code().cmp(&other.code()) {
            Ordering::Equal => self.cmp_octets_of(other),
            unequal => unequal,
        }
    }
}

impl PartialOrd for EdnsOption {
    ghost partial_cmp = { as_partial_cmp option_cmp };

    ghost laws = { partial_order_from_own_ties (Prim.search (comparing, rules) depth 12) (Prim.search (comparing, rules)) };

    fn partial_cmp(&self, other: &EdnsOption) -> Option<Ordering> {
        Some(self.cmp(other))
    }
}

impl Hash for EdnsOption {
    ghost hash_input = { option_input };

    ghost respects_eq = { Prim.search (hashing, rules) };

    fn hash<H: Hasher>(&self, state: &mut H) {
        self.code().hash(state);
        self.hash_octets(state);
    }
}

impl fmt::Display for EdnsOption {
    ghost output = { λ option. Some (encode_lower (option_octets option)) };

    /// Writes the octets in hex, in lower case.
    fn fmt<W: fmt::Write>(&self, f: &mut fmt::Formatter<W>) -> fmt::Result {
        match self {
            EdnsOption::DAU(octets) | EdnsOption::Unknown(_, octets) => fmt_hex(f, octets),
            EdnsOption::NSID(payload) => fmt_hex(f, payload.as_ref()),
            EdnsOption::Subnet(subnet) => {
                let (octets, len) = subnet.to_octets();
                fmt_hex(f, &octets[..len])
            }
        }
    }
}
