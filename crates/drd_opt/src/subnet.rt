//! The network of a client (RFC 7871).
ghost use Rattle.std.specs.Prelude.{◌≡◌, ◌+◌, ◌≤◌, ◌<◌, ◌/◌, ◌%◌, ◌∷◌, ◌++◌, [], ℕ, false, length, take, get_or, min, IfOk, IfErr, OnOk, OnErr, replicate, ◌-◌};
ghost use Rattle.std.specs.Net.Addr.{ipv4_octets, ipv6_octets};
ghost use Rattle.drd_fields.specs.dnw_decoder.Octets.{Stands};
ghost use Rattle.drd_fields.specs.dnw_decoder.Reading.{IsCut};
ghost use Rattle.drd_fields.specs.dnw_encoder.declared.modes.RDataEncoding.TheVariants.{Other};
ghost use Rattle.drd_fields.specs.Fields.{rest};
ghost use Rattle.drd_fields.specs.Writing.{EmitsData, RefusesFields};
ghost use Rattle.drd_opt.specs.Subnets.{subnet_octets, prefix_octets, family_of, AddressAt, SubnetAt, RefusesAddress, RefusesSubnet, subnet_head};

use drd_fields::{
    BinDecodable, BinDecoder, BinEncodable, BinEncoder, DecodeError, ProtoError, RDataEncoding,
    RestField, emit_data,
};
use drd_words::IpNet;
use std::alloc::Global;
use std::net::{IpAddr, Ipv4Addr, Ipv6Addr};

/// A client's network: an address, how many of its first bits are the network's, and for how many an answer holds.
#[derive(Clone, Copy, Debug, PartialEq, Eq, Hash)]
pub struct ClientSubnet {
    address: IpAddr,
    source_prefix: u8,
    scope_prefix: u8,
}

impl ClientSubnet {
    /// The network of an address.
    pub fn new(address: IpAddr, source_prefix: u8, scope_prefix: u8) -> ClientSubnet
        ensures address { result.address ≡ address }
        ensures source { result.source_prefix ≡ source_prefix }
        ensures scope { result.scope_prefix ≡ scope_prefix }
    {
        ClientSubnet {
            address,
            source_prefix,
            scope_prefix,
        }
    }

    /// The number of octets that are written.
    pub fn len(&self) -> u16
        ensures value { result ≡ length (subnet_octets self.now) }
        ensures within { result ≤ 20 }
    {
        let (_, len) = self.to_octets();
        len as u16
    }

    /// Whether none is written, which is never so.
    pub fn is_empty(&self) -> bool
        ensures { result ≡ false }
    {
        self.len() == 0
    }

    /// The address.
    pub fn addr(&self) -> IpAddr
        ensures { result ≡ self.now.address }
    {
        self.address
    }

    /// Changes the address.
    pub fn set_addr(&mut self, addr: IpAddr)
        ensures { self.new ≡ record self.old { address = addr } }
    {
        self.address = addr;
    }

    /// How many of the first bits are the network's.
    pub fn source_prefix(&self) -> u8
        ensures { result ≡ self.now.source_prefix }
    {
        self.source_prefix
    }

    /// Changes how many of the first bits are the network's.
    pub fn set_source_prefix(&mut self, source_prefix: u8)
        ensures { self.new ≡ record self.old { source_prefix = source_prefix } }
    {
        self.source_prefix = source_prefix;
    }

    /// For how many of the first bits an answer holds; 0 in a query.
    pub fn scope_prefix(&self) -> u8
        ensures { result ≡ self.now.scope_prefix }
    {
        self.scope_prefix
    }

    /// Changes for how many of the first bits an answer holds.
    pub fn set_scope_prefix(&mut self, scope_prefix: u8)
        ensures { self.new ≡ record self.old { scope_prefix = scope_prefix } }
    {
        self.scope_prefix = scope_prefix;
    }

    /// The octets that are written, at the front of so many, and their number.
    pub(crate) fn to_octets(&self) -> ([u8; 20], usize)
        ensures octets { take result.1 result.0 ≡ subnet_octets self.now }
        ensures long { result.1 ≡ length (subnet_octets self.now) }
        ensures size { length result.0 ≡ 20 }
        ensures within { result.1 ≤ 20 }
    {
        let (source, scope) = (self.source_prefix, self.scope_prefix);
        match self.address {
            IpAddr::V4(address) => {
                let [a, b, c, d] = address.octets();
                (
                    [
                        0, 1, source, scope, a, b, c, d, 0, 0, 0, 0, 0, 0, 0, 0, 0, 0, 0, 0,
                    ],
                    4 + prefix_octets(source, 4),
                )
            }
            IpAddr::V6(address) => {
                let [a, b, c, d, e, f, g, h, i, j, k, l, m, n, o, p] = address.octets();
                (
                    [
                        0, 2, source, scope, a, b, c, d, e, f, g, h, i, j, k, l, m, n, o, p,
                    ],
                    4 + prefix_octets(source, 16),
                )
            }
        }
    }
}

// The octets that hold a prefix of so many bits, at most the size of an address.
fn prefix_octets(bits: u8, size: usize) -> usize
    ensures value { result ≡ prefix_octets bits size }
    ensures within { result ≤ size }
{
    ((usize::from(bits) + 7) / 8).min(size)
}

impl From<IpNet> for ClientSubnet {
    ghost from_gives = { λ net subnet. (subnet.address ≡ net.addr) × (subnet.source_prefix ≡ net.prefix_len) × (subnet.scope_prefix ≡ 0) };

    /// The block's address and prefix.
    fn from(net: IpNet) -> ClientSubnet {
        ClientSubnet::new(net.addr(), net.prefix_len(), 0)
    }
}

// The octet at an index, or zero behind the last.
fn octet_at(octets: &[u8], index: usize) -> u8
    ensures { result ≡ get_or octets.now index 0 }
{
    octets.get(index).copied().unwrap_or(0)
}

// The address of these octets, and of zeros behind them.
fn ipv4_of(octets: &[u8]) -> Ipv4Addr
    requires { length octets.now ≤ 4 }
    ensures { ipv4_octets result ≡ octets.now ++ replicate (4 - length octets.now) 0 }
{
    Ipv4Addr::new(
        octet_at(octets, 0),
        octet_at(octets, 1),
        octet_at(octets, 2),
        octet_at(octets, 3),
    )
}

// The number of two octets, the greatest first.
fn segment_at(octets: &[u8], index: usize) -> u16
    requires { index < 16 }
    ensures high { result / 256 ≡ get_or octets.now index 0 }
    ensures low { result % 256 ≡ get_or octets.now (index + 1) 0 }
{
    256 * u16::from(octet_at(octets, index)) + u16::from(octet_at(octets, index + 1))
}

// The address of these octets, and of zeros behind them.
fn ipv6_of(octets: &[u8]) -> Ipv6Addr
    requires { length octets.now ≤ 16 }
    ensures { ipv6_octets result ≡ octets.now ++ replicate (16 - length octets.now) 0 }
{
    Ipv6Addr::new(
        segment_at(octets, 0),
        segment_at(octets, 2),
        segment_at(octets, 4),
        segment_at(octets, 6),
        segment_at(octets, 8),
        segment_at(octets, 10),
        segment_at(octets, 12),
        segment_at(octets, 14),
    )
}

// The family and the prefixes at the index.
fn read_head(decoder: &mut BinDecoder<'_>) -> Result<(u16, u8, u8), DecodeError>
    ensures ok { IfOk result (λ head. Stands decoder.old.octets decoder.old.index (subnet_head head.0 head.1 head.2) decoder.new.index) }
    ensures end { OnOk result (decoder.new.index ≡ decoder.old.index + 4) }
    ensures same { decoder.new.octets ≡ decoder.old.octets }
    ensures within { decoder.new.index ≤ length decoder.new.octets }
    ensures err { OnErr result (decoder.new ≡ decoder.old) }
    ensures cause { IfErr result (IsCut 4 decoder.old.octets decoder.old.index) }
{
    match decoder.read_slice(4) {
        Ok(octets) => {
            let head = octets.unverified();
            Ok((u16::from_be_bytes([head[0], head[1]]), head[2], head[3]))
        }
        Err(refused) => Err(refused),
    }
}

// The address of a family at the index, of which the first octets stand there, as many as hold the prefix.
fn read_address(
    decoder: &mut BinDecoder<'_>,
    family: u16,
    prefix: u8,
) -> Result<IpAddr, DecodeError>
    ensures ok { IfOk result (λ address. (family_of address ≡ family)
        × AddressAt decoder.old.octets decoder.old.index prefix address decoder.new.index) }
    ensures same { decoder.new.octets ≡ decoder.old.octets }
    ensures within { decoder.new.index ≤ length decoder.new.octets }
    ensures err { OnErr result (decoder.new ≡ decoder.old) }
    ensures cause { IfErr result (RefusesAddress decoder.old.octets decoder.old.index family prefix) }
{
    let _start = decoder.index();
    match family {
        1 => match decoder.read_slice(prefix_octets(prefix, 4)) {
            Ok(octets) => Ok(IpAddr::V4(ipv4_of(octets.unverified()))),
            Err(refused) => Err(refused),
        },
        2 => match decoder.read_slice(prefix_octets(prefix, 16)) {
            Ok(octets) => Ok(IpAddr::V6(ipv6_of(octets.unverified()))),
            Err(refused) => Err(refused),
        },
        _ => Err(DecodeError::UnknownAddressFamily(family)),
    }
}

impl BinDecodable for ClientSubnet {
    ghost reads = { SubnetAt };

    ghost refuses = { RefusesSubnet };

    /// The network at the decoder's index: its family, 1 or 2, its prefixes, and the first octets of its address.
    fn read(_alloc: Global, decoder: &mut BinDecoder<'_>) -> Result<ClientSubnet, DecodeError> {
        let start = decoder.index();
        let (family, source, scope) = match read_head(decoder) {
            Ok(head) => head,
            Err(refused) => return Err(refused),
        };
        match read_address(decoder, family, source) {
            Ok(address) => Ok(ClientSubnet::new(address, source, scope)),
            Err(refused) => {
                decoder.set_index(start);
                Err(refused)
            }
        }
    }
}

impl BinEncodable for ClientSubnet {
    ghost emits = { λ subnet. EmitsData Other (rest (subnet_octets subnet) ∷ []) };

    ghost refuses = { λ subnet old e new. RefusesFields (rest (subnet_octets subnet) ∷ []) old e };

    /// Writes the family, the prefixes, and as many octets of the address as hold the source prefix.
    fn emit(&self, encoder: &mut BinEncoder<'_>) -> Result<(), ProtoError> {
        let (octets, len) = self.to_octets();
        emit_data(encoder, RDataEncoding::Other, &RestField(&octets[..len]))
    }
}
