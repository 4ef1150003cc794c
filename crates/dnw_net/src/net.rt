//! Blocks of addresses (RFC 4632 3.1, RFC 4291 2.3): an address and how many of its first bits its block shares.
ghost use Rattle.std.specs.Prelude.{◌≡◌, ◌<◌, ◌≤◌, ◌-◌, ◌/◌, ◌^◌, ◌==◌, IfOk, OnOk, OnErr};
ghost use Rattle.std.specs.Net.Addr.{ipv4_bits, ipv6_bits};
ghost use Rattle.std.specs.declared.net.ip_addr.IpAddr.TheVariants.{V4, V6};
ghost use Rattle.dnw_net.specs.Networks.{address_bits, in_network};

use std::net::{IpAddr, Ipv4Addr, Ipv6Addr};
use thiserror::Error;

/// A prefix longer than an address.
#[derive(Clone, Copy, Debug, PartialEq, Eq, Error)]
#[error("a prefix longer than the address")]
pub struct PrefixLenError;

/// A block of addresses: those that share the first bits of one, as many as its prefix says.
#[derive(Clone, Copy, Debug, PartialEq, Eq)]
pub struct IpNet {
    addr: IpAddr,
    prefix_len: u8,
    ghost within: { prefix_len ≤ address_bits addr },
}

impl IpNet {
    /// The block of an IPv4 address and a prefix of at most 32 bits.
    pub fn v4(addr: Ipv4Addr, prefix_len: u8) -> Result<IpNet, PrefixLenError>
        ensures ok { IfOk result (λ net. (net.addr ≡ V4 addr) × (net.prefix_len ≡ prefix_len)) }
        ensures within { OnOk result (prefix_len ≤ 32) }
        ensures refused { OnErr result (32 < prefix_len) }
    {
        if prefix_len > 32 {
            return Err(PrefixLenError);
        }
        Ok(IpNet {
            addr: IpAddr::V4(addr),
            prefix_len,
        })
    }

    /// The block of an IPv6 address and a prefix of at most 128 bits.
    pub fn v6(addr: Ipv6Addr, prefix_len: u8) -> Result<IpNet, PrefixLenError>
        ensures ok { IfOk result (λ net. (net.addr ≡ V6 addr) × (net.prefix_len ≡ prefix_len)) }
        ensures within { OnOk result (prefix_len ≤ 128) }
        ensures refused { OnErr result (128 < prefix_len) }
    {
        if prefix_len > 128 {
            return Err(PrefixLenError);
        }
        Ok(IpNet {
            addr: IpAddr::V6(addr),
            prefix_len,
        })
    }

    /// The address.
    pub fn addr(&self) -> IpAddr
        ensures { result ≡ self.now.addr }
    {
        self.addr
    }

    /// How many of the first bits the block's addresses share.
    pub fn prefix_len(&self) -> u8
        ensures value { result ≡ self.now.prefix_len }
        ensures within { result ≤ address_bits self.now.addr }
    {
        self.prefix_len
    }

    /// Whether an address is in the block. One of the other kind never is.
    pub fn contains(&self, addr: IpAddr) -> bool
        ensures { result ≡ in_network self.now.addr self.now.prefix_len addr }
    {
        match (self.addr, addr) {
            (IpAddr::V4(net), IpAddr::V4(addr)) => same_front_v4(net, addr, self.prefix_len),
            (IpAddr::V6(net), IpAddr::V6(addr)) => same_front_v6(net, addr, self.prefix_len),
            _ => false,
        }
    }
}

fn same_front_v4(net: Ipv4Addr, addr: Ipv4Addr, prefix_len: u8) -> bool
    requires { prefix_len ≤ 32 }
    ensures { result ≡ (ipv4_bits addr / 2 ^ (32 - prefix_len) == ipv4_bits net / 2 ^ (32 - prefix_len)) }
{
    let rest = 32 - u32::from(prefix_len);
    front_v4(addr, rest) == front_v4(net, rest)
}

// The bits of an address without the last ones.
fn front_v4(addr: Ipv4Addr, rest: u32) -> u64
    requires { rest ≤ 32 }
    ensures { result ≡ ipv4_bits addr / 2 ^ rest }
{
    u64::from(addr.to_bits()) >> rest
}

fn same_front_v6(net: Ipv6Addr, addr: Ipv6Addr, prefix_len: u8) -> bool
    requires { prefix_len ≤ 128 }
    ensures { result ≡ (ipv6_bits addr / 2 ^ (128 - prefix_len) == ipv6_bits net / 2 ^ (128 - prefix_len)) }
{
    let rest = 128 - u32::from(prefix_len);
    front_v6(addr, rest) == front_v6(net, rest)
}

// The bits of an address without the last ones.
fn front_v6(addr: Ipv6Addr, rest: u32) -> u128
    requires { rest ≤ 128 }
    ensures { result ≡ ipv6_bits addr / 2 ^ rest }
{
    let bits = addr.to_bits();
    if rest == 128 {
        return 0;
    }
    bits >> rest
}
