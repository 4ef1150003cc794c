//! Addresses and networks from octets.

ghost use Rattle.std.specs.Prelude.{◌≡◌, ◌∷◌, List, IfErr, IfOk, MatchOption, OnOk};
ghost use Rattle.authority_handle.specs.Sources.{AddsNetworks, AreNetworks, IsAddress, IsNetwork, IsNoAddress, IsSource, RefusesFirst, RefusesNetwork, RefusesNetworks};
ghost use Rattle.authority_handle.specs.declared.sources.Network.{Network as Written};
ghost use Rattle.authority_server.specs.zsv_access.Access.{no_networks};
ghost use Rattle.authority_server.specs.zsv_access.declared.access.AccessControl.{AccessControl as Access};

use crate::refusal::Refusal;
use authority_server::{AccessControl, IpNet};
use std::alloc::Global;
use std::mem;
use std::net::{IpAddr, Ipv4Addr, Ipv6Addr, SocketAddr};

/// A network that is allowed or denied to query.
#[repr(C)]
#[derive(Clone, Copy)]
pub struct Network {
    /// The address; an IPv4 address has the first four octets.
    pub address: [u8; 16],
    /// 4 or 16.
    pub address_len: u8,
    /// The length of the prefix in bits.
    pub prefix_len: u8,
    /// Denied, not allowed.
    pub denied: bool,
}

/// The address of 4 or 16 octets.
fn address_of(octets: &[u8]) -> Option<IpAddr>
    ensures { MatchOption result (IsNoAddress octets.now) (IsAddress octets.now) }
{
    if let Ok(octets) = <[u8; 4]>::try_from(octets) {
        return Some(IpAddr::V4(Ipv4Addr::from_octets(octets)));
    }
    match <[u8; 16]>::try_from(octets) {
        Ok(octets) => Some(IpAddr::V6(Ipv6Addr::from_octets(octets))),
        Err(_) => None,
    }
}

/// The source of an address of 4 or 16 octets, and a port.
pub(crate) fn source_of(address: &[u8], port: u16) -> Option<SocketAddr>
    ensures { MatchOption result (IsNoAddress address.now) (IsSource address.now port) }
{
    let ip = address_of(address)?;
    Some(SocketAddr::new(ip, port))
}

// Converts a network.
fn net_of(network: &Network) -> Result<IpNet, Refusal>
    ensures ok { IfOk result (λ net. IsNetwork network.now net.addr) }
    ensures prefix { IfOk result (λ net. net.prefix_len ≡ network.now.prefix_len) }
    ensures err { IfErr result (RefusesNetwork network.now) }
{
    let len = usize::from(network.address_len);
    if len > 16 {
        return Err(Refusal::WrongAddress);
    }
    let Some(address) = address_of(&network.address[..len]) else {
        return Err(Refusal::WrongAddress);
    };
    let made = match address {
        IpAddr::V4(address) => IpNet::v4(address, network.prefix_len),
        IpAddr::V6(address) => IpNet::v6(address, network.prefix_len),
    };
    match made {
        Ok(net) => Ok(net),
        Err(_) => Err(Refusal::WrongSetting),
    }
}

// Refuses the first invalid network.
fn check(networks: &[Network]) -> Result<(), Refusal>
    ensures ok { OnOk result (AreNetworks networks.now) }
    ensures err { IfErr result (RefusesFirst networks.now) }
{
    'networks: for network in networks {
        net_of(network)?;
    }
    Ok(())
}

// Adds a network.
fn add_network(access: &mut AccessControl, network: &Network) -> Result<(), Refusal>
    ensures { OnOk result ((later : List Written) (end : Access) → AddsNetworks access.new later end → AddsNetworks access.old (network.now ∷ later) end) }
{
    let net = net_of(network)?;
    if network.denied {
        access.insert_deny(net)?;
    } else {
        access.insert_allow(net)?;
    }
    Ok(())
}

/// The access list of these networks.
#[tactic(auto, using(crate::proofs::Networks::refuses))]
pub(crate) fn access_of(alloc: Global, networks: &[Network]) -> Result<AccessControl, Refusal>
    ensures ok { IfOk result (AddsNetworks no_networks networks.now) }
    ensures err { IfErr result (RefusesNetworks networks.now) }
{
    check(networks)?;
    let mut access = AccessControl::new(alloc);
    'networks: for network in networks {
        if add_network(&mut access, network).is_err() {
            mem::drop(access);
            return Err(Refusal::OutOfMemory);
        }
    }
    Ok(access)
}
