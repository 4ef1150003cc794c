//! Which addresses may ask a server.
ghost use Rattle.std.specs.Prelude.{◌≡◌, ◌≤◌, ◌&&◌, [], OnOk, OnErr};
ghost use Rattle.zsv_access.specs.Prefixes.{is_empty};
ghost use Rattle.zsv_access.specs.Access.{allows, is_allowed, network_prefix, no_networks, with_allowed, with_denied};

use crate::prefix_set::{Prefix, PrefixSet};
use dnw_net::IpNet;
use std::alloc::{AllocError, Global};
use std::net::IpAddr;

/// Which addresses may ask a server: allowed networks, and denied ones.
///
/// Where networks of both sides hold an address, it is allowed if the longest allowed one is longer than the longest
/// denied one; where those of one side do, that side decides. Any other address is refused only where networks of its
/// kind are allowed, and none are denied.
#[derive(Drop)]
pub struct AccessControl {
    ipv4: InnerAccessControl,
    ipv6: InnerAccessControl,
}

impl AccessControl {
    /// No networks: every address is allowed.
    pub fn new(alloc: Global) -> AccessControl
        ensures { result ≡ no_networks }
    {
        AccessControl {
            ipv4: InnerAccessControl::new(alloc),
            ipv6: InnerAccessControl::new(alloc),
        }
    }

    /// Adds an allowed network.
    pub fn insert_allow(&mut self, network: IpNet) -> Result<(), AllocError>
        ensures ok { OnOk result (self.new ≡ with_allowed self.old network.addr network.prefix_len) }
        ensures err { OnErr result (self.new ≡ self.old) }
    {
        let prefix = prefix_of_network(network);
        match network.addr() {
            IpAddr::V4(_) => self.ipv4.allow.insert(prefix),
            IpAddr::V6(_) => self.ipv6.allow.insert(prefix),
        }
    }

    /// Adds a denied network.
    pub fn insert_deny(&mut self, network: IpNet) -> Result<(), AllocError>
        ensures ok { OnOk result (self.new ≡ with_denied self.old network.addr network.prefix_len) }
        ensures err { OnErr result (self.new ≡ self.old) }
    {
        let prefix = prefix_of_network(network);
        match network.addr() {
            IpAddr::V4(_) => self.ipv4.deny.insert(prefix),
            IpAddr::V6(_) => self.ipv6.deny.insert(prefix),
        }
    }

    /// Whether an address may ask. An IPv4 address that is mapped to an IPv6 one counts as IPv4 (RFC 4291 2.5.5.2), so that
    /// no IPv6 network holds it.
    pub fn allow(&self, ip: IpAddr) -> bool
        ensures { result ≡ is_allowed self.now ip }
    {
        match ip {
            IpAddr::V4(ip) => self.ipv4.allow(32, u128::from(ip.to_bits())),
            IpAddr::V6(ip) => {
                let bits = ip.to_bits();
                if bits >> 32 == 0xffff {
                    self.ipv4.allow(32, bits % (1 << 32))
                } else {
                    self.ipv6.allow(128, bits)
                }
            }
        }
    }
}

// The first bits of a network's address, those that its addresses share.
fn prefix_of_network(network: IpNet) -> Prefix
    ensures { result ≡ network_prefix network.addr network.prefix_len }
{
    match network.addr() {
        IpAddr::V4(ip) => Prefix::of(32, u128::from(ip.to_bits()), network.prefix_len()),
        IpAddr::V6(ip) => Prefix::of(128, ip.to_bits(), network.prefix_len()),
    }
}

/// The networks of one kind of addresses.
#[derive(Drop)]
struct InnerAccessControl {
    allow: PrefixSet,
    deny: PrefixSet,
}

impl InnerAccessControl {
    fn new(alloc: Global) -> InnerAccessControl
        ensures allow { result.allow ≡ [] }
        ensures deny { result.deny ≡ [] }
    {
        InnerAccessControl {
            allow: PrefixSet::new(alloc),
            deny: PrefixSet::new(alloc),
        }
    }

    // Whether there are no networks.
    fn is_empty(&self) -> bool
        ensures { result ≡ (is_empty self.now.allow && is_empty self.now.deny) }
    {
        self.allow.is_empty() && self.deny.is_empty()
    }

    // Whether an address of `width` bits may ask.
    fn allow(&self, width: u8, addr: u128) -> bool
        requires { width ≤ 128 }
        ensures { result ≡ allows self.now width addr }
    {
        if self.is_empty() {
            return true;
        }
        match (
            self.deny.longest(width, addr),
            self.allow.longest(width, addr),
        ) {
            (Some(denied), Some(allowed)) => denied < allowed,
            (Some(_), None) => false,
            (None, Some(_)) => true,
            (None, None) => self.allow.is_empty() || !self.deny.is_empty(),
        }
    }
}
