//! Names of addresses (RFC 1035 3.5, RFC 3596 2.5).
ghost use Rattle.std.specs.Prelude.{◌≡◌, ◌+◌, ◌*◌, ◌≤◌, ◌<◌, ◌∷◌, ◌++◌, [], true, length, reverse, flat_map, codes, IfOk, IfErr};
ghost use Rattle.std.specs.Char.{digit_char};
ghost use Rattle.std.specs.declared.net.ip_addr.IpAddr.TheVariants.{V4, V6};
ghost use Rattle.dnw_net.specs.dnw_codes.ProtoError.{IsMemory};
ghost use Rattle.dnw_name.specs.DomainName.{domain_name, labels_len};
ghost use Rattle.dnw_net.specs.ArpaLabels.{v4_labels, v6_labels};
ghost use Rattle.dnw_name.specs.Arpa.{arpa_name};

use crate::name::Name;
use dnw_net::{ProtoError, hex_digit};
use std::alloc::Global;
use std::net::IpAddr;

impl Name {
    /// The name of an address: its octets in decimal below `in-addr.arpa.`, or its hexadecimal digits below
    /// `ip6.arpa.`, the last first. The only error is want of memory.
    pub fn from_addr(alloc: Global, addr: IpAddr) -> Result<Name, ProtoError>
        ensures ok { IfOk result (λ name. name ≡ arpa_name addr) }
        ensures refused { IfErr result IsMemory }
    {
        match addr {
            IpAddr::V4(addr) => {
                let octets = addr.octets();
                below_arpa(name_of_v4(alloc, &octets)?, b"in-addr")
            }
            IpAddr::V6(addr) => {
                let octets = addr.octets();
                below_arpa(name_of_v6(alloc, &octets)?, b"ip6")
            }
        }
    }
}

// The name with a label more, which is short, and `arpa`.
fn below_arpa(name: Name, label: &[u8]) -> Result<Name, ProtoError>
    requires few { labels_len name.labels ≤ 64 }
    requires some { 0 < length label.now }
    requires short { length label.now ≤ 7 }
    ensures ok { IfOk result (λ longer. longer ≡ domain_name name.fqdn (name.labels ++ label.now ∷ codes "arpa" ∷ [])) }
    ensures refused { IfErr result IsMemory }
{
    let name = with_label(name, label)?;
    with_label(name, b"arpa")
}

// The name with a label more at its end, which is short.
fn with_label(name: Name, label: &[u8]) -> Result<Name, ProtoError>
    requires few { labels_len name.labels ≤ 72 }
    requires some { 0 < length label.now }
    requires short { length label.now ≤ 7 }
    ensures ok { IfOk result (λ longer. longer ≡ domain_name name.fqdn (name.labels ++ label.now ∷ [])) }
    ensures refused { IfErr result IsMemory }
{
    let _octets = name.len();
    name.append_label(label)
}

// The octets of an IPv4 address from the last one, in decimal.
fn name_of_v4(alloc: Global, octets: &[u8]) -> Result<Name, ProtoError>
    requires { length octets.now ≤ 4 }
    ensures ok { IfOk result (λ name. name ≡ domain_name true (flat_map v4_labels (reverse octets.now))) }
    ensures few { IfOk result (λ name. labels_len name.labels ≤ 64) }
    ensures refused { IfErr result IsMemory }
{
    let mut name = Name::root(alloc);
    let mut left = octets;
    'octets: while let Some((octet, rest)) = left.split_last() {
        name = with_decimal(alloc, name, *octet)?;
        left = rest;
    }
    Ok(name)
}

// The name with an octet in decimal as a label more.
fn with_decimal(alloc: Global, name: Name, octet: u8) -> Result<Name, ProtoError>
    requires { labels_len name.labels ≤ 60 }
    ensures ok { IfOk result (λ longer. longer ≡ domain_name name.fqdn (name.labels ++ v4_labels octet)) }
    ensures more { IfOk result (λ longer. labels_len longer.labels ≤ labels_len name.labels + 4) }
    ensures refused { IfErr result IsMemory }
{
    let text = match octet.to_string(alloc) {
        Ok(text) => text,
        Err(refused) => return Err(ProtoError::Memory(refused)),
    };
    with_label(name, text.as_bytes())
}

// The hexadecimal digits of an IPv6 address from the last one.
fn name_of_v6(alloc: Global, octets: &[u8]) -> Result<Name, ProtoError>
    requires { length octets.now ≤ 16 }
    ensures ok { IfOk result (λ name. name ≡ domain_name true (flat_map v6_labels (reverse octets.now))) }
    ensures few { IfOk result (λ name. labels_len name.labels ≤ 64) }
    ensures refused { IfErr result IsMemory }
{
    let mut name = Name::root(alloc);
    let mut left = octets;
    'octets: while let Some((octet, rest)) = left.split_last() {
        name = with_digits(name, *octet)?;
        left = rest;
    }
    Ok(name)
}

// The name with the two hexadecimal digits of an octet as labels more, the last one first.
fn with_digits(name: Name, octet: u8) -> Result<Name, ProtoError>
    requires { labels_len name.labels ≤ 60 }
    ensures ok { IfOk result (λ longer. longer ≡ domain_name name.fqdn (name.labels ++ v6_labels octet)) }
    ensures more { IfOk result (λ longer. labels_len longer.labels ≡ labels_len name.labels + 4) }
    ensures refused { IfErr result IsMemory }
{
    let low = [hex_digit(octet % 16)];
    let high = [hex_digit(octet / 16)];
    let name = with_label(name, &low)?;
    with_label(name, &high)
}
