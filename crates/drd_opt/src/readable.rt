//! Options of a message (RFC 6891 6.1.2).
ghost use Rattle.std.specs.Prelude.{◌≡◌, ◌↔◌, ◌==◌, ◌<◌, ℕ, true, IsTrue};
ghost use Rattle.std.specs.List.{All, list_all};
ghost use Rattle.drd_opt.specs.Codes.{edns_code_number, edns_code_of};
ghost use Rattle.drd_opt.specs.Options.{HasNoForm, option_code};
ghost use Rattle.drd_opt.specs.Subnets.{SubnetAt};
ghost use Rattle.drd_opt.specs.declared.subnet.ClientSubnet.{ClientSubnet as Network};
ghost use Rattle.drd_opt.specs.Readable.{HasOwnForm, IsPadded, StandsSomewhere};

use crate::code::EdnsCode;
use crate::opt::OPT;
use crate::option::EdnsOption;
use crate::subnet::ClientSubnet;
use drd_fields::BinDecodable;
use std::net::IpAddr;

/// Whether each option is one that is read under its code.
pub fn can_read_opt(opt: &OPT) -> bool
    ensures { IsTrue result ↔ All StandsSomewhere opt.now.options.items }
{
    are_entries(opt.as_ref())
}

// Whether each option is one that is read under its code.
fn are_entries(entries: &[(EdnsCode, EdnsOption)]) -> bool
    ensures { IsTrue result ↔ All StandsSomewhere entries.now }
{
    'entries: for entry in entries {
        if !is_entry(entry) {
            return false;
        }
    }
    true
}

// Whether some option is read as this one under this code.
fn is_entry(entry: &(EdnsCode, EdnsOption)) -> bool
    ensures { IsTrue result ↔ StandsSomewhere entry.now }
{
    has_own_code(entry.0, &entry.1) && entry.1.is_countable() && has_own_form(&entry.1)
}

// Whether the code is the option's.
#[tactic(auto, using(crate::proofs::ReadableLaws::own_code_of, crate::proofs::ReadableLaws::own_number, crate::proofs::ReadableLaws::own_code))]
fn has_own_code(code: EdnsCode, option: &EdnsOption) -> bool
    ensures same { IsTrue result ↔ (code ≡ edns_code_of (option_code option.now)) }
    ensures small { edns_code_number code < 65536 }
{
    is_own_code(code) && u16::from(code) == u16::from(option.code())
}

// Whether the code is the one that its number stands for.
fn is_own_code(code: EdnsCode) -> bool
    ensures own { IsTrue result ↔ (code ≡ edns_code_of (edns_code_number code)) }
    ensures small { edns_code_number code < 65536 }
{
    let _number = u16::from(code);
    match code {
        EdnsCode::Unknown(number) => matches!(EdnsCode::from(number), EdnsCode::Unknown(_)),
        _ => true,
    }
}

// Whether an option is read in this form.
fn has_own_form(option: &EdnsOption) -> bool
    ensures { IsTrue result ↔ HasOwnForm option.now }
{
    match option {
        EdnsOption::DAU(_) | EdnsOption::NSID(_) => true,
        EdnsOption::Subnet(subnet) => is_padded(subnet),
        EdnsOption::Unknown(number, octets) => has_no_form(*number, octets),
    }
}

// Whether the octets behind those of the prefix are zero.
fn is_padded(subnet: &ClientSubnet) -> bool
    ensures { IsTrue result ↔ IsPadded subnet.now }
{
    let written = usize::from(subnet.len()) - 4;
    match subnet.addr() {
        IpAddr::V4(address) => are_zero(&address.octets()[written..]),
        IpAddr::V6(address) => are_zero(&address.octets()[written..]),
    }
}

fn are_zero(octets: &[u8]) -> bool
    ensures { result ≡ list_all (λ octet. octet == 0) octets.now }
{
    octets.iter().all(|octet| *octet == 0)
}

// Whether no option of this code and these octets has a form of its own.
fn has_no_form(number: u16, octets: &Vec<u8>) -> bool
    ensures { IsTrue result ↔ HasNoForm number octets.now.items }
{
    match number {
        3 | 5 => false,
        8 => !begins_with_subnet(octets),
        _ => true,
    }
}

// Whether octets begin with the network of a client. Reading one takes no memory.
fn begins_with_subnet(octets: &Vec<u8>) -> bool
    ensures { IsTrue result ↔ ((subnet : Network) × (end : ℕ) × SubnetAt octets.now.items 0 subnet end) }
{
    ClientSubnet::from_bytes(*octets.allocator(), octets).is_ok()
}
