//! Subnets from texts.
ghost use Rattle.std.specs.Prelude.{◌≡◌, ◌<◌, ◌≤◌, ℕ, MatchResult, IfOk, OnOk, OnErr};
ghost use Rattle.drd_words.specs.dnw_net.Networks.{address_bits};
ghost use Rattle.drd_words.specs.Word.{IsNumberWord};
ghost use Rattle.drd_opt.specs.Texts.{IsSubnetText};

use crate::subnet::ClientSubnet;
use drd_fields::ParseError;
use drd_words::{IpNet, PrefixLenError};
use std::net::IpAddr;
use std::str::FromStr;

// The block of an address and a prefix of at most its bits.
fn block_of(address: IpAddr, prefix_len: u8) -> Result<IpNet, PrefixLenError>
    ensures ok { IfOk result (λ net. (net.addr ≡ address) × (net.prefix_len ≡ prefix_len)) }
    ensures within { OnOk result (prefix_len ≤ address_bits address) }
    ensures refused { OnErr result (address_bits address < prefix_len) }
{
    match address {
        IpAddr::V4(address) => IpNet::v4(address, prefix_len),
        IpAddr::V6(address) => IpNet::v6(address, prefix_len),
    }
}

// The number of 8 bits that decimal digits alone write.
fn prefix_of(digits: &str) -> Result<u8, ParseError>
    ensures ok { IfOk result (λ number. IsNumberWord 8 number digits.now) }
    ensures refused { OnErr result ((number : ℕ) → IsNumberWord 8 number digits.now → ⊥) }
{
    if digits.starts_with('+') {
        return Err(ParseError::ParseInt);
    }
    match digits.parse() {
        Ok(number) => Ok(number),
        Err(_) => Err(ParseError::ParseInt),
    }
}

impl FromStr for ClientSubnet {
    type Err = ParseError;

    ghost use Rattle.drd_opt.specs.declared.subnet.ClientSubnet.{ClientSubnet};

    ghost from_str_gives = { λ text result. MatchResult result (IsSubnetText text)
        (λ e. (subnet : ClientSubnet) → IsSubnetText text subnet → ⊥) };

    /// The network that an address, `/` and a prefix of at most the address's bits write.
    fn from_str(text: &str) -> Result<ClientSubnet, ParseError> {
        let Some((address, digits)) = text.split_once('/') else {
            return Err(ParseError::AddrParse);
        };
        let Ok(address) = address.parse::<IpAddr>() else {
            return Err(ParseError::AddrParse);
        };
        let prefix = match prefix_of(digits) {
            Ok(prefix) => prefix,
            Err(refused) => return Err(refused),
        };
        match block_of(address, prefix) {
            Ok(net) => Ok(ClientSubnet::from(net)),
            Err(_) => Err(ParseError::AddrParse),
        }
    }
}
