//! Values of parameters (RFC 9460 7, 8).
ghost use Rattle.std.specs.Prelude.{◌≡◌, ◌⊎◌, IfOk, IfErr};
ghost use Rattle.drd_params.specs.dnw_decoder.Reading.{IsWantOfMemory};
ghost use Rattle.drd_param_keys.specs.declared.key.SvcParamKey.TheVariants as of;
ghost use Rattle.drd_params.specs.Values.{IsUnknown, IsValueOf, value_octets};
ghost use Rattle.drd_params.specs.Refusals.{NoValue};

use crate::a::A;
use crate::aaaa::AAAA;
use drd_fields::DecodeError;
use drd_param_keys::{
    Alpn, EchConfigList, IpHint, Mandatory, SvcParamKey, Unknown, read_all, read_alpn,
    read_mandatory,
};
use std::alloc::Global;

/// The value of a parameter.
#[derive(Clone, Debug, Drop)]
pub enum SvcParamValue {
    Mandatory(Mandatory),
    Alpn(Alpn),
    /// The value without octets.
    NoDefaultAlpn,
    Port(u16),
    Ipv4Hint(IpHint<A>),
    EchConfigList(EchConfigList),
    Ipv6Hint(IpHint<AAAA>),
    Unknown(Unknown),
}

impl SvcParamValue {
    /// The value of a key that fills these octets. Refused are no octets for keys and protocols, octets that end inside a
    /// key, a string, a port or an address, strings that are no UTF-8, and octets behind a port or where there are to be
    /// none.
    pub fn read(
        alloc: Global,
        key: SvcParamKey,
        octets: &[u8],
    ) -> Result<SvcParamValue, DecodeError>
        ensures ok { IfOk result (λ value. IsValueOf key value × (value_octets value ≡ octets.now)) }
        ensures refused { IfErr result (λ e. IsWantOfMemory e ⊎ NoValue key octets.now e) }
    {
        match key {
            SvcParamKey::Mandatory => match read_mandatory(alloc, octets) {
                Ok(mandatory) => Ok(SvcParamValue::Mandatory(mandatory)),
                Err(refused) => Err(refused),
            },
            SvcParamKey::Alpn => match read_alpn(alloc, octets) {
                Ok(alpn) => Ok(SvcParamValue::Alpn(alpn)),
                Err(refused) => Err(refused),
            },
            SvcParamKey::NoDefaultAlpn => read_nothing(octets),
            SvcParamKey::Port => read_port(octets),
            SvcParamKey::Ipv4Hint => read_ipv4_hint(alloc, octets),
            SvcParamKey::EchConfigList => read_ech(alloc, octets),
            SvcParamKey::Ipv6Hint => read_ipv6_hint(alloc, octets),
            SvcParamKey::Key(_) => read_unknown(alloc, octets),
            SvcParamKey::Key65535 => read_unknown(alloc, octets),
            SvcParamKey::Unknown(_) => read_unknown(alloc, octets),
        }
    }
}

// No octets.
fn read_nothing(octets: &[u8]) -> Result<SvcParamValue, DecodeError>
    ensures ok { IfOk result (λ value. IsValueOf of.NoDefaultAlpn value × (value_octets value ≡ octets.now)) }
    ensures refused { IfErr result (λ e. IsWantOfMemory e ⊎ NoValue of.NoDefaultAlpn octets.now e) }
{
    if octets.is_empty() {
        Ok(SvcParamValue::NoDefaultAlpn)
    } else {
        Err(DecodeError::IncorrectRDataLengthRead {
            read: 0,
            len: octets.len(),
        })
    }
}

// A number of two octets.
fn read_port(octets: &[u8]) -> Result<SvcParamValue, DecodeError>
    ensures ok { IfOk result (λ value. IsValueOf of.Port value × (value_octets value ≡ octets.now)) }
    ensures refused { IfErr result (λ e. IsWantOfMemory e ⊎ NoValue of.Port octets.now e) }
{
    if octets.len() < 2 {
        return Err(DecodeError::InsufficientBytes);
    }
    if octets.len() > 2 {
        return Err(DecodeError::IncorrectRDataLengthRead {
            read: 2,
            len: octets.len(),
        });
    }
    let port = u16::from_be_bytes([octets[0], octets[1]]);
    Ok(SvcParamValue::Port(port))
}

// Addresses of four octets.
fn read_ipv4_hint(alloc: Global, octets: &[u8]) -> Result<SvcParamValue, DecodeError>
    ensures ok { IfOk result (λ value. IsValueOf of.Ipv4Hint value × (value_octets value ≡ octets.now)) }
    ensures refused { IfErr result (λ e. IsWantOfMemory e ⊎ NoValue of.Ipv4Hint octets.now e) }
{
    match read_all::<A>(alloc, octets) {
        Ok(found) => Ok(SvcParamValue::Ipv4Hint(IpHint(found))),
        Err(refused) => Err(refused),
    }
}

// Addresses of sixteen octets.
fn read_ipv6_hint(alloc: Global, octets: &[u8]) -> Result<SvcParamValue, DecodeError>
    ensures ok { IfOk result (λ value. IsValueOf of.Ipv6Hint value × (value_octets value ≡ octets.now)) }
    ensures refused { IfErr result (λ e. IsWantOfMemory e ⊎ NoValue of.Ipv6Hint octets.now e) }
{
    match read_all::<AAAA>(alloc, octets) {
        Ok(found) => Ok(SvcParamValue::Ipv6Hint(IpHint(found))),
        Err(refused) => Err(refused),
    }
}

// Octets as they are.
fn read_ech(alloc: Global, octets: &[u8]) -> Result<SvcParamValue, DecodeError>
    ensures ok { IfOk result (λ value. IsValueOf of.EchConfigList value × (value_octets value ≡ octets.now)) }
    ensures refused { IfErr result (λ e. IsWantOfMemory e ⊎ NoValue of.EchConfigList octets.now e) }
{
    match Vec::from_slice(alloc, octets) {
        Ok(octets) => Ok(SvcParamValue::EchConfigList(EchConfigList(octets))),
        Err(_) => Err(DecodeError::Memory),
    }
}

// Octets of a key without a form of its own.
fn read_unknown(alloc: Global, octets: &[u8]) -> Result<SvcParamValue, DecodeError>
    ensures ok { IfOk result (λ value. IsUnknown value × (value_octets value ≡ octets.now)) }
    ensures refused { IfErr result (λ e. IsWantOfMemory e) }
{
    match Vec::from_slice(alloc, octets) {
        Ok(octets) => Ok(SvcParamValue::Unknown(Unknown(octets))),
        Err(_) => Err(DecodeError::Memory),
    }
}
