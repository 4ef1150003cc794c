//! Lists that fill octets, each alone.
ghost use Rattle.std.specs.Prelude.{◌≡◌, ◌⊎◌, ◌≤◌, length, IfOk, IfErr, OnErr};
ghost use Rattle.std.specs.List.{flat_map};
ghost use Rattle.dnw_encoder.specs.dnw_decoder.Octets.{Stands};
ghost use Rattle.dnw_encoder.specs.dnw_decoder.Reading.{IsCut, IsWantOfMemory};
ghost use Rattle.drd_param_keys.specs.Entries.{RefusesNext, key_octets, text_octets};
ghost use Rattle.drd_param_keys.specs.Lists.{AreKeys, AreProtocols, NoKeys, NoProtocols, RefusesKeys, RefusesProtocols};
ghost use Rattle.drd_param_keys.specs.Reading.{FillsMessage, RefusesAt};

use crate::entry::{Entry, read_all};
use crate::key::SvcParamKey;
use crate::lists::{Alpn, EchConfigList, IpHint, Mandatory, Unknown};
use dnw_encoder::{BinDecodable, BinDecoder};
use drd_words::DecodeError;
use std::alloc::Global;

// Takes the octets that are left.
fn take_rest<'a>(decoder: &mut BinDecoder<'a>) -> &'a [u8]
    ensures fills { FillsMessage decoder.old.octets decoder.old.index result.now decoder.new.index }
    ensures same { decoder.new.octets ≡ decoder.old.octets }
    ensures forward { decoder.old.index ≤ decoder.new.index }
{
    let left = decoder.len();
    match decoder.read_slice(left) {
        Ok(octets) => octets.unverified(),
        Err(_) => &[],
    }
}

/// Keys, at least one.
pub fn read_mandatory(alloc: Global, octets: &[u8]) -> Result<Mandatory, DecodeError>
    ensures ok { IfOk result (λ found. AreKeys found.0.items × (flat_map key_octets found.0.items ≡ octets.now)) }
    ensures refused { IfErr result (λ e. IsWantOfMemory e ⊎ NoKeys octets.now e) }
{
    if octets.is_empty() {
        return Err(DecodeError::SvcParamMissingValue);
    }
    match read_all::<SvcParamKey>(alloc, octets) {
        Ok(found) => Ok(Mandatory(found)),
        Err(refused) => Err(refused),
    }
}

/// Strings, at least one.
pub fn read_alpn(alloc: Global, octets: &[u8]) -> Result<Alpn, DecodeError>
    ensures ok { IfOk result (λ found. AreProtocols found.0.items × (flat_map text_octets found.0.items ≡ octets.now)) }
    ensures refused { IfErr result (λ e. IsWantOfMemory e ⊎ NoProtocols octets.now e) }
{
    if octets.is_empty() {
        return Err(DecodeError::SvcParamMissingValue);
    }
    match read_all::<String>(alloc, octets) {
        Ok(found) => Ok(Alpn(found)),
        Err(refused) => Err(refused),
    }
}

impl BinDecodable for Mandatory {
    ghost reads = { λ message place mandatory end. AreKeys mandatory.0.items
        × FillsMessage message place (flat_map key_octets mandatory.0.items) end };

    ghost refuses = { RefusesAt RefusesKeys };

    /// The keys up to the end, at least one.
    fn read(alloc: Global, decoder: &mut BinDecoder<'_>) -> Result<Mandatory, DecodeError> {
        let start = decoder.index();
        match read_mandatory(alloc, take_rest(decoder)) {
            Ok(mandatory) => Ok(mandatory),
            Err(refused) => {
                decoder.set_index(start);
                Err(refused)
            }
        }
    }
}

impl BinDecodable for Alpn {
    ghost reads = { λ message place alpn end. AreProtocols alpn.0.items
        × FillsMessage message place (flat_map text_octets alpn.0.items) end };

    ghost refuses = { RefusesAt RefusesProtocols };

    /// The protocols up to the end, at least one, each behind its length.
    fn read(alloc: Global, decoder: &mut BinDecoder<'_>) -> Result<Alpn, DecodeError> {
        let start = decoder.index();
        match read_alpn(alloc, take_rest(decoder)) {
            Ok(alpn) => Ok(alpn),
            Err(refused) => {
                decoder.set_index(start);
                Err(refused)
            }
        }
    }
}

impl<T: Entry> BinDecodable for IpHint<T> {
    ghost reads = { λ message place hint end. FillsMessage message place (flat_map T.spelled hint.0.items) end };

    ghost refuses = { RefusesAt (RefusesNext T.spelled T.refuses) };

    /// The addresses up to the end.
    fn read(alloc: Global, decoder: &mut BinDecoder<'_>) -> Result<IpHint<T>, DecodeError> {
        let start = decoder.index();
        match read_all::<T>(alloc, take_rest(decoder)) {
            Ok(addresses) => Ok(IpHint(addresses)),
            Err(refused) => {
                decoder.set_index(start);
                Err(refused)
            }
        }
    }
}

impl BinDecodable for EchConfigList {
    ghost reads = { λ message place ech end. FillsMessage message place ech.0.items end };

    ghost refuses = { λ message place e. IsWantOfMemory e };

    /// The octets up to the end.
    fn read(alloc: Global, decoder: &mut BinDecoder<'_>) -> Result<EchConfigList, DecodeError> {
        let start = decoder.index();
        match Vec::from_slice(alloc, take_rest(decoder)) {
            Ok(octets) => Ok(EchConfigList(octets)),
            Err(_) => {
                decoder.set_index(start);
                Err(DecodeError::Memory)
            }
        }
    }
}

impl BinDecodable for Unknown {
    ghost reads = { λ message place unknown end. FillsMessage message place unknown.0.items end };

    ghost refuses = { λ message place e. IsWantOfMemory e };

    /// The octets up to the end.
    fn read(alloc: Global, decoder: &mut BinDecoder<'_>) -> Result<Unknown, DecodeError> {
        let start = decoder.index();
        match Vec::from_slice(alloc, take_rest(decoder)) {
            Ok(octets) => Ok(Unknown(octets)),
            Err(_) => {
                decoder.set_index(start);
                Err(DecodeError::Memory)
            }
        }
    }
}
