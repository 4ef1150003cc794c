//! Addresses in lists, as the hints of services are (RFC 9460 7.3).
ghost use Rattle.std.specs.Prelude.{◌≡◌, ◌++◌, ◌⊎◌, List, length, IfOk, IfErr};
ghost use Rattle.drd_param_keys.specs.drd_words.Refusals.{RefusesIpv4, RefusesIpv6};
ghost use Rattle.drd_param_keys.specs.Entries.{IsShortOf};
ghost use Rattle.drd_params.specs.AddressEntries.{IsAEntry, IsAaaaEntry, a_octets, aaaa_octets};
ghost use Rattle.drd_params.specs.AddressPrint.{a_print, aaaa_print};

use crate::{A, AAAA};
use drd_fields::{BinDecodable, BinDecoder, BinEncoder, DecodeError, ProtoError};
use drd_param_keys::{Entry, ParseError};
use std::alloc::Global;
use std::{fmt, mem};

impl Entry for A {
    ghost use Rattle.drd_params.specs.AddressLaws.{a_laws, a_told};
    ghost use Rattle.drd_params.specs.AddressLaws.{a_causes};

    ghost spelled = { a_octets };

    ghost valid = { λ a. Unit {0} };

    ghost refuses = { IsShortOf 4 };

    ghost too_long = { λ a e. ⊥ };

    ghost shown = { a_print };

    ghost written = { IsAEntry };

    ghost unwritten = { RefusesIpv4 };

    ghost laws = { a_laws };

    ghost told = { a_told };

    ghost causes = { a_causes };

    fn split(alloc: Global, octets: &[u8]) -> Result<(A, &[u8]), DecodeError> {
        let mut decoder = BinDecoder::new(octets);
        let read = A::read(alloc, &mut decoder);
        let end = decoder.index();
        mem::drop(decoder);
        match read {
            Ok(address) => Ok((address, &octets[end..])),
            Err(refused) => Err(refused),
        }
    }

    fn emit_entry(&self, encoder: &mut BinEncoder<'_>) -> Result<(), ProtoError> {
        match encoder.emit_u32(self.0.to_bits()) {
            Ok(()) => Ok(()),
            Err(refused) => Err(refused),
        }
    }

    #[tactic(auto, using(crate::specs::AddressLaws::length_a))]
    fn octet_len(&self) -> usize {
        4
    }

    fn from_text(_alloc: Global, text: &str) -> Result<A, ParseError> {
        match text.parse::<A>() {
            Ok(short) => Ok(short),
            Err(_) => Err(ParseError::AddrParse),
        }
    }

    fn show<W: fmt::Write>(&self, f: &mut fmt::Formatter<W>) -> fmt::Result {
        fmt::Display::fmt(self, f)
    }
}

impl Entry for AAAA {
    ghost use Rattle.drd_params.specs.AddressLaws.{aaaa_laws, aaaa_told};
    ghost use Rattle.drd_params.specs.AddressLaws.{aaaa_causes};

    ghost spelled = { aaaa_octets };

    ghost valid = { λ aaaa. Unit {0} };

    ghost refuses = { IsShortOf 16 };

    ghost too_long = { λ a e. ⊥ };

    ghost shown = { aaaa_print };

    ghost written = { IsAaaaEntry };

    ghost unwritten = { RefusesIpv6 };

    ghost laws = { aaaa_laws };

    ghost told = { aaaa_told };

    ghost causes = { aaaa_causes };

    fn split(alloc: Global, octets: &[u8]) -> Result<(AAAA, &[u8]), DecodeError> {
        let mut decoder = BinDecoder::new(octets);
        let read = AAAA::read(alloc, &mut decoder);
        let end = decoder.index();
        mem::drop(decoder);
        match read {
            Ok(address) => Ok((address, &octets[end..])),
            Err(refused) => Err(refused),
        }
    }

    fn emit_entry(&self, encoder: &mut BinEncoder<'_>) -> Result<(), ProtoError> {
        match encoder.emit_vec(&octets_of(self)) {
            Ok(()) => Ok(()),
            Err(refused) => Err(refused),
        }
    }

    fn octet_len(&self) -> usize {
        16
    }

    fn from_text(_alloc: Global, text: &str) -> Result<AAAA, ParseError> {
        match text.parse::<AAAA>() {
            Ok(wide) => Ok(wide),
            Err(_) => Err(ParseError::AddrParse),
        }
    }

    fn show<W: fmt::Write>(&self, f: &mut fmt::Formatter<W>) -> fmt::Result {
        fmt::Display::fmt(self, f)
    }
}

/// The octets of an address.
pub fn octets_of(address: &AAAA) -> [u8; 16]
    ensures { result ≡ aaaa_octets address.now }
{
    let [a, b, c, d, e, f, g, h] = address.0.segments();
    let [a0, a1] = a.to_be_bytes();
    let [b0, b1] = b.to_be_bytes();
    let [c0, c1] = c.to_be_bytes();
    let [d0, d1] = d.to_be_bytes();
    let [e0, e1] = e.to_be_bytes();
    let [f0, f1] = f.to_be_bytes();
    let [g0, g1] = g.to_be_bytes();
    let [h0, h1] = h.to_be_bytes();
    [
        a0, a1, b0, b1, c0, c1, d0, d1, e0, e1, f0, f1, g0, g1, h0, h1,
    ]
}
