//! Keys in messages, each alone.
ghost use Rattle.dnw_encoder.specs.dnw_decoder.Octets.{octets_16};
ghost use Rattle.dnw_encoder.specs.dnw_decoder.Reading.{IsCut};
ghost use Rattle.dnw_encoder.specs.Effects.{IsRefusal, WritesOctets};
ghost use Rattle.drd_param_keys.specs.Keys.{key_number, KeyAt};

use crate::key::SvcParamKey;
use dnw_encoder::{BinDecodable, BinDecoder, BinEncodable, BinEncoder};
use drd_words::{DecodeError, ProtoError};
use std::alloc::Global;

impl BinEncodable for SvcParamKey {
    ghost emits = { λ key. WritesOctets (octets_16 (key_number key)) };

    ghost refuses = { λ key old e new. IsRefusal old 2 e };

    /// Writes the key's number.
    fn emit(&self, encoder: &mut BinEncoder<'_>) -> Result<(), ProtoError> {
        match encoder.emit_u16(u16::from(*self)) {
            Ok(()) => Ok(()),
            Err(refused) => Err(refused),
        }
    }
}

impl BinDecodable for SvcParamKey {
    ghost reads = { KeyAt };

    ghost refuses = { IsCut 2 };

    /// The key of the number at the decoder's index.
    fn read(_alloc: Global, decoder: &mut BinDecoder<'_>) -> Result<SvcParamKey, DecodeError> {
        match decoder.read_u16() {
            Ok(number) => Ok(SvcParamKey::from(number.unverified())),
            Err(refused) => Err(refused),
        }
    }
}
