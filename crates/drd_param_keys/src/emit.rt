//! Lists that are written.
ghost use Rattle.std.specs.Prelude.{◌≡◌, ◌⊎◌, length, IfErr, OnOk};
ghost use Rattle.std.specs.List.{Contains, flat_map};
ghost use Rattle.dnw_encoder.specs.Encoders.{state};
ghost use Rattle.dnw_encoder.specs.Effects.{IsRefusal, WritesOctets, Writes};
ghost use Rattle.drd_param_keys.specs.Writing.{EndsWithin};
ghost use Rattle.drd_param_keys.specs.Entries.{key_octets, text_octets};
ghost use Rattle.drd_param_keys.specs.Lists.{HasLongProtocol};

use crate::entry::Entry;
use crate::lists::{Alpn, EchConfigList, IpHint, Mandatory, Unknown};
use dnw_encoder::{BinEncodable, BinEncoder};
use drd_words::ProtoError;

/// Writes entries, one behind the other.
pub fn emit_entries<T: Entry>(encoder: &mut BinEncoder<'_>, entries: &[T]) -> Result<(), ProtoError>
    ensures same_reference { encoder.new.buffer.ghost_name ≡ encoder.old.buffer.ghost_name }
    ensures writes { Writes (state encoder.old) (state encoder.new) }
    ensures within { EndsWithin (state encoder.old) (state encoder.new) }
    ensures ok { OnOk result (WritesOctets (flat_map T.spelled entries.now) (state encoder.old) (state encoder.new)) }
    ensures refused { IfErr result (λ e. IsRefusal (state encoder.old) (length (flat_map T.spelled entries.now)) e
        ⊎ ((entry : T) × Contains entries.now entry × T.too_long entry e)) }
{
    let _start = encoder.offset();
    'entries: for entry in entries {
        match entry.emit_entry(encoder) {
            Ok(()) => {}
            Err(refused) => return Err(refused),
        }
    }
    Ok(())
}

impl BinEncodable for Mandatory {
    ghost emits = { λ mandatory. WritesOctets (flat_map key_octets mandatory.0.items) };

    ghost refuses = { λ mandatory old e new. IsRefusal old (length (flat_map key_octets mandatory.0.items)) e };

    /// Writes the keys' numbers.
    fn emit(&self, encoder: &mut BinEncoder<'_>) -> Result<(), ProtoError> {
        let keys = &self.0;
        emit_entries(encoder, keys)
    }
}

impl BinEncodable for Alpn {
    ghost emits = { λ alpn. WritesOctets (flat_map text_octets alpn.0.items) };

    ghost refuses = { λ alpn old e new. IsRefusal old (length (flat_map text_octets alpn.0.items)) e
        ⊎ HasLongProtocol alpn.0.items e };

    /// Writes the protocols, each behind its length.
    fn emit(&self, encoder: &mut BinEncoder<'_>) -> Result<(), ProtoError> {
        let protocols = &self.0;
        emit_entries(encoder, protocols)
    }
}

impl<T: Entry> BinEncodable for IpHint<T> {
    ghost emits = { λ hint. WritesOctets (flat_map T.spelled hint.0.items) };

    ghost refuses = { λ hint old e new. IsRefusal old (length (flat_map T.spelled hint.0.items)) e
        ⊎ ((entry : T) × Contains hint.0.items entry × T.too_long entry e) };

    /// Writes the addresses.
    fn emit(&self, encoder: &mut BinEncoder<'_>) -> Result<(), ProtoError> {
        let addresses = &self.0;
        emit_entries(encoder, addresses)
    }
}

impl BinEncodable for EchConfigList {
    ghost emits = { λ ech. WritesOctets ech.0.items };

    ghost refuses = { λ ech old e new. IsRefusal old (length ech.0.items) e };

    /// Writes the octets.
    fn emit(&self, encoder: &mut BinEncoder<'_>) -> Result<(), ProtoError> {
        let configurations = &self.0;
        match encoder.emit_vec(configurations) {
            Ok(()) => Ok(()),
            Err(refused) => Err(refused),
        }
    }
}

impl BinEncodable for Unknown {
    ghost emits = { λ unknown. WritesOctets unknown.0.items };

    ghost refuses = { λ unknown old e new. IsRefusal old (length unknown.0.items) e };

    /// Writes the octets.
    fn emit(&self, encoder: &mut BinEncoder<'_>) -> Result<(), ProtoError> {
        match encoder.emit_vec(&self.0) {
            Ok(()) => Ok(()),
            Err(refused) => Err(refused),
        }
    }
}
