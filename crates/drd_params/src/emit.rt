//! Values and parameters that are written.
ghost use Rattle.std.specs.Prelude.{◌≡◌, ◌++◌, ◌⊎◌, length, IfErr, OnOk};
ghost use Rattle.drd_params.specs.dnw_decoder.Octets.{octets_16};
ghost use Rattle.drd_params.specs.dnw_encoder.Encoders.{state};
ghost use Rattle.drd_params.specs.dnw_encoder.Effects.{IsRefusal, WritesOctets, Writes};
ghost use Rattle.drd_params.specs.drd_fields.Writing.{EndsWithin};
ghost use Rattle.drd_param_keys.specs.Keys.{key_number};
ghost use Rattle.drd_params.specs.Params.{AreParams, param_octets, params_octets};
ghost use Rattle.drd_params.specs.Writing.{HasLongText, IsOversized, RefusesEmitParams, RefusesValueWriting, RefusesWriting};
ghost use Rattle.drd_params.specs.Values.{value_octets};

use crate::value::SvcParamValue;
use drd_fields::{BinEncodable, BinEncoder, ProtoError};
use drd_param_keys::{SvcParamKey, emit_entries};

// Writes the octets of a value.
fn emit_octets(encoder: &mut BinEncoder<'_>, value: &SvcParamValue) -> Result<(), ProtoError>
    ensures same_reference { encoder.new.buffer.ghost_name ≡ encoder.old.buffer.ghost_name }
    ensures writes { Writes (state encoder.old) (state encoder.new) }
    ensures within { EndsWithin (state encoder.old) (state encoder.new) }
    ensures ok { OnOk result (WritesOctets (value_octets value.now) (state encoder.old) (state encoder.new)) }
    ensures refused { IfErr result (RefusesValueWriting value.now (state encoder.old)) }
{
    match value {
        SvcParamValue::Mandatory(mandatory) => emit_entries(encoder, &mandatory.0),
        SvcParamValue::Alpn(alpn) => emit_entries(encoder, &alpn.0),
        SvcParamValue::NoDefaultAlpn => match encoder.emit_vec(&[]) {
            Ok(()) => Ok(()),
            Err(refused) => Err(refused),
        },
        SvcParamValue::Port(port) => match encoder.emit_u16(*port) {
            Ok(()) => Ok(()),
            Err(refused) => Err(refused),
        },
        SvcParamValue::Ipv4Hint(hint) => emit_entries(encoder, &hint.0),
        SvcParamValue::EchConfigList(ech) => match encoder.emit_vec(&ech.0) {
            Ok(()) => Ok(()),
            Err(refused) => Err(refused),
        },
        SvcParamValue::Ipv6Hint(hint) => emit_entries(encoder, &hint.0),
        SvcParamValue::Unknown(unknown) => match encoder.emit_vec(&unknown.0) {
            Ok(()) => Ok(()),
            Err(refused) => Err(refused),
        },
    }
}

// Writes a value behind its length.
fn emit_value(encoder: &mut BinEncoder<'_>, value: &SvcParamValue) -> Result<(), ProtoError>
    ensures same_reference { encoder.new.buffer.ghost_name ≡ encoder.old.buffer.ghost_name }
    ensures writes { Writes (state encoder.old) (state encoder.new) }
    ensures within { EndsWithin (state encoder.old) (state encoder.new) }
    ensures ok { OnOk result (WritesOctets (octets_16 (length (value_octets value.now)) ++ value_octets value.now)
        (state encoder.old) (state encoder.new)) }
    ensures refused { IfErr result (RefusesEmitParams value.now (state encoder.old)) }
{
    let _start = encoder.offset();
    let Some(len) = value.octet_len() else {
        return Err(ProtoError::MaxBufferSizeExceeded(65_535));
    };
    match encoder.emit_u16(len) {
        Ok(()) => {}
        Err(refused) => return Err(refused),
    }
    emit_octets(encoder, value)
}

impl BinEncodable for SvcParamValue {
    ghost emits = { λ value. WritesOctets (octets_16 (length (value_octets value)) ++ value_octets value) };

    ghost refuses = { λ value old e new. RefusesEmitParams value old e };

    /// Writes the value behind its length (RFC 9460 2.2). Refused are more than 65,535 octets, and a protocol of more than
    /// 255.
    fn emit(&self, encoder: &mut BinEncoder<'_>) -> Result<(), ProtoError> {
        emit_value(encoder, self)
    }
}

// Writes a parameter: the key's number, then the value behind its length.
fn emit_param(
    encoder: &mut BinEncoder<'_>,
    param: &(SvcParamKey, SvcParamValue),
) -> Result<(), ProtoError>
    ensures same_reference { encoder.new.buffer.ghost_name ≡ encoder.old.buffer.ghost_name }
    ensures writes { Writes (state encoder.old) (state encoder.new) }
    ensures within { EndsWithin (state encoder.old) (state encoder.new) }
    ensures ok { OnOk result (WritesOctets (param_octets param.now) (state encoder.old) (state encoder.new)) }
    ensures refused { IfErr result (λ e. IsRefusal (state encoder.old) (length (param_octets param.now)) e
        ⊎ (HasLongText param.now.1 e ⊎ IsOversized param.now.1 e)) }
{
    let _start = encoder.offset();
    match encoder.emit_u16(u16::from(param.0)) {
        Ok(()) => {}
        Err(refused) => return Err(refused),
    }
    emit_value(encoder, &param.1)
}

/// Writes parameters, one behind the other (RFC 9460 2.2). Refused are a value of more than 65,535 octets, and a protocol
/// of more than 255, neither of which the parameters of a record have: those are refused only for want of memory or of
/// space.
pub fn emit_params(
    encoder: &mut BinEncoder<'_>,
    params: &[(SvcParamKey, SvcParamValue)],
) -> Result<(), ProtoError>
    ensures same_reference { encoder.new.buffer.ghost_name ≡ encoder.old.buffer.ghost_name }
    ensures writes { Writes (state encoder.old) (state encoder.new) }
    ensures within { EndsWithin (state encoder.old) (state encoder.new) }
    ensures ok { OnOk result (WritesOctets (params_octets params.now) (state encoder.old) (state encoder.new)) }
    ensures refused { IfErr result (λ e. IsRefusal (state encoder.old) (length (params_octets params.now)) e
        ⊎ RefusesWriting params.now e) }
    ensures written { AreParams params.now
        → IfErr result (λ e. IsRefusal (state encoder.old) (length (params_octets params.now)) e) }
{
    let _start = encoder.offset();
    'params: for param in params {
        match emit_param(encoder, param) {
            Ok(()) => {}
            Err(refused) => return Err(refused),
        }
    }
    Ok(())
}
