//! Values of parameters in texts.
ghost use Rattle.std.specs.Prelude.{◌⊎◌, IfOk, IfErr};
ghost use Rattle.drd_params.specs.drd_words.Word.{IsOutOfMemory};
ghost use Rattle.drd_param_keys.specs.declared.key.SvcParamKey.TheVariants as of;
ghost use Rattle.drd_svcb.specs.ParamRefusals.{RefusesValueText};
ghost use Rattle.drd_svcb.specs.Texts.{IsValueText};

use drd_param_keys::{SvcParamKey, base64_octets, entries_of};
use drd_params::{
    Alpn, EchConfigList, IpHint, Mandatory, ParseError, SvcParamValue, Unknown, Word, unescaped,
};
use std::alloc::Global;

/// The value of a key that a text writes. Refused is a text that writes none, by its first entry that stands for none, or as
/// a whole.
pub(crate) fn value_of(
    alloc: Global,
    key: SvcParamKey,
    text: &str,
) -> Result<SvcParamValue, ParseError>
    ensures ok { IfOk result (λ value. IsValueText key value text.now) }
    ensures refused { IfErr result (λ e. IsOutOfMemory e ⊎ RefusesValueText key text.now e) }
{
    match key {
        SvcParamKey::Mandatory => match entries_of(alloc, text) {
            Ok(keys) => Ok(SvcParamValue::Mandatory(Mandatory(keys))),
            Err(refused) => Err(refused),
        },
        SvcParamKey::Alpn => match entries_of(alloc, text) {
            Ok(protocols) => Ok(SvcParamValue::Alpn(Alpn(protocols))),
            Err(refused) => Err(refused),
        },
        SvcParamKey::NoDefaultAlpn => no_value(text),
        SvcParamKey::Port => match u16::from_word(alloc, text, None) {
            Ok(port) => Ok(SvcParamValue::Port(port)),
            Err(refused) => Err(refused),
        },
        SvcParamKey::Ipv4Hint => match entries_of(alloc, text) {
            Ok(addresses) => Ok(SvcParamValue::Ipv4Hint(IpHint(addresses))),
            Err(refused) => Err(refused),
        },
        SvcParamKey::EchConfigList => match base64_octets(alloc, text) {
            Ok(octets) => Ok(SvcParamValue::EchConfigList(EchConfigList(octets))),
            Err(refused) => Err(refused),
        },
        SvcParamKey::Ipv6Hint => match entries_of(alloc, text) {
            Ok(addresses) => Ok(SvcParamValue::Ipv6Hint(IpHint(addresses))),
            Err(refused) => Err(refused),
        },
        SvcParamKey::Key(_) | SvcParamKey::Key65535 | SvcParamKey::Unknown(_) => {
            match unescaped(alloc, text.as_bytes()) {
                Ok(octets) => Ok(SvcParamValue::Unknown(Unknown(octets))),
                Err(refused) => Err(refused),
            }
        }
    }
}

// No octets, for the key that has none.
fn no_value(text: &str) -> Result<SvcParamValue, ParseError>
    ensures ok { IfOk result (λ value. IsValueText of.NoDefaultAlpn value text.now) }
    ensures refused { IfErr result (RefusesValueText of.NoDefaultAlpn text.now) }
{
    if text.is_empty() {
        Ok(SvcParamValue::NoDefaultAlpn)
    } else {
        Err(ParseError::UnexpectedToken)
    }
}
