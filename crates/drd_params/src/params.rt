//! Parameters, one behind the other.
ghost use Rattle.std.specs.Prelude.{◌≡◌, ◌<◌, ◌≤◌, ◌⊎◌, ◌++◌, ℕ, List, length, IfOk, IfErr, MatchOption};
ghost use Rattle.drd_params.specs.dnw_codes.declared.error.DecodeError.TheVariants.{InsufficientBytes};
ghost use Rattle.drd_params.specs.dnw_decoder.Octets.{octets_16};
ghost use Rattle.drd_params.specs.dnw_decoder.Reading.{IsWantOfMemory};
ghost use Rattle.drd_param_keys.specs.Keys.{key_number, key_of};
ghost use Rattle.drd_params.specs.Params.{AreParams, BeginsNoPart, IsParam, NoParam, NoParams, param_octets, params_octets, part_octets};

use crate::value::SvcParamValue;
use drd_fields::DecodeError;
use drd_param_keys::SvcParamKey;
use std::alloc::Global;

/// Why octets are no parameters, and how many of them are left behind those that were read.
#[derive(Debug, Drop)]
pub struct Stopped {
    pub cause: DecodeError,
    pub left: usize,
}

// The number that octets begin with, and those behind it.
fn split_number(octets: &[u8]) -> Option<(u16, &[u8])>
    ensures { MatchOption result (length octets.now < 2) (λ found. octets.now ≡ octets_16 found.0 ++ found.1.now) }
{
    let (high, behind) = octets.split_first()?;
    let (low, behind) = behind.split_first()?;
    Some((u16::from_be_bytes([*high, *low]), behind))
}

// The number of a key, the octets of its value, and those behind it.
fn split_part(octets: &[u8]) -> Result<(u16, &[u8], &[u8]), DecodeError>
    ensures ok { IfOk result (λ found. octets.now ≡ part_octets found.0 found.1.now ++ found.2.now) }
    ensures few { IfOk result (λ found. length found.1.now < 65536) }
    ensures refused { IfErr result (λ e. (e ≡ InsufficientBytes) × BeginsNoPart octets.now) }
{
    let Some((number, behind)) = split_number(octets) else {
        return Err(DecodeError::InsufficientBytes);
    };
    let Some((len, behind)) = split_number(behind) else {
        return Err(DecodeError::InsufficientBytes);
    };
    let Some((value, behind)) = behind.split_at_checked(usize::from(len)) else {
        return Err(DecodeError::InsufficientBytes);
    };
    Ok((number, value, behind))
}

// The parameter that octets begin with, and those behind it. Of one that is cut no octet is read; one whose value is refused is
// read as a whole.
fn split_param(
    alloc: Global,
    octets: &[u8],
) -> Result<((SvcParamKey, SvcParamValue), &[u8]), Stopped>
    ensures param { IfOk result (λ found. IsParam found.0) }
    ensures ok { IfOk result (λ found. octets.now ≡ param_octets found.0 ++ found.1.now) }
    ensures refused { IfErr result (λ stopped. IsWantOfMemory stopped.cause
        ⊎ ((behind : List ℕ) × NoParam octets.now stopped.cause behind × (length behind ≡ stopped.left))) }
    ensures within { IfErr result (λ stopped. stopped.left ≤ length octets.now) }
{
    let (number, value, behind) = match split_part(octets) {
        Ok(part) => part,
        Err(cause) => {
            let left = octets.len();
            return Err(Stopped { cause, left });
        }
    };
    let key = SvcParamKey::from(number);
    match SvcParamValue::read(alloc, key, value) {
        Ok(value) => Ok(((key, value), behind)),
        Err(cause) => {
            let left = behind.len();
            Err(Stopped { cause, left })
        }
    }
}

/// The parameters that fill these octets. Refused are octets that end inside a parameter, a value that isn't one of its
/// key, and then, by `SvcParamsOutOfOrder`, a key that isn't above those before it (RFC 9460 2.2).
pub fn read_params(
    alloc: Global,
    octets: &[u8],
) -> Result<Vec<(SvcParamKey, SvcParamValue)>, DecodeError>
    ensures params { IfOk result (λ params. AreParams params.items) }
    ensures ok { IfOk result (λ params. params_octets params.items ≡ octets.now) }
    ensures refused { IfErr result (λ e. IsWantOfMemory e ⊎ ((behind : List ℕ) × NoParams octets.now e behind)) }
{
    match read_params_until(alloc, octets) {
        Ok(params) => Ok(params),
        Err(stopped) => Err(stopped.cause),
    }
}

/// The parameters that fill these octets, as by `read_params`. Where they don't, reading stops before a parameter that is cut,
/// and behind one whose value is refused or whose key is out of order.
pub fn read_params_until(
    alloc: Global,
    octets: &[u8],
) -> Result<Vec<(SvcParamKey, SvcParamValue)>, Stopped>
    ensures params { IfOk result (λ params. AreParams params.items) }
    ensures ok { IfOk result (λ params. params_octets params.items ≡ octets.now) }
    ensures refused { IfErr result (λ stopped. IsWantOfMemory stopped.cause
        ⊎ ((behind : List ℕ) × NoParams octets.now stopped.cause behind × (length behind ≡ stopped.left))) }
    ensures within { IfErr result (λ stopped. stopped.left ≤ length octets.now) }
{
    let mut found = Vec::new(alloc);
    let mut least = 0;
    let mut rest = octets;
    'params: while !rest.is_empty() {
        let (param, behind) = match split_param(alloc, rest) {
            Ok(split) => split,
            Err(stopped) => return Err(stopped),
        };
        let left = behind.len();
        let number = u32::from(u16::from(param.0));
        if number < least {
            let cause = DecodeError::SvcParamsOutOfOrder;
            return Err(Stopped { cause, left });
        }
        match found.push(param) {
            Ok(()) => {}
            Err(_) => {
                let cause = DecodeError::Memory;
                return Err(Stopped { cause, left });
            }
        }
        least = number + 1;
        rest = behind;
    }
    Ok(found)
}
