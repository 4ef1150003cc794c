//! SVCB (RFC 9460 2).
ghost use Rattle.std.specs.Prelude.{◌≡◌, ◌∷◌, Some};
ghost use Rattle.std.specs.Cmp.{partial_equiv_from_equiv};
ghost use Rattle.std.specs.Fmt.{WritesOnOk};
ghost use Rattle.drd_params.specs.dnw_codes.Ascii.{space};
ghost use Rattle.drd_params.specs.dnw_encoder.declared.modes.RDataEncoding.TheVariants.{Other};
ghost use Rattle.drd_params.specs.drd_fields.Fields.{FieldsAt};
ghost use Rattle.drd_params.specs.drd_fields.Equality.{AreFull, Tells, fields_eq};
ghost use Rattle.drd_fields.proofs.EqualityLaws.{data_equiv};
ghost use Rattle.drd_params.specs.drd_fields.Writing.{EmitsData, canonical_octets};
ghost use Rattle.drd_params.specs.Params.{AreParams};
ghost use Rattle.drd_params.specs.Print.{param_print};
ghost use Rattle.drd_svcb.specs.Fields.{svcb_code, svcb_fields};
ghost use Rattle.drd_svcb.specs.ParamRefusals.{RefusesSvcbText};
ghost use Rattle.drd_svcb.specs.Print.{params_print, svcb_print};
ghost use Rattle.drd_svcb.specs.Reading.{RefusesSvcb};
ghost use Rattle.drd_svcb.specs.Texts.{IsSvcbText};
ghost use Rattle.drd_svcb.specs.Writing.{RefusesEmitSvcb};

use crate::words::ParamWords;
use drd_params::{
    BinDecoder, BinEncodable, BinEncoder, DecodeError, FieldRef, Name, ProtoError, RDataEncoding,
    RecordDataDecodable, Rest, Restrict, SvcParamKey, SvcParamValue, TextData, are_same_params,
    emit_params, emit_three, fmt_param, read_params_until, read_window,
};
use std::alloc::Global;
use std::fmt;

/// Where a service is, and how it is reached.
#[derive(Clone, Debug, Drop)]
pub struct SVCB {
    /// 0 for an alias; among others the least comes first (RFC 9460 2.4.1).
    pub svc_priority: u16,
    /// The name of the service's host, or of what the owner is an alias of.
    pub target_name: Name,
    /// The parameters, whose keys rise strictly (RFC 9460 2.2).
    pub svc_params: Vec<(SvcParamKey, SvcParamValue)>,
}

impl SVCB {
    /// The data of a service.
    pub fn new(
        svc_priority: u16,
        target_name: Name,
        svc_params: Vec<(SvcParamKey, SvcParamValue)>,
    ) -> SVCB
        ensures priority { result.svc_priority ≡ svc_priority }
        ensures target { result.target_name ≡ target_name }
        ensures params { result.svc_params ≡ svc_params }
    {
        SVCB {
            svc_priority,
            target_name,
            svc_params,
        }
    }
}

impl PartialEq for SVCB {
    ghost eq = { λ a b. fields_eq (svcb_code a) (svcb_code b) };

    ghost laws = { partial_equiv_from_equiv (data_equiv svcb_code) };

    /// Whether priorities and parameters are the same, and targets up to the case of ASCII letters.
    fn eq(&self, other: &SVCB) -> bool
        ensures value { result ≡ fields_eq (svcb_code self.now) (svcb_code other.now) }
        ensures canonical { AreFull (svcb_fields self.now) → AreFull (svcb_fields other.now)
            → AreParams self.now.svc_params.items → AreParams other.now.svc_params.items
            → Tells result (canonical_octets (svcb_fields self.now)) (canonical_octets (svcb_fields other.now)) }
    {
        if !FieldRef::U16(self.svc_priority).is_same(FieldRef::U16(other.svc_priority)) {
            return false;
        }
        if !FieldRef::Name(&self.target_name).is_same(FieldRef::Name(&other.target_name)) {
            return false;
        }
        are_same_params(&self.svc_params, &other.svc_params)
    }
}

impl Eq for SVCB {
    ghost laws = { data_equiv svcb_code };
}

impl RecordDataDecodable for SVCB {
    ghost reads = { λ message place svcb end. FieldsAt message place (svcb_fields svcb) end
        × AreParams svcb.svc_params.items };

    ghost refuses = { RefusesSvcb };

    /// The service in so many octets. Refused are parameters that are cut, whose value isn't one of its key, or whose key
    /// isn't above those before it. Reading stops before a parameter that is cut, and behind one that is refused.
    fn read_data(
        alloc: Global,
        decoder: &mut BinDecoder<'_>,
        length: Restrict<u16>,
    ) -> Result<SVCB, DecodeError> {
        let (priority, (target, Rest(octets))) = match read_window::<(u16, (Name, Rest))>(
            alloc,
            decoder,
            length.unverified(),
        ) {
            Ok(parts) => parts,
            Err(refused) => return Err(refused),
        };
        match read_params_until(alloc, &octets) {
            Ok(params) => Ok(SVCB::new(priority, target, params)),
            Err(stopped) => {
                decoder.set_index(decoder.index() - stopped.left);
                Err(stopped.cause)
            }
        }
    }
}

impl TextData for SVCB {
    type Parts = (u16, (Name, ParamWords));

    ghost is_text = { IsSvcbText };

    ghost refuses = { RefusesSvcbText };

    /// The data of the priority, the target, which the origin completes if it is relative, and for each parameter a key,
    /// alone or with `=` and a value behind it, by rising keys (RFC 9460 2.1). Lists stand between commas without escapes,
    /// configurations in base64, and octets of other keys with escapes of octal digits; a value between quotes loses both.
    fn of_words(parts: (u16, (Name, ParamWords))) -> SVCB {
        let (svc_priority, (target_name, ParamWords(svc_params))) = parts;
        SVCB::new(svc_priority, target_name, svc_params)
    }

    ghost laws = { (λ words origin svcb written. ((svcb.svc_priority, (svcb.target_name, record { 0 = svcb.svc_params })), written), λ words origin e refused. refused) };
}

impl BinEncodable for SVCB {
    ghost emits = { λ svcb. EmitsData Other (svcb_fields svcb) };

    ghost refuses = { λ svcb old e new. RefusesEmitSvcb svcb old e };

    /// Writes the priority, the target in full, and the parameters. Data that were read are refused only for want of memory
    /// or of space.
    fn emit(&self, encoder: &mut BinEncoder<'_>) -> Result<(), ProtoError> {
        let _start = encoder.offset();
        let front = (self.svc_priority, (&self.target_name, ()));
        emit_three(encoder, RDataEncoding::Other, &front)?;
        emit_params(encoder, &self.svc_params)
    }
}

// Writes a parameter behind a space.
fn fmt_behind<W: fmt::Write>(
    f: &mut fmt::Formatter<W>,
    param: &(SvcParamKey, SvcParamValue),
) -> fmt::Result
    ensures { WritesOnOk W.write_str_gives f.old result (space ∷ param_print param.now) f.new }
{
    f.write_char(' ')?;
    fmt_param(f, param.0, &param.1)
}

// Writes parameters, each behind a space.
fn fmt_params<W: fmt::Write>(
    f: &mut fmt::Formatter<W>,
    params: &[(SvcParamKey, SvcParamValue)],
) -> fmt::Result
    ensures { WritesOnOk W.write_str_gives f.old result (params_print params.now) f.new }
{
    'params: for param in params {
        fmt_behind(f, param)?;
    }
    Ok(())
}

impl fmt::Display for SVCB {
    ghost output = { λ svcb. Some (svcb_print svcb) };

    /// Writes the priority, the target and the parameters, one space apart (RFC 9460 2.1).
    fn fmt<W: fmt::Write>(&self, f: &mut fmt::Formatter<W>) -> fmt::Result {
        let priority = self.svc_priority;
        let target = &self.target_name;
        write!(f, "{priority} {target}")?;
        fmt_params(f, &self.svc_params)
    }
}
