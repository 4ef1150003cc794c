//! HTTPS (RFC 9460 9).
ghost use Rattle.std.specs.Prelude.{◌≡◌, Some};
ghost use Rattle.std.specs.Cmp.{partial_equiv_from_equiv};
ghost use Rattle.drd_params.specs.dnw_encoder.declared.modes.RDataEncoding.TheVariants.{Other};
ghost use Rattle.drd_params.specs.drd_fields.Fields.{FieldsAt};
ghost use Rattle.drd_params.specs.drd_fields.Equality.{AreFull, Tells, fields_eq};
ghost use Rattle.drd_fields.proofs.EqualityLaws.{data_equiv};
ghost use Rattle.drd_params.specs.drd_fields.Writing.{EmitsData, canonical_octets};
ghost use Rattle.drd_params.specs.Params.{AreParams};
ghost use Rattle.drd_svcb.specs.Fields.{svcb_code, svcb_fields};
ghost use Rattle.drd_svcb.specs.Print.{svcb_print};
ghost use Rattle.drd_svcb.specs.ParamRefusals.{RefusesSvcbText};
ghost use Rattle.drd_svcb.specs.Reading.{RefusesSvcb};
ghost use Rattle.drd_svcb.specs.Texts.{IsSvcbText};
ghost use Rattle.drd_svcb.specs.Writing.{RefusesEmitSvcb};

use crate::svcb::SVCB;
use crate::words::ParamWords;
use drd_params::{
    BinDecoder, BinEncodable, BinEncoder, DecodeError, Name, ProtoError, RecordDataDecodable,
    Restrict, TextData,
};
use std::alloc::Global;
use std::fmt;
use std::ops::Deref;

/// Where a web service is, and how it is reached, in the form of SVCB.
#[derive(Clone, Debug, Drop)]
pub struct HTTPS(pub SVCB);

impl Deref for HTTPS {
    type Target = SVCB;

    ghost deref_gives = { λ https svcb. svcb ≡ https.0 };

    fn deref(&self) -> &SVCB {
        &self.0
    }
}

impl RecordDataDecodable for HTTPS {
    ghost reads = { λ message place https end. FieldsAt message place (svcb_fields https.0) end
        × AreParams https.0.svc_params.items };

    ghost refuses = { RefusesSvcb };

    /// The service in so many octets, as SVCB.
    fn read_data(
        alloc: Global,
        decoder: &mut BinDecoder<'_>,
        length: Restrict<u16>,
    ) -> Result<HTTPS, DecodeError> {
        match SVCB::read_data(alloc, decoder, length) {
            Ok(svcb) => Ok(HTTPS(svcb)),
            Err(refused) => Err(refused),
        }
    }
}

impl TextData for HTTPS {
    type Parts = (u16, (Name, ParamWords));

    ghost is_text = { λ words origin https. IsSvcbText words origin https.0 };

    ghost refuses = { RefusesSvcbText };

    /// The data of these parts, as those of SVCB.
    fn of_words(parts: (u16, (Name, ParamWords))) -> HTTPS {
        HTTPS(SVCB::of_words(parts))
    }

    ghost laws = { (λ words origin https written. ((https.0.svc_priority, (https.0.target_name, record { 0 = https.0.svc_params })), written), λ words origin e refused. refused) };
}

impl BinEncodable for HTTPS {
    ghost emits = { λ https. EmitsData Other (svcb_fields https.0) };

    ghost refuses = { λ https old e new. RefusesEmitSvcb https.0 old e };

    /// Writes the data of SVCB.
    fn emit(&self, encoder: &mut BinEncoder<'_>) -> Result<(), ProtoError> {
        self.0.emit(encoder)
    }
}

impl PartialEq for HTTPS {
    ghost eq = { λ a b. fields_eq (svcb_code a.0) (svcb_code b.0) };

    ghost laws = { partial_equiv_from_equiv (data_equiv (λ https. svcb_code https.0)) };

    /// Whether the data of SVCB are equal.
    fn eq(&self, other: &HTTPS) -> bool
        ensures value { result ≡ fields_eq (svcb_code self.now.0) (svcb_code other.now.0) }
        ensures canonical { AreFull (svcb_fields self.now.0) → AreFull (svcb_fields other.now.0)
            → AreParams self.now.0.svc_params.items → AreParams other.now.0.svc_params.items
            → Tells result (canonical_octets (svcb_fields self.now.0)) (canonical_octets (svcb_fields other.now.0)) }
    {
        SVCB::eq(&self.0, &other.0)
    }
}

impl Eq for HTTPS {
    ghost laws = { data_equiv (λ https. svcb_code https.0) };
}

impl fmt::Display for HTTPS {
    ghost output = { λ https. Some (svcb_print https.0) };

    /// Writes the data of SVCB.
    fn fmt<W: fmt::Write>(&self, f: &mut fmt::Formatter<W>) -> fmt::Result {
        fmt::Display::fmt(&self.0, f)
    }
}
