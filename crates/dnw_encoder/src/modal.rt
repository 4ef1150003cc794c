//! A mode that lasts as long as its guard.
ghost use Rattle.std.specs.Prelude.{◌≡◌};
ghost use Rattle.dnw_encoder.specs.Encoders.{state};
ghost use Rattle.dnw_encoder.specs.State.{with_encoding, rdata_encoding};

use crate::encoder::BinEncoder;
use crate::modes::{NameEncoding, RDataEncoding};
use std::ops::{Deref, DerefMut};

/// An encoder in a mode of its own. Its drop gives the former mode back.
pub struct ModalEncoder<'a, 'e> {
    former: NameEncoding,
    encoder: &'e mut BinEncoder<'a>,
}

impl Drop for ModalEncoder<'_, '_> {
    fn drop(self)
        ensures same_reference { self.exit.1.0.now.buffer.ghost_name ≡ self.entry.encoder.now.buffer.ghost_name }
        ensures state { state self.exit.1.0.now ≡ with_encoding (state self.entry.encoder.now) self.entry.former }
    {
        let ModalEncoder { former, encoder } = self;
        encoder.set_name_encoding(former);
    }
}

impl<'a> Deref for ModalEncoder<'a, '_> {
    type Target = BinEncoder<'a>;

    ghost deref_gives = { λ modal encoder. encoder ≡ modal.encoder.now };

    fn deref(&self) -> &BinEncoder<'a> {
        self.encoder
    }
}

impl<'a> DerefMut for ModalEncoder<'a, '_> {
    ghost deref_mut_gives = { λ modal encoder. encoder ≡ modal.encoder.now };

    fn deref_mut(&mut self) -> &mut BinEncoder<'a> {
        self.encoder
    }
}

impl<'a> BinEncoder<'a> {
    /// The encoder in another mode, until the guard is dropped.
    pub fn with_name_encoding<'e>(&'e mut self, name_encoding: NameEncoding) -> ModalEncoder<'a, 'e>
        ensures same_encoder { result.encoder.ghost_name ≡ self.entry.ghost_name }
        ensures same_reference { result.encoder.now.buffer.ghost_name ≡ self.old.buffer.ghost_name }
        ensures former { result.former ≡ (state self.old).encoding }
        ensures state { state result.encoder.now ≡ with_encoding (state self.old) name_encoding }
    {
        let former = self.name_encoding;
        self.set_name_encoding(name_encoding);
        ModalEncoder {
            former,
            encoder: self,
        }
    }

    /// The encoder in the mode of record data of a kind (RFC 3597 4, RFC 4034 6.2), until the guard is dropped.
    pub fn with_rdata_behavior<'e>(&'e mut self, encoding: RDataEncoding) -> ModalEncoder<'a, 'e>
        ensures same_encoder { result.encoder.ghost_name ≡ self.entry.ghost_name }
        ensures same_reference { result.encoder.now.buffer.ghost_name ≡ self.old.buffer.ghost_name }
        ensures former { result.former ≡ (state self.old).encoding }
        ensures state { state result.encoder.now
            ≡ with_encoding (state self.old) (rdata_encoding encoding (state self.old).canonical (state self.old).encoding) }
    {
        let name_encoding = encoding.name_encoding(self.canonical_form, self.name_encoding);
        self.with_name_encoding(name_encoding)
    }
}
