//! CSYNC (RFC 7477).
ghost use Rattle.std.specs.Prelude.{◌≡◌, ◌++◌, ◌<◌, ◌≤◌, ◌^◌, ℕ, List, length, Some, IfErr, OnOk};
ghost use Rattle.std.specs.Cmp.{partial_equiv_from_equiv};
ghost use Rattle.dnw_wire.specs.dnw_decoder.Octets.{octets_16, octets_32};
ghost use Rattle.dnw_wire.specs.dnw_encoder.Encoders.{state};
ghost use Rattle.dnw_wire.specs.dnw_encoder.Effects.{Writes, WritesOctets, IsRefusal};
ghost use Rattle.drd_fields.specs.Equality.{Tells};
ghost use Rattle.drd_fields.specs.Writing.{fields_octets};
ghost use Rattle.drd_fields.specs.Order.{Orders};
ghost use Rattle.drd_csync.specs.Data.{csync_fields, csync_flags, CsyncAt};
ghost use Rattle.drd_csync.specs.Equality.{csync_eq, AreWrittenMaps};
ghost use Rattle.drd_csync.specs.EqualityLaws.{csync_equiv};
ghost use Rattle.drd_csync.specs.Order.{csync_cmp, csync_input};
ghost use Rattle.drd_csync.specs.OrderLaws.{csync_fed};
ghost use Rattle.drd_csync.specs.Reading.{RefusesCsync};
ghost use Rattle.drd_csync.specs.Texts.{csync_print, IsCsyncText, RefusesCsyncText};
ghost use Rattle.drd_csync.specs.TextsLaws.{csync_parts};
ghost use Rattle.drd_csync.specs.Writing.{EmitsCsync, RefusesEmitCsync};

use crate::flags::{Flags, are_known};
use crate::read::{read_front, read_maps};
use crate::types::{TypeWords, fmt_types};
use dnw_wire::{
    BinDecoder, BinEncodable, BinEncoder, DecodeError, ProtoError, RecordTypeSet, Restrict,
};
use drd_fields::RecordDataDecodable;
use drd_words::TextData;
use std::alloc::Global;
use std::cmp::Ordering;
use std::fmt;
use std::hash::{Hash, Hasher};

/// Which data of a child zone its parent is to copy (RFC 7477 2.1).
#[derive(Clone, Debug, Drop)]
pub struct CSYNC {
    /// The serial number of the child zone whose data are meant.
    pub soa_serial: u32,
    /// Whether the parent may act at once; else the child's administrator is to approve it first.
    pub immediate: bool,
    /// Whether the parent acts only where the child zone's serial number is at least `soa_serial`.
    pub soa_minimum: bool,
    /// The types of the data to copy.
    pub type_bit_maps: RecordTypeSet,
}

impl CSYNC {
    pub fn new(
        soa_serial: u32,
        immediate: bool,
        soa_minimum: bool,
        type_bit_maps: RecordTypeSet,
    ) -> CSYNC
        ensures serial { result.soa_serial ≡ soa_serial }
        ensures immediate { result.immediate ≡ immediate }
        ensures minimum { result.soa_minimum ≡ soa_minimum }
        ensures types { result.type_bit_maps ≡ type_bit_maps }
    {
        CSYNC {
            soa_serial,
            immediate,
            soa_minimum,
            type_bit_maps,
        }
    }

    /// The flags: 1 for `immediate` and 2 for `soa_minimum` (RFC 7477 2.1.1.2).
    pub fn flags(&self) -> u16
        ensures { result ≡ csync_flags self.now }
    {
        u16::from(self.immediate) + 2 * u16::from(self.soa_minimum)
    }

    // Whether serial number, flags and types are the same.
    fn is_same(&self, other: &CSYNC) -> bool
        ensures value { result ≡ csync_eq self.now other.now }
        ensures small { (self.now.soa_serial < 2 ^ 32) × (other.now.soa_serial < 2 ^ 32) }
    {
        let (serial, other_serial) = (self.soa_serial, other.soa_serial);
        serial == other_serial
            && self.flags() == other.flags()
            && self.type_bit_maps == other.type_bit_maps
    }

    // The order of the serial numbers, of the flags, and of the types.
    fn cmp_parts(&self, other: &CSYNC) -> Ordering
        ensures value { result ≡ csync_cmp self.now other.now }
        ensures small { (self.now.soa_serial < 2 ^ 32) × (other.now.soa_serial < 2 ^ 32) }
    {
        let (serial, other_serial) = (self.soa_serial, other.soa_serial);
        match serial.cmp(&other_serial) {
            Ordering::Equal => {}
            unequal => return unequal,
        }
        match self.flags().cmp(&other.flags()) {
            Ordering::Equal => self.type_bit_maps.cmp(&other.type_bit_maps),
            unequal => unequal,
        }
    }

    // Writes the serial number and the flags.
    fn emit_front(&self, encoder: &mut BinEncoder<'_>) -> Result<(), ProtoError>
        ensures same_reference { encoder.new.buffer.ghost_name ≡ encoder.old.buffer.ghost_name }
        ensures writes { Writes (state encoder.old) (state encoder.new) }
        ensures ok { OnOk result (WritesOctets (octets_32 self.now.soa_serial ++ octets_16 (csync_flags self.now)) (state encoder.old) (state encoder.new)) }
        ensures within { (state encoder.old).offset ≤ length (state encoder.old).octets }
        ensures cause { IfErr result (IsRefusal (state encoder.old) 6) }
    {
        let _start = encoder.offset();
        match encoder.emit_u32(self.soa_serial) {
            Ok(()) => {}
            Err(refused) => return Err(refused),
        }
        match encoder.emit_u16(self.flags()) {
            Ok(()) => Ok(()),
            Err(refused) => Err(refused),
        }
    }

    // The data with these flags.
    fn with_flags(soa_serial: u32, flags: u16, type_bit_maps: RecordTypeSet) -> CSYNC
        requires { flags ≤ 3 }
        ensures serial { result.soa_serial ≡ soa_serial }
        ensures flags { csync_flags result ≡ flags }
        ensures types { result.type_bit_maps ≡ type_bit_maps }
    {
        CSYNC::new(soa_serial, flags % 2 == 1, flags / 2 == 1, type_bit_maps)
    }

    /// The order of the octets that are written, from the left (RFC 4034 6.3).
    pub fn cmp_data(&self, other: &CSYNC) -> Ordering
        ensures value { result ≡ csync_cmp self.now other.now }
        ensures canonical { (xs ys : List ℕ) → AreWrittenMaps self.now xs → AreWrittenMaps other.now ys
            → Orders result (fields_octets (csync_fields self.now xs)) (fields_octets (csync_fields other.now ys)) }
    {
        self.cmp_parts(other)
    }
}

impl RecordDataDecodable for CSYNC {
    ghost reads = { CsyncAt };

    ghost refuses = { RefusesCsync };

    /// The data in so many octets. Flags besides the lower two are refused.
    fn read_data(
        alloc: Global,
        decoder: &mut BinDecoder<'_>,
        length: Restrict<u16>,
    ) -> Result<CSYNC, DecodeError> {
        let end = decoder.index() + usize::from(length.unverified());
        let (serial, flags) = match read_front(alloc, decoder, end) {
            Ok(front) => front,
            Err(refused) => return Err(refused),
        };
        if !are_known(flags) {
            return Err(DecodeError::UnrecognizedCsyncFlags(flags));
        }
        match read_maps(alloc, decoder, end) {
            Ok(types) => Ok(CSYNC::with_flags(serial, flags, types)),
            Err(refused) => Err(refused),
        }
    }
}

impl TextData for CSYNC {
    type Parts = (u32, (Flags, TypeWords));

    ghost is_text = { λ words origin csync. IsCsyncText words csync };

    ghost refuses = { λ words origin. RefusesCsyncText words };

    /// The data of the serial number, the flags as a number of at most 3, and types in capitals, in any order (RFC 7477
    /// 2.1.2).
    fn of_words(parts: (u32, (Flags, TypeWords))) -> CSYNC {
        let (serial, (flags, TypeWords(types))) = parts;
        CSYNC::with_flags(serial, flags.number(), types)
    }

    ghost laws = { (λ words origin csync written. ((csync.soa_serial, (csync_flags csync, record { 0 = csync.type_bit_maps })), csync_parts words csync written), λ words origin e refused. refused) };
}

impl BinEncodable for CSYNC {
    ghost emits = { EmitsCsync };

    ghost refuses = { λ csync old e new. RefusesEmitCsync csync old e };

    /// Writes the data, the bit maps without zero octets at a window's end (RFC 4034 4.1.2).
    fn emit(&self, encoder: &mut BinEncoder<'_>) -> Result<(), ProtoError> {
        match self.emit_front(encoder) {
            Ok(()) => {}
            Err(refused) => return Err(refused),
        }
        match self.type_bit_maps.emit(encoder) {
            Ok(()) => Ok(()),
            Err(refused) => Err(refused),
        }
    }
}

impl PartialEq for CSYNC {
    ghost eq = { csync_eq };

    ghost laws = { partial_equiv_from_equiv csync_equiv };

    /// Whether serial numbers, flags and types are the same, which is so exactly where the octets that are written are
    /// (RFC 4034 6.3).
    fn eq(&self, other: &CSYNC) -> bool
        ensures value { result ≡ csync_eq self.now other.now }
        ensures canonical { (xs ys : List ℕ) → AreWrittenMaps self.now xs → AreWrittenMaps other.now ys
            → Tells result (fields_octets (csync_fields self.now xs)) (fields_octets (csync_fields other.now ys)) }
    {
        self.is_same(other)
    }
}

impl Eq for CSYNC {
    ghost laws = { csync_equiv };
}

impl Hash for CSYNC {
    ghost hash_input = { csync_input };

    ghost respects_eq = { csync_fed };

    fn hash<H: Hasher>(&self, state: &mut H) {
        self.soa_serial.hash(state);
        self.flags().hash(state);
        self.type_bit_maps.hash(state);
    }
}

impl fmt::Display for CSYNC {
    ghost output = { λ csync. Some (csync_print csync) };

    /// Writes the serial number, the flags and the types, one space apart.
    fn fmt<W: fmt::Write>(&self, f: &mut fmt::Formatter<W>) -> fmt::Result {
        let (serial, flags) = (self.soa_serial, self.flags());
        write!(f, "{serial} {flags}")?;
        fmt_types(f, &self.type_bit_maps)
    }
}
