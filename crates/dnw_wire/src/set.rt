//! Sets of types.
ghost use Rattle.std.specs.Prelude.{◌≡◌, ◌==◌, ◌⊎◌, ◌+◌, ◌<◌, ◌≤◌, ℕ, List, map, length, nat_eq, IfOk, IfErr, OnErr};
ghost use Rattle.std.specs.Cmp.{partial_order_from_own_ties, partial_order_from_total};
ghost use Rattle.std.specs.Cmp.Lexicographic.{pointwise, slice_cmp};
ghost use Rattle.std.specs.Cmp.Rules.{comparing, hashing};
ghost use Rattle.std.specs.Ordering.{nat_cmp, as_partial_cmp};
ghost use Rattle.std.specs.Hash as fed;
ghost use Rattle.std.proofs.Common.{rules};
ghost use Rattle.std.specs.Iterator.{Drains, IsFinite, YieldsFirst, item_count};
ghost use Rattle.std.specs.List.{list_any};
ghost use Rattle.std.specs.List.Sorted.{IsStrictlyIncreasing};
ghost use Rattle.dnw_codes.specs.RecordType.{record_type_number, record_type_of};
ghost use Rattle.dnw_codes.specs.declared.record_type.RecordType.{RecordType as Kind};
ghost use Rattle.dnw_codes.specs.declared.error.DecodeError.TheVariants.{NsecBitmapOutOfBounds};
ghost use Rattle.dnw_encoder.specs.dnw_decoder.Octets.{Stands};
ghost use Rattle.dnw_encoder.specs.dnw_decoder.Reading.{IsWantOfMemory, LacksOctets};
ghost use Rattle.dnw_encoder.specs.Encoders.{state};
ghost use Rattle.dnw_encoder.specs.Effects.{Writes};
ghost use Rattle.dnw_wire.specs.BitMaps.{BitMaps, IsMap, AreTightMaps, Rises, TypesAt, EmitsTypes, RefusesTypes};
ghost use Rattle.dnw_wire.specs.MapOrder.{types_cmp};
ghost use Rattle.dnw_wire.specs.MapOrderLaws.{types_total, types_ties};

use crate::order::cmp_codes;
use crate::read::read_types;
use crate::write::map_octets;
use dnw_codes::{DecodeError, ProtoError, RecordType};
use dnw_encoder::{BinDecoder, BinEncodable, BinEncoder};
use std::alloc::{AllocError, Global};
use std::cmp::Ordering;
use std::hash::{Hash, Hasher};
use std::marker::Model;

/// A set of record types. A contract sees it as the numbers of its types, which rise.
#[derive(Debug, Drop)]
pub struct RecordTypeSet {
    codes: Vec<u16>,
}

impl Model for RecordTypeSet {
    ghost use Rattle.std.specs.Prelude.{ℕ, List};
    ghost use Rattle.dnw_wire.specs.BitMaps.{Rises};

    ghost Value = { List ℕ };

    ghost view = { λ set. set.codes.items };

    ghost invariant = { λ set. Rises 0 set.codes.items 65536 };
}

impl RecordTypeSet {
    /// The set of the types that an iterator gives, which ends.
    pub fn new<I: Iterator<Item = RecordType> + Drop>(
        alloc: Global,
        types: I,
    ) -> Result<RecordTypeSet, AllocError>
        requires can { I.can_next types }
        requires ends { IsFinite (I.remaining types) }
        ensures { IfOk result (λ set. (given : List Kind) × Drains I.next_gives types given
            × ((code : ℕ) → list_any (λ c. c == code) set ≡ list_any (λ t. record_type_number t == code) given)) }
    {
        let mut codes = Vec::new(alloc);
        'types: for record_type in types {
            codes.push(u16::from(record_type))?;
        }
        codes.sort()?;
        codes.dedup();
        Ok(RecordTypeSet::of_codes(codes))
    }

    // The set of numbers that rise.
    fn of_codes(codes: Vec<u16>) -> RecordTypeSet
        requires { IsStrictlyIncreasing codes.items }
        ensures { result ≡ codes.items }
    {
        rise(&codes);
        RecordTypeSet { codes }
    }

    /// Whether a type is in the set.
    pub fn contains(&self, record_type: RecordType) -> bool
        ensures { result ≡ list_any (λ code. code == record_type_number record_type) self.now }
    {
        self.codes.contains(&u16::from(record_type))
    }

    /// Whether no type is in the set.
    pub fn is_empty(&self) -> bool
        ensures value { result ≡ (length self.now == 0) }
        ensures rise { Rises 0 self.now 65536 }
    {
        self.codes.is_empty()
    }

    /// The types by rising number.
    pub fn iter(&self) -> RecordTypeIter<'_>
        ensures { result ≡ self.now }
    {
        RecordTypeIter { codes: &self.codes }
    }

    /// The set that bit maps of so many octets hold (RFC 4034 4.1.2). Where they are no bit maps the decoder stays.
    pub fn read_data(
        alloc: Global,
        decoder: &mut BinDecoder<'_>,
        len: u16,
    ) -> Result<RecordTypeSet, DecodeError>
        ensures ok { IfOk result (λ set. TypesAt decoder.old.octets decoder.old.index len set decoder.new.index) }
        ensures same { decoder.new.octets ≡ decoder.old.octets }
        ensures err { OnErr result (decoder.new ≡ decoder.old) }
        ensures cause { IfErr result (λ e. IsWantOfMemory e
            ⊎ (LacksOctets decoder.old len decoder.new e ⊎ (e ≡ NsecBitmapOutOfBounds))) }
        ensures there { IfErr result (λ e. LacksOctets decoder.old len decoder.new e
            ⊎ (decoder.old.index + len ≤ length decoder.old.octets)) }
        ensures none { IfErr result (λ e. IsWantOfMemory e
            ⊎ ((types : List ℕ) (end : ℕ) → TypesAt decoder.old.octets decoder.old.index len types end → ⊥)) }
    {
        let start = decoder.index();
        let octets = match decoder.read_slice(usize::from(len)) {
            Ok(octets) => octets.unverified(),
            Err(refused) => return Err(refused),
        };
        match read_types(alloc, octets) {
            Ok(codes) => Ok(RecordTypeSet { codes }),
            Err(refused) => {
                decoder.set_index(start);
                Err(refused)
            }
        }
    }
}

// A law: numbers of 16 bits that rise stay below 65,536.
fn rise(codes: &[u16])
    requires { IsStrictlyIncreasing codes.now }
    ensures { Rises 0 codes.now 65536 }
{
    let _ = codes;
}

/// The types of a set, by rising number. A contract sees it as the numbers that are left.
#[derive(Drop)]
pub struct RecordTypeIter<'a> {
    codes: &'a [u16],
}

impl<'a> Model for RecordTypeIter<'a> {
    ghost use Rattle.std.specs.Prelude.{ℕ, List};

    ghost Value = { List ℕ };

    ghost view = { λ iter. iter.codes.now };
}

impl Iterator for RecordTypeIter<'_> {
    type Item = RecordType;

    ghost next_gives = { YieldsFirst (λ codes. map record_type_of codes) };

    ghost remaining = { item_count (λ codes. map record_type_of codes) };

    fn next(&mut self) -> Option<RecordType> {
        let (first, rest) = self.codes.split_first()?;
        self.codes = rest;
        Some(RecordType::from(*first))
    }
}

impl BinEncodable for RecordTypeSet {
    ghost emits = { EmitsTypes };

    ghost refuses = { RefusesTypes };

    /// Writes the bit maps of the types, without zero octets at a window's end (RFC 4034 4.1.2).
    fn emit(&self, encoder: &mut BinEncoder<'_>) -> Result<(), ProtoError> {
        match map_octets(*self.codes.allocator(), &self.codes) {
            Ok(octets) => encoder.emit_vec(octets.as_slice()),
            Err(refused) => Err(ProtoError::Memory(refused)),
        }
    }
}

impl Clone for RecordTypeSet {
    ghost is_clone = { λ set copy. copy ≡ set };

    fn clone(&self) -> Result<RecordTypeSet, AllocError> {
        let codes = Vec::from_slice(*self.codes.allocator(), &self.codes)?;
        Ok(RecordTypeSet { codes })
    }
}

impl PartialEq for RecordTypeSet {
    ghost eq = { pointwise nat_eq };

    ghost laws = { Prim.search (comparing, rules) };

    fn eq(&self, other: &RecordTypeSet) -> bool {
        self.codes.as_slice() == other.codes.as_slice()
    }
}

impl Eq for RecordTypeSet {
    ghost laws = { Prim.search (comparing, rules) };
}

impl Ord for RecordTypeSet {
    ghost cmp = { types_cmp };

    ghost total = { types_total };

    ghost matches_partial_cmp = { Prim.search (comparing, rules) };

    ghost matches_eq = { types_ties };

    /// The order of the octets of the bit maps that `emit` writes, from the left (RFC 4034 6.3). It takes no memory.
    fn cmp(&self, other: &RecordTypeSet) -> Ordering
        ensures value { result ≡ types_cmp self.now other.now }
        ensures canonical { (xs ys : List ℕ) → AreTightMaps xs self.now → AreTightMaps ys other.now → result ≡ slice_cmp nat_cmp xs ys }
    {
        cmp_codes(&self.codes, &other.codes)
    }
}

impl PartialOrd for RecordTypeSet {
    ghost partial_cmp = { as_partial_cmp types_cmp };

    ghost laws = { partial_order_from_own_ties (partial_order_from_total types_total) types_ties };

    fn partial_cmp(&self, other: &RecordTypeSet) -> Option<Ordering> {
        Some(self.cmp(other))
    }
}

impl Hash for RecordTypeSet {
    ghost hash_input = { fed.slice fed.u16 };

    ghost respects_eq = { Prim.search (hashing, rules) };

    fn hash<H: Hasher>(&self, state: &mut H) {
        self.codes.hash(state);
    }
}
