//! OPT (RFC 6891 6.1).
ghost use Rattle.std.specs.Prelude.{◌≡◌, ◌↔◌, ◌≤◌, ◌⊎◌, ◌∷◌, ◌++◌, [], ℕ, List, Some, length, map, find, slice_get, option_map, All, IfOk, OnOk, OnErr, IsTrue, IsPermutation};
ghost use Rattle.std.specs.Borrow.{sem};
ghost use Rattle.std.specs.Cmp.{partial_equiv_from_equiv};
ghost use Rattle.drd_fields.specs.dnw_encoder.declared.modes.RDataEncoding.TheVariants.{Other};
ghost use Rattle.drd_fields.specs.Fields.{rest};
ghost use Rattle.drd_fields.specs.Order.{octets_cmp};
ghost use Rattle.drd_fields.specs.Writing.{EmitsData, RefusesFields};
ghost use Rattle.drd_opt.specs.Codes.{edns_code_of};
ghost use Rattle.drd_opt.specs.Options.{option_code, option_octets};
ghost use Rattle.drd_opt.specs.Entries.{Entry, entries_octets, entries_print, entries_without, options_of, raw_of, AreCountable, FitsLengths, HasLong};
ghost use Rattle.drd_opt.specs.Equality.{same_entries, entries_input};
ghost use Rattle.drd_opt.specs.EqualityLaws.{entries_equiv, entries_fed};
ghost use Rattle.drd_opt.specs.Lending.{LendsOptions};
ghost use Rattle.drd_opt.specs.Order.{entries_cmp, canonical_entries};
ghost use Rattle.drd_opt.specs.Reading.{EntriesAt, HoldsEntries, RefusesEntries};

use crate::code::EdnsCode;
use crate::entry::{emit_entry, fmt_entry};
use crate::equality::{are_same, sum_of_weights};
use crate::option::EdnsOption;
use crate::order::cmp_entries;
use crate::read::read_entries;
use drd_fields::{
    BinDecoder, BinEncodable, BinEncoder, DecodeError, ProtoError, RecordDataDecodable, Restrict,
};
use std::alloc::{AllocError, Global};
use std::cmp::Ordering;
use std::fmt;
use std::hash::{Hash, Hasher};

/// Options of EDNS, each under its code, in the order in which they stand. Two are equal where one has the options of the
/// other, in whatever order.
#[derive(Clone, Debug, Drop)]
pub struct OPT {
    options: Vec<(EdnsCode, EdnsOption)>,
}

impl OPT {
    /// The record data of options under their codes.
    pub fn new(options: Vec<(EdnsCode, EdnsOption)>) -> OPT
        ensures { result.options ≡ options }
    {
        OPT { options }
    }

    /// The options under their codes.
    pub fn as_ref(&self) -> &[(EdnsCode, EdnsOption)]
        ensures { result.now ≡ self.now.options.items }
    {
        &self.options
    }

    /// The options under their codes, to be changed in place.
    pub fn as_mut(&mut self) -> &mut Vec<(EdnsCode, EdnsOption)>
        ensures* writes_back { sem 𝓛 (LendsOptions self.entry result) }
        ensures value { result.now ≡ self.old.options }
    {
        &mut self.options
    }

    /// The first option under a code.
    pub fn get(&self, code: EdnsCode) -> Option<&EdnsOption>
        ensures { option_map (λ option. option.now) result ≡ slice_get (options_of code self.now.options.items) 0 }
    {
        let mut left = self.options.as_slice();
        'options: while let Some((entry, later)) = left.split_first() {
            if entry.0 == code {
                return Some(&entry.1);
            }
            left = later;
        }
        None
    }

    /// All options under a code, in order.
    pub fn get_all(&self, alloc: Global, code: EdnsCode) -> Result<Vec<&EdnsOption>, AllocError>
        ensures { IfOk result (λ options. map (λ option. option.now) options.items ≡ options_of code self.now.options.items) }
    {
        let mut found = Vec::new(alloc);
        let mut left = self.options.as_slice();
        'options: while let Some((entry, later)) = left.split_first() {
            if entry.0 == code {
                found.push(&entry.1)?;
            }
            left = later;
        }
        Ok(found)
    }

    /// Puts an option behind the others, under its code.
    pub fn insert(&mut self, option: EdnsOption) -> Result<(), AllocError>
        ensures ok { OnOk result (self.new.options.items
            ≡ self.old.options.items ++ (edns_code_of (option_code option), option) ∷ []) }
        ensures err { OnErr result (self.new.options.items ≡ self.old.options.items) }
    {
        self.options.push((option.code(), option))?;
        Ok(())
    }

    /// Drops all options under a code; the others keep their order.
    pub fn remove(&mut self, code: EdnsCode)
        ensures { self.new.options.items ≡ entries_without code self.old.options.items }
    {
        self.options.retain(|entry| entry.0 != code);
    }

    /// The order of the options as they stand when they are put in order, by code, by the number of octets, then by these. Of
    /// options that 16 bits can count, as all are that were read, it is the order of the canonical octets (RFC 4034 6.3). No
    /// memory is taken; the time grows with the square of the number of options, except where both have the same in the same
    /// order.
    pub fn cmp_data(&self, other: &OPT) -> Ordering
        ensures value { result ≡ entries_cmp self.now.options.items other.now.options.items }
        ensures canonical { All FitsLengths (map raw_of self.now.options.items) → All FitsLengths (map raw_of other.now.options.items)
            → result ≡ octets_cmp (canonical_entries self.now.options.items) (canonical_entries other.now.options.items) }
        ensures read { (octets other_octets : List ℕ)
            → HoldsEntries octets self.now.options.items → HoldsEntries other_octets other.now.options.items
            → result ≡ octets_cmp (canonical_entries self.now.options.items) (canonical_entries other.now.options.items) }
    {
        cmp_entries(&self.options, &other.options)
    }
}

impl RecordDataDecodable for OPT {
    ghost reads = { λ message place opt end. EntriesAt message place opt.options.items end };

    ghost refuses = { RefusesEntries };

    /// The options in so many octets. Octets that end behind a code, or have fewer behind a length than it counts, give no
    /// options; octets that end inside a code or a length are refused.
    fn read_data(
        alloc: Global,
        decoder: &mut BinDecoder<'_>,
        length: Restrict<u16>,
    ) -> Result<OPT, DecodeError> {
        match read_entries(alloc, decoder, length.unverified()) {
            Ok(options) => Ok(OPT::new(options)),
            Err(refused) => Err(refused),
        }
    }
}

impl BinEncodable for OPT {
    ghost emits = { λ opt old new. EmitsData Other (rest (entries_octets opt.options.items) ∷ []) old new × AreCountable opt.options.items };

    ghost refuses = { λ opt old e new. RefusesFields (rest (entries_octets opt.options.items) ∷ []) old e ⊎ HasLong opt.options.items e };

    /// Writes the options, each behind its code and the number of its octets. Refused are more than 65,535 octets.
    fn emit(&self, encoder: &mut BinEncoder<'_>) -> Result<(), ProtoError> {
        let _start = encoder.offset();
        let mut left = self.options.as_slice();
        'options: while let Some((entry, later)) = left.split_first() {
            match emit_entry(encoder, entry) {
                Ok(()) => left = later,
                Err(refused) => return Err(refused),
            }
        }
        Ok(())
    }
}

impl PartialEq for OPT {
    ghost eq = { λ a b. same_entries a.options.items b.options.items };

    ghost laws = { partial_equiv_from_equiv entries_equiv };

    /// Whether the options are the same up to their order.
    fn eq(&self, other: &OPT) -> bool
        ensures value { result ≡ same_entries self.now.options.items other.now.options.items }
        ensures permutation { IsTrue result ↔ IsPermutation (map raw_of self.now.options.items) (map raw_of other.now.options.items) }
    {
        are_same(&self.options, &other.options)
    }
}

impl Eq for OPT {
    ghost laws = { entries_equiv };
}

impl Hash for OPT {
    ghost hash_input = { λ opt. entries_input opt.options.items };

    ghost respects_eq = { entries_fed };

    fn hash<H: Hasher>(&self, state: &mut H) {
        state.write_usize(self.options.len());
        state.write_u64(sum_of_weights(&self.options));
    }
}

impl fmt::Display for OPT {
    ghost output = { λ opt. Some (entries_print opt.options.items) };

    /// Writes for each option its code, `:` and its octets in hex, one space apart.
    fn fmt<W: fmt::Write>(&self, f: &mut fmt::Formatter<W>) -> fmt::Result {
        let Some((first, later)) = self.options.split_first() else {
            return Ok(());
        };
        fmt_entry(f, first)?;
        'options: for entry in later {
            f.write_char(' ')?;
            fmt_entry(f, entry)?;
        }
        Ok(())
    }
}
