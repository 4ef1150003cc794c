//! Record data in words.
ghost use Rattle.std.specs.Prelude.{◌≡◌, ◌⊎◌, ℕ, List, None, Err, true, false, IfOk, IfErr, MatchResult, map};
ghost use Rattle.std.specs.Iterator.{Drains, IsFinite};
ghost use Rattle.std.specs.Option.{option_copied};
ghost use Rattle.drd_types.specs.dnw_codes.declared.error.ParseError.TheVariants.{UnsupportedRecordType};
ghost use Rattle.drd_svcb.specs.drd_words.Text.{IsSplitInto, TextRefused};
ghost use Rattle.drd_svcb.specs.drd_words.Word.{IsOutOfMemory};
ghost use Rattle.drd_rdata.specs.declared.rdata.RData.{RData as Rdata};
ghost use Rattle.drd_rdata.specs.Types.{type_of};
ghost use Rattle.drd_rdata.specs.Texts.{IsTextOf, RefusesTextOf, has_text};

use crate::rdata::RData;
use crate::text_type::TextType;
use drd_names_keys::{
    ANAME, CERT, CNAME, CSYNC, MX, NS, OPENPGPKEY, PTR, SMIMEA, SOA, SRV, SSHFP, TLSA,
};
use drd_svcb::{A, AAAA, HTTPS, Name, SVCB, words_of_text};
use drd_types::{CAA, HINFO, NAPTR, ParseError, RecordType, TXT};
use std::alloc::Global;
use std::convert::AsStr;

impl RData {
    /// The data of a record of this type that words write; the origin completes names that are relative. Refused are words
    /// that are missing, too many or unfit, by the first of them, and types whose data have no text (RFC 1035 5.1).
    pub fn from_tokens<I: Iterator + Drop>(
        alloc: Global,
        record_type: RecordType,
        tokens: I,
        origin: Option<&Name>,
    ) -> Result<RData, ParseError>
    where
        I::Item: AsStr + Drop,
        requires can { I.can_next tokens }
        requires ends { IsFinite (I.remaining tokens) }
        ensures ok { IfOk result (λ value. (words : List I.Item) × Drains I.next_gives tokens words
            × IsTextOf record_type (map I.Item.text words) (option_copied origin.entry) value) }
        ensures kind { IfOk result (λ value. type_of value ≡ record_type) }
        ensures refused { IfErr result (λ e. IsOutOfMemory e ⊎ ((words : List I.Item) × Drains I.next_gives tokens words
            × ((value : Rdata) → IsTextOf record_type (map I.Item.text words) (option_copied origin.entry) value → ⊥))
            ⊎ ((e ≡ UnsupportedRecordType record_type)
            × ((words : List (List ℕ)) (value : Rdata) → IsTextOf record_type words (option_copied origin.entry) value → ⊥))) }
        ensures cause { has_text record_type ≡ true → IfErr result (λ e. IsOutOfMemory e ⊎ ((words : List I.Item) × Drains I.next_gives tokens words
            × RefusesTextOf record_type (map I.Item.text words) (option_copied origin.entry) e)) }
        ensures unsupported { has_text record_type ≡ false → result ≡ Err (UnsupportedRecordType record_type) }
    {
        match record_type {
            RecordType::A => written_as::<A, I>(alloc, record_type, tokens, origin),
            RecordType::AAAA => written_as::<AAAA, I>(alloc, record_type, tokens, origin),
            RecordType::ANAME => written_as::<ANAME, I>(alloc, record_type, tokens, origin),
            RecordType::CAA => written_as::<CAA, I>(alloc, record_type, tokens, origin),
            RecordType::CERT => written_as::<CERT, I>(alloc, record_type, tokens, origin),
            RecordType::CNAME => written_as::<CNAME, I>(alloc, record_type, tokens, origin),
            RecordType::CSYNC => written_as::<CSYNC, I>(alloc, record_type, tokens, origin),
            RecordType::HINFO => written_as::<HINFO, I>(alloc, record_type, tokens, origin),
            RecordType::HTTPS => written_as::<HTTPS, I>(alloc, record_type, tokens, origin),
            RecordType::MX => written_as::<MX, I>(alloc, record_type, tokens, origin),
            RecordType::NAPTR => written_as::<NAPTR, I>(alloc, record_type, tokens, origin),
            RecordType::NS => written_as::<NS, I>(alloc, record_type, tokens, origin),
            RecordType::OPENPGPKEY => written_as::<OPENPGPKEY, I>(
                alloc,
                record_type,
                tokens,
                origin,
            ),
            RecordType::PTR => written_as::<PTR, I>(alloc, record_type, tokens, origin),
            RecordType::SMIMEA => written_as::<SMIMEA, I>(alloc, record_type, tokens, origin),
            RecordType::SOA => written_as::<SOA, I>(alloc, record_type, tokens, origin),
            RecordType::SRV => written_as::<SRV, I>(alloc, record_type, tokens, origin),
            RecordType::SSHFP => written_as::<SSHFP, I>(alloc, record_type, tokens, origin),
            RecordType::SVCB => written_as::<SVCB, I>(alloc, record_type, tokens, origin),
            RecordType::TLSA => written_as::<TLSA, I>(alloc, record_type, tokens, origin),
            RecordType::TXT => written_as::<TXT, I>(alloc, record_type, tokens, origin),
            other => Err(ParseError::UnsupportedRecordType(other)),
        }
    }

    /// The data of a record of this type that a text writes, names as they are. The words of a list stand in its place;
    /// blanks at a line's front and line ends are passed over. Refused are other tokens, and words as by `from_tokens`.
    pub fn try_from_str(
        alloc: Global,
        record_type: RecordType,
        text: &str,
    ) -> Result<RData, ParseError>
        ensures ok { IfOk result (λ value. (words : List (List ℕ)) × IsSplitInto text.now words × IsTextOf record_type words None value) }
        ensures kind { IfOk result (λ value. type_of value ≡ record_type) }
        ensures refused { IfErr result (λ e. IsOutOfMemory e ⊎ TextRefused text.now e
            ⊎ ((words : List (List ℕ)) × IsSplitInto text.now words × ((value : Rdata) → IsTextOf record_type words None value → ⊥))) }

        // The words are those of the text and no others; where it has none, the error is that of the text.
        ensures only { (words : List (List ℕ)) → IsSplitInto text.now words
            → MatchResult result (λ value. IsTextOf record_type words None value)
            (λ e. IsOutOfMemory e ⊎ ((value : Rdata) → IsTextOf record_type words None value → ⊥)) }
        ensures cause { (e : ParseError) → TextRefused text.now e → MatchResult result (λ value. ⊥) (λ given. IsOutOfMemory given ⊎ (given ≡ e)) }
        ensures fault { has_text record_type ≡ true → IfErr result (λ e. IsOutOfMemory e ⊎ TextRefused text.now e
            ⊎ ((words : List (List ℕ)) × IsSplitInto text.now words × RefusesTextOf record_type words None e)) }
        ensures unsupported { has_text record_type ≡ false → MatchResult result (λ value. ⊥)
            (λ e. IsOutOfMemory e ⊎ TextRefused text.now e ⊎ (e ≡ UnsupportedRecordType record_type)) }
    {
        let words = match words_of_text(alloc, text) {
            Ok(words) => words,
            Err(refused) => return Err(refused),
        };
        RData::from_tokens(alloc, record_type, words.iter(), None)
    }
}

// Data of one type that words write, as data of all types.
fn written_as<T: TextType, I: Iterator + Drop>(
    alloc: Global,
    record_type: RecordType,
    tokens: I,
    origin: Option<&Name>,
) -> Result<RData, ParseError>
where
    I::Item: AsStr + Drop,
    requires own { record_type ≡ T.kind }
    requires can { I.can_next tokens }
    requires ends { IsFinite (I.remaining tokens) }
    ensures ok { IfOk result (λ value. (words : List I.Item) × Drains I.next_gives tokens words
        × IsTextOf record_type (map I.Item.text words) (option_copied origin.entry) value) }
    ensures kind { IfOk result (λ value. type_of value ≡ record_type) }
    ensures refused { IfErr result (λ e. IsOutOfMemory e ⊎ ((words : List I.Item) × Drains I.next_gives tokens words
        × ((value : Rdata) → IsTextOf record_type (map I.Item.text words) (option_copied origin.entry) value → ⊥))
        ⊎ ((e ≡ UnsupportedRecordType record_type)
        × ((words : List (List ℕ)) (value : Rdata) → IsTextOf record_type words (option_copied origin.entry) value → ⊥))) }
    ensures cause { has_text record_type ≡ true → IfErr result (λ e. IsOutOfMemory e ⊎ ((words : List I.Item) × Drains I.next_gives tokens words
        × RefusesTextOf record_type (map I.Item.text words) (option_copied origin.entry) e)) }
    ensures unsupported { has_text record_type ≡ false → result ≡ Err (UnsupportedRecordType record_type) }
{
    match T::from_tokens(alloc, tokens, origin) {
        Ok(data) => Ok(data.into_rdata()),
        Err(refused) => Err(refused),
    }
}
