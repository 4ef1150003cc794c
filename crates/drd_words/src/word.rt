//! One word.
ghost use Rattle.std.specs.Prelude.{◌≡◌, ◌<◌, ◌≤◌, ◌^◌, ◌⊎◌, ℕ, List, Option, IfOk, IfErr, length};
ghost use Rattle.std.specs.Option.{option_copied};
ghost use Rattle.dnw_name.specs.DomainName.{DomainName};
ghost use Rattle.dnw_lexer.specs.dnw_codes.declared.error.ParseError.{ParseError};
ghost use Rattle.drd_words.specs.Word.{IsOutOfMemory, IsNumberWord, IsTtlWord, IsIntervalWord, IsNameWord, IsStringWord};
ghost use Rattle.drd_words.specs.Refusals.{AreCauses, RefusesNumber, RefusesTtl, RefusesInterval, RefusesNameWord, RefusesString};
ghost use Rattle.drd_words.specs.RefusalsLaws.{by_part, number_causes, ttl_causes, interval_causes, name_causes, string_causes};

use dnw_lexer::{ParseError, ProtoError, parse_ttl};
use dnw_name::Name;
use std::alloc::Global;
use std::marker::Model;
use std::net::{Ipv4Addr, Ipv6Addr};

/// What one word can stand for.
pub trait Word: Sized + Drop {
    /// The word's octets, the origin if there is one, and the value.
    ghost written: { List ℕ → Option DomainName → Self → Type 0 };

    /// The word's octets, the origin if there is one, and the error where the word stands for no value.
    ghost refuses: { List ℕ → Option DomainName → ParseError → Type 0 };

    /// The value of a word. Refused is a word that stands for none.
    fn from_word(alloc: Global, word: &str, origin: Option<&Name>) -> Result<Self, ParseError>
        ensures ok { IfOk result (λ value. written word.now (option_copied origin.entry) value) }
        ensures refused { IfErr result (λ e. IsOutOfMemory e
            ⊎ ((value : Self) → written word.now (option_copied origin.entry) value → ⊥)) }
        ensures cause { IfErr result (λ e. IsOutOfMemory e ⊎ refuses word.now (option_copied origin.entry) e) };

    // A word is refused only where it stands for no value, and never for want of memory.
    ghost laws: { (word : List ℕ) (origin : Option DomainName) → AreCauses (written word origin) (refuses word origin) };
}

impl Word for u8 {
    ghost written = { λ word origin n. IsNumberWord 8 n word };

    ghost refuses = { λ word origin. RefusesNumber 8 word };

    ghost laws = { λ word origin. number_causes 8 word };

    fn from_word(_alloc: Global, word: &str, _origin: Option<&Name>) -> Result<u8, ParseError> {
        if word.starts_with('+') {
            return Err(ParseError::ParseInt);
        }
        match word.parse() {
            Ok(number) => Ok(number),
            Err(_) => Err(ParseError::ParseInt),
        }
    }
}

impl Word for u16 {
    ghost written = { λ word origin n. IsNumberWord 16 n word };

    ghost refuses = { λ word origin. RefusesNumber 16 word };

    ghost laws = { λ word origin. number_causes 16 word };

    fn from_word(_alloc: Global, word: &str, _origin: Option<&Name>) -> Result<u16, ParseError> {
        if word.starts_with('+') {
            return Err(ParseError::ParseInt);
        }
        match word.parse() {
            Ok(number) => Ok(number),
            Err(_) => Err(ParseError::ParseInt),
        }
    }
}

impl Word for u32 {
    ghost written = { λ word origin n. IsNumberWord 32 n word };

    ghost refuses = { λ word origin. RefusesNumber 32 word };

    ghost laws = { λ word origin. number_causes 32 word };

    fn from_word(_alloc: Global, word: &str, _origin: Option<&Name>) -> Result<u32, ParseError> {
        if word.starts_with('+') {
            return Err(ParseError::ParseInt);
        }
        match word.parse() {
            Ok(number) => Ok(number),
            Err(_) => Err(ParseError::ParseInt),
        }
    }
}

/// Seconds that a word writes as a time to live: in digits, or in groups of digits and a unit.
#[derive(Clone, Copy, Debug, PartialEq, Eq, PartialOrd, Ord, Hash)]
pub struct TimeToLive(pub u32);

impl Word for TimeToLive {
    ghost written = { λ word origin time. IsTtlWord time.0 word };

    ghost refuses = { λ word origin. RefusesTtl word };

    ghost laws = { λ word origin. by_part (λ time. time.0) (ttl_causes word) };

    fn from_word(
        _alloc: Global,
        word: &str,
        _origin: Option<&Name>,
    ) -> Result<TimeToLive, ParseError> {
        match parse_ttl(word) {
            Ok(seconds) => Ok(TimeToLive(seconds)),
            Err(refused) => Err(refused),
        }
    }
}

/// A time interval of at most 2^31 - 1 seconds, which a word writes as a time to live.
#[derive(Clone, Copy, Debug, PartialEq, Eq, PartialOrd, Ord, Hash)]
pub struct TimeInterval(pub i32);

impl Word for TimeInterval {
    ghost written = { λ word origin interval. IsIntervalWord interval.0 word };

    ghost refuses = { λ word origin. RefusesInterval word };

    ghost laws = { λ word origin. by_part (λ interval. interval.0) (interval_causes word) };

    fn from_word(
        _alloc: Global,
        word: &str,
        _origin: Option<&Name>,
    ) -> Result<TimeInterval, ParseError> {
        let seconds = match parse_ttl(word) {
            Ok(seconds) => seconds,
            Err(refused) => return Err(refused),
        };
        if seconds < 1 << 31 {
            Ok(TimeInterval(seconds as i32))
        } else {
            Err(ParseError::ParseTime)
        }
    }
}

impl Word for Name {
    ghost written = { λ word origin name. IsNameWord origin name word };

    ghost refuses = { λ word origin. RefusesNameWord origin word };

    ghost laws = { λ word origin. name_causes origin word };

    fn from_word(alloc: Global, word: &str, origin: Option<&Name>) -> Result<Name, ParseError> {
        match Name::parse(alloc, word, origin) {
            Ok(name) => {
                // Asked for its length, the name shows that it is one.
                let _octets = name.len();
                Ok(name)
            }
            Err(ProtoError::Memory(refused)) => Err(ParseError::Memory(refused)),
            Err(refused) => Err(ParseError::Proto(refused)),
        }
    }
}

/// A character string (RFC 1035 3.3): at most 255 octets. A contract sees it as its octets.
#[derive(Debug, Drop)]
pub struct CharacterString(Vec<u8>);

impl Model for CharacterString {
    ghost use Rattle.std.specs.Prelude.{ℕ, List, length, ◌≤◌};

    ghost Value = { List ℕ };

    ghost view = { λ string. string.0.items };

    ghost invariant = { λ string. length string.0.items ≤ 255 };
}

impl CharacterString {
    /// The most octets of a character string.
    pub const MAX_LENGTH: usize = 255;

    /// The string's octets.
    pub fn as_bytes(&self) -> &[u8]
        ensures octets { result.now ≡ self.now }
        ensures short { length self.now ≤ 255 }
    {
        self.0.as_slice()
    }

    /// The string's octets, taken out of it.
    pub fn into_bytes(self) -> Vec<u8>
        ensures octets { result.items ≡ self }
        ensures short { length self ≤ 255 }
    {
        let CharacterString(octets) = self;
        octets
    }
}

impl Word for CharacterString {
    ghost written = { λ word origin string. IsStringWord string word };

    ghost refuses = { λ word origin. RefusesString word };

    ghost laws = { λ word origin. string_causes word };

    fn from_word(
        alloc: Global,
        word: &str,
        _origin: Option<&Name>,
    ) -> Result<CharacterString, ParseError> {
        let octets = word.as_bytes();
        if octets.len() > CharacterString::MAX_LENGTH {
            return Err(ParseError::Message("a character string has at most 255 octets"));
        }
        match octets.to_vec(alloc) {
            Ok(copy) => Ok(CharacterString(copy)),
            Err(refused) => Err(ParseError::Memory(refused)),
        }
    }
}

impl Word for Ipv4Addr {
    ghost use Rattle.std.specs.Net.Grammar.{IsIpv4Text};
    ghost use Rattle.drd_words.specs.Refusals.{RefusesIpv4};
    ghost use Rattle.drd_words.specs.RefusalsLaws.{ipv4_causes};

    ghost written = { λ word origin address. IsIpv4Text word address };

    ghost refuses = { λ word origin. RefusesIpv4 word };

    ghost laws = { λ word origin. ipv4_causes word };

    fn from_word(
        _alloc: Global,
        word: &str,
        _origin: Option<&Name>,
    ) -> Result<Ipv4Addr, ParseError> {
        match word.parse() {
            Ok(address) => Ok(address),
            Err(_) => Err(ParseError::AddrParse),
        }
    }
}

impl Word for Ipv6Addr {
    ghost use Rattle.std.specs.Net.Grammar.{IsIpv6Text};
    ghost use Rattle.drd_words.specs.Refusals.{RefusesIpv6};
    ghost use Rattle.drd_words.specs.RefusalsLaws.{ipv6_causes};

    ghost written = { λ word origin address. IsIpv6Text word address };

    ghost refuses = { λ word origin. RefusesIpv6 word };

    ghost laws = { λ word origin. ipv6_causes word };

    fn from_word(
        _alloc: Global,
        word: &str,
        _origin: Option<&Name>,
    ) -> Result<Ipv6Addr, ParseError> {
        match word.parse() {
            Ok(address) => Ok(address),
            Err(_) => Err(ParseError::AddrParse),
        }
    }
}
