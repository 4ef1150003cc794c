//! Keys of parameters (RFC 9460 14.3.2).
ghost use Rattle.std.specs.Prelude.{◌≡◌, Some, find};
ghost use Rattle.std.specs.Cmp.{partial_order_from_own_ties};
ghost use Rattle.std.specs.Cmp.Rules.{comparing, hashing};
ghost use Rattle.std.specs.Hash as fed;
ghost use Rattle.std.specs.Option.{ok_or};
ghost use Rattle.std.specs.Ordering.{as_partial_cmp};
ghost use Rattle.std.specs.Str.{bytes_eq};
ghost use Rattle.std.proofs.Common.{rules};
ghost use Rattle.drd_words.specs.dnw_codes.declared.error.ParseError.TheVariants.{UnexpectedToken};
ghost use Rattle.drd_param_keys.specs.Keys.{key_name, named_keys};

use drd_words::{ParseError, number_behind};
use std::cmp::Ordering;
use std::fmt;
use std::hash::{Hash, Hasher};
use std::str::FromStr;

/// The key of a parameter. Two are equal where their numbers are.
#[derive(Clone, Copy, Debug)]
pub enum SvcParamKey {
    /// The keys that a client must know (RFC 9460 8).
    Mandatory,
    /// The protocols beyond the default one (RFC 9460 7.1).
    Alpn,
    /// That the default protocol isn't served (RFC 9460 7.1).
    NoDefaultAlpn,
    /// The port of the service (RFC 9460 7.2).
    Port,
    /// Addresses of 32 bits that may be tried first (RFC 9460 7.3).
    Ipv4Hint,
    /// The configurations of Encrypted ClientHello.
    EchConfigList,
    /// Addresses of 128 bits that may be tried first (RFC 9460 7.3).
    Ipv6Hint,
    /// Private use: 65280 to 65534.
    Key(u16),
    /// The number that is no key (RFC 9460 14.3.2).
    Key65535,
    /// Any other number.
    Unknown(u16),
}

impl From<u16> for SvcParamKey {
    ghost use Rattle.drd_param_keys.specs.Keys.{key_of, key_number};

    ghost from_gives = { λ number key. (key ≡ key_of number) × (key_number key ≡ number) };

    fn from(number: u16) -> SvcParamKey {
        match number {
            0 => SvcParamKey::Mandatory,
            1 => SvcParamKey::Alpn,
            2 => SvcParamKey::NoDefaultAlpn,
            3 => SvcParamKey::Port,
            4 => SvcParamKey::Ipv4Hint,
            5 => SvcParamKey::EchConfigList,
            6 => SvcParamKey::Ipv6Hint,
            65280..=65534 => SvcParamKey::Key(number),
            65535 => SvcParamKey::Key65535,
            _ => SvcParamKey::Unknown(number),
        }
    }
}

impl From<SvcParamKey> for u16 {
    ghost use Rattle.drd_param_keys.specs.Keys.{key_number};

    ghost from_gives = { λ key number. number ≡ key_number key };

    fn from(key: SvcParamKey) -> u16 {
        match key {
            SvcParamKey::Mandatory => 0,
            SvcParamKey::Alpn => 1,
            SvcParamKey::NoDefaultAlpn => 2,
            SvcParamKey::Port => 3,
            SvcParamKey::Ipv4Hint => 4,
            SvcParamKey::EchConfigList => 5,
            SvcParamKey::Ipv6Hint => 6,
            SvcParamKey::Key65535 => 65535,
            SvcParamKey::Key(number) => number,
            SvcParamKey::Unknown(number) => number,
        }
    }
}

impl PartialEq for SvcParamKey {
    ghost use Rattle.drd_param_keys.specs.Keys.{same_key};

    ghost eq = { same_key };

    ghost laws = { Prim.search (comparing, rules) };

    fn eq(&self, other: &SvcParamKey) -> bool {
        u16::from(*self) == u16::from(*other)
    }
}

impl Eq for SvcParamKey {
    ghost laws = { Prim.search (comparing, rules) };
}

impl Ord for SvcParamKey {
    ghost use Rattle.drd_param_keys.specs.Keys.{key_cmp};

    ghost cmp = { key_cmp };

    ghost total = { Prim.search (comparing, rules) };

    ghost matches_partial_cmp = { Prim.search (comparing, rules) };

    ghost matches_eq = { Prim.search (comparing, rules) };

    /// Compares the numbers.
    fn cmp(&self, other: &SvcParamKey) -> Ordering {
        u16::from(*self).cmp(&u16::from(*other))
    }
}

impl PartialOrd for SvcParamKey {
    ghost use Rattle.drd_param_keys.specs.Keys.{key_cmp};

    ghost partial_cmp = { as_partial_cmp key_cmp };

    ghost laws = { partial_order_from_own_ties (Prim.search (comparing, rules)) (Prim.search (comparing, rules)) };

    fn partial_cmp(&self, other: &SvcParamKey) -> Option<Ordering> {
        Some(self.cmp(other))
    }
}

impl Hash for SvcParamKey {
    ghost use Rattle.drd_param_keys.specs.Keys.{key_number};

    ghost hash_input = { λ key. fed.u16 (key_number key) };

    ghost respects_eq = { Prim.search (hashing, rules) };

    fn hash<H: Hasher>(&self, state: &mut H) {
        u16::from(*self).hash(state);
    }
}

impl From<SvcParamKey> for &'static str {
    ghost use Rattle.drd_param_keys.specs.Keys.{key_name};

    ghost from_gives = { λ key name. name.now ≡ key_name key };

    fn from(key: SvcParamKey) -> &'static str {
        match key {
            SvcParamKey::Mandatory => "mandatory",
            SvcParamKey::Alpn => "alpn",
            SvcParamKey::NoDefaultAlpn => "no-default-alpn",
            SvcParamKey::Port => "port",
            SvcParamKey::Ipv4Hint => "ipv4hint",
            SvcParamKey::EchConfigList => "ech",
            SvcParamKey::Ipv6Hint => "ipv6hint",
            SvcParamKey::Key65535 => "key65535",
            SvcParamKey::Key(_) | SvcParamKey::Unknown(_) => "key",
        }
    }
}

impl fmt::Display for SvcParamKey {
    ghost use Rattle.drd_param_keys.specs.Keys.{key_text};

    ghost output = { λ key. Some (key_text key) };

    /// Writes the key's name, or `key` and its number (RFC 9460 2.1).
    fn fmt<W: fmt::Write>(&self, f: &mut fmt::Formatter<W>) -> fmt::Result {
        match self {
            SvcParamKey::Key(number) | SvcParamKey::Unknown(number) => write!(f, "key{number}"),
            named => f.write_str((*named).into()),
        }
    }
}

// The keys that have a name, by rising number.
const NAMED: [SvcParamKey; 8] = [
    SvcParamKey::Mandatory,
    SvcParamKey::Alpn,
    SvcParamKey::NoDefaultAlpn,
    SvcParamKey::Port,
    SvcParamKey::Ipv4Hint,
    SvcParamKey::EchConfigList,
    SvcParamKey::Ipv6Hint,
    SvcParamKey::Key65535,
];

fn named(text: &str) -> Option<SvcParamKey>
    ensures { result ≡ find (λ named. bytes_eq (key_name named) text.now) named_keys }
{
    NAMED.iter().copied().find(|named| {
        let name: &'static str = (*named).into();
        name == text
    })
}

impl FromStr for SvcParamKey {
    ghost use Rattle.drd_param_keys.specs.Keys.{key_of_text};

    type Err = ParseError;

    ghost from_str_gives = { λ text result. result ≡ ok_or (key_of_text text) UnexpectedToken };

    /// Reads a key's name, or `key` and decimal digits, which stand for the key of that number. The error is
    /// `UnexpectedToken`.
    fn from_str(text: &str) -> Result<SvcParamKey, ParseError> {
        if let Some(key) = named(text) {
            return Ok(key);
        }
        match number_behind("key", text) {
            Some(number) => Ok(SvcParamKey::from(number)),
            None => Err(ParseError::UnexpectedToken),
        }
    }
}
