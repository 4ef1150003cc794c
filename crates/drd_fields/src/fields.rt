//! Strings and octets of record data.

/// A string of at most 255 octets, which stands behind an octet with its length (RFC 1035 3.3).
#[derive(Debug, Drop)]
pub struct CharacterString(pub Vec<u8>);

/// Strings up to the end of the data.
#[derive(Debug, Drop)]
pub struct CharacterStrings(pub Vec<Vec<u8>>);

/// The octets up to the end of the data.
#[derive(Debug, Drop)]
pub struct Rest(pub Vec<u8>);
