//! Values that are lists of entries, or octets as they are (RFC 9460 7, 8).
use crate::key::SvcParamKey;

/// The keys that a client must know to use the record (RFC 9460 8): at least one.
#[derive(Clone, Debug, PartialEq, Eq, Hash, Drop)]
pub struct Mandatory(pub Vec<SvcParamKey>);

/// The protocols beyond the default one (RFC 9460 7.1): at least one, each of at most 255 octets.
#[derive(Clone, Debug, PartialEq, Eq, Hash, Drop)]
pub struct Alpn(pub Vec<String>);

/// The configurations of Encrypted ClientHello, as octets.
#[derive(Clone, Debug, PartialEq, Eq, Hash, Drop)]
pub struct EchConfigList(pub Vec<u8>);

/// Addresses that may be tried before those of the target are known (RFC 9460 7.3).
#[derive(Clone, Debug, PartialEq, Eq, Hash, Drop)]
pub struct IpHint<T>(pub Vec<T>);

/// The octets of the value of any other key.
#[derive(Clone, Debug, PartialEq, Eq, Hash, Drop)]
pub struct Unknown(pub Vec<u8>);
