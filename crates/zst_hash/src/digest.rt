//! Digests of names (RFC 5155 section 5).
ghost use Rattle.std.specs.Prelude.{◌≡◌, ◌++◌, ℕ, List, map};
ghost use Rattle.std.specs.Char.{to_ascii_lowercase};
ghost use Rattle.dnw_name.specs.DomainName.{lowercase_name, name_octets};
ghost use Rattle.sha1.specs.Sha1.{Holds, sha1};
ghost use Rattle.zst_hash.specs.Digests.{nsec3_digest};

use dnw_name::Name;
use sha1::Sha1;

/// The digest of a name in lower case: the name is hashed with the salt, and `iterations` times more the digest before with
/// the salt (RFC 5155 section 5).
pub fn nsec3_digest(name: &Name, salt: &[u8], iterations: u16) -> [u8; 20]
    ensures { result ≡ nsec3_digest salt.now iterations name.now }
{
    let mut digest = first_digest(name, salt);
    'iterations: for _ in 0..iterations {
        digest = next_digest(&digest, salt);
    }
    digest
}

// The digest of the name's octets with the salt.
fn first_digest(name: &Name, salt: &[u8]) -> [u8; 20]
    ensures { result ≡ sha1 (name_octets (lowercase_name name.now) ++ salt.now) }
{
    let mut hasher = Sha1::new();
    add_lowercase(&mut hasher, name.as_octets());
    hasher.update(&[0]);
    hasher.update(salt);
    hasher.finalize()
}

// The digest of a digest with the salt.
fn next_digest(digest: &[u8; 20], salt: &[u8]) -> [u8; 20]
    ensures { result ≡ sha1 (digest.now ++ salt.now) }
{
    let mut hasher = Sha1::new();
    hasher.update(digest);
    hasher.update(salt);
    hasher.finalize()
}

// Adds octets in lower case.
fn add_lowercase(hasher: &mut Sha1, octets: &[u8])
    ensures { (m : List ℕ) → Holds hasher.old m → Holds hasher.new (m ++ map to_ascii_lowercase octets.now) }
{
    'octets: for octet in octets {
        hasher.update(&[octet.to_ascii_lowercase()]);
    }
}
