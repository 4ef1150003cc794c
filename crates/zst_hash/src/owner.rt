//! Owners of NSEC3 records (RFC 5155 section 3).
ghost use Rattle.std.specs.Prelude.{◌≡◌, ◌+◌, ◌<◌, ◌≤◌, IfOk, OnErr, MatchOption};
ghost use Rattle.dnw_name.specs.DomainName.{labels_len};
ghost use Rattle.zst_hash.specs.Owners.{hashed_owner};

use crate::base32::base32hex;
use dnw_name::Name;
use std::alloc::{AllocError, Global};

/// The owner of a digest's NSEC3 record: one label below the origin, the digest's digits in base 32. None where that name
/// would have more than 255 octets.
pub fn hashed_owner(
    alloc: Global,
    digest: &[u8; 20],
    origin: &Name,
) -> Result<Option<Name>, AllocError>
    ensures owner { IfOk result (λ found. MatchOption found (255 < labels_len origin.now.labels + 34)
        (λ name. name ≡ hashed_owner digest.now origin.now)) }
    ensures fits { OnErr result (labels_len origin.now.labels + 34 ≤ 255) }
{
    // The label of 32 digits, its length, and the root's.
    if origin.as_octets().len() + 34 > Name::MAX_LENGTH {
        return Ok(None);
    }
    let text = base32hex(alloc, digest)?;
    match origin.prepend_label(text.as_slice()) {
        Ok(name) => Ok(Some(name)),
        Err(_) => Err(AllocError),
    }
}
