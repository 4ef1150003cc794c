//! RDATA of NSEC3 and NSEC3PARAM records (RFC 5155 sections 3.2 and 4.2).
ghost use Rattle.std.specs.Prelude.{◌≡◌, ◌≤◌, cond, length, IfOk};
ghost use Rattle.drd_denial.specs.Nsec3.{IsNsec3Data, parameter_octets};

use crate::nsec::bit_maps;
use dnw_wire::RecordTypeSet;
use std::alloc::{AllocError, Global};

/// RDATA of an NSEC3 record: how names are hashed, by SHA-1; the next digest; and the types of the name's sets (RFC 5155
/// section 3.2). `opt_out` says whether unsigned delegations may lie between (section 6).
pub fn nsec3_data(
    alloc: Global,
    opt_out: bool,
    iterations: u16,
    salt: &[u8],
    next: &[u8; 20],
    types: &RecordTypeSet,
) -> Result<Vec<u8>, AllocError>
    requires { length salt.now ≤ 255 }
    ensures { IfOk result (λ octets. IsNsec3Data octets.items (cond opt_out 1 0) iterations salt.now next.now types.now) }
{
    let maps = bit_maps(alloc, types)?;
    let mut octets = parameters(alloc, u8::from(opt_out), iterations, salt)?;
    octets.push(20)?;
    octets.extend_from_slice(next)?;
    octets.extend_from_slice(&maps)?;
    Ok(octets)
}

/// RDATA of an NSEC3PARAM record: how names are hashed, by SHA-1, and no flags (RFC 5155 section 4.2).
pub fn nsec3param_data(alloc: Global, iterations: u16, salt: &[u8]) -> Result<Vec<u8>, AllocError>
    requires { length salt.now ≤ 255 }
    ensures { IfOk result (λ octets. octets.items ≡ parameter_octets 0 iterations salt.now) }
{
    parameters(alloc, 0, iterations, salt)
}

// How names are hashed: by SHA-1, with these flags, iterations and salt.
fn parameters(alloc: Global, flags: u8, iterations: u16, salt: &[u8]) -> Result<Vec<u8>, AllocError>
    requires { length salt.now ≤ 255 }
    ensures { IfOk result (λ octets. octets.items ≡ parameter_octets flags iterations salt.now) }
{
    let [high, low] = iterations.to_be_bytes();
    let mut octets = Vec::from_slice(alloc, &[1, flags, high, low, salt.len() as u8])?;
    octets.extend_from_slice(salt)?;
    Ok(octets)
}
