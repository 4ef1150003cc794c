//! What the octets of a reply prove by its NSEC records: that a name is absent, or that a name has no set of a type (RFC 4035
//! section 5.4).

ghost use Rattle.std.specs.Prelude.{◌≤◌, length, IfErr, IfOk, MatchBool};
ghost use Rattle.authority_denial.specs.Denials.{DeniesName, DeniesType};
ghost use Rattle.authority.specs.Certificates.{Certifies, CertifiesType};

use authority_server::{Name, RecordType};
use std::alloc::{AllocError, Global};

/// Whether a reply denies a name: its code is NXDomain, and an NSEC record among its authorities covers the name, which lies
/// strictly between its owner and the next one on the circle. No zone is asked, and no signature verified.
///
/// Of a server whose zone is secured by NSEC and whose records read back (`Certifies`), the answer is yes for each whole name
/// error in reply to a question for the name, and no for each reply where the name is authoritative in that zone.
pub fn check(alloc: Global, reply: &[u8], name: &Name) -> Result<bool, AllocError>
    ensures exact { IfOk result (λ yes. MatchBool yes (DeniesName reply.now name.now) (DeniesName reply.now name.now → ⊥)) }
    ensures certifies { IfOk result (Certifies reply.now name.now) }
    ensures memory { IfErr result (λ e. 12 ≤ length reply.now) }
{
    authority_denial::check(alloc, reply, name)
}

/// Whether a reply denies a type of a name: it has no error and no answer, and an NSEC record of the name among its
/// authorities lacks the type. No zone is asked, and no signature verified.
///
/// Of such a server (`CertifiesType`) the answer is yes for each whole reply without an error to a question for name and type,
/// where the name is authoritative and a lookup finds nothing of the type, which isn't RRSIG; and no for each reply where the
/// name is authoritative, isn't delegated and owns the type.
pub fn check_type(
    alloc: Global,
    reply: &[u8],
    name: &Name,
    record_type: RecordType,
) -> Result<bool, AllocError>
    ensures exact { IfOk result (λ yes. MatchBool yes (DeniesType reply.now name.now record_type) (DeniesType reply.now name.now record_type → ⊥)) }
    ensures certifies { IfOk result (CertifiesType reply.now name.now record_type) }
    ensures memory { IfErr result (λ e. 12 ≤ length reply.now) }
{
    authority_denial::check_type(alloc, reply, name, record_type)
}
