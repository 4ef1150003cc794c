//! The sets of a zone in memory that deny a name or a type (RFC 4035 section 3.1.3, RFC 5155 section 7.2).

ghost use Rattle.std.specs.Prelude.{IfOk};
ghost use Rattle.zst_request.specs.Denying.{ShowsNsec, ShowsNsec3};

use crate::handler::StoredZone;
use std::alloc::{AllocError, Global};
use zst_circle::{AuthLookup, HashedQuery, LookupOptions, Name, nsec_denial, nsec3_denial};
use zst_request::Nsec3QueryInfo;

impl StoredZone {
    /// The NSEC sets that deny a name or a type of it: the one for the name, and the one for the wildcard at its closest
    /// encloser. They are shown whatever the zone's kind of proof is.
    pub fn nsec_denial(
        &self,
        alloc: Global,
        name: &Name,
        options: LookupOptions,
    ) -> Result<AuthLookup<'_>, AllocError>
        ensures { IfOk result (ShowsNsec name.now options.dnssec_ok self.now) }
    {
        nsec_denial(alloc, self.records(), self.origin(), name, options)
    }

    /// The NSEC3 sets that deny a name or a type of it: the name's own, or those of its closest encloser's proof.
    pub fn nsec3_denial(
        &self,
        alloc: Global,
        info: Nsec3QueryInfo<'_>,
        options: LookupOptions,
    ) -> Result<AuthLookup<'_>, AllocError>
        ensures { IfOk result (ShowsNsec3 info.entry options.dnssec_ok self.now) }
    {
        let query = HashedQuery {
            name: info.qname,
            record_type: info.qtype,
            has_wildcard_match: info.has_wildcard_match,
            salt: info.salt.as_bytes(),
            iterations: info.iterations,
        };
        nsec3_denial(alloc, self.records(), self.origin(), query, options)
    }
}
