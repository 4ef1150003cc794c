//! Services in order (RFC 4034 6.3), and hashed.
ghost use Rattle.std.specs.Prelude.{◌≡◌};
ghost use Rattle.drd_params.specs.drd_fields.Equality.{AreFull};
ghost use Rattle.drd_params.specs.drd_fields.Writing.{canonical_octets};
ghost use Rattle.drd_params.specs.drd_fields.Order.{Orders, fields_cmp};
ghost use Rattle.drd_params.specs.Params.{AreParams};
ghost use Rattle.drd_svcb.specs.Fields.{svcb_code, svcb_fields};
ghost use Rattle.drd_svcb.specs.Hashing.{svcb_input};
ghost use Rattle.drd_svcb.specs.HashingLaws.{svcb-alike};

use crate::params_hash::hash_params;
use crate::params_order::cmp_params;
use crate::{HTTPS, SVCB};
use drd_params::FieldRef;
use std::cmp::Ordering;
use std::hash::{Hash, Hasher};

impl SVCB {
    /// The order of priorities, then of the octets of targets in lower case, then of parameters. Of data that were read it
    /// is the order of the canonical octets.
    pub fn cmp_data(&self, other: &SVCB) -> Ordering
        ensures value { result ≡ fields_cmp (svcb_code self.now) (svcb_code other.now) }
        ensures canonical { AreFull (svcb_fields self.now) → AreFull (svcb_fields other.now)
            → AreParams self.now.svc_params.items → AreParams other.now.svc_params.items
            → Orders result (canonical_octets (svcb_fields self.now)) (canonical_octets (svcb_fields other.now)) }
    {
        match FieldRef::U16(self.svc_priority).cmp_field(FieldRef::U16(other.svc_priority)) {
            Ordering::Equal => {}
            unequal => return unequal,
        }
        match FieldRef::Name(&self.target_name).cmp_field(FieldRef::Name(&other.target_name)) {
            Ordering::Equal => cmp_params(&self.svc_params, &other.svc_params),
            unequal => unequal,
        }
    }
}

impl Hash for SVCB {
    ghost hash_input = { svcb_input };

    ghost respects_eq = { svcb-alike };

    fn hash<H: Hasher>(&self, state: &mut H) {
        FieldRef::U16(self.svc_priority).hash_field(state);
        FieldRef::Name(&self.target_name).hash_field(state);
        hash_params(&self.svc_params, state);
    }
}

impl HTTPS {
    /// The order of the data of SVCB.
    pub fn cmp_data(&self, other: &HTTPS) -> Ordering
        ensures value { result ≡ fields_cmp (svcb_code self.now.0) (svcb_code other.now.0) }
        ensures canonical { AreFull (svcb_fields self.now.0) → AreFull (svcb_fields other.now.0)
            → AreParams self.now.0.svc_params.items → AreParams other.now.0.svc_params.items
            → Orders result (canonical_octets (svcb_fields self.now.0)) (canonical_octets (svcb_fields other.now.0)) }
    {
        self.0.cmp_data(&other.0)
    }
}

impl Hash for HTTPS {
    ghost hash_input = { λ https. svcb_input https.0 };

    ghost respects_eq = { λ a b. svcb-alike a.0 b.0 };

    fn hash<H: Hasher>(&self, state: &mut H) {
        self.0.hash(state);
    }
}
