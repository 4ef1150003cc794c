//! Owner and type of a record set.
ghost use Rattle.std.specs.Prelude.{◌≡◌};

use crate::lower_name::LowerName;
use dnw_net::RecordType;
use std::alloc::AllocError;

/// The owner and the type of a record set, in the order of owners and then of types.
#[derive(PartialEq, Eq, PartialOrd, Ord, Hash, Drop)]
pub struct RrKey {
    pub name: LowerName,
    pub record_type: RecordType,
}

impl RrKey {
    /// The key of the sets of this owner and type.
    pub fn new(name: LowerName, record_type: RecordType) -> RrKey
        ensures { result ≡ record { name = name; record_type = record_type } }
    {
        RrKey { name, record_type }
    }

    /// The owner.
    pub fn name(&self) -> &LowerName
        ensures { result.now ≡ self.now.name }
    {
        &self.name
    }
}

impl Clone for RrKey {
    ghost is_clone = { λ key copy. copy ≡ key };

    fn clone(&self) -> Result<RrKey, AllocError> {
        Ok(RrKey {
            name: self.name.clone()?,
            record_type: self.record_type,
        })
    }
}
