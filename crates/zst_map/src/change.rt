//! What changes at an owner.

ghost use Rattle.std.specs.Prelude.{◌≡◌, None, Some, IfOk, OnOk, OnErr, true};
ghost use Rattle.zst_handler.specs.dnw_name.DomainName.{name_eq};
ghost use Rattle.zst_handler.specs.dnw_codes.RecordType.{same_record_type};
ghost use Rattle.zst_map.specs.Changes.{alters, made, owner_of, type_in};

use std::alloc::{AllocError, Global};
use std::mem;
use zst_handler::{Name, Record, RecordSet, RecordType};

/// What changes at an owner.
#[derive(Drop)]
pub(crate) enum Change {
    /// A record is put into the set of its type, in place of the one with equal data.
    Add(Record),
    /// A record is added to the set of its type as an update does (RFC 2136 section 3.4.2.2).
    Upsert(Record),
    /// A set takes the place of the one of its type.
    Put(RecordSet),
}

impl Change {
    /// The owner.
    pub(crate) fn name(&self) -> &Name
        ensures { result.now ≡ owner_of self.now }
    {
        match self {
            Change::Add(next) | Change::Upsert(next) => &next.name,
            Change::Put(set) => set.name(),
        }
    }

    /// The type of the set that changes.
    pub(crate) fn record_type(&self) -> RecordType
        ensures { result ≡ type_in self.now }
    {
        match self {
            Change::Add(next) | Change::Upsert(next) => next.record_type(),
            Change::Put(set) => set.record_type(),
        }
    }

    /// The set where there is none.
    pub(crate) fn into_set(self, alloc: Global) -> RecordSet
        ensures { result ≡ made self None }
    {
        match self {
            Change::Add(next) | Change::Upsert(next) => RecordSet::from_record(alloc, next),
            Change::Put(set) => set,
        }
    }

    /// Changes the set of the owner and the type, and tells whether that changed it.
    pub(crate) fn apply(self, set: &mut RecordSet) -> Result<bool, AllocError>
        requires owner { name_eq (owner_of self) set.old.name ≡ true }
        requires kind { same_record_type (type_in self) set.old.record_type ≡ true }
        ensures changed { IfOk result (λ changed. changed ≡ alters self (Some set.old)) }
        ensures ok { OnOk result (set.new ≡ made self (Some set.old)) }
        ensures err { OnErr result (set.new ≡ set.old) }
    {
        match self {
            Change::Add(next) => {
                set.put(next)?;
                Ok(true)
            }
            Change::Upsert(next) => set.insert(next),
            Change::Put(new) => {
                mem::drop(mem::replace(set, new));
                Ok(true)
            }
        }
    }
}
