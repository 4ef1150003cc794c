//! The names at which a search of a zone looks for cuts, wildcards and denials.

ghost use Rattle.std.specs.Prelude.{◌≡◌, ◌&&◌, true, false, not, OnErr, OnOk, IsSome, Some};
ghost use Rattle.std.specs.BTreeMap.{Updates, get};
ghost use Rattle.std.specs.List.Sorted.{IsStrictlySortedBy};
ghost use Rattle.std.specs.Map.{keys_of};
ghost use Rattle.zst_handler.specs.dnw_codes.RecordType.{same_record_type};
ghost use Rattle.zst_handler.specs.dnw_codes.declared.record_type.RecordType.TheVariants as kind;
ghost use Rattle.zst_handler.specs.dnw_name.DomainName.{DomainName, lowercase_name, name_cmp};
ghost use Rattle.zst_key.specs.Ancestors.{parent};
ghost use Rattle.zst_map.specs.Indexes.{Grows, HasName, HasOwnerOf, is_denial_type};

use std::alloc::{AllocError, Global};
use std::collections::BTreeMap;
use zst_handler::{Name, RecordType};
use zst_key::NameKey;

/// The names at which a search looks for cuts, wildcards and denials. Each may hold more.
#[derive(Drop)]
pub(crate) struct Index {
    /// The names that own NS.
    pub(crate) name_servers: BTreeMap<NameKey, ()>,
    /// The names that have a wildcard below them.
    pub(crate) wildcards: BTreeMap<NameKey, ()>,
    /// The names that own NSEC or NSEC3.
    pub(crate) denials: BTreeMap<NameKey, ()>,
    /// Whether some owner of NS may have no SOA, and so be a cut.
    pub(crate) has_cuts: bool,
    /// Whether some owner may be relative.
    pub(crate) has_relative: bool,
}

impl Index {
    /// No names.
    pub(crate) fn new(alloc: Global) -> Index
        ensures { result.has_relative ≡ false }
    {
        Index {
            name_servers: BTreeMap::new(alloc),
            wildcards: BTreeMap::new(alloc),
            denials: BTreeMap::new(alloc),
            has_cuts: false,
            has_relative: false,
        }
    }

    /// Puts an owner of a set of this type, which has this key and may own an SOA, where a search for the set looks.
    pub(crate) fn mark(
        &mut self,
        key: &NameKey,
        owner: &Name,
        record_type: RecordType,
        owns_soa: bool,
    ) -> Result<(), AllocError>
        requires { key.now ≡ lowercase_name owner.now }
        ensures kept { Grows self.old self.new }
        ensures marked { OnOk result (HasOwnerOf owner.now record_type owns_soa self.new) }
    {
        let is_ns = record_type == RecordType::NS;
        self.has_relative |= !key.is_fqdn();
        self.has_cuts |= is_cut(is_ns, owns_soa);
        put_if(&mut self.name_servers, key, is_ns)?;
        put_if(&mut self.denials, key, is_denial_type(record_type))?;
        put_above_if(&mut self.wildcards, key, owner.is_wildcard())
    }

    /// Lets an owner of NS lose its SOA.
    pub(crate) fn unmark(&mut self, record_type: RecordType)
        ensures kept { Grows self.old self.new }
        ensures cut { same_record_type record_type kind.SOA ≡ true → self.new.has_cuts ≡ true }
    {
        self.has_cuts |= record_type == RecordType::SOA;
    }

    /// Takes out all names.
    pub(crate) fn clear(&mut self) {
        self.name_servers.clear();
        self.wildcards.clear();
        self.denials.clear();
        self.has_cuts = false;
        self.has_relative = false;
    }
}

// Whether an owner may be a cut.
fn is_cut(is_ns: bool, owns_soa: bool) -> bool
    ensures { result ≡ (is_ns && not owns_soa) }
{
    is_ns && !owns_soa
}

// Whether sets of a type prove what a zone doesn't have (RFC 4034 section 4, RFC 5155 section 3).
fn is_denial_type(record_type: RecordType) -> bool
    ensures { result ≡ is_denial_type record_type }
{
    record_type == RecordType::NSEC || record_type == RecordType::NSEC3
}

// Puts a name into an index, if it is wanted there.
fn put_if(
    names: &mut BTreeMap<NameKey, ()>,
    key: &NameKey,
    is_wanted: bool,
) -> Result<(), AllocError>
    ensures kept { (name : DomainName) → IsSome (get name_cmp names.old name) → IsSome (get name_cmp names.new name) }
    ensures there { OnOk result (is_wanted ≡ true → HasName names.new key.now) }
{
    if !is_wanted {
        return Ok(());
    }
    put(names, key)
}

// Puts the name above into an index, if it is wanted there.
fn put_above_if(
    names: &mut BTreeMap<NameKey, ()>,
    key: &NameKey,
    is_wanted: bool,
) -> Result<(), AllocError>
    ensures kept { (name : DomainName) → IsSome (get name_cmp names.old name) → IsSome (get name_cmp names.new name) }
    ensures there { OnOk result (is_wanted ≡ true → HasName names.new (parent key.now)) }
{
    if !is_wanted {
        return Ok(());
    }
    let mut above = key.clone()?;
    above.to_parent();
    put(names, &above)
}

// Puts a name into an index.
fn put(names: &mut BTreeMap<NameKey, ()>, key: &NameKey) -> Result<(), AllocError>
    ensures kept { (name : DomainName) → IsSome (get name_cmp names.old name) → IsSome (get name_cmp names.new name) }
    ensures there { OnOk result (HasName names.new key.now) }
{
    insert_key(names, key.clone()?)
}

/// Puts a key among others.
pub(crate) fn insert_key<K: Ord + Drop>(
    keys: &mut BTreeMap<K, ()>,
    key: K,
) -> Result<(), AllocError>
    ensures updates { OnOk result (Updates K.cmp keys.old keys.new key (Some tt)) }
    ensures ordered { IsStrictlySortedBy K.cmp (keys_of keys.new.entries) }
    ensures err { OnErr result (keys.new.entries ≡ keys.old.entries) }
{
    match keys.insert(key, ()) {
        Ok(_) => Ok(()),
        Err(_) => Err(AllocError),
    }
}
