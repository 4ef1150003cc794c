//! The sets of one owner.

ghost use Rattle.std.specs.Prelude.{◌≡◌, ◌∷◌, ◌<◌, [], false, true, List, Some, IfOk, IsSome, OnErr, OnOk, find, length, option_copied, slice_get, slice_set};
ghost use Rattle.std.specs.List.{AllByRecursion};
ghost use Rattle.zst_handler.specs.dnw_codes.RecordType.{record_type_number, same_record_type};
ghost use Rattle.zst_handler.specs.dnw_name.DomainName.{DomainName, name_eq};
ghost use Rattle.zst_handler.specs.zst_record.OneOrMany.{items_of};
ghost use Rattle.zst_handler.specs.zst_record.RecordSets.{RRset};
ghost use Rattle.zst_handler.specs.Found.{cut_at, here, is_address};
ghost use Rattle.zst_handler.specs.Lookups.{sets_of_name};
ghost use Rattle.zst_handler.specs.Updates.{set_of_type, with_set, without_type};
ghost use Rattle.zst_map.specs.Changes.{alters, is_only, made, owner_of, type_in, with_change};
ghost use Rattle.zst_map.specs.Edits.{CanEdit, edited};
ghost use Rattle.zst_map.specs.Searches.{lent};
ghost use Rattle.zst_map.specs.ZoneMaps.{TypesRise, place_from};

use crate::change::Change;
use crate::edit::Edit;
use std::alloc::{AllocError, Global};
use std::cmp::Ordering;
use std::mem;
use zst_handler::{OneOrMany, RecordSet, RecordType};

/// The set of a type.
pub(crate) fn find_set(sets: &[RecordSet], record_type: RecordType) -> Option<&RecordSet>
    ensures { option_copied result ≡ find (λ set. same_record_type set.record_type record_type) sets.now }
{
    sets.iter().find(|set| set.record_type() == record_type)
}

/// The set of a type, whose records are read next.
fn find_to_read(sets: &[RecordSet], record_type: RecordType) -> Option<&RecordSet>
    ensures { option_copied result ≡ find (λ set. same_record_type set.record_type record_type) sets.now }
{
    sets.iter().find(|set| set.is_of_type(record_type))
}

/// Whether questions of a type are answered by an alias for addresses.
pub(crate) fn is_address(record_type: RecordType) -> bool
    ensures { result ≡ is_address record_type }
{
    record_type == RecordType::A || record_type == RecordType::AAAA
}

/// What the sets of a name answer to a type: the set of the type, else an alias, else for addresses an alias for these.
pub(crate) fn here(sets: &[RecordSet], record_type: RecordType) -> Option<&RecordSet>
    ensures { (zone : List RRset) (name : DomainName) → sets.now ≡ sets_of_name zone name → option_copied result ≡ here zone record_type name }
{
    if sets.is_empty() {
        return None;
    }
    if let Some(set) = find_to_read(sets, record_type) {
        return Some(set);
    }
    if let Some(alias) = find_set(sets, RecordType::CNAME) {
        return Some(alias);
    }
    if is_address(record_type) {
        find_set(sets, RecordType::ANAME)
    } else {
        None
    }
}

/// The name servers to which the name of these sets is handed over, if it owns some: those beside an SOA hand nothing over.
pub(crate) fn cut_of(sets: &[RecordSet]) -> Option<Option<&RecordSet>>
    ensures { (zone : List RRset) (name : DomainName) → sets.now ≡ sets_of_name zone name → lent result ≡ cut_at zone name }
{
    let servers = find_set(sets, RecordType::NS)?;
    match find_set(sets, RecordType::SOA) {
        Some(_) => Some(None),
        None => Some(Some(servers)),
    }
}

/// Changes a set of an owner, and tells whether that changed it.
pub(crate) fn change_node(
    alloc: Global,
    sets: &mut OneOrMany<RecordSet>,
    change: Change,
) -> Result<bool, AllocError>
    requires owned { AllByRecursion (λ set. name_eq (owner_of change) set.name ≡ true) (items_of sets.old) }
    requires rise { TypesRise (items_of sets.old) }
    ensures changed { IfOk result (λ changed. changed ≡ alters change (set_of_type (type_in change) (items_of sets.old))) }
    ensures ok { OnOk result (items_of sets.new ≡ with_change (items_of sets.old) change) }
    ensures err { OnErr result (items_of sets.new ≡ items_of sets.old) }
{
    match place_of(sets.as_slice(), change.record_type()) {
        Ok(place) => change_at(sets, place, change),
        Err(place) => {
            let set = change.into_set(alloc);
            sets.insert(alloc, place, set)?;
            Ok(true)
        }
    }
}

// Changes the set at a place, which is the one of the owner and the type, and tells whether that changed it.
fn change_at(
    sets: &mut OneOrMany<RecordSet>,
    place: usize,
    change: Change,
) -> Result<bool, AllocError>
    requires place { place < length (items_of sets.old) }
    requires owner { (set : RRset) → slice_get (items_of sets.old) place ≡ Some set → name_eq (owner_of change) set.name ≡ true }
    requires kind { (set : RRset) → slice_get (items_of sets.old) place ≡ Some set → same_record_type (type_in change) set.record_type ≡ true }
    ensures changed { IfOk result (λ changed. changed ≡ alters change (slice_get (items_of sets.old) place)) }
    ensures ok { OnOk result (items_of sets.new ≡ slice_set (items_of sets.old) place (made change (slice_get (items_of sets.old) place))) }
    ensures err { OnErr result (items_of sets.new ≡ items_of sets.old) }
{
    match sets {
        OneOrMany::One(set) => change.apply(set),
        OneOrMany::Many(sets) => change.apply(&mut sets[place]),
    }
}

/// Puts a set in place of the one of its type, which is there.
pub(crate) fn replace_in(sets: &mut OneOrMany<RecordSet>, set: RecordSet)
    requires there { IsSome (set_of_type set.record_type (items_of sets.old)) }
    requires rise { TypesRise (items_of sets.old) }
    ensures { items_of sets.new ≡ with_set (items_of sets.old) set }
{
    match place_of(sets.as_slice(), set.record_type()) {
        Ok(place) => sets.set(place, set),
        Err(_) => mem::drop(set),
    }
}

/// Changes the set of a type, which is there, where it is.
pub(crate) fn edit_node(sets: &mut OneOrMany<RecordSet>, record_type: RecordType, edit: Edit)
    requires there { (set : RRset) × (set_of_type record_type (items_of sets.old) ≡ Some set) × CanEdit edit set }
    requires rise { TypesRise (items_of sets.old) }
    ensures { (set : RRset) → set_of_type record_type (items_of sets.old) ≡ Some set → CanEdit edit set
        → items_of sets.new ≡ with_set (items_of sets.old) (edited edit set) }
{
    match place_of(sets.as_slice(), record_type) {
        Ok(place) => edit_at(sets, place, edit),
        Err(_) => mem::drop(edit),
    }
}

// Changes the set at a place.
fn edit_at(sets: &mut OneOrMany<RecordSet>, place: usize, edit: Edit)
    requires place { place < length (items_of sets.old) }
    requires can { (set : RRset) → slice_get (items_of sets.old) place ≡ Some set → CanEdit edit set }
    ensures { (set : RRset) → slice_get (items_of sets.old) place ≡ Some set → items_of sets.new ≡ slice_set (items_of sets.old) place (edited edit set) }
{
    match sets {
        OneOrMany::One(set) => edit.apply(set),
        OneOrMany::Many(sets) => edit.apply(&mut sets[place]),
    }
}

/// Whether the sets of an owner are one, of this type.
pub(crate) fn is_only(sets: &[RecordSet], record_type: RecordType) -> bool
    ensures { result ≡ is_only sets.now record_type }
{
    match sets {
        [set] => set.record_type() == record_type,
        _ => false,
    }
}

/// The only set of an owner.
pub(crate) fn only(sets: OneOrMany<RecordSet>) -> Option<RecordSet>
    ensures { (set : RRset) → items_of sets ≡ set ∷ [] → result ≡ Some set }
{
    match sets {
        OneOrMany::One(set) => Some(set),
        OneOrMany::Many(sets) => {
            let mut sets = sets;
            sets.pop()
        }
    }
}

/// Takes the set of a type out of an owner's, where it is not the only one.
pub(crate) fn take_out(
    sets: &mut OneOrMany<RecordSet>,
    record_type: RecordType,
) -> Option<RecordSet>
    requires rise { TypesRise (items_of sets.old) }
    requires others { is_only (items_of sets.old) record_type ≡ false }
    ensures value { result ≡ set_of_type record_type (items_of sets.old) }
    ensures others { items_of sets.new ≡ without_type (items_of sets.old) record_type }
{
    match place_of(sets.as_slice(), record_type) {
        Ok(place) => sets.remove(place),
        Err(_) => None,
    }
}

/// Where the set of a type stands, or where it would go.
fn place_of(sets: &[RecordSet], record_type: RecordType) -> Result<usize, usize>
    ensures { result ≡ place_from 0 sets.now (record_type_number record_type) }
{
    for (place, set) in sets.iter().enumerate() {
        match set.record_type().cmp(&record_type) {
            Ordering::Less => {}
            Ordering::Equal => return Ok(place),
            Ordering::Greater => return Err(place),
        }
    }
    Err(sets.len())
}
