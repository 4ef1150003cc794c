//! The sets of a denial, each owner's once.
ghost use Rattle.std.specs.Prelude.{◌≡◌, ◌++◌, map, true, IfOk, OnOk, Some, option_copied};
ghost use Rattle.zst_map.specs.Indexes.{is_denial_type};
ghost use Rattle.zst_map.specs.Preceding.{FindsPreceding};
ghost use Rattle.zst_map.specs.zst_handler.Answers.{set_in};
ghost use Rattle.zst_map.specs.zst_handler.Lookups.{listed};
ghost use Rattle.zst_denial.specs.Denials.{each_owner_once};
ghost use Rattle.zst_denial.specs.Shown.{ShowsDenial};
ghost use Rattle.zst_absence.specs.Absences.{unless_same};

use std::alloc::{AllocError, Global};
use zst_map::{
    AnswerSet, AuthLookup, LookupOptions, LookupRecords, Name, NameKey, RecordSet, RecordType,
    ZoneSets, push,
};

/// The set of NSEC or NSEC3 of a name, or else of the owner before it; where no owner is before it, of the last one.
pub(crate) fn set_before<'z>(
    alloc: Global,
    sets: &'z ZoneSets,
    name: &Name,
    record_type: RecordType,
) -> Result<Option<&'z RecordSet>, AllocError>
    requires { is_denial_type record_type ≡ true }
    ensures { IfOk result (λ set. FindsPreceding sets.now record_type name.now (option_copied set)) }
{
    let key = NameKey::of(alloc, name)?;
    Ok(sets.preceding(&key, record_type))
}

/// These sets as an answer, each owner's once.
pub(crate) fn show<'z>(
    alloc: Global,
    options: LookupOptions,
    first: Option<&'z RecordSet>,
    second: Option<&'z RecordSet>,
    third: Option<&'z RecordSet>,
) -> Result<AuthLookup<'z>, AllocError>
    ensures { IfOk result (ShowsDenial
        (λ sets. sets ≡ each_owner_once (listed (option_copied first.entry) ++ listed (option_copied second.entry) ++ listed (option_copied third.entry)))
        options.dnssec_ok) }
{
    let mut shown = Vec::with_capacity(alloc, 3)?;
    list(&mut shown, first)?;
    list(&mut shown, unless_same(first, second))?;
    list(&mut shown, unless_same(first, unless_same(second, third)))?;
    let answers = LookupRecords::many(options, shown);
    Ok(AuthLookup::answers(answers, None))
}

/// One set as an answer. It takes no memory.
pub(crate) fn show_one<'z>(options: LookupOptions, set: &'z RecordSet) -> AuthLookup<'z>
    ensures { ShowsDenial (λ sets. sets ≡ listed (Some set.now)) options.dnssec_ok result }
{
    let answers = LookupRecords::new(options, AnswerSet::own(set));
    AuthLookup::answers(answers, None)
}

// The second set, unless the first has the same owner.
fn unless_same<'z>(
    first: Option<&'z RecordSet>,
    second: Option<&'z RecordSet>,
) -> Option<&'z RecordSet>
    ensures { option_copied result ≡ unless_same (option_copied first.entry) (option_copied second.entry) }
{
    match (first, second) {
        (Some(before), Some(set)) if before.name() == set.name() => None,
        _ => second,
    }
}

// Appends a set, if there is one.
fn list<'z>(shown: &mut Vec<AnswerSet<'z>>, set: Option<&'z RecordSet>) -> Result<(), AllocError>
    ensures { OnOk result (map set_in shown.new.items ≡ map set_in shown.old.items ++ listed (option_copied set.entry)) }
{
    match set {
        Some(set) => push(shown, AnswerSet::own(set)),
        None => Ok(()),
    }
}
