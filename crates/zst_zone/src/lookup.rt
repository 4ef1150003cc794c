//! What the sets of a zone answer to a name and a type (RFC 1034 section 4.3.2).

ghost use Rattle.std.specs.Prelude.{◌≡◌, false, None, Some, IfOk, option_copied};
ghost use Rattle.zst_circle.specs.zst_handler.Answers.{ShowsAnswer};
ghost use Rattle.zst_circle.specs.zst_handler.Chains.{first_target, leads};
ghost use Rattle.zst_circle.specs.zst_handler.Found.{found, is_address};
ghost use Rattle.zst_circle.specs.zst_handler.Lookups.{alias_answer, alias_ttl, behind_alias, has_additionals, is_flattened};
ghost use Rattle.zst_circle.specs.zst_map.Searches.{match_set};
ghost use Rattle.zst_zone.specs.Answering.{AnswersAll, AnswersSet, IsBehind};

use crate::additional::additionals;
use crate::chain::{alias_chain, first_target, leads};
use std::alloc::{AllocError, Global};
use zst_circle::{
    AnswerSet, AuthLookup, LookupOptions, LookupRecords, Match, Name, NameKey, RecordSet,
    RecordType, ZoneSets,
};

/// All sets of a name, if there is one.
pub(crate) fn all_of(
    alloc: Global,
    sets: &[RecordSet],
    options: LookupOptions,
) -> Result<Option<AuthLookup<'_>>, AllocError>
    ensures { IfOk result (AnswersAll options sets.now) }
{
    if sets.is_empty() {
        return Ok(None);
    }
    let mut lent = Vec::with_capacity(alloc, sets.len())?;
    for set in sets {
        lent.push_reserved(AnswerSet::own(set));
    }
    Ok(Some(AuthLookup::Records {
        answers: LookupRecords::many(options, lent),
        additionals: None,
    }))
}

/// What a set answers that was found first, leads nowhere and takes nothing with it.
pub(crate) fn answer_alone<'z>(
    sets: &'z ZoneSets,
    alloc: Global,
    name: &Name,
    record_type: RecordType,
    options: LookupOptions,
    first: Match<'z>,
) -> Result<AuthLookup<'z>, AllocError>
    requires found { found sets.now name.now record_type ≡ Some (match_set name.now first) }
    requires kept { is_flattened record_type first.set.now ≡ false }
    requires leads { leads record_type first.set.now ≡ None }
    requires alone { has_additionals first.set.now.record_type ≡ false }
    ensures { IfOk result (AnswersSet options sets.now name.now record_type (match_set name.now first.entry)) }
{
    let answers = LookupRecords::new(options, first.answer(alloc, name)?);
    Ok(AuthLookup::Records {
        answers,
        additionals: None,
    })
}

/// What the set that was found first answers: its alias chain, and the additional data.
pub(crate) fn answer_from<'z>(
    sets: &'z ZoneSets,
    alloc: Global,
    name: &Name,
    record_type: RecordType,
    options: LookupOptions,
    first: Match<'z>,
) -> Result<AuthLookup<'z>, AllocError>
    requires { found sets.now name.now record_type ≡ Some (match_set name.now first) }
    ensures { IfOk result (AnswersSet options sets.now name.now record_type (match_set name.now first.entry)) }
{
    if is_flattened(record_type, first.set) {
        return alias_lookup(sets, alloc, name, record_type, options, first);
    }
    if let Some(target) = leads(record_type, first.set) {
        let chain = alias_chain(sets, alloc, name, record_type, first, target)?;
        return Ok(AuthLookup::Records {
            answers: LookupRecords::many(options, chain),
            additionals: None,
        });
    }
    let answers = LookupRecords::new(options, first.answer(alloc, name)?);
    let additionals = additionals(sets, alloc, options, first.set)?;
    Ok(AuthLookup::Records {
        answers,
        additionals,
    })
}

// Whether an alias for addresses gives way to them.
fn is_flattened(record_type: RecordType, first: &RecordSet) -> bool
    ensures { result ≡ is_flattened record_type first.now }
{
    first.record_type() == RecordType::ANAME && is_address(record_type)
}

// Whether questions of a type are answered by an alias for addresses.
fn is_address(record_type: RecordType) -> bool
    ensures { result ≡ is_address record_type }
{
    record_type == RecordType::A || record_type == RecordType::AAAA
}

// What an alias for addresses answers: those behind it, and itself beside them; itself alone where there are none.
fn alias_lookup<'z>(
    sets: &'z ZoneSets,
    alloc: Global,
    name: &Name,
    record_type: RecordType,
    options: LookupOptions,
    alias: Match<'z>,
) -> Result<AuthLookup<'z>, AllocError>
    ensures { IfOk result (ShowsAnswer options
        (alias_answer name.now (match_set name.now alias.entry) (behind_alias sets.now record_type (first_target (match_set name.now alias.entry).records)))) }
{
    let Some(behind) = set_behind(sets, alloc, record_type, alias.set)? else {
        return Ok(AuthLookup::Records {
            answers: LookupRecords::new(options, alias.answer(alloc, name)?),
            additionals: None,
        });
    };
    let owner = name.to_lowercase()?;
    let flattened = AnswerSet::flattened(alloc, behind, owner, alias_ttl(alias.set))?;
    let answers = LookupRecords::new(options, flattened);
    let additionals = LookupRecords::new(options, alias.answer(alloc, name)?);
    Ok(AuthLookup::Records {
        answers,
        additionals: Some(additionals),
    })
}

// The time to live of an alias.
fn alias_ttl(alias: &RecordSet) -> u32
    ensures { result ≡ alias_ttl alias.now.records }
{
    match alias.as_slice().first() {
        Some(first) => first.ttl,
        None => 0,
    }
}

// The zone's set of a type that an alias for addresses leads to, whatever name it stands under.
fn set_behind<'z>(
    sets: &'z ZoneSets,
    alloc: Global,
    record_type: RecordType,
    alias: &'z RecordSet,
) -> Result<Option<&'z RecordSet>, AllocError>
    ensures { IfOk result (λ behind. IsBehind (behind_alias sets.now record_type (first_target alias.now.records)) (option_copied behind)) }
{
    let Some(target) = first_target(alias) else {
        return Ok(None);
    };
    let key = NameKey::of(alloc, target)?;
    match sets.search(&key, record_type)? {
        Some(found) if found.set.record_type() == record_type => Ok(Some(found.set)),
        _ => Ok(None),
    }
}
