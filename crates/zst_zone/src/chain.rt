//! Chains of aliases (RFC 1034 section 3.6.2).

ghost use Rattle.std.specs.Prelude.{◌≡◌, ℕ, ◌+◌, ◌<◌, Some, IfOk, OnOk, map, option_copied};
ghost use Rattle.std.specs.List.{list_any};
ghost use Rattle.zst_circle.specs.dnw_name.DomainName.{DomainName, name_eq};
ghost use Rattle.zst_circle.specs.zst_handler.Answers.{set_in};
ghost use Rattle.zst_circle.specs.zst_handler.Chains.{IsAliasChain, first_target, leads, target_of};
ghost use Rattle.zst_circle.specs.zst_handler.Found.{found};
ghost use Rattle.zst_circle.specs.zst_map.Searches.{match_set};
ghost use Rattle.zst_zone.specs.Answering.{LeadsOn, LeadsTo};

use std::alloc::{AllocError, Global};
use zst_circle::{AnswerSet, Match, Name, NameKey, RData, RecordSet, RecordType, ZoneSets, push};

/// How many sets an alias chain has at most.
const LONGEST_CHAIN: u8 = 8;

/// The target of data.
pub(crate) fn target_of(rdata: &RData) -> Option<&Name>
    ensures { option_copied result ≡ target_of rdata.now }
{
    match rdata {
        RData::CNAME(cname) => Some(&cname.0),
        RData::ANAME(aname) => Some(&aname.0),
        RData::NS(ns) => Some(&ns.0),
        RData::MX(mx) => Some(&mx.exchange),
        RData::SRV(srv) => Some(&srv.target),
        _ => None,
    }
}

/// The target of a set's first record.
pub(crate) fn first_target(set: &RecordSet) -> Option<&Name>
    ensures { option_copied result ≡ first_target set.now.records }
{
    let first = set.as_slice().first()?;
    target_of(&first.rdata)
}

/// Where a set leads that answers a type.
pub(crate) fn leads(record_type: RecordType, set: &RecordSet) -> Option<&Name>
    ensures { option_copied result ≡ leads record_type set.now }
{
    if set.record_type() == RecordType::CNAME && record_type != RecordType::CNAME {
        first_target(set)
    } else {
        None
    }
}

// Whether a name was asked.
fn was_asked(asked: &[NameKey], key: &NameKey) -> bool
    ensures { result ≡ list_any (name_eq key.now) asked.now }
{
    asked.iter().any(|before| key == before)
}

// One set more, found at the name to which the chain leads, and where it leads; none where nothing is found there, or where
// the name was asked.
fn link<'z>(
    sets: &'z ZoneSets,
    alloc: Global,
    record_type: RecordType,
    next: &Name,
    chain: &mut Vec<AnswerSet<'z>>,
    asked: &mut Vec<NameKey>,
) -> Result<Option<&'z Name>, AllocError>
    ensures { (name : DomainName) (n : ℕ) → n < 8
        → LeadsTo sets.now name record_type (map set_in chain.old.items) asked.old.items n next.now
        → IfOk result (λ target. LeadsOn sets.now name record_type (map set_in chain.new.items) asked.new.items (n + 1) (option_copied target)) }
{
    let key = NameKey::of(alloc, next)?;
    if was_asked(asked, &key) {
        return Ok(None);
    }
    let Some(found) = sets.search(&key, record_type)? else {
        return Ok(None);
    };
    push(chain, found.answer(alloc, next)?)?;
    asked.push(key)?;
    Ok(leads(record_type, found.set))
}

// The sets to which an alias leads, behind it.
fn follow<'z>(
    sets: &'z ZoneSets,
    alloc: Global,
    record_type: RecordType,
    target: &'z Name,
    chain: &mut Vec<AnswerSet<'z>>,
    asked: &mut Vec<NameKey>,
) -> Result<(), AllocError>
    ensures { (name : DomainName) → LeadsTo sets.now name record_type (map set_in chain.old.items) asked.old.items 1 target.now
        → OnOk result (IsAliasChain sets.now name record_type (map set_in chain.new.items)) }
{
    let mut next = target;
    'sets: for _ in 1..LONGEST_CHAIN {
        match link(sets, alloc, record_type, next, chain, asked)? {
            Some(target) => next = target,
            None => return Ok(()),
        }
    }
    Ok(())
}

/// The sets of the alias chain of a name and a type, of which the first is found and leads on. It takes eight sets at
/// most, and ends where nothing is found or at a name that was asked.
pub(crate) fn alias_chain<'z>(
    sets: &'z ZoneSets,
    alloc: Global,
    name: &Name,
    record_type: RecordType,
    first: Match<'z>,
    target: &'z Name,
) -> Result<Vec<AnswerSet<'z>>, AllocError>
    requires found { found sets.now name.now record_type ≡ Some (match_set name.now first) }
    requires leads { leads record_type first.set.now ≡ Some target.now }
    ensures { IfOk result (λ chain. IsAliasChain sets.now name.now record_type (map set_in chain.items)) }
{
    let mut asked = Vec::with_capacity(alloc, 8)?;
    asked.push(NameKey::of(alloc, name)?)?;
    let mut chain = Vec::with_capacity(alloc, 8)?;
    push(&mut chain, first.answer(alloc, name)?)?;
    follow(sets, alloc, record_type, target, &mut chain, &mut asked)?;
    Ok(chain)
}
