//! Records whose names are pointers as far as they can be.

ghost use Rattle.std.specs.Prelude.{◌≡◌, ◌+◌, ◌<◌, ◌^◌, ◌++◌, true, false, length, IfOk, MatchOption, OnOk, OnErr};
ghost use Rattle.std.specs.Net.Addr.{ipv4_bits};
ghost use Rattle.zst_record.specs.Lending.{seen};
ghost use Rattle.zst_record.specs.Writing.{head_numbers};
ghost use Rattle.zst_record.specs.dnw_decoder.Octets.{octets_16, octets_32};
ghost use Rattle.zst_record.specs.dnw_name.DomainName.{IsDomainName};
ghost use Rattle.zst_record.specs.drd_names.Fields.{soa_numbers};
ghost use Rattle.zst_record.specs.drd_rdata.Writing.{written_octets};
ghost use Rattle.drd_fields.specs.Writing.{fields_octets};
ghost use Rattle.zst_pointing.specs.Names.{PointsOwner, near_octets, spelling_octets};
ghost use Rattle.zst_pointing.specs.Pointing.{Points, PutsPointing, StartPoints};

use crate::names::{Spelling, own_octets, push};
use smallvec::SmallVec;
use std::alloc::AllocError;
use zst_record::{A, AAAA, Name, RData, RecordRef, SOA};

// The pointer to an owner, if it has labels and ends the name that is asked for.
#[inline(always)]
fn owner_pointer(asked: &Name, owner: &Name) -> Option<u16>
    ensures points { MatchOption result (PointsOwner asked.now owner.now → ⊥)
        (λ pointer. PointsOwner asked.now owner.now × (octets_16 pointer ≡ near_octets asked.now owner.now 0)) }
    ensures asked { IsDomainName asked.now }
    ensures owner { IsDomainName owner.now }
{
    let (labels, all) = (owner.as_octets(), asked.as_octets());
    if labels.is_empty() {
        return None;
    }
    if labels == all {
        return Some(0xC00C);
    }
    let spelling = Spelling::of(asked, owner)?;
    if spelling.own.is_empty() {
        spelling.pointer
    } else {
        None
    }
}

// Puts an address behind the pointer to its owner.
#[inline(always)]
fn push_address(
    record: &RecordRef<'_>,
    address: &A,
    owner: u16,
    octets: &mut SmallVec<u8, 64>,
) -> Result<(), AllocError>
    ensures ok { OnOk result ((record.now.ttl < 2 ^ 32) × (octets.new.items ≡ octets.old.items ++ (octets_16 owner
        ++ (head_numbers (seen record.now) ++ (octets_16 4 ++ octets_32 (ipv4_bits address.now.0)))))) }
    ensures err { OnErr result (octets.new ≡ octets.old) }
{
    let [o, p] = owner.to_be_bytes();
    let [a, b, c, d, e, f, g, h, i, j, k, l, m, n] = record.address_octets(address);
    octets.extend_from_slice(&[o, p, a, b, c, d, e, f, g, h, i, j, k, l, m, n])
}

// Puts an address of 128 bits behind the pointer to its owner.
#[inline(never)]
fn push_wide(
    record: &RecordRef<'_>,
    address: &AAAA,
    owner: u16,
    octets: &mut SmallVec<u8, 64>,
) -> Result<(), AllocError>
    ensures ok { OnOk result ((record.now.ttl < 2 ^ 32) × (octets.new.items ≡ octets.old.items ++ (octets_16 owner
        ++ (head_numbers (seen record.now) ++ (octets_16 16 ++ written_octets (RData.AAAA address.now)))))) }
    ensures err { OnErr result (octets.new ≡ octets.old) }
{
    octets.reserve(28)?;
    push(octets, &owner.to_be_bytes());
    push(octets, &record.wide_octets(address));
    Ok(())
}

// Puts the start of a zone behind the pointer to its owner, its names spelled so.
fn push_spelled(
    record: &RecordRef<'_>,
    soa: &SOA,
    owner: u16,
    mname: &Spelling<'_>,
    rname: &Spelling<'_>,
    octets: &mut SmallVec<u8, 64>,
) -> Result<(), AllocError>
    requires { length (spelling_octets mname.now) + length (spelling_octets rname.now) + 20 < 2 ^ 16 }
    ensures ok { OnOk result ((record.now.ttl < 2 ^ 32) × (octets.new.items ≡ octets.old.items ++ (octets_16 owner ++ (head_numbers (seen record.now)
        ++ (octets_16 (length (spelling_octets mname.now) + length (spelling_octets rname.now) + 20)
        ++ (spelling_octets mname.now ++ (spelling_octets rname.now ++ fields_octets (soa_numbers soa.now)))))))) }
    ensures err { OnErr result (octets.new ≡ octets.old) }
{
    let size = mname.len() + rname.len() + 20;
    octets.reserve(12 + size)?;
    let [o, p] = owner.to_be_bytes();
    let [a, b, c, d, e, f, g, h] = record.head_numbers();
    let [i, j] = (size as u16).to_be_bytes();
    push(octets, &[o, p, a, b, c, d, e, f, g, h, i, j]);
    mname.push(octets);
    rname.push(octets);
    push(octets, &soa.number_octets());
    Ok(())
}

// Puts the start of a zone behind the pointer to its owner, if its names are short enough, and share no more with each
// other than with the name that is asked for.
#[inline(never)]
fn push_start(
    asked: &Name,
    record: &RecordRef<'_>,
    soa: &SOA,
    owner: u16,
    octets: &mut SmallVec<u8, 64>,
) -> Result<bool, AllocError>
    requires data { record.now.rdata.now ≡ RData.SOA soa.now }
    requires points { PointsOwner asked.now record.now.name.now }
    requires owner { octets_16 owner ≡ near_octets asked.now record.now.name.now 0 }
    requires asked { IsDomainName asked.now }
    requires name { IsDomainName record.now.name.now }
    ensures put { IfOk result (λ put. put ≡ true → StartPoints asked.now soa.now × PutsPointing asked.now (seen record.now) octets.old.items octets.new.items) }
    ensures left { IfOk result (λ put. put ≡ false → (StartPoints asked.now soa.now → ⊥) × (octets.new ≡ octets.old)) }
    ensures err { OnErr result (octets.new ≡ octets.old) }
{
    let Some(mname) = Spelling::of(asked, &soa.mname) else {
        return Ok(false);
    };
    let Some(rname) = Spelling::of(asked, &soa.rname) else {
        return Ok(false);
    };
    if own_octets(&soa.rname, &soa.mname) < rname.own.len() {
        return Ok(false);
    }
    push_spelled(record, soa, owner, &mname, &rname, octets)?;
    Ok(true)
}

/// Puts a record behind other octets, if its owner has labels and ends the name that is asked for, spelled alike: an
/// address, or the start of a zone whose names are short and share no more with each other than with that name. What they
/// share with it is a pointer, for a message in which it stands in full behind the header. Of any other record nothing is
/// put, and false is answered.
#[inline]
pub fn push_pointing(
    asked: &Name,
    record: &RecordRef<'_>,
    octets: &mut SmallVec<u8, 64>,
) -> Result<bool, AllocError>
    ensures put { IfOk result (λ put. put ≡ true
        → Points asked.now (seen record.now) × PutsPointing asked.now (seen record.now) octets.old.items octets.new.items) }
    ensures left { IfOk result (λ put. put ≡ false → (Points asked.now (seen record.now) → ⊥) × (octets.new ≡ octets.old)) }
    ensures err { OnErr result (octets.new ≡ octets.old) }
{
    let Some(owner) = owner_pointer(asked, record.name) else {
        return Ok(false);
    };
    match record.rdata {
        RData::A(address) => push_address(record, address, owner, octets)?,
        RData::AAAA(address) => push_wide(record, address, owner, octets)?,
        RData::SOA(soa) => return push_start(asked, record, soa, owner, octets),
        _ => return Ok(false),
    }
    Ok(true)
}
