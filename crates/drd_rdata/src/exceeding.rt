//! RDATA with more octets, names uncompressed, than RDLENGTH counts (RFC 1035 3.2.1).
ghost use Rattle.std.specs.Prelude.{◌≡◌, ◌↔◌, ◌+◌, ◌<◌, IsTrue, MatchOption, length, map};
ghost use Rattle.std.specs.List.{flat_map};
ghost use Rattle.drd_types.specs.drd_fields.Seen.{seen};
ghost use Rattle.drd_types.specs.drd_fields.Writing.{field_octets, fields_octets, string_octets};
ghost use Rattle.drd_types.specs.drd_opt.Entries.{entries_octets, raw_octets, raw_of};
ghost use Rattle.drd_types.specs.drd_opt.Options.{option_octets};
ghost use Rattle.drd_svcb.specs.Fields.{svcb_fields};
ghost use Rattle.drd_svcb.specs.drd_params.Params.{param_octets, params_octets};
ghost use Rattle.drd_svcb.specs.dnw_name.DomainName.{name_octets};
ghost use Rattle.drd_rdata.specs.Exceeding.{ExceedsRdlength};
ghost use Rattle.drd_rdata.specs.Order.{compared_fields};

use crate::rdata::RData;
use drd_svcb::{SVCB, SvcParamKey, SvcParamValue};
use drd_types::{EdnsCode, EdnsOption, FieldRef, Name};

/// Whether the RDATA have more than 65,535 octets, names uncompressed: then they are never written. It takes no memory.
pub fn exceeds_rdlength(rdata: &RData) -> bool
    ensures { IsTrue result ↔ ExceedsRdlength rdata.now }
{
    match rdata {
        RData::A(_)
        | RData::AAAA(_)
        | RData::ANAME(_)
        | RData::CNAME(_)
        | RData::CSYNC(_)
        | RData::MX(_)
        | RData::NS(_)
        | RData::PTR(_)
        | RData::SOA(_)
        | RData::SRV(_) => false,
        RData::HTTPS(https) => room_after_service(&https.0).is_none(),
        RData::OPT(opt) => room_after_options(opt.as_ref(), u16::MAX).is_none(),
        RData::SVCB(svcb) => room_after_service(svcb).is_none(),
        _ => fields_exceed(rdata),
    }
}

// The same of RDATA whose fields can be borrowed.
fn fields_exceed(rdata: &RData) -> bool
    ensures { IsTrue result ↔ (65535 < length (fields_octets (compared_fields rdata.now))) }
{
    room_after_fields(rdata.fields().as_slice(), u16::MAX).is_none()
}

// The room left after `octets`, if they fit.
fn room_after(octets: usize, room: u16) -> Option<u16>
    ensures { MatchOption result (room < octets) (λ left. left + octets ≡ room) }
{
    match u16::try_from(octets) {
        Ok(octets) => room.checked_sub(octets),
        Err(_) => None,
    }
}

// The room left after an uncompressed name.
fn room_after_name(name: &Name, room: u16) -> Option<u16>
    ensures { MatchOption result (room < length (name_octets name.now)) (λ left. left + length (name_octets name.now) ≡ room) }
{
    room_after(name.as_octets().len() + 1, room)
}

// The room left after a character string and its length octet.
fn room_after_string(string: &[u8], room: u16) -> Option<u16>
    ensures { MatchOption result (room < length (string_octets string.now)) (λ left. left + length (string_octets string.now) ≡ room) }
{
    room_after(string.len(), room.checked_sub(1)?)
}

// The room left after character strings.
#[tactic(auto, using(crate::proofs::RoomLaws::leads_end, crate::proofs::RoomLaws::leads_none))]
fn room_after_strings(strings: &[Vec<u8>], room: u16) -> Option<u16>
    ensures { MatchOption result (room < length (flat_map string_octets (map (λ s. s.items) strings.now)))
        (λ left. left + length (flat_map string_octets (map (λ s. s.items) strings.now)) ≡ room) }
{
    let mut left = room;
    let mut rest = strings;
    'strings: while let Some((first, later)) = rest.split_first() {
        left = room_after_string(first, left)?;
        rest = later;
    }
    Some(left)
}

// The room left after a field.
fn room_after_field(field: FieldRef<'_>, room: u16) -> Option<u16>
    ensures { MatchOption result (room < length (field_octets (seen field.entry))) (λ left. left + length (field_octets (seen field.entry)) ≡ room) }
{
    match field {
        FieldRef::U8(_) => room.checked_sub(1),
        FieldRef::U16(_) => room.checked_sub(2),
        FieldRef::U32(_) => room.checked_sub(4),
        FieldRef::Name(name) => room_after_name(name, room),
        FieldRef::String(string) => room_after_string(string, room),
        FieldRef::Strings(strings) => room_after_strings(strings, room),
        FieldRef::Octets(octets) => room_after(octets.len(), room),
    }
}

// The room left after fields. A recursion, since there are eight at most.
fn room_after_fields(fields: &[FieldRef<'_>], room: u16) -> Option<u16>
    ensures { MatchOption result (room < length (fields_octets (map seen fields.entry.now)))
        (λ left. left + length (fields_octets (map seen fields.entry.now)) ≡ room) }
{
    match fields.split_first() {
        None => Some(room),
        Some((first, later)) => room_after_fields(later, room_after_field(*first, room)?),
    }
}

// The room left after a value of this length, its code and its length.
fn room_after_value(octets: Option<u16>, room: u16) -> Option<u16>
    ensures { MatchOption octets (MatchOption result (Unit {0}) (λ left. ⊥))
        (λ n. MatchOption result (room < 4 + n) (λ left. left + (4 + n) ≡ room)) }
{
    room.checked_sub(4)?.checked_sub(octets?)
}

// The room left after EDNS options.
#[tactic(auto, using(crate::proofs::RoomLaws::leads_end, crate::proofs::RoomLaws::leads_none))]
fn room_after_options(entries: &[(EdnsCode, EdnsOption)], room: u16) -> Option<u16>
    ensures { MatchOption result (room < length (entries_octets entries.now)) (λ left. left + length (entries_octets entries.now) ≡ room) }
{
    let mut left = room;
    let mut rest = entries;
    'entries: while let Some((entry, later)) = rest.split_first() {
        left = room_after_option(entry, left)?;
        rest = later;
    }
    Some(left)
}

// The room left after an option, its code and its length.
fn room_after_option(entry: &(EdnsCode, EdnsOption), room: u16) -> Option<u16>
    ensures { MatchOption result (room < length (raw_octets (raw_of entry.now))) (λ left. left + length (raw_octets (raw_of entry.now)) ≡ room) }
{
    room_after_value(option_len(&entry.1), room)
}

// The length of an option, if 16 bits count it.
fn option_len(option: &EdnsOption) -> Option<u16>
    ensures { MatchOption result (65535 < length (option_octets option.now)) (λ n. n ≡ length (option_octets option.now)) }
{
    if option.is_countable() {
        Some(option.len())
    } else {
        None
    }
}

// The room left after the parameters of a service.
#[tactic(auto, using(crate::proofs::RoomLaws::leads_end, crate::proofs::RoomLaws::leads_none))]
fn room_after_params(params: &[(SvcParamKey, SvcParamValue)], room: u16) -> Option<u16>
    ensures { MatchOption result (room < length (params_octets params.now)) (λ left. left + length (params_octets params.now) ≡ room) }
{
    let mut left = room;
    let mut rest = params;
    'params: while let Some((param, later)) = rest.split_first() {
        left = room_after_param(param, left)?;
        rest = later;
    }
    Some(left)
}

// The room left after a parameter, its key and its length.
fn room_after_param(param: &(SvcParamKey, SvcParamValue), room: u16) -> Option<u16>
    ensures { MatchOption result (room < length (param_octets param.now)) (λ left. left + length (param_octets param.now) ≡ room) }
{
    room_after_value(param.1.octet_len(), room)
}

// The room that RDLENGTH leaves after a service.
fn room_after_service(svcb: &SVCB) -> Option<u16>
    ensures { MatchOption result (65535 < length (fields_octets (svcb_fields svcb.now)))
        (λ left. left + length (fields_octets (svcb_fields svcb.now)) ≡ 65535) }
{
    room_after_params(
        &svcb.svc_params,
        room_after_name(&svcb.target_name, u16::MAX - 2)?,
    )
}
