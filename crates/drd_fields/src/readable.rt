//! Which fields can be read, as a test at run time.
ghost use Rattle.std.specs.Prelude.{◌↔◌, ◌<◌, IsTrue, length, map};
ghost use Rattle.std.specs.List.{All};
ghost use Rattle.drd_fields.specs.Writing.{field_octets, fields_octets};
ghost use Rattle.drd_fields.specs.Readable.{AreReadable, IsShort, StandAlone, StandsAlone};
ghost use Rattle.drd_fields.specs.Seen.{seen};

use crate::field_ref::FieldRef;

/// Whether fields can be read: in some message they stand, and take octets (RFC 1035 3.2.1). They do where all names end
/// at the root, all strings have at most 255 octets, and not all of the fields are empty.
pub fn are_readable(fields: &[FieldRef<'_>]) -> bool
    ensures { IsTrue result ↔ AreReadable (map seen fields.now) }
{
    stand_alone(fields) && take_octets(fields)
}

// Whether each field stands in some message.
fn stand_alone(fields: &[FieldRef<'_>]) -> bool
    ensures { IsTrue result ↔ StandAlone (map seen fields.entry.now) }
{
    match fields.split_first() {
        None => true,
        Some((first, later)) => stands_alone(*first) && stand_alone(later),
    }
}

// Whether some field has octets.
fn take_octets(fields: &[FieldRef<'_>]) -> bool
    ensures { IsTrue result ↔ (0 < length (fields_octets (map seen fields.entry.now))) }
{
    match fields.split_first() {
        None => false,
        Some((first, later)) => takes_octets(*first) || take_octets(later),
    }
}

// Whether a field stands in some message.
fn stands_alone(field: FieldRef<'_>) -> bool
    ensures { IsTrue result ↔ StandsAlone (seen field.entry) }
{
    match field {
        FieldRef::Name(name) => {
            // That its labels are those of a name is so of every name.
            let _labels = name.num_labels();
            name.is_fqdn()
        }
        FieldRef::String(string) => string.len() <= 255,
        FieldRef::Strings(strings) => are_short(strings),
        _ => true,
    }
}

// Whether a field has octets.
#[tactic(auto, using(crate::proofs::ReadableLaws::long_takes, crate::proofs::ReadableLaws::name_takes))]
fn takes_octets(field: FieldRef<'_>) -> bool
    ensures { IsTrue result ↔ (0 < length (field_octets (seen field.entry))) }
{
    match field {
        FieldRef::U8(_)
        | FieldRef::U16(_)
        | FieldRef::U32(_)
        | FieldRef::Name(_)
        | FieldRef::String(_) => true,
        FieldRef::Strings(strings) => !strings.is_empty(),
        FieldRef::Octets(octets) => !octets.is_empty(),
    }
}

// Whether an octet counts each of these strings.
fn are_short(strings: &[Vec<u8>]) -> bool
    ensures { IsTrue result ↔ All (λ s. IsShort s.items) strings.now }
{
    strings.iter().all(|string| string.len() <= 255)
}
