//! At most eight lent fields.
ghost use Rattle.std.specs.Prelude.{◌≡◌, ◌≤◌, length, map, take};
ghost use Rattle.drd_fields.specs.Seen.{seen};

use crate::field_ref::FieldRef;
use std::marker::Model;

/// The fields of some data, of which there are at most eight.
#[derive(Drop)]
pub struct Fields<'a> {
    list: [FieldRef<'a>; 8],
    len: usize,
}

impl<'a> Model for Fields<'a> {
    ghost use Rattle.std.specs.Prelude.{◌≤◌, List, map, take};
    ghost use Rattle.drd_fields.specs.Fields.{Field};
    ghost use Rattle.drd_fields.specs.Seen.{seen};

    ghost Value = { List Field };

    ghost view = { λ fields. map seen (take fields.len fields.list) };

    ghost invariant = { λ fields. fields.len ≤ 8 };
}

impl<'a> Fields<'a> {
    /// These fields.
    pub fn new(fields: &[FieldRef<'a>]) -> Fields<'a>
        requires { length fields.now ≤ 8 }
        ensures { result ≡ map seen fields.now }
    {
        let mut list = [FieldRef::U8(0); 8];
        let len = fields.len();
        list[..len].copy_from_slice(fields);
        Fields { list, len }
    }

    /// The fields as a slice.
    pub fn as_slice(&self) -> &[FieldRef<'a>]
        ensures { map seen result.now ≡ self.now }
    {
        &self.list[..self.len]
    }
}
