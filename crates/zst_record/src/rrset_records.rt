//! The records of a set, one after the other.

ghost use Rattle.std.specs.Prelude.{◌≡◌, ◌++◌};
ghost use Rattle.std.specs.Iterator.{YieldsFirstRef, item_count};

use crate::records::Record;
use std::marker::Model;

/// The records of a set, and behind them its signatures if these were asked for. A contract sees it as those that are left.
#[derive(Drop)]
pub struct RrsetRecords<'r> {
    records: &'r [Record],
    rrsigs: &'r [Record],
}

impl<'r> Model for RrsetRecords<'r> {
    ghost use Rattle.std.specs.Prelude.{List, ◌++◌};
    ghost use Rattle.zst_record.specs.declared.records.Record.{Record as Entry};

    ghost Value = { List Entry };

    ghost view = { λ iter. iter.records.now ++ iter.rrsigs.now };
}

impl<'r> RrsetRecords<'r> {
    /// Records, then signatures.
    pub fn new(records: &'r [Record], rrsigs: &'r [Record]) -> RrsetRecords<'r>
        ensures { result ≡ records.now ++ rrsigs.now }
    {
        RrsetRecords { records, rrsigs }
    }
}

impl<'r> Iterator for RrsetRecords<'r> {
    type Item = &'r Record;

    ghost next_gives = { YieldsFirstRef (λ records. records) };

    ghost remaining = { item_count (λ records. records) };

    fn next(&mut self) -> Option<&'r Record> {
        if self.records.is_empty() {
            let (rrsig, later) = self.rrsigs.split_first()?;
            self.rrsigs = later;
            return Some(rrsig);
        }
        let (first, later) = self.records.split_first()?;
        self.records = later;
        Some(first)
    }
}
