//! Whether what a zone stores can be read by whom its replies reach.

ghost use Rattle.std.specs.Prelude.{◌↔◌, IsTrue};
ghost use Rattle.std.specs.List.{AllByRecursion};
ghost use Rattle.zst_circle.specs.zst_record.Records.{IsServable};
ghost use Rattle.zst_circle.specs.zst_handler.Zones.{SetReadsBack};

use zst_circle::{Record, RecordSet, ZoneSets};

/// Whether each record of the sets and each signature may be served.
pub(crate) fn all_read_back(sets: &ZoneSets) -> bool
    ensures { IsTrue result ↔ AllByRecursion SetReadsBack sets.now }
{
    for set in sets.iter() {
        if !set_reads_back(set) {
            return false;
        }
    }
    true
}

// Whether each record of a set and each signature may be served.
fn set_reads_back(set: &RecordSet) -> bool
    ensures { IsTrue result ↔ SetReadsBack set.now }
{
    records_read_back(set.as_slice()) && records_read_back(set.rrsigs())
}

// Whether each record may be served.
fn records_read_back(records: &[Record]) -> bool
    ensures { IsTrue result ↔ AllByRecursion IsServable records.now }
{
    for stored in records {
        if !stored.is_servable() {
            return false;
        }
    }
    true
}
