//! What was written reads back.
ghost use Rattle.std.specs.Prelude.{◌≡◌, ℕ, List, true};
ghost use Rattle.drd_fields.specs.dnw_decoder.Octets.{Stands};
ghost use Rattle.drd_opt.specs.Entries.{entries_octets};
ghost use Rattle.drd_opt.specs.Equality.{same_entries};
ghost use Rattle.drd_opt.specs.Reading.{EntriesAt, HoldsEntries};

use crate::opt::OPT;

/// Whether options that were read are equal to options that were written. Where the others had been read themselves, and
/// these were read from the octets that the others were written as, they are.
pub fn is_read_back(written: &OPT, read: &OPT) -> bool
    ensures value { result ≡ same_entries written.now.options.items read.now.options.items }
    ensures back { (source message : List ℕ) (place end : ℕ)
        → HoldsEntries source written.now.options.items
        → Stands message place (entries_octets written.now.options.items) end
        → EntriesAt message place read.now.options.items end
        → result ≡ true }
{
    written == read
}
