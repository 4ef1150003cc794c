//! Records as they are written, for most questions.

ghost use Rattle.std.specs.Prelude.{◌≡◌, ◌<◌, ◌⊎◌, [], length, IfOk, MatchOption};
ghost use Rattle.std.specs.List.{AllByRecursion};
ghost use Rattle.zsv_answer.specs.zsv_reply.zst_pointing.Pointing.{ArePointing, Points};

use crate::records::ShownRecords;
use smallvec::SmallVec;
use std::alloc::AllocError;
use zsv_reply::{Name, push_pointing};

// How many records are written so at most.
const MOST: u16 = 100;

/// Writes records one behind the other, exactly where all of them can point to the name that is asked for, and they are not
/// more than 100: how many.
#[inline(always)]
pub(crate) fn write_records(
    asked: &Name,
    shown: ShownRecords<'_>,
    octets: &mut SmallVec<u8, 64>,
) -> Result<Option<u16>, AllocError>
    requires { octets.old.items ≡ [] }
    ensures { IfOk result (λ found. MatchOption found
        ((100 < length shown.entry) ⊎ (AllByRecursion (Points asked.now) shown.entry → ⊥))
        (λ count. (length shown.entry ≡ count) × ArePointing asked.now shown.entry octets.new.items)) }
{
    let mut left = shown;
    let mut count = 0;
    'records: while let Some(record) = left.next() {
        if count == MOST {
            return Ok(None);
        }
        if !push_pointing(asked, &record, octets)? {
            return Ok(None);
        }
        count += 1;
    }
    Ok(Some(count))
}
