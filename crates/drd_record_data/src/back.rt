//! What was written reads back.
ghost use Rattle.std.specs.Prelude.{◌≡◌, ℕ, List, true};
ghost use Rattle.drd_rdata.specs.dnw_codes.declared.record_type.RecordType.{RecordType as Kind};
ghost use Rattle.drd_rdata.specs.dnw_encoder.Effects.{Sound, StaysTrue};
ghost use Rattle.drd_rdata.specs.dnw_encoder.State.{State};
ghost use Rattle.drd_rdata.specs.Order.{rdata_eq};
ghost use Rattle.drd_rdata.specs.Reading.{HoldsAs};
ghost use Rattle.drd_rdata.specs.Writing.{EmitsRData};

use drd_rdata::RData;

/// Whether record data that were read are equal to data that were written. Where the others had been read for a type
/// themselves, and were then written, what is read for that type where they stand, in the finished message too, is equal
/// to them.
pub fn is_read_back(written: &RData, read: &RData) -> bool
    ensures value { result ≡ rdata_eq written.now read.now }
    ensures back { (record_type : Kind) (source : List ℕ) (start stop : ℕ) (old new : State)
        → HoldsAs record_type source start written.now stop
        → Sound old
        → EmitsRData written.now old new
        → StaysTrue new new.offset (λ message. HoldsAs record_type message old.offset read.now new.offset → result ≡ true) }
{
    *written == *read
}
