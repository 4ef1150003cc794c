//! A zone from the reply of a server that transfers it.

ghost use Rattle.std.specs.Prelude.{◌≡◌, [], Bool, IfOk, MatchResult};
ghost use Rattle.authority_transfer.specs.Alike.{AnswersAlike, IsSameZone};
ghost use Rattle.authority_transfer.specs.Transfers.{TransferGives};
ghost use Rattle.authority_transfer.specs.TwoRoads.{TwoRoads};
ghost use Rattle.authority_transfer.specs.authority_load.Loaded.{IsLoaded};
ghost use Rattle.authority_transfer.specs.authority_load.zst_zone.zst_handler.Zones.{Zone, ZoneReadsBack, empty_zone};
ghost use Rattle.authority.specs.TwoRoads.{SendsZone};

use authority_transfer::{InMemoryZoneHandler, Name, TransferError, ZoneSettings};
use std::alloc::Global;

/// The zone that a reply to an AXFR question transfers.
///
/// The reply is a message without an error, whole and unsigned, whose answers begin and end with the same SOA of the origin.
/// All answers but the last join the zone in order, as the lines of a zone's text do: a repeated record is taken once, with the
/// later TTL; of the ANAME records of an owner the last is. What the question was isn't looked at, nor AA. No key signs the zone.
///
/// Of the unsigned, untruncated reply of an `Authority` that transferred a loaded zone, given its origin and settings, it makes a zone
/// that answers every question as that zone does (`two_roads`); so it does of the same records from any other server.
pub fn load_transfer<K>(
    alloc: Global,
    origin: Name,
    settings: ZoneSettings,
    reply: &[u8],
) -> Result<InMemoryZoneHandler<K>, TransferError>
    ensures answers { TransferGives (empty_zone origin settings) reply.now (λ handler. handler.zone) result }
    ensures settings { IfOk result (λ handler. handler.zone ≡ record (empty_zone origin settings) { sets = handler.zone.sets }) }
    ensures reads_back { IfOk result (λ handler. ZoneReadsBack handler.zone) }
    ensures loaded { IfOk result (λ handler. IsLoaded handler.zone) }
    ensures any_server { TwoRoads (empty_zone origin settings) reply.now (λ handler. handler.zone) result }
    ensures two_roads { (zone : Zone) (dnssec_ok : Bool) → IsLoaded zone → zone ≡ record (empty_zone origin settings) { sets = zone.sets }
        → SendsZone zone dnssec_ok reply.now
        → MatchResult result (λ made. IsSameZone zone made.zone × AnswersAlike zone made.zone) (λ e. e ≡ TransferError.OutOfMemory) }
    ensures keys { IfOk result (λ handler. handler.keys.items ≡ []) }
{
    authority_transfer::load_transfer(alloc, origin, settings, reply)
}
