//! What a server asks of the records that it serves.

ghost use Rattle.std.specs.Prelude.{◌↔◌, IsTrue};
ghost use Rattle.authority_server.specs.zsv_catalog.zsv_answer.zsv_reply.zst_record.Records.{ReadsBackAlone};
ghost use Rattle.authority_transfer.specs.authority_load.zst_zone.zst_handler.Zones.{ZoneReadsBack};

use authority_server::Record;
use authority_transfer::InMemoryZoneHandler;

/// Whether a record reads back alone: its octets, names uncompressed, are read as itself, or its RDATA have more than 65,535.
/// A record that is served is no OPT, SIG or TSIG besides. It takes no memory.
pub fn record_reads_back(stored: &Record) -> bool
    ensures { IsTrue result ↔ ReadsBackAlone stored.now }
{
    stored.reads_back_alone()
}

/// Whether each record of a zone and each signature can be served: it reads back alone, and is no OPT, SIG or TSIG. It
/// takes no memory.
pub fn zone_reads_back<K>(zone: &InMemoryZoneHandler<K>) -> bool
    ensures { IsTrue result ↔ ZoneReadsBack zone.now.zone }
{
    zone.reads_back()
}
