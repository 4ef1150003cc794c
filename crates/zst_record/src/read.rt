//! Records that are read (RFC 1035 section 4.1.3).

ghost use Rattle.std.specs.Prelude.{◌≡◌, ◌+◌, ◌≤◌, ◌⊎◌, ℕ, length, IfOk, IfErr};
ghost use Rattle.drd_rdata.specs.dnw_decoder.Reading.{IsCut, IsWantOfMemory};
ghost use Rattle.drd_rdata.specs.dnw_decoder.Spelling.{NameAt};
ghost use Rattle.drd_rdata.specs.dnw_name.DomainName.{DomainName};
ghost use Rattle.zst_record.specs.declared.read.Head.{Head as Numbers};
ghost use Rattle.zst_record.specs.declared.records.Record.{Record as Entry};
ghost use Rattle.zst_record.specs.Reading.{HeadAt, RefusesBehind, RefusesRecordAt};
ghost use Rattle.zst_record.specs.Records.{RecordAt, record_with};

use crate::records::Record;
use dnw_codes::{DNSClass, DecodeError, RecordType, Restrict};
use drd_rdata::{BinDecodable, BinDecoder, Name, RData};
use std::alloc::Global;

// What stands between owner and data.
#[derive(Clone, Copy)]
pub(crate) struct Head {
    record_type: RecordType,
    dns_class: DNSClass,
    ttl: u32,
    len: u16,
}

// The head at the decoder's index, which moves behind it.
fn read_head(alloc: Global, decoder: &mut BinDecoder<'_>) -> Result<Head, DecodeError>
    ensures ok { IfOk result (HeadAt decoder.old.octets decoder.old.index) }
    ensures end { IfOk result (λ head. decoder.new.index ≡ decoder.old.index + 10) }
    ensures same { decoder.new.octets ≡ decoder.old.octets }
    ensures within { decoder.new.index ≤ length decoder.new.octets }
    ensures cut { IfErr result (IsCut 10 decoder.old.octets decoder.old.index) }
{
    let record_type = RecordType::read(alloc, decoder)?;
    let dns_class = DNSClass::read(alloc, decoder)?;
    let ttl = decoder.read_u32()?.unverified();
    let len = decoder.read_u16()?.unverified();
    Ok(Head {
        record_type,
        dns_class,
        ttl,
        len,
    })
}

// What stands behind an owner: class, time to live and data. On an error the decoder is where reading stopped.
fn read_behind(
    alloc: Global,
    decoder: &mut BinDecoder<'_>,
) -> Result<(DNSClass, u32, RData), DecodeError>
    ensures ok { IfOk result (λ found. (place : ℕ) (owner : DomainName) → NameAt decoder.old.octets place owner decoder.old.index
        → RecordAt decoder.old.octets place (record_with owner found.0 found.1 found.2) decoder.new.index) }
    ensures same { decoder.new.octets ≡ decoder.old.octets }
    ensures forward { IfOk result (λ found. decoder.old.index ≤ decoder.new.index) }
    ensures within { decoder.new.index ≤ length decoder.new.octets }
    ensures refused { IfErr result (RefusesBehind decoder.old.octets decoder.old.index) }
    ensures none { IfErr result (λ e. IsWantOfMemory e ⊎ ((place : ℕ) (r : Entry) (end : ℕ)
        → NameAt decoder.old.octets place r.name decoder.old.index → RecordAt decoder.old.octets place r end → ⊥)) }
{
    let head = read_head(alloc, decoder)?;
    let rdata = RData::read(alloc, decoder, head.record_type, Restrict::new(head.len))?;
    Ok((head.dns_class, head.ttl, rdata))
}

// The record at the decoder's index. On an error the decoder is where reading stopped.
fn read_record(alloc: Global, decoder: &mut BinDecoder<'_>) -> Result<Record, DecodeError>
    ensures ok { IfOk result (λ r. RecordAt decoder.old.octets decoder.old.index r decoder.new.index) }
    ensures same { decoder.new.octets ≡ decoder.old.octets }
    ensures forward { IfOk result (λ r. decoder.old.index ≤ decoder.new.index) }
    ensures within { decoder.new.index ≤ length decoder.new.octets }
    ensures refused { IfErr result (RefusesRecordAt decoder.old.octets decoder.old.index) }
    ensures none { IfErr result (λ e. IsWantOfMemory e ⊎ ((r : Entry) (end : ℕ)
        → RecordAt decoder.old.octets decoder.old.index r end → ⊥)) }
{
    let name = Name::read(alloc, decoder)?;
    let (dns_class, ttl, rdata) = read_behind(alloc, decoder)?;
    Ok(Record {
        name,
        dns_class,
        ttl,
        rdata,
    })
}

impl BinDecodable for Record {
    ghost reads = { RecordAt };

    ghost refuses = { RefusesRecordAt };

    /// The record at the decoder's index, which moves behind it: its owner, its type, its class, its time to live, and
    /// data of as many octets as it counts, read by the type. Without octets they are `Update0`, of OPT no options.
    fn read(alloc: Global, decoder: &mut BinDecoder<'_>) -> Result<Record, DecodeError> {
        let start = decoder.index();
        match read_record(alloc, decoder) {
            Ok(record) => Ok(record),
            Err(refused) => {
                decoder.set_index(start);
                Err(refused)
            }
        }
    }
}
