//! The numbers of record data fit the octets of their fields.

ghost use Rattle.std.specs.Prelude.{◌<◌, ◌^◌};
ghost use Rattle.drd_record_data.specs.Numbers.{NumbersFit};

use drd_rdata::RData;

// A number of two octets.
fn short(number: u16)
    ensures { number < 2 ^ 16 }
{
    let _ = number;
}

// A number of four octets.
fn long(number: u32)
    ensures { number < 2 ^ 32 }
{
    let _ = number;
}

/// Each number of these data fits the octets of its field, and the types of a CSYNC rise. To a contract a number that is
/// borrowed is any number until it is read; this reads them all and does nothing else.
pub fn numbers_fit(rdata: &RData)
    ensures { NumbersFit rdata.now }
{
    match rdata {
        RData::A(a) => long(u32::from(a.0)),
        RData::AAAA(aaaa) => {
            let _ = aaaa.0.segments();
        }
        RData::CERT(cert) => {
            short(u16::from(cert.cert_type));
            short(cert.key_tag);
        }
        RData::CSYNC(csync) => {
            long(csync.soa_serial);
            let _ = csync.type_bit_maps.is_empty();
        }
        RData::HTTPS(https) => short(https.0.svc_priority),
        RData::MX(mx) => short(mx.preference),
        RData::NAPTR(naptr) => {
            short(naptr.order);
            short(naptr.preference);
        }
        RData::SOA(soa) => {
            long(soa.serial);
            long(soa.refresh.cast_unsigned());
            long(soa.retry.cast_unsigned());
            long(soa.expire.cast_unsigned());
            long(soa.minimum);
        }
        RData::SRV(srv) => {
            short(srv.priority);
            short(srv.weight);
            short(srv.port);
        }
        RData::SVCB(svcb) => short(svcb.svc_priority),
        _ => {}
    }
}
