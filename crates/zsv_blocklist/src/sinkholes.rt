//! The addresses that are answered in place of blocked names', as sets that an answer lends.

ghost use Rattle.std.specs.Prelude.{◌≡◌, IfOk};
ghost use Rattle.zst_request.specs.dnw_codes.RecordType.{same_record_type};
ghost use Rattle.zst_request.specs.dnw_codes.declared.dns_class.DNSClass.TheVariants.{IN};
ghost use Rattle.zst_request.specs.dnw_codes.declared.record_type.RecordType.TheVariants as kind;
ghost use Rattle.zst_request.specs.zst_record.Records.{record_with};
ghost use Rattle.zst_request.specs.zst_record.RecordSets.{set_of};
ghost use Rattle.zsv_blocklist.specs.Sinkholes.{of_type, sinkhole_ipv4, sinkhole_ipv6};

use crate::config::BlocklistConfig;
use std::alloc::{AllocError, Global};
use std::net::{Ipv4Addr, Ipv6Addr};
use zst_request::{Name, RData, Record, RecordSet, RecordType};

// An address of each kind, under the name of the list.
#[derive(Drop)]
pub(crate) struct Sinkholes {
    pub(crate) ipv4: RecordSet,
    pub(crate) ipv6: RecordSet,
}

impl Sinkholes {
    // Those of these settings.
    pub(crate) fn new(
        alloc: Global,
        origin: &Name,
        config: &BlocklistConfig,
    ) -> Result<Sinkholes, AllocError>
        ensures ipv4 { IfOk result (λ sets. sets.ipv4 ≡ set_of (record_with origin.now IN config.now.ttl (sinkhole_ipv4 config.now))) }
        ensures ipv6 { IfOk result (λ sets. sets.ipv6 ≡ set_of (record_with origin.now IN config.now.ttl (sinkhole_ipv6 config.now))) }
    {
        let owner = origin.clone()?;
        let ipv4 = config.sinkhole_ipv4.unwrap_or(Ipv4Addr::UNSPECIFIED);
        let ipv4 = Record::from_rdata(origin.clone()?, config.ttl, RData::from(ipv4));
        let ipv4 = RecordSet::from_record(alloc, ipv4);
        let ipv6 = config.sinkhole_ipv6.unwrap_or(Ipv6Addr::UNSPECIFIED);
        let ipv6 = Record::from_rdata(owner, config.ttl, RData::from(ipv6));
        let ipv6 = RecordSet::from_record(alloc, ipv6);
        Ok(Sinkholes { ipv4, ipv6 })
    }

    // That which is answered to a type: one of 128 bits where these are asked for.
    pub(crate) fn of(&self, record_type: RecordType) -> &RecordSet
        ensures { result.now ≡ of_type record_type self.now }
    {
        if record_type == RecordType::AAAA {
            &self.ipv6
        } else {
            &self.ipv4
        }
    }
}
