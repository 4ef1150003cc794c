//! The records that are answered in place of a blocked name's.

ghost use Rattle.std.specs.Prelude.{◌≡◌, ◌++◌, [], ◌∷◌, IfOk, OnOk};
ghost use Rattle.zst_request.specs.Blocking.{AreBlocked, sinkhole};
ghost use Rattle.zst_request.specs.dnw_name.DomainName.{lowercase_name};
ghost use Rattle.zsv_blocklist.specs.Answers.{PutsText, address_record, answer_of};

use crate::handler::BlocklistZoneHandler;
use drd_rdata::TXT;
use std::alloc::{AllocError, Global};
use std::net::{Ipv4Addr, Ipv6Addr};
use zst_request::{Name, RData, Record, RecordType};

impl BlocklistZoneHandler {
    // The address under the name in lower case, and behind it the message.
    pub(crate) fn records(
        &self,
        alloc: Global,
        name: &Name,
        record_type: RecordType,
    ) -> Result<Vec<Record>, AllocError>
        ensures { IfOk result (λ found. AreBlocked (answer_of self.now name.now record_type) found.items) }
    {
        let mut records = Vec::with_capacity(alloc, 2)?;
        self.push_address(&mut records, name, record_type)?;
        if let Some(message) = &self.config.block_message {
            self.push_message(alloc, &mut records, name, message)?;
        }
        Ok(records)
    }

    // Puts the address behind other records.
    fn push_address(
        &self,
        records: &mut Vec<Record>,
        name: &Name,
        record_type: RecordType,
    ) -> Result<(), AllocError>
        ensures { OnOk result (records.new.items ≡ records.old.items ++ address_record self.now name.now record_type ∷ []) }
    {
        let owner = name.to_lowercase()?;
        records.push(Record::from_rdata(owner, self.config.ttl, self.sinkhole(record_type)))?;
        Ok(())
    }

    // The address to which a blocked name leads.
    fn sinkhole(&self, record_type: RecordType) -> RData
        ensures { result ≡ sinkhole self.now record_type }
    {
        if record_type == RecordType::AAAA {
            return RData::from(self.config.sinkhole_ipv6.unwrap_or(Ipv6Addr::UNSPECIFIED));
        }
        RData::from(self.config.sinkhole_ipv4.unwrap_or(Ipv4Addr::UNSPECIFIED))
    }

    // Puts a message behind other records.
    fn push_message(
        &self,
        alloc: Global,
        records: &mut Vec<Record>,
        name: &Name,
        message: &str,
    ) -> Result<(), AllocError>
        ensures { OnOk result (PutsText (lowercase_name name.now) self.now.ttl message.now records.old.items records.new.items) }
    {
        let text = TXT::from_bytes(alloc, &[message.as_bytes()])?;
        records.push(Record::from_rdata(name.to_lowercase()?, self.config.ttl, RData::TXT(text)))?;
        Ok(())
    }
}
