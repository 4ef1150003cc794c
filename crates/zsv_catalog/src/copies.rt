//! Copies of records, for updates of messages that are lent.

ghost use Rattle.std.specs.Prelude.{IfOk};
ghost use Rattle.zsv_catalog.specs.Requests.{AreCopies, IsCopy};

use std::alloc::{AllocError, Global};
use std::mem;
use zsv_answer::Record;

// A copy of a record. No contract says what a copy of RDATA is, so it is compared with them, and can be served if the record
// can.
fn copy_of(record: &Record) -> Result<Record, AllocError>
    ensures { IfOk result (IsCopy record.now) }
{
    let name = record.name.clone()?;
    let Ok(rdata) = record.rdata.clone() else {
        mem::drop(name);
        return Err(AllocError);
    };
    if rdata != record.rdata {
        mem::drop(name);
        mem::drop(rdata);
        return Err(AllocError);
    }
    let mut copy = Record::from_rdata(name, record.ttl, rdata);
    copy.dns_class = record.dns_class;
    if record.is_servable() && !copy.is_servable() {
        mem::drop(copy);
        return Err(AllocError);
    }
    Ok(copy)
}

/// Copies of records, in their order.
pub(crate) fn copies(alloc: Global, records: &[Record]) -> Result<Vec<Record>, AllocError>
    ensures { IfOk result (λ copies. AreCopies records.now copies.items) }
{
    let mut copies = Vec::new(alloc);
    for record in records {
        copies.push(copy_of(record)?)?;
    }
    Ok(copies)
}
