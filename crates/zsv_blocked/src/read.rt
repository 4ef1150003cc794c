//! A list's octets.
ghost use Rattle.std.specs.Prelude.{◌≡◌, ◌<◌, ◌^◌, length, true, false, IfOk, IfErr, OnOk, OnErr};
ghost use Rattle.std.specs.Io.KnownBytes.{Consumes, IsAtEnd};
ghost use Rattle.zsv_blocked.specs.Reading.{AddsRead, IsListFault, IsReadFault};

use crate::faults::ReadFaults;
use crate::names::BlockedNames;
use std::alloc::{AllocError, Global};
use std::io::Read;
use thiserror::Error;

/// Why a list of names is refused.
#[derive(Clone, Copy, Debug, PartialEq, Eq, Error)]
pub enum BlocklistError {
    /// The message that goes with an answer has more than 255 octets.
    #[error("MessageTooLong")]
    MessageTooLong = 1,
    /// The reader answered a fault, or gave more than 2^32 - 1 octets.
    #[error("Read")]
    Read = 2,
    /// The octets are no UTF-8.
    #[error("NotUtf8")]
    NotUtf8 = 3,
    /// Out of memory.
    #[error("OutOfMemory")]
    OutOfMemory = 4,
}

impl From<AllocError> for BlocklistError {
    ghost use Rattle.zsv_blocked.specs.declared.read.BlocklistError.TheVariants.{OutOfMemory};

    ghost from_gives = { λ e given. given ≡ OutOfMemory };

    fn from(_: AllocError) -> BlocklistError {
        BlocklistError::OutOfMemory
    }
}

// The greatest number of octets that a list may have.
const MOST: usize = 0xffff_ffff;

/// All octets that a reader gives, which are at most 2^32 - 1.
pub fn read_list<R: Read>(
    alloc: Global,
    reader: &mut R,
    faults: &mut ReadFaults,
) -> Result<Vec<u8>, BlocklistError>
    requires { faults.old.failed ≡ false }
    ensures read { IfOk result (λ octets. Consumes (R.remaining reader.old) (R.remaining reader.new) octets.items) }
    ensures whole { IfOk result (λ octets. IsAtEnd (R.remaining reader.new)) }
    ensures few { IfOk result (λ octets. length octets.items < 2 ^ 32) }
    ensures well { OnOk result (faults.new.failed ≡ false) }
    ensures ended { OnOk result (faults.new.ended ≡ true) }
    ensures given { IfOk result (λ octets. 0 < length octets.items → faults.new.given ≡ true) }
    ensures cause { IfErr result (IsReadFault faults.new (R.remaining reader.old) (R.remaining reader.new)) }
{
    let mut octets = Vec::new(alloc);
    let mut chunk = [0u8; 4096];
    'reading: loop {
        let Some(count) = faults.read(reader, &mut chunk) else {
            return Err(BlocklistError::Read);
        };
        if count == 0 {
            return Ok(octets);
        }
        if count > MOST - octets.len() {
            return Err(BlocklistError::Read);
        }
        if octets.extend_from_slice(&chunk[..count]).is_err() {
            return Err(BlocklistError::OutOfMemory);
        }
    }
}

/// Adds the names that the text of a list has on its lines. A refused list adds none.
pub fn add_list<R: Read>(
    alloc: Global,
    names: &mut BlockedNames,
    reader: &mut R,
    faults: &mut ReadFaults,
) -> Result<(), BlocklistError>
    requires { faults.old.failed ≡ false }
    ensures ok { OnOk result (AddsRead names.old (R.remaining reader.old) (R.remaining reader.new) names.new) }
    ensures err { OnErr result (names.new ≡ names.old) }
    ensures well { OnOk result (faults.new.failed ≡ false) }
    ensures ended { OnOk result (faults.new.ended ≡ true) }
    ensures cause { IfErr result (IsListFault faults.new (R.remaining reader.old) (R.remaining reader.new)) }
{
    let octets = read_list(alloc, reader, faults)?;
    if octets.is_empty() {
        return Ok(());
    }
    let Ok(text) = str::from_utf8(&octets) else {
        return Err(BlocklistError::NotUtf8);
    };
    names.add(alloc, text)?;
    Ok(())
}
