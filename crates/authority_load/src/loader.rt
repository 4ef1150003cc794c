//! The lines of a zone's text, in order.

ghost use Rattle.std.specs.Prelude.{◌≡◌, [], IfErr, IfOk, OnOk};
ghost use Rattle.zst_zone.specs.zst_handler.Zones.{ZoneReadsBack, empty_zone};
ghost use Rattle.authority_load.specs.Loaded.{IsLoaded};
ghost use Rattle.authority_load.specs.ZoneText.{IsRefusedAt, IsZoneText, LineLoads, LoadAnswers};

use crate::joining::join;
use crate::line::{KeyedRecord, record_of};
use crate::words::is_skipped;
use std::alloc::Global;
use std::mem;
use thiserror::Error;
use zst_zone::{InMemoryZoneHandler, Name, StoredZone, ZoneSettings};

/// Why a line is refused. The numbers are stable; the causes are tested in their order, but for `TypeNotLoaded` and
/// `OutsideZone`, which come before `Data`. `OutOfMemory` hides no cause that is tested before the step that ran out.
#[derive(Clone, Copy, Debug, PartialEq, Eq)]
pub enum LoadCause {
    /// The line has fewer than four words.
    FieldCount = 1,
    /// The owner isn't a fully qualified name.
    Owner = 2,
    /// The TTL isn't a time of at most 2^32 - 1 seconds.
    Ttl = 3,
    /// The class is not IN.
    Class = 4,
    /// The type is neither a known name nor `TYPE` and a number of 16 bits.
    UnknownType = 5,
    /// The text isn't data of the type, or the type has no text.
    Data = 6,
    /// The owner is outside the zone.
    OutsideZone = 7,
    /// The type belongs to one message: OPT, SIG, TSIG.
    TypeNotLoaded = 8,
    /// The record's octets wouldn't decode to it: a relative name, a TXT without strings. RDATA of more than 65,535 octets,
    /// which are never written, may have any names.
    NotReadBack = 9,
    /// The owner of an alias would own another type too, or a second, different alias (RFC 1034 section 3.6.2).
    BesideCname = 10,
    /// The owner has an SOA.
    SecondSoa = 11,
    /// An allocation failed.
    OutOfMemory = 12,
}

/// Why a zone's text is refused, and at which line.
#[derive(Clone, Copy, Debug, PartialEq, Eq, Error)]
#[error("line {line}: {cause:?}")]
pub struct LoadError {
    /// The line's number, from 1.
    pub line: usize,
    /// The first cause that applies to it.
    pub cause: LoadCause,
}

/// The zone of a text.
///
/// Lines end at LF or CR LF. Empty lines, lines of spaces and tabs, and lines that begin with `;` are skipped. Every other
/// line is a record: owner, TTL, class and type, then the words of the data, quoted or not, perhaps in parentheses, up to a
/// comment. A TTL is in seconds or has units, as `1h30m`; class and type are in any case, and a type may be `TYPE` and its
/// number. A repeated record is taken once, with the later TTL; of the ANAME records of an owner the last is. No key signs the
/// zone.
pub fn load_zone<K>(
    alloc: Global,
    origin: Name,
    settings: ZoneSettings,
    text: &str,
) -> Result<InMemoryZoneHandler<K>, LoadError>
    ensures answers { LoadAnswers (empty_zone origin settings) text.now (λ handler. handler.zone) result }
    ensures settings { IfOk result (λ handler. handler.zone ≡ record (empty_zone origin settings) { sets = handler.zone.sets }) }
    ensures reads_back { IfOk result (λ handler. ZoneReadsBack handler.zone) }
    ensures loaded { IfOk result (λ handler. IsLoaded handler.zone) }
    ensures keys { IfOk result (λ handler. handler.keys.items ≡ []) }
{
    match load_stored(alloc, origin, settings, text) {
        Ok(zone) => Ok(InMemoryZoneHandler::of(alloc, zone)),
        Err(error) => Err(error),
    }
}

/// The zone of a text, without the keys that a handler of it has.
fn load_stored(
    alloc: Global,
    origin: Name,
    settings: ZoneSettings,
    text: &str,
) -> Result<StoredZone, LoadError>
    ensures answers { LoadAnswers (empty_zone origin settings) text.now (λ zone. zone) result }
    ensures settings { IfOk result (λ zone. zone ≡ record (empty_zone origin settings) { sets = zone.sets }) }
    ensures reads_back { IfOk result ZoneReadsBack }
    ensures loaded { IfOk result IsLoaded }
{
    let mut zone = match StoredZone::empty(alloc, origin, settings) {
        Ok(zone) => zone,
        Err(_) => return Err(LoadError {
            line: 1,
            cause: LoadCause::OutOfMemory,
        }),
    };
    match load_lines(alloc, &mut zone, text) {
        Ok(()) => {
            // (wakes the zone's invariant: its sets are in order, and none is empty)
            let _origin = zone.origin();
            Ok(zone)
        }
        Err(error) => {
            mem::drop(zone);
            Err(error)
        }
    }
}

/// Adds the records of the lines, up to the first line that is refused.
fn load_lines(alloc: Global, zone: &mut StoredZone, text: &str) -> Result<(), LoadError>
    ensures loads { OnOk result (IsZoneText zone.old text.now zone.new) }
    ensures refused { IfErr result (λ error. IsRefusedAt zone.old text.now error.line error.cause) }
{
    let mut number = 0usize;
    for line in text.lines() {
        number += 1;
        match load_line(alloc, zone, line) {
            Ok(()) => {}
            Err(cause) => return Err(LoadError {
                line: number,
                cause,
            }),
        }
    }
    Ok(())
}

/// Adds the record of a line, unless the line is skipped.
fn load_line(alloc: Global, zone: &mut StoredZone, line: &str) -> Result<(), LoadCause>
    ensures { LineLoads zone.old line.now zone.new result }
{
    if is_skipped(line.as_bytes()) {
        return Ok(());
    }
    let KeyedRecord { key, next } = record_of(alloc, zone, line)?;
    join(alloc, zone, key, next)
}
