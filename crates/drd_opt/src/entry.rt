//! An option under its code.
ghost use Rattle.std.specs.Prelude.{◌≡◌, ◌≤◌, ◌⊎◌, length, IfErr, OnOk};
ghost use Rattle.std.specs.Fmt.{WritesOnOk};
ghost use Rattle.drd_fields.specs.dnw_encoder.Encoders.{state};
ghost use Rattle.drd_fields.specs.dnw_encoder.Effects.{Writes, WritesOctets, IsRefusal};
ghost use Rattle.drd_opt.specs.Options.{option_octets, IsLong};
ghost use Rattle.drd_opt.specs.Entries.{raw_of, raw_octets, entry_print};

use crate::code::EdnsCode;
use crate::option::EdnsOption;
use drd_fields::{BinEncodable, BinEncoder, ProtoError};
use std::fmt;

// Writes the code, the number of octets, and the octets.
pub(crate) fn emit_entry(
    encoder: &mut BinEncoder<'_>,
    entry: &(EdnsCode, EdnsOption),
) -> Result<(), ProtoError>
    ensures same_reference { encoder.new.buffer.ghost_name ≡ encoder.old.buffer.ghost_name }
    ensures writes { Writes (state encoder.old) (state encoder.new) }
    ensures ok { OnOk result (WritesOctets (raw_octets (raw_of entry.now)) (state encoder.old) (state encoder.new)) }
    ensures fits { OnOk result ((state encoder.new).offset ≤ (state encoder.old).maximum) }
    ensures few { OnOk result (length (option_octets entry.now.1) ≤ 65535) }
    ensures cause { IfErr result (λ e. IsRefusal (state encoder.old) (length (raw_octets (raw_of entry.now))) e
        ⊎ IsLong (option_octets entry.now.1) e) }
{
    let _start = encoder.offset();
    if !entry.1.is_countable() {
        return Err(ProtoError::Message("an option of more than 65,535 octets"));
    }
    let len = entry.1.len();
    match encoder.emit_u16(u16::from(entry.0)) {
        Ok(()) => {}
        Err(refused) => return Err(refused),
    }
    match encoder.emit_u16(len) {
        Ok(()) => {}
        Err(refused) => return Err(refused),
    }
    entry.1.emit(encoder)
}

// Writes the code in decimal, a colon, and the octets in hex.
pub(crate) fn fmt_entry<W: fmt::Write>(
    f: &mut fmt::Formatter<W>,
    entry: &(EdnsCode, EdnsOption),
) -> fmt::Result
    ensures { WritesOnOk W.write_str_gives f.old result (entry_print entry.now) f.new }
{
    let code = u16::from(entry.0);
    write!(f, "{code}:")?;
    fmt::Display::fmt(&entry.1, f)
}
