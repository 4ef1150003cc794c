//! Types in words.
ghost use Rattle.std.specs.Prelude.{IfOk};
ghost use Rattle.std.specs.Fmt.{WritesOnOk};
ghost use Rattle.drd_words.specs.RefusalsLaws.{by_part};
ghost use Rattle.drd_csync.specs.Texts.{AreTypeWords, IsSetOf, RefusesTypes, types_print};
ghost use Rattle.drd_csync.specs.TextsLaws.{types_causes};

use dnw_wire::{ParseError, RecordType, RecordTypeSet};
use drd_words::{Name, Words};
use std::alloc::{AllocError, Global};
use std::fmt;

/// The types that words write, each one of them.
#[derive(Drop)]
pub struct TypeWords(pub(crate) RecordTypeSet);

impl Words for TypeWords {
    ghost written = { λ words origin types. AreTypeWords types.0 words };

    ghost refuses = { λ words origin. RefusesTypes words };

    ghost laws = { λ words origin. by_part (λ types. types.0) (types_causes words) };

    fn from_words(
        alloc: Global,
        words: &[&str],
        _origin: Option<&Name>,
    ) -> Result<TypeWords, ParseError> {
        let mut types = Vec::new(alloc);
        'words: for word in words {
            let record_type: RecordType = match word.parse() {
                Ok(record_type) => record_type,
                Err(_) => return Err(ParseError::UnknownRecordType),
            };
            match types.push(record_type) {
                Ok(()) => {}
                Err(_) => return Err(ParseError::Memory(AllocError)),
            }
        }
        match set_of(alloc, &types) {
            Ok(set) => Ok(TypeWords(set)),
            Err(refused) => Err(ParseError::Memory(refused)),
        }
    }
}

// The set of some types.
fn set_of(alloc: Global, types: &[RecordType]) -> Result<RecordTypeSet, AllocError>
    ensures { IfOk result (IsSetOf types.now) }
{
    RecordTypeSet::new(alloc, types.iter().copied())
}

/// Writes the types by rising number, each behind a space.
pub(crate) fn fmt_types<W: fmt::Write>(
    f: &mut fmt::Formatter<W>,
    types: &RecordTypeSet,
) -> fmt::Result
    ensures { WritesOnOk W.write_str_gives f.old result (types_print types.now) f.new }
{
    'types: for record_type in types.iter() {
        write!(f, " {record_type}")?;
    }
    Ok(())
}
