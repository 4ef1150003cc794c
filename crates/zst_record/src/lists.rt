//! Lists that grow by values with record data.

ghost use Rattle.std.specs.Prelude.{◌≡◌, ◌++◌, ◌∷◌, [], OnErr, OnOk};

use std::alloc::AllocError;

/// Puts a value behind others; where memory is wanting, the value is dropped.
// A refused `Vec::push` hands the value back. Dropped in a function that knows its type, it makes the function's proof go
// through all that record data may be.
#[inline(always)]
pub fn push<T: Drop>(values: &mut Vec<T>, value: T) -> Result<(), AllocError>
    ensures ok { OnOk result (values.new.items ≡ values.old.items ++ value ∷ []) }
    ensures err { OnErr result (values.new.items ≡ values.old.items) }
{
    match values.push(value) {
        Ok(()) => Ok(()),
        Err(_) => Err(AllocError),
    }
}
