//! The question of a message that asks one.

ghost use Rattle.std.specs.Prelude.{IfOk, IfErr};
ghost use Rattle.zsv_request.specs.Requests.{AsksOne, CountsQueries};

use zsv_message::{LookupError, Query};

// The question, where there is one; else how many there are.
pub(crate) fn one_query(queries: &[Query]) -> Result<&Query, LookupError>
    ensures one { IfOk result (λ query. AsksOne queries.now query.now) }
    ensures count { IfErr result (CountsQueries queries.now) }
{
    match queries {
        [query] => Ok(query),
        _ => Err(LookupError::BadQueryCount(queries.len())),
    }
}
