//! What the handlers of a chain answer in turn: the first that does, and those that are consulted then.

ghost use Rattle.std.specs.Prelude.{◌≡◌, false, None, IfOk, IsSomeAnd, map, slice_get};
ghost use Rattle.zst_request.specs.Handling.{AnswersQuestion, Consults, GivesWay};
ghost use Rattle.zst_request.specs.dnw_codes.RecordType.{same_record_type};
ghost use Rattle.zst_request.specs.dnw_codes.declared.record_type.RecordType.TheVariants.{AXFR};
ghost use Rattle.zst_request.specs.dnw_name.DomainName.{lowercase_name};
ghost use Rattle.zsv_answer.specs.Consulting.{ChainAnswers, FirstAnswers, Settles};
ghost use Rattle.zsv_answer.specs.Resolution.{enforced, enforced_by};

use std::alloc::{AllocError, Global};
use zst_request::{
    AuthLookup, LookupControlFlow, LookupError, LookupOptions, NameKey, ResponseCode, ZoneHandler,
    ZoneRequest,
};

// What one handler answers to a request, of whose name this is the key.
fn searched<'z, H: ZoneHandler>(
    handler: &'z H,
    alloc: Global,
    key: &NameKey,
    request: &ZoneRequest<'_>,
    options: LookupOptions,
) -> Result<LookupControlFlow<AuthLookup<'z>>, AllocError>
    requires { key.now ≡ lowercase_name request.now.name.now }
    ensures { IfOk result (AnswersQuestion (H.view handler.now) request.now.name.now request.now.query_type options) }
{
    let (flow, _context) = handler.search_at(alloc, key, request, options)?;
    Ok(flow)
}

// What one handler makes of the last result.
fn consulted_of<'z, H: ZoneHandler>(
    handler: &'z H,
    alloc: Global,
    request: &ZoneRequest<'_>,
    options: LookupOptions,
    last: LookupControlFlow<AuthLookup<'z>>,
) -> Result<LookupControlFlow<AuthLookup<'z>>, AllocError>
    ensures { IfOk result (Consults (H.view handler.now) request.now.name.now request.now.query_type last.entry) }
{
    let (flow, _context) = handler.consult(alloc, request.name, request.query_type, options, last)?;
    Ok(flow)
}

// What the first handler of a chain answers that does, and at which place it stands.
fn first_answer<'z, H: ZoneHandler>(
    handlers: &'z [H],
    alloc: Global,
    key: &NameKey,
    request: &ZoneRequest<'_>,
    options: LookupOptions,
) -> Result<Option<(usize, &'z H, LookupControlFlow<AuthLookup<'z>>)>, AllocError>
    requires { key.now ≡ lowercase_name request.now.name.now }
    ensures { IfOk result (FirstAnswers H.view handlers.now request.now.name.now request.now.query_type options) }
{
    'handlers: for (place, handler) in handlers.iter().enumerate() {
        match searched(handler, alloc, key, request, options)? {
            LookupControlFlow::Skip => {}
            flow => return Ok(Some((place, handler, flow))),
        }
    }
    Ok(None)
}

// What is left of an answer when all other handlers of the chain are consulted, each of the last result.
fn consulted<'z, H: ZoneHandler>(
    handlers: &'z [H],
    place: usize,
    alloc: Global,
    request: &ZoneRequest<'_>,
    options: LookupOptions,
    answer: LookupControlFlow<AuthLookup<'z>>,
) -> Result<LookupControlFlow<AuthLookup<'z>>, AllocError>
    requires { IsSomeAnd (slice_get handlers.now place) (λ handler. enforced_by (H.view handler) request.now.name.now request.now.query_type ≡ None) }
    ensures { IfOk result (GivesWay (enforced (map H.view handlers.now) request.now.name.now request.now.query_type) answer.entry) }
{
    let mut last = answer;
    'handlers: for (at, handler) in handlers.iter().enumerate() {
        if at != place {
            last = consulted_of(handler, alloc, request, options, last)?;
        }
    }
    Ok(last)
}

// What is left of a zone's answer: it stands where no other handler is there to be consulted.
fn settled<'z, H: ZoneHandler>(
    handlers: &'z [H],
    place: usize,
    alloc: Global,
    request: &ZoneRequest<'_>,
    options: LookupOptions,
    told: Result<AuthLookup<'z>, LookupError>,
) -> Result<Result<AuthLookup<'z>, LookupError>, AllocError>
    requires { IsSomeAnd (slice_get handlers.now place) (λ handler. enforced_by (H.view handler) request.now.name.now request.now.query_type ≡ None) }
    ensures { IfOk result (Settles (enforced (map H.view handlers.now) request.now.name.now request.now.query_type) told.entry) }
{
    if handlers.len() < 2 {
        return Ok(told);
    }
    let answer = LookupControlFlow::Continue(told);
    match consulted(handlers, place, alloc, request, options, answer)? {
        LookupControlFlow::Continue(told) | LookupControlFlow::Break(told) => Ok(told),
        LookupControlFlow::Skip => Ok(Err(LookupError::ResponseCode(ResponseCode::ServFail))),
    }
}

// What the handlers of a chain answer at last, and the one that answered.
pub(crate) fn answer_of<'z, H: ZoneHandler>(
    handlers: &'z [H],
    alloc: Global,
    key: &NameKey,
    request: &ZoneRequest<'_>,
    options: LookupOptions,
) -> Result<Option<(&'z H, Result<AuthLookup<'z>, LookupError>)>, AllocError>
    requires key { key.now ≡ lowercase_name request.now.name.now }
    requires kind { same_record_type request.now.query_type AXFR ≡ false }
    ensures { IfOk result (ChainAnswers H.view handlers.now request.now.name.now request.now.query_type options) }
{
    let Some((place, handler, flow)) = first_answer(handlers, alloc, key, request, options)? else {
        return Ok(None);
    };
    match flow {
        LookupControlFlow::Continue(told) => {
            let last = settled(handlers, place, alloc, request, options, told)?;
            Ok(Some((handler, last)))
        }
        LookupControlFlow::Break(told) => Ok(Some((handler, told))),
        LookupControlFlow::Skip => Ok(None),
    }
}
