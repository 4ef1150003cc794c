//! The options of replies (RFC 6891 section 6, RFC 5001).

ghost use Rattle.std.specs.List.{AllByRecursion};
ghost use Rattle.std.specs.Prelude.{◌≡◌, ◌≤◌, [], true, IfOk, IfSome, OnOk, length, option_copied, option_to_list};
ghost use Rattle.zsv_reply.specs.zsv_message.zst_edns.Writing.{EdnsReadsBack};
ghost use Rattle.zsv_update.specs.Options.{AnswersEdns, IsReplyEdns, asks_for_nsid, has_other_version, identifier, nsid_for};

use drd_types::{EdnsCode, EdnsOption, NSIDPayload};
use std::alloc::{AllocError, Global};
use zsv_reply::{Edns, ResponseCode};

/// Tests for EDNS of another version than 0, which alone is served.
pub fn has_other_version(edns: Option<&Edns>) -> bool
    ensures { result ≡ has_other_version (option_copied edns.entry) }
{
    match edns {
        Some(edns) => edns.version() > 0,
        None => false,
    }
}

// A copy of an NSID.
fn copy_of(alloc: Global, nsid: &NSIDPayload) -> Result<NSIDPayload, AllocError>
    ensures copy { IfOk result (λ copy. copy ≡ nsid.now) }
    ensures within { length nsid.now ≤ 65531 }
{
    match NSIDPayload::new(Vec::from_slice(alloc, nsid.as_ref())?) {
        Ok(copy) => Ok(copy),
        Err(_) => Err(AllocError),
    }
}

// Puts the server's NSID into the options of a reply, if it has one and is asked for it.
fn identify(
    alloc: Global,
    edns: &mut Edns,
    asked: &Edns,
    nsid: Option<&NSIDPayload>,
) -> Result<(), AllocError>
    requires { edns.old.options.options.items ≡ [] }
    ensures options { OnOk result (edns.new.options.options.items ≡ identifier asked.now (option_copied nsid.entry)) }
    ensures others { OnOk result (edns.new ≡ record edns.old { options = edns.new.options }) }
    ensures within { OnOk result (asks_for_nsid asked.now ≡ true → IfSome (option_copied nsid.entry) (λ payload. length payload ≤ 65531)) }
{
    let Some(payload) = nsid else {
        return Ok(());
    };
    if asked.option(EdnsCode::NSID).is_none() {
        return Ok(());
    }
    let copy = copy_of(alloc, payload)?;
    edns.options_mut().insert(EdnsOption::NSID(copy))
}

// The options of a reply: the upper bits of its code, DO and the payload of the request, and the server's NSID if it has one
// and is asked for it.
fn edns_of(
    alloc: Global,
    asked: &Edns,
    nsid: Option<&NSIDPayload>,
    response_code: ResponseCode,
) -> Result<Edns, AllocError>
    ensures answers { IfOk result (IsReplyEdns asked.now (option_copied nsid.entry) response_code) }
    ensures back { IfOk result EdnsReadsBack }
{
    let mut edns = Edns::new(alloc);
    edns.set_rcode_high(response_code.high());
    edns.set_dnssec_ok(asked.flags().dnssec_ok);
    edns.set_max_payload(asked.max_payload());
    identify(alloc, &mut edns, asked, nsid)?;
    Ok(edns)
}

/// The options of a reply, if the request has some. Replies to EDNS of another version have no NSID.
pub fn reply_edns(
    alloc: Global,
    asked: Option<&Edns>,
    nsid: Option<&NSIDPayload>,
    response_code: ResponseCode,
) -> Result<Option<Edns>, AllocError>
    ensures answers { IfOk result (AnswersEdns (option_copied asked.entry) (nsid_for (option_copied asked.entry) (option_copied nsid.entry)) response_code) }
    ensures back { IfOk result (λ edns. AllByRecursion EdnsReadsBack (option_to_list edns)) }
{
    let Some(asked) = asked else {
        return Ok(None);
    };
    let nsid = if asked.version() > 0 { None } else { nsid };
    Ok(Some(edns_of(alloc, asked, nsid, response_code)?))
}
