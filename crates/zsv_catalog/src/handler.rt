//! What answers requests.

ghost use Rattle.std.specs.Prelude.{◌≡◌, ℕ, List, IfErr, IfOk, OnErr};
ghost use Rattle.zsv_answer.specs.zsv_reply.zsv_message.zsv_parts.declared.header.Header.{Header};
ghost use Rattle.zsv_answer.specs.zsv_request.Requests.{Requested};
ghost use Rattle.zsv_catalog.specs.Sinks.{HandsOver};
ghost use Rattle.zsv_update.specs.declared.update.ServiceFault.{ServiceFault as Fault};

use crate::sink::ResponseHandler;
use zsv_answer::{Request, ResponseInfo};
use zsv_update::ServiceFault;

/// Answers requests. A contract sees which replies a request may get at a moment, each with its header as it was written, how a
/// request may be refused, and what either leaves of the handler.
pub trait RequestHandler {
    ghost replies: { Self → Requested → ℕ → Header → List ℕ → Self → Type 0 };

    ghost refuses: { Self → Requested → ℕ → Fault → Self → Type 0 };

    /// Answers a request: its reply is sent to a sink. The result is the header of the reply as it was written, or that of a
    /// failed server if the sink didn't take it. The moment is given in seconds since 1970.
    fn handle_request<R: ResponseHandler>(
        &mut self,
        request: &Request<'_>,
        now: u64,
        response_handle: &mut R,
    ) -> Result<ResponseInfo, ServiceFault>
        ensures replied { IfOk result (λ told. (reply : List ℕ) × (sent : Header)
            × replies self.old request.now now sent reply self.new
            × HandsOver (R.sink response_handle.old) reply sent request.now.message.metadata (R.sink response_handle.new) told) }
        ensures refused { IfErr result (λ fault. refuses self.old request.now now fault self.new) }
        ensures untouched { OnErr result (R.sink response_handle.new ≡ R.sink response_handle.old) };
}
