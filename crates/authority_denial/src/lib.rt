//! What the octets of a reply prove: that a name is absent, or that a name has no set of a type (RFC 4034 section 4, RFC 4035
//! section 5.4).
//!
//! `check` and `check_type` are true exactly where the reply is a message that denies the name (`DeniesName`) or the type
//! (`DeniesType`): no zone is asked, and no signature verified.
#![tactic(auto)]

mod checking;
mod laws;

pub use checking::{check, check_type};
pub use laws::{denials_are_of_the_parts, equal_names_are_denied, whole_replies_deny};
