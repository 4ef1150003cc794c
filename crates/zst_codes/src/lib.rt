//! Codes and verdicts of the zone store: response codes, what a lookup answers beside records, how a zone may be used,
//! and how it proves that a name is absent.
//!
//! `ResponseCode` is its number of twelve bits, of which a header holds four and an OPT record eight (`joined_code`).
//! `LookupControlFlow` says whether the handlers behind one are asked; `KeepsFlow` is what `map` and `map_err` leave of it.
#![tactic(auto)]

mod lookup_control_flow;
mod lookup_error;
mod nx_proof;
mod response_code;
mod salt;
mod settings;

pub use lookup_control_flow::LookupControlFlow;
pub use lookup_error::LookupError;
pub use nx_proof::{Nsec3HashAlgorithm, Nsec3QueryInfo, NxProofKind};
pub use response_code::ResponseCode;
pub use salt::{Salt, SaltLenError};
pub use settings::{AxfrPolicy, TsigVerdict, ZoneType};
