//! Who may ask a server: the networks that are allowed, and those that are denied.
//!
//! `is_allowed` says which addresses may ask, by the longest networks of both sides that hold them (RFC 4632 5.1);
//! `AccessControl::allow` is its test.
#![tactic(auto)]

mod access;
mod prefix_set;

pub use access::AccessControl;
pub use dnw_net::IpNet;
