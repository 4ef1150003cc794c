//! Record data of names and numbers (RFC 1035 3.3, RFC 2782): CNAME, NS, PTR, ANAME, MX, SRV and SOA. Each is read exactly
//! where its fields stand, and what is written reads back.
#![tactic(auto)]

mod aname;
mod cname;
mod mx;
mod ns;
mod ptr;
mod soa;
mod srv;

pub use aname::ANAME;
pub use cname::CNAME;
pub use mx::MX;
pub use ns::NS;
pub use ptr::PTR;
pub use soa::SOA;
pub use srv::SRV;
