//! Record data of one type among those of all: lent, and made data of all types. And what octets say of record data: what
//! was written reads back, and is read in one way.
#![tactic(auto)]

mod back;
mod numbers;
mod record_data;

pub use back::is_read_back;
pub use numbers::numbers_fit;
pub use record_data::RecordData;
