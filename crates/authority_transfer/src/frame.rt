//! The SOA that a transfer begins and ends with (RFC 5936 section 2.2).

ghost use Rattle.std.specs.Prelude.{◌≡◌, ◌∷◌, ◌++◌, [], ℕ, List, option_copied};
ghost use Rattle.authority_load.specs.zst_zone.zst_request.Transfers.{is_start};
ghost use Rattle.authority_transfer.specs.Transfers.{begins_with};

use zsv_message::{Name, Record, RecordType};

// Whether a record is an SOA of the origin.
fn is_start(origin: &Name, answer: &Record) -> bool
    ensures { result ≡ is_start origin.now answer.now }
{
    answer.record_type() == RecordType::SOA && *origin == answer.name
}

/// Whether the answers before the last one begin with an SOA of the origin to which the last one is equal.
pub fn begins_with(origin: &Name, first: Option<&Record>, last: &Record) -> bool
    ensures { result ≡ begins_with origin.now (option_copied first.entry) last.now }
{
    match first {
        Some(first) => is_start(origin, first) && *first == *last,
        None => false,
    }
}
