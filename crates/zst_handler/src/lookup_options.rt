//! What a lookup is asked for beside name and type.

ghost use Rattle.std.specs.Prelude.{◌≡◌, true, option_copied};
ghost use Rattle.zst_handler.specs.Answers.{shown};
ghost use Rattle.zst_handler.specs.Options.{asks_for_dnssec};

use zst_edns::Edns;
use zst_record::{RecordSet, RrsetRecords};

/// What a lookup is asked for beside name and type.
#[derive(Clone, Copy, Debug, PartialEq, Eq)]
pub struct LookupOptions {
    /// Whether signatures are asked for, by the flag DO (RFC 3225 section 3).
    pub dnssec_ok: bool,
}

impl LookupOptions {
    /// Signatures are asked for.
    pub fn for_dnssec() -> LookupOptions
        ensures { result.dnssec_ok ≡ true }
    {
        LookupOptions { dnssec_ok: true }
    }

    /// What a message asks for that has these EDNS, or none: signatures where DO is set (RFC 3225 section 3), and none
    /// without an OPT record.
    pub fn from_edns(edns: Option<&Edns>) -> LookupOptions
        ensures { result.dnssec_ok ≡ asks_for_dnssec (option_copied edns.entry) }
    {
        match edns {
            Some(edns) => LookupOptions {
                dnssec_ok: edns.flags().dnssec_ok,
            },
            None => LookupOptions { dnssec_ok: false },
        }
    }

    /// The records of a set, and behind them its signatures if these are asked for.
    pub fn rrset_with_rrigs<'r>(&self, record_set: &'r RecordSet) -> RrsetRecords<'r>
        ensures { result ≡ shown self.now.dnssec_ok record_set.now }
    {
        record_set.records(self.dnssec_ok)
    }
}
