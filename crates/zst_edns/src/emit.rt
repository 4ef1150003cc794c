//! OPT records that are written (RFC 6891 6.1.2, 6.1.3).
ghost use Rattle.std.specs.Prelude.{◌≡◌, ◌+◌, ◌<◌, ◌≤◌, ◌^◌, length, MatchOption};
ghost use Rattle.drd_types.specs.drd_opt.Entries.{entries_octets};
ghost use Rattle.drd_types.specs.drd_opt.Options.{option_octets};
ghost use Rattle.zst_edns.specs.Writing.{EmitsEdns, FitsFields, RefusesEdns, opt_head, opt_octets};

use crate::edns::Edns;
use dnw_codes::ProtoError;
use drd_types::{BinEncodable, BinEncoder, EdnsOption, OPT};

// So many octets, and those of one option more behind its code and its length, if 16 bits count them.
fn with_option(len: u16, option: &EdnsOption) -> Option<u16>
    ensures { MatchOption result (2 ^ 16 ≤ len + (4 + length (option_octets option.now)))
        (λ more. more ≡ len + (4 + length (option_octets option.now))) }
{
    if !option.is_countable() {
        return None;
    }
    len.checked_add(4)?.checked_add(option.len())
}

// How many octets the options take, if 16 bits count them.
fn options_len(options: &OPT) -> Option<u16>
    ensures { MatchOption result (2 ^ 16 ≤ length (entries_octets options.now.options.items))
        (λ len. len ≡ length (entries_octets options.now.options.items)) }
{
    let mut len = 0;
    let mut left = options.as_ref();
    'options: while let Some((entry, later)) = left.split_first() {
        match with_option(len, &entry.1) {
            Some(more) => {
                len = more;
                left = later;
            }
            None => return None,
        }
    }
    Some(len)
}

impl Edns {
    // What stands before the options: the root, the type, the payload, the TTL, and how many octets they take.
    fn head(&self, len: u16) -> [u8; 11]
        ensures octets { result ≡ opt_head self.now len }
        ensures fits { FitsFields self.now }
    {
        let [payload, payload_low] = self.max_payload().to_be_bytes();
        let [highest, high, low, lowest] = self.ttl().to_be_bytes();
        let [len, len_low] = len.to_be_bytes();
        [
            0,
            0,
            41,
            payload,
            payload_low,
            highest,
            high,
            low,
            lowest,
            len,
            len_low,
        ]
    }
}

impl Edns {
    /// The octets of the record, exactly where it has no options.
    pub fn octets_alone(&self) -> Option<[u8; 11]>
        ensures { MatchOption result (0 < length self.now.options.options.items)
            (λ octets. (octets ≡ opt_octets self.now) × FitsFields self.now × (length self.now.options.options.items ≡ 0)) }
    {
        if self.options().as_ref().is_empty() {
            Some(self.head(0))
        } else {
            None
        }
    }
}

impl BinEncodable for Edns {
    ghost emits = { EmitsEdns };

    ghost refuses = { λ edns old e new. RefusesEdns edns old e };

    /// Writes the OPT record: the root, the type, the payload as class, the TTL, and the options behind the number of their
    /// octets. Refused are options of more than 65,535 octets.
    fn emit(&self, encoder: &mut BinEncoder<'_>) -> Result<(), ProtoError> {
        let Some(len) = options_len(self.options()) else {
            return Err(ProtoError::Message("options of more than 65,535 octets"));
        };
        encoder.emit_vec(&self.head(len))?;
        self.options().emit(encoder)
    }
}
