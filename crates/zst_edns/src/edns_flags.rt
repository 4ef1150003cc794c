//! The flags of an OPT record (RFC 6891 6.1.4).
ghost use Rattle.std.specs.Prelude.{◌≡◌, ◌<◌, ◌^◌};

/// The flags of an OPT record: DO, and fifteen bits without a meaning (RFC 6891 6.1.4).
#[derive(Clone, Copy, Debug, PartialEq, Eq, Default)]
pub struct EdnsFlags {
    /// DO: records of DNSSEC are welcome (RFC 3225 3).
    pub dnssec_ok: bool,
    /// The other fifteen bits, which senders leave 0. A sixteenth is not written.
    pub z: u16,
}

impl From<u16> for EdnsFlags {
    ghost use Rattle.zst_edns.specs.Flags.{flags_of, flags_number};

    ghost from_gives = { λ number flags. (flags ≡ flags_of number) × (flags_number flags ≡ number) };

    fn from(number: u16) -> EdnsFlags {
        EdnsFlags {
            dnssec_ok: number >= 32768,
            z: number % 32768,
        }
    }
}

impl From<EdnsFlags> for u16 {
    ghost use Rattle.zst_edns.specs.Flags.{flags_of, flags_number};

    ghost from_gives = { λ flags number. (number ≡ flags_number flags) × (flags.z < 2 ^ 15 → flags_of number ≡ flags) };

    fn from(flags: EdnsFlags) -> u16 {
        32768 * u16::from(flags.dnssec_ok) + flags.z % 32768
    }
}
