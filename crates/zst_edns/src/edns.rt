//! EDNS of a message (RFC 6891 6.1).
ghost use Rattle.std.specs.Prelude.{◌≡◌, ◌<◌, ◌≤◌, ◌^◌, [], max, option_map, slice_get};
ghost use Rattle.std.specs.Borrow.{sem};
ghost use Rattle.drd_types.specs.drd_opt.Entries.{options_of};

use crate::edns_flags::EdnsFlags;
use dnw_codes::DNSClass;
use drd_types::{EdnsCode, EdnsOption, OPT};
use std::alloc::{AllocError, Global};

/// What an OPT record says of a message and its sender: the eight bits above a header's response code, the version of
/// EDNS, the flags, how many octets the sender takes over UDP, and the options (RFC 6891 6.1.2, 6.1.3).
///
/// Two are equal where their fields are; options are compared in no order.
#[derive(Debug, Drop, PartialEq, Eq)]
pub struct Edns {
    rcode_high: u8,
    version: u8,
    flags: EdnsFlags,
    max_payload: u16,
    options: OPT,
    pub ghost least: { 512 ≤ max_payload },
}

impl Edns {
    ghost use Rattle.dnw_codes.specs.DNSClass.{class_number};
    ghost use Rattle.zst_edns.specs.Edns.{IsEdnsOf, KeepsAllButPayload, edns_ttl};
    ghost use Rattle.zst_edns.specs.Flags.{with_dnssec_ok};
    ghost use Rattle.zst_edns.specs.Lending.{LendsOptions};

    /// EDNS of version 0 without flags and options, for 512 octets over UDP.
    pub fn new(alloc: Global) -> Edns
        ensures fields { IsEdnsOf 512 0 result }
        ensures options { result.options.options.items ≡ [] }
    {
        Edns::from_fields(DNSClass::for_opt(512), 0, OPT::new(Vec::new(alloc)))
    }

    /// What the class, the TTL and the data of an OPT record say (RFC 6891 6.1.2, 6.1.3). A payload below 512 octets is
    /// taken as 512 (RFC 6891 6.2.3).
    pub fn from_fields(dns_class: DNSClass, ttl: u32, options: OPT) -> Edns
        ensures fields { IsEdnsOf (class_number dns_class) ttl result }
        ensures options { result.options ≡ options }
        ensures ttl { edns_ttl result ≡ ttl }
    {
        Edns {
            rcode_high: (ttl / 16_777_216) as u8,
            version: (ttl / 65_536 % 256) as u8,
            flags: EdnsFlags::from((ttl % 65_536) as u16),
            max_payload: u16::from(dns_class).max(512),
            options,
        }
    }

    /// The TTL of the OPT record: the eight bits of the response code, the version and the flags (RFC 6891 6.1.3).
    /// These fields are read of it again, where the flags have no sixteenth bit beside DO.
    pub fn ttl(&self) -> u32
        ensures value { result ≡ edns_ttl self.now }
        ensures back { self.now.flags.z < 2 ^ 15 → IsEdnsOf self.now.max_payload result self.now }
    {
        16_777_216 * u32::from(self.rcode_high())
            + 65_536 * u32::from(self.version())
            + u32::from(u16::from(self.flags))
    }

    /// The eight bits above the four of a header's response code (RFC 6891 6.1.3).
    pub fn rcode_high(&self) -> u8
        ensures { result ≡ self.now.rcode_high }
    {
        self.rcode_high
    }

    /// The version of EDNS (RFC 6891 6.1.3).
    pub fn version(&self) -> u8
        ensures { result ≡ self.now.version }
    {
        self.version
    }

    /// The flags (RFC 6891 6.1.4).
    pub fn flags(&self) -> &EdnsFlags
        ensures { result.now ≡ self.now.flags }
    {
        &self.flags
    }

    /// How many octets the sender takes over UDP, at least 512 (RFC 6891 6.2.3).
    pub fn max_payload(&self) -> u16
        ensures value { result ≡ self.now.max_payload }
        ensures least { 512 ≤ result }
    {
        self.max_payload
    }

    /// The first option under a code.
    pub fn option(&self, code: EdnsCode) -> Option<&EdnsOption>
        ensures { option_map (λ option. option.now) result ≡ slice_get (options_of code self.now.options.options.items) 0 }
    {
        self.options.get(code)
    }

    /// The options under their codes.
    pub fn options(&self) -> &OPT
        ensures { result.now ≡ self.now.options }
    {
        &self.options
    }

    /// The options under their codes, to be changed in place.
    pub fn options_mut(&mut self) -> &mut OPT
        ensures* writes_back { sem 𝓛 (LendsOptions self.entry result) }
        ensures value { result.now ≡ self.old.options }
    {
        &mut self.options
    }

    /// Sets the eight bits above the four of a header's response code.
    pub fn set_rcode_high(&mut self, rcode_high: u8) -> &mut Edns
        ensures same_reference { result.ghost_name ≡ self.entry.ghost_name }
        ensures value { result.now ≡ record self.old { rcode_high = rcode_high } }
    {
        self.rcode_high = rcode_high;
        self
    }

    /// Sets the version of EDNS.
    pub fn set_version(&mut self, version: u8) -> &mut Edns
        ensures same_reference { result.ghost_name ≡ self.entry.ghost_name }
        ensures value { result.now ≡ record self.old { version = version } }
    {
        self.version = version;
        self
    }

    /// Sets DO; the other flags stay.
    pub fn set_dnssec_ok(&mut self, dnssec_ok: bool) -> &mut Edns
        ensures same_reference { result.ghost_name ≡ self.entry.ghost_name }
        ensures value { result.now ≡ record self.old { flags = with_dnssec_ok self.old.flags dnssec_ok } }
    {
        self.flags.dnssec_ok = dnssec_ok;
        self
    }

    /// Sets how many octets the sender takes over UDP. Fewer than 512 are taken as 512 (RFC 6891 6.2.3).
    pub fn set_max_payload(&mut self, max_payload: u16) -> &mut Edns
        ensures same_reference { result.ghost_name ≡ self.entry.ghost_name }
        ensures value { result.now.max_payload ≡ max max_payload 512 }
        ensures others { KeepsAllButPayload self.old result.now }
    {
        self.max_payload = max_payload.max(512);
        self
    }
}

impl Clone for Edns {
    ghost use Rattle.zst_edns.specs.Edns.{KeepsAllButOptions};

    ghost is_clone = { λ edns copy. KeepsAllButOptions edns copy × ⟦<OPT as Clone>⟧.is_clone edns.options copy.options };

    fn clone(&self) -> Result<Edns, AllocError> {
        Ok(Edns {
            options: self.options.clone()?,
            rcode_high: self.rcode_high,
            version: self.version,
            flags: self.flags,
            max_payload: self.max_payload,
        })
    }
}
