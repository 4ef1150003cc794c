//! How a zone may be used, and how far a signed request is believed.
ghost use Rattle.std.specs.Prelude.{◌≡◌};

/// What this server is to a zone.
#[derive(Clone, Copy, Debug, PartialEq, Eq)]
pub enum ZoneType {
    /// The zone's data are kept here.
    Primary,
    /// The zone's data come by transfer.
    Secondary,
    /// The zone is another server's.
    External,
}

/// Who may transfer a zone (RFC 5936 5).
#[derive(Clone, Copy, Debug, PartialEq, Eq)]
pub enum AxfrPolicy {
    /// Nobody.
    Deny,
    /// Everybody.
    AllowAll,
    /// Whoever signs the question (RFC 8945).
    AllowSigned,
}

impl Default for AxfrPolicy {
    ghost use Rattle.zst_codes.specs.declared.settings.AxfrPolicy.TheVariants.{Deny};

    ghost is_default = { λ policy. policy ≡ Deny };

    /// Nobody may.
    fn default() -> AxfrPolicy {
        AxfrPolicy::Deny
    }
}

/// What the test of a request's signature says (RFC 8945 5.2).
#[derive(Clone, Copy, Debug, PartialEq, Eq)]
pub enum TsigVerdict {
    /// The signature is right.
    Good,
    /// The key isn't known.
    UnknownKey,
    /// The signature isn't that of the request.
    BadSignature,
    /// The signature isn't of this time.
    BadTime,
}
