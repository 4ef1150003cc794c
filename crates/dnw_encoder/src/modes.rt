//! How names are written.
ghost use Rattle.std.specs.Prelude.{◌≡◌};
ghost use Rattle.dnw_encoder.specs.State.{is_lower, rdata_encoding, writes_pointers};

/// How an encoder writes names.
#[derive(Clone, Copy, Debug, PartialEq, Eq)]
pub enum NameEncoding {
    /// With pointers to names that were written before (RFC 1035 4.1.4).
    Compressed,
    /// In full.
    Uncompressed,
    /// In full and in lower case (RFC 4034 6.2).
    UncompressedLowercase,
}

impl NameEncoding {
    // Whether names are written with pointers.
    #[inline]
    pub(crate) fn writes_pointers(self) -> bool
        ensures { result ≡ writes_pointers self }
    {
        match self {
            NameEncoding::Compressed => true,
            NameEncoding::Uncompressed | NameEncoding::UncompressedLowercase => false,
        }
    }

    // Whether names are written in lower case.
    pub(crate) fn is_lower(self) -> bool
        ensures { result ≡ is_lower self }
    {
        match self {
            NameEncoding::Compressed | NameEncoding::Uncompressed => false,
            NameEncoding::UncompressedLowercase => true,
        }
    }
}

/// What kind of record data is written.
#[derive(Clone, Copy, Debug, PartialEq, Eq)]
pub enum RDataEncoding {
    /// Data whose names may be compressed (RFC 3597 4), and are in lower case in canonical form.
    StandardRecord,
    /// Data whose names stand in full, and are in lower case in canonical form (RFC 4034 6.2).
    Canonical,
    /// Data whose names stand in full and as they are.
    Other,
}

impl RDataEncoding {
    /// How the names of such data are written, in canonical form or not, by an encoder in this mode (RFC 3597 4, RFC 4034
    /// 6.2).
    pub fn name_encoding(self, is_canonical: bool, mode: NameEncoding) -> NameEncoding
        ensures { result ≡ rdata_encoding self is_canonical mode }
    {
        match (self, is_canonical) {
            (RDataEncoding::StandardRecord, false) => mode,
            (RDataEncoding::StandardRecord | RDataEncoding::Canonical, true) => {
                NameEncoding::UncompressedLowercase
            }
            (RDataEncoding::Canonical, false) | (RDataEncoding::Other, _) => {
                NameEncoding::Uncompressed
            }
        }
    }
}
