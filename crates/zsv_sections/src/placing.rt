//! Where a record of a message stands, and which records may stand there (RFC 1035 section 4.1.3).

ghost use Rattle.std.specs.Prelude.{◌≡◌, ◌&&◌, ◌||◌, not};
ghost use Rattle.zst_record.specs.drd_rdata.Types.{is_update0};
ghost use Rattle.zsv_sections.specs.Sections.{is_opt, is_root, is_signature, is_tsig, misplaced, past};

use zst_record::{DecodeError, RData, Record, RecordType};

/// Where a record stands.
#[derive(Clone, Copy)]
pub struct Placing {
    /// Whether the message is an update.
    pub is_update: bool,
    /// Whether the section is the additional one.
    pub is_additional: bool,
    /// Whether a signature stands before it.
    pub is_signed: bool,
    /// Whether options stand before it.
    pub has_options: bool,
}

/// Whether a record holds the options of its message (RFC 6891 section 6.1.1).
pub fn is_opt(standing: &Record) -> bool
    ensures { result ≡ is_opt standing.now }
{
    standing.record_type() == RecordType::OPT
}

/// Whether a record signs its message by a shared key (RFC 8945 section 4.2).
pub fn is_tsig(standing: &Record) -> bool
    ensures { result ≡ is_tsig standing.now }
{
    standing.record_type() == RecordType::TSIG
}

// Whether a record signs its message, by whatever key.
fn is_signature(standing: &Record) -> bool
    ensures { result ≡ is_signature standing.now }
{
    is_tsig(standing) || standing.record_type() == RecordType::SIG
}

// Whether a record belongs to its message, as options and signatures do.
fn is_of_message(standing: &Record) -> bool
    ensures { result ≡ (is_opt standing.now || is_signature standing.now) }
{
    is_opt(standing) || is_signature(standing)
}

// Whether options have another owner than the root.
fn is_owned_opt(standing: &Record) -> bool
    ensures { result ≡ (is_opt standing.now && not (is_root standing.now.name)) }
{
    is_opt(standing) && !standing.name.is_root()
}

impl Placing {
    // Whether a record has no data, and has to.
    fn lacks_data(self, standing: &Record) -> bool
        ensures { result ≡ (is_update0 standing.now.rdata && (not self.is_update || is_tsig standing.now)) }
    {
        matches!(&standing.rdata, RData::Update0(_)) && (!self.is_update || is_tsig(standing))
    }

    /// Why a record may not stand here, if it may not.
    pub fn misplaced(self, standing: &Record) -> Option<DecodeError>
        ensures { result ≡ misplaced self standing.now }
    {
        if self.is_signed {
            Some(DecodeError::RecordAfterSig)
        } else if !self.is_additional && is_of_message(standing) {
            Some(DecodeError::RecordNotInAdditionalSection(standing.record_type()))
        } else if is_owned_opt(standing) {
            Some(DecodeError::EdnsNameNotRoot)
        } else if is_opt(standing) && self.has_options {
            Some(DecodeError::DuplicateEdns)
        } else if self.lacks_data(standing) {
            Some(DecodeError::InvalidEmptyRecord)
        } else {
            None
        }
    }

    /// Behind a record.
    pub fn past(self, standing: &Record) -> Placing
        ensures { result ≡ past self standing.now }
    {
        Placing {
            is_signed: self.is_signed || is_signature(standing),
            has_options: self.has_options || is_opt(standing),
            ..self
        }
    }
}
