//! The header of a reply, as it was written.

ghost use Rattle.std.specs.Prelude.{◌≡◌};

use std::marker::Model;
use zsv_message::{Header, HeaderCounts, Metadata};

/// The header of a reply, as it was written. A contract sees it as the header.
#[derive(Clone, Copy, Debug)]
pub struct ResponseInfo {
    header: Header,
}

impl Model for ResponseInfo {
    ghost use Rattle.zsv_message.specs.zsv_parts.declared.header.Header.{Header as Written};

    ghost Value = { Written };

    ghost view = { λ info. info.header };

    ghost inverse = { λ header. record { header = header } };
}

impl ResponseInfo {
    /// How many entries each section of the reply has.
    pub fn counts(&self) -> HeaderCounts
        ensures { result ≡ self.now.counts }
    {
        self.header.counts
    }

    /// What the header says beside the counts.
    pub fn metadata(&self) -> Metadata
        ensures { result ≡ self.now.metadata }
    {
        self.header.metadata
    }
}

impl From<Header> for ResponseInfo {
    ghost from_gives = { λ header info. info ≡ header };

    fn from(header: Header) -> ResponseInfo {
        ResponseInfo { header }
    }
}
