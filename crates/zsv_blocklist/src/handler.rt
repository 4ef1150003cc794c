//! A list of blocked names.

ghost use Rattle.std.specs.Prelude.{◌≡◌, ◌&&◌, [], true, false, length, IfOk, IfErr, None, OnOk, OnErr, Some, if◌then◌else◌, option_copied};
ghost use Rattle.zsv_blocked.specs.Reading.{AddsRead, IsListFault, IsUnrecordedFault};
ghost use Rattle.zst_request.specs.Blocking.{has_listed_wildcard, is_blocked, is_listed};
ghost use Rattle.zst_request.specs.Handling.{ShowsBlocked};
ghost use Rattle.zst_request.specs.dnw_name.DomainName.{DomainName, lowercase_name};
ghost use Rattle.zsv_blocklist.specs.Answers.{answer_of};
ghost use Rattle.zsv_blocklist.specs.Blocklists.{IsNewFault, blocklist_of, is_too_long, message_of};

use crate::config::BlocklistConfig;
use crate::sinkholes::Sinkholes;
use std::alloc::{AllocError, Global};
use std::io::Read;
use std::marker::Model;
use std::mem;
use zst_request::{AnswerSet, AuthLookup, LookupOptions, LookupRecords, Name, NameKey, RecordType};
use zsv_blocked::{BlockedNames, BlocklistError, ReadFaults, add_list};

/// A list of blocked names, and what is answered in their place.
#[derive(Drop)]
pub struct BlocklistZoneHandler {
    pub(crate) origin: Name,
    names: BlockedNames,
    sinkholes: Sinkholes,
    pub(crate) config: BlocklistConfig,
}

impl Model for BlocklistZoneHandler {
    ghost use Rattle.std.specs.Prelude.{◌≡◌, false};
    ghost use Rattle.zst_request.specs.Views.{Blocklist};
    ghost use Rattle.zsv_blocklist.specs.Blocklists.{blocklist_of, is_too_long, message_of};
    ghost use Rattle.zsv_blocklist.specs.Sinkholes.{AreSinkholes};

    ghost Value = { Blocklist };

    ghost view = { λ list. blocklist_of list.origin list.names list.config };

    ghost invariant = { λ list. (is_too_long (message_of list.config) ≡ false)
        × AreSinkholes (blocklist_of list.origin list.names list.config) list.sinkholes };
}

impl BlocklistZoneHandler {
    /// A list without names. It is refused where its message has more than 255 octets, or for want of memory.
    pub fn new(
        alloc: Global,
        origin: Name,
        config: BlocklistConfig,
    ) -> Result<BlocklistZoneHandler, BlocklistError>
        ensures ok { IfOk result (λ list. (list ≡ blocklist_of origin [] config) × (is_too_long (message_of config) ≡ false)) }
        ensures refused { IfErr result (IsNewFault config) }
    {
        if has_long_message(&config) {
            mem::drop(origin);
            mem::drop(config);
            return Err(BlocklistError::MessageTooLong);
        }
        match Sinkholes::new(alloc, &origin, &config) {
            Ok(sinkholes) => Ok(BlocklistZoneHandler {
                origin,
                names: BlockedNames::new(alloc),
                sinkholes,
                config,
            }),
            Err(_) => {
                mem::drop(origin);
                mem::drop(config);
                Err(BlocklistError::OutOfMemory)
            }
        }
    }

    /// How many names there are, wildcards among them.
    pub fn entry_count(&self) -> usize
        ensures value { result ≡ length self.now.names }
        ensures short { is_too_long self.now.block_message ≡ false }
    {
        self.names.len()
    }

    /// Whether a name is blocked.
    pub fn is_blocked(&self, alloc: Global, name: &Name) -> Result<bool, AllocError>
        ensures { IfOk result (λ blocked. blocked ≡ is_blocked self.now name.now) }
    {
        let key = NameKey::of(alloc, name)?;
        self.is_blocked_at(name, &key)
    }

    // Whether a name is blocked, which has this key.
    pub(crate) fn is_blocked_at(&self, name: &Name, key: &NameKey) -> Result<bool, AllocError>
        requires { key.now ≡ lowercase_name name.now }
        ensures { IfOk result (λ blocked. blocked ≡ is_blocked self.now name.now) }
    {
        if self.names.listed(key).is_some() {
            return Ok(true);
        }
        self.has_wildcard_at(name, key)
    }

    // Whether a wildcard blocks a name, which has this key.
    pub(crate) fn has_wildcard_at(&self, name: &Name, key: &NameKey) -> Result<bool, AllocError>
        requires { key.now ≡ lowercase_name name.now }
        ensures { IfOk result (λ found. found ≡ (self.now.wildcard_match && has_listed_wildcard self.now name.now)) }
    {
        if !self.config.wildcard_match {
            return Ok(false);
        }
        self.names
            .has_wildcard(name, key, self.config.min_wildcard_depth)
    }

    // The listed name that has this key.
    pub(crate) fn listed(&self, key: &NameKey) -> Option<&Name>
        ensures { (name : DomainName) → key.now ≡ lowercase_name name
            → option_copied result ≡ (if is_listed self.now name then Some (lowercase_name name) else None) }
    {
        self.names.listed(key)
    }

    // The address under a listed name, both of which are lent: the answer where no message goes with it.
    pub(crate) fn lend<'z>(&'z self, listed: &'z Name, record_type: RecordType) -> AuthLookup<'z>
        requires { self.now.block_message ≡ None }
        ensures { (name : DomainName) → listed.now ≡ lowercase_name name → ShowsBlocked (answer_of self.now name record_type) result }
    {
        let set = AnswerSet::lent(self.sinkholes.of(record_type), listed);
        AuthLookup::Records {
            answers: LookupRecords::new(LookupOptions { dnssec_ok: false }, set),
            additionals: None,
        }
    }

    /// Adds the names of a list, of which a reader gives all octets: the name on each line, alone or behind the address
    /// 0.0.0.0 as in a file of hosts. A line whose text is no name adds none. A refused list adds none.
    pub fn add<R: Read>(&mut self, alloc: Global, reader: &mut R) -> Result<(), BlocklistError>
        ensures ok { OnOk result (AddsRead self.old.names (R.remaining reader.old) (R.remaining reader.new) self.new.names) }
        ensures kept { self.new ≡ record self.old { names = self.new.names } }
        ensures err { OnErr result (self.new ≡ self.old) }
        // Nothing says here whether the reader answered a fault.
        ensures cause { IfErr result (IsUnrecordedFault (R.remaining reader.old) (R.remaining reader.new)) }
    {
        self.add_with(alloc, reader, &mut ReadFaults::none())
    }

    /// Adds names as `add` does, and records whether the reader answered a fault: `BlocklistError::Read` comes only where
    /// it did, or gave more than 2^32 - 1 octets, and `BlocklistError::OutOfMemory` only where neither was so.
    pub fn add_with<R: Read>(
        &mut self,
        alloc: Global,
        reader: &mut R,
        faults: &mut ReadFaults,
    ) -> Result<(), BlocklistError>
        requires { faults.old.failed ≡ false }
        ensures ok { OnOk result (AddsRead self.old.names (R.remaining reader.old) (R.remaining reader.new) self.new.names) }
        ensures kept { self.new ≡ record self.old { names = self.new.names } }
        ensures err { OnErr result (self.new ≡ self.old) }
        ensures well { OnOk result (faults.new.failed ≡ false) }
        ensures ended { OnOk result (faults.new.ended ≡ true) }
        ensures cause { IfErr result (IsListFault faults.new (R.remaining reader.old) (R.remaining reader.new)) }
    {
        add_list(alloc, &mut self.names, reader, faults)
    }
}

// Whether the message of these settings doesn't fit in one string (RFC 1035 section 3.3).
fn has_long_message(config: &BlocklistConfig) -> bool
    ensures { result ≡ is_too_long (message_of config.now) }
{
    match &config.block_message {
        Some(message) => message.len() > 255,
        None => false,
    }
}
