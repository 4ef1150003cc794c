//! The server, and the calls that change it.

ghost use Rattle.std.specs.Prelude.{◌≡◌, ◌≤◌, ◌∷◌, [], length, IfErr, IfOk, OnErr, OnOk, Some};
ghost use Rattle.std.specs.Str.{IsUtf8};
ghost use Rattle.authority_handle.specs.Blocklists.{RefusesBlocklist};
ghost use Rattle.authority_handle.specs.Calls.{IsZoneOf, PutsBlocklist, PutsZone, RefusesLoad, RefusesName, RefusesNsid, RefusesRemoval, RefusesZone, TakesOut, TellsAccess, bare_zone, kind_of, nsid_of};
ghost use Rattle.authority_handle.specs.Sources.{RefusesNetworks};
ghost use Rattle.authority_handle.specs.Worlds.{new_world, view_of, world_in};
ghost use Rattle.authority_handle.specs.declared.refusal.Refusal.TheVariants.{OutOfMemory};
ghost use Rattle.authority_load.specs.ZoneText.{IsOwnerText, IsZoneText};
ghost use Rattle.authority_server.specs.Servers.{with_zones};
ghost use Rattle.authority_server.specs.Serving.{WorldReadsBack};
ghost use Rattle.authority_server.specs.zsv_catalog.ReadingBack.{ViewReadsBack};
ghost use Rattle.authority_server.specs.zsv_catalog.zsv_answer.zst_request.Views.{Stored};

use crate::blocklists::{BlocklistSettings, blocklist_of};
use crate::handler::Handler;
use crate::refusal::Refusal;
use crate::sources::{Network, access_of};
use authority_load::{
    AxfrPolicy, InMemoryZoneHandler, LoadCause, TextError, ZoneSettings, ZoneType, load_zone,
    parse_owner,
};
use authority_server::{Authority, NSIDPayload, Name, NoSuite};
use std::alloc::Global;
use std::{mem, str};
use zsv_blocklist::BlocklistZoneHandler;

/// A server of zones and blocklists.
#[derive(Drop)]
pub struct Server {
    pub(crate) authority: Authority<NoSuite, Handler>,
    pub(crate) alloc: Global,
}

// The zone type of a number.
fn kind_of(number: u8) -> Option<ZoneType>
    ensures { result ≡ kind_of number }
{
    match number {
        0 => Some(ZoneType::Primary),
        1 => Some(ZoneType::Secondary),
        2 => Some(ZoneType::External),
        _ => None,
    }
}

/// The fully qualified name of a text.
pub(crate) fn name_of(alloc: Global, text: &[u8]) -> Result<Name, Refusal>
    ensures ok { IfOk result (IsOwnerText text.now) }
    ensures err { IfErr result (RefusesName text.now) }
{
    match parse_owner(alloc, text) {
        Ok(name) => Ok(name),
        Err(TextError::Malformed) => Err(Refusal::WrongName),
        Err(TextError::OutOfMemory) => Err(Refusal::OutOfMemory),
    }
}

// Loads a zone of this type and origin.
fn load(
    alloc: Global,
    zone_type: ZoneType,
    origin: Name,
    text: &str,
) -> Result<InMemoryZoneHandler<()>, Refusal>
    ensures loaded { IfOk result (λ handler. IsZoneText (bare_zone origin zone_type) text.now handler.zone) }
    ensures reads_back { IfOk result (λ handler. ViewReadsBack (Stored handler.zone)) }
    ensures err { IfErr result (RefusesLoad origin zone_type text.now) }
{
    let settings = ZoneSettings {
        zone_type,
        axfr_policy: AxfrPolicy::Deny,
        nx_proof_kind: None,
    };
    match load_zone(alloc, origin, settings, text) {
        Ok(zone) => Ok(zone),
        Err(error) if error.cause == LoadCause::OutOfMemory => Err(Refusal::OutOfMemory),
        Err(error) => Err(Refusal::Line(error)),
    }
}

// Loads a zone, from the number of its type and the text of its origin. Beside it is the origin, so that nobody copies the
// name of a loaded zone.
fn zone_of(
    alloc: Global,
    kind: u8,
    origin: &[u8],
    text: &[u8],
) -> Result<(Name, InMemoryZoneHandler<()>), Refusal>
    ensures ok { IfOk result (λ made. IsZoneOf kind origin.now text.now made.0 made.1.zone) }
    ensures reads_back { IfOk result (λ made. ViewReadsBack (Stored made.1.zone)) }
    ensures err { IfErr result (RefusesZone kind origin.now text.now) }
{
    let Some(zone_type) = kind_of(kind) else {
        return Err(Refusal::WrongSetting);
    };
    let Ok(text) = str::from_utf8(text) else {
        return Err(Refusal::WrongText);
    };
    let name = name_of(alloc, origin)?;
    let zone = load(alloc, zone_type, name.clone()?, text)?;
    Ok((name, zone))
}

// A chain of one handler. It is generic, since the drop of a known handler takes long to prove.
fn chain_of<H: Drop>(alloc: Global, handler: H) -> Result<Vec<H>, Refusal>
    ensures ok { IfOk result (λ chain. chain.items ≡ handler ∷ []) }
    ensures err { IfErr result (λ refusal. refusal ≡ OutOfMemory) }
{
    let mut chain = Vec::new(alloc);
    chain.push(handler)?;
    Ok(chain)
}

impl Server {
    /// A server without zones, which every address may ask.
    pub(crate) fn new(alloc: Global) -> Server
        ensures { world_in result ≡ new_world }
    {
        Server {
            authority: Authority::new(alloc, NoSuite),
            alloc,
        }
    }

    // Replaces the chain of a name by one handler.
    fn put(&mut self, name: &Name, handler: Handler) -> Result<(), Refusal>
        requires { ViewReadsBack (view_of handler) }
        ensures ok { OnOk result (world_in self.new ≡ with_zones (world_in self.old) name.now (view_of handler ∷ [])) }
        ensures err { OnErr result (world_in self.new ≡ world_in self.old) }
        ensures back { WorldReadsBack (world_in self.old) → WorldReadsBack (world_in self.new) }
        ensures memory { IfErr result (λ refusal. refusal ≡ OutOfMemory) }
    {
        let chain = chain_of(self.alloc, handler)?;
        self.authority.upsert(name, chain)?;
        Ok(())
    }

    /// Loads a zone, which replaces the chain of its name.
    pub(crate) fn add_zone(&mut self, kind: u8, origin: &[u8], text: &[u8]) -> Result<(), Refusal>
        ensures ok { OnOk result (PutsZone (world_in self.old) kind origin.now text.now (world_in self.new)) }
        ensures err { IfErr result (RefusesZone kind origin.now text.now) }
        ensures unchanged { OnErr result (world_in self.new ≡ world_in self.old) }
        ensures back { WorldReadsBack (world_in self.old) → WorldReadsBack (world_in self.new) }
    {
        let (name, zone) = zone_of(self.alloc, kind, origin, text)?;
        self.put(&name, Handler::Zone(zone))
    }

    /// Reads a blocklist, which replaces the chain of its name.
    pub(crate) fn add_blocklist(
        &mut self,
        settings: &BlocklistSettings,
        name: &[u8],
        text: &[u8],
        message: &[u8],
    ) -> Result<(), Refusal>
        ensures ok { OnOk result (PutsBlocklist (world_in self.old) settings.now name.now text.now message.now (world_in self.new)) }
        ensures err { IfErr result (RefusesBlocklist settings.now name.now text.now message.now) }
        ensures unchanged { OnErr result (world_in self.new ≡ world_in self.old) }
        ensures back { WorldReadsBack (world_in self.old) → WorldReadsBack (world_in self.new) }
    {
        let (name, list) = blocklist_of(self.alloc, settings, name, text, message)?;
        self.put(&name, Handler::Blocklist(list))
    }

    /// Removes the chain of a name.
    pub(crate) fn remove(&mut self, name: &[u8]) -> Result<(), Refusal>
        ensures ok { OnOk result (TakesOut (world_in self.old) name.now (world_in self.new)) }
        ensures err { IfErr result (RefusesRemoval (world_in self.old) name.now) }
        ensures unchanged { OnErr result (world_in self.new ≡ world_in self.old) }
        ensures back { WorldReadsBack (world_in self.old) → WorldReadsBack (world_in self.new) }
    {
        let name = name_of(self.alloc, name)?;
        match self.authority.remove(&name) {
            Some(chain) => {
                mem::drop(chain);
                Ok(())
            }
            None => Err(Refusal::NotFound),
        }
    }

    /// Replaces the access list.
    pub(crate) fn set_access(&mut self, networks: &[Network]) -> Result<(), Refusal>
        ensures ok { OnOk result (TellsAccess (world_in self.old) networks.now (world_in self.new)) }
        ensures err { IfErr result (RefusesNetworks networks.now) }
        ensures unchanged { OnErr result (world_in self.new ≡ world_in self.old) }
        ensures back { WorldReadsBack (world_in self.old) → WorldReadsBack (world_in self.new) }
    {
        let access = access_of(self.alloc, networks)?;
        self.authority.set_access(access);
        Ok(())
    }

    /// Sets the NSID; no octets unset it.
    pub(crate) fn set_nsid(&mut self, octets: &[u8]) -> Result<(), Refusal>
        ensures ok { OnOk result (world_in self.new ≡ record (world_in self.old) { nsid = nsid_of octets.now }) }
        ensures err { IfErr result (RefusesNsid octets.now) }
        ensures unchanged { OnErr result (world_in self.new ≡ world_in self.old) }
        ensures back { WorldReadsBack (world_in self.old) → WorldReadsBack (world_in self.new) }
    {
        let nsid = nsid_of(self.alloc, octets)?;
        self.authority.set_nsid(nsid);
        Ok(())
    }
}

// The NSID of these octets; None if there are none.
fn nsid_of(alloc: Global, octets: &[u8]) -> Result<Option<NSIDPayload>, Refusal>
    ensures ok { IfOk result (λ nsid. nsid ≡ nsid_of octets.now) }
    ensures fits { OnOk result (length octets.now ≤ 65531) }
    ensures err { IfErr result (RefusesNsid octets.now) }
{
    if octets.is_empty() {
        return Ok(None);
    }
    if octets.len() > 65531 {
        return Err(Refusal::TooLong);
    }
    let mut copy = Vec::new(alloc);
    copy.extend_from_slice(octets)?;
    match NSIDPayload::new(copy) {
        Ok(nsid) => Ok(Some(nsid)),
        Err(_) => Err(Refusal::TooLong),
    }
}
