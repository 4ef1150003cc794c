//! Blocklists from octets and numbers.

ghost use Rattle.std.specs.Prelude.{◌≡◌, ◌<◌, ◌≤◌, ◌^◌, [], List, length, IfErr, IfOk, Some, option_map, string_bytes};
ghost use Rattle.std.specs.Str.{IsUtf8};
ghost use Rattle.authority_handle.specs.Blocklists.{HasSettings, IsBlocklist, IsListOf, RefusesBlocklist, action_of, message_of};
ghost use Rattle.authority_handle.specs.declared.refusal.Refusal.TheVariants.{OutOfMemory};
ghost use Rattle.authority_server.specs.zsv_catalog.zsv_answer.zst_request.dnw_name.DomainName.{DomainName};
ghost use Rattle.zsv_blocklist.specs.Blocklists.{blocklist_of};

use crate::refusal::Refusal;
use crate::server::name_of;
use authority_server::Name;
use std::alloc::{AllocError, Global};
use std::net::{Ipv4Addr, Ipv6Addr};
use std::{mem, str};
use zsv_blocklist::{BlocklistConfig, BlocklistConsultAction, BlocklistZoneHandler};

/// The settings of a blocklist.
#[repr(C)]
#[derive(Clone, Copy)]
pub struct BlocklistSettings {
    /// The TTL of its answers.
    pub ttl: u32,
    /// The consult action: 0 disabled, 1 enforce, 2 log.
    pub action: u8,
    /// The least number of labels after the asterisk of a wildcard.
    pub min_wildcard_depth: u8,
    /// Wildcards match.
    pub wildcard_match: bool,
    /// The address in answers of type A.
    pub sinkhole_ipv4: [u8; 4],
    /// The address in answers of type AAAA.
    pub sinkhole_ipv6: [u8; 16],
}

// The action of a number.
fn action_of(number: u8) -> Option<BlocklistConsultAction>
    ensures { result ≡ action_of number }
{
    match number {
        0 => Some(BlocklistConsultAction::Disabled),
        1 => Some(BlocklistConsultAction::Enforce),
        2 => Some(BlocklistConsultAction::Log),
        _ => None,
    }
}

// The message; None if it is empty.
fn message_of(alloc: Global, message: &str) -> Result<Option<String>, AllocError>
    ensures { IfOk result (λ kept. option_map string_bytes kept ≡ message_of message.now) }
{
    if message.is_empty() {
        return Ok(None);
    }
    Ok(Some(String::from_str(alloc, message)?))
}

// The configuration of a blocklist.
fn config_of(
    alloc: Global,
    settings: &BlocklistSettings,
    action: BlocklistConsultAction,
    message: &str,
) -> Result<BlocklistConfig, AllocError>
    requires { action_of settings.now.action ≡ Some action }
    ensures { IfOk result (λ config. (origin : DomainName) (names : List DomainName)
        → HasSettings settings.now message.now (blocklist_of origin names config)) }
{
    Ok(BlocklistConfig {
        wildcard_match: settings.wildcard_match,
        min_wildcard_depth: settings.min_wildcard_depth,
        sinkhole_ipv4: Some(Ipv4Addr::from_octets(settings.sinkhole_ipv4)),
        sinkhole_ipv6: Some(Ipv6Addr::from_octets(settings.sinkhole_ipv6)),
        ttl: settings.ttl,
        block_message: message_of(alloc, message)?,
        consult_action: action,
        log_clients: false,
    })
}

// Reads the names of a blocklist.
fn list_of(
    alloc: Global,
    origin: Name,
    config: BlocklistConfig,
    text: &[u8],
) -> Result<BlocklistZoneHandler, Refusal>
    ensures ok { IfOk result (IsListOf origin config text.now) }
    ensures err { IfErr result (λ refusal. refusal ≡ OutOfMemory) }
{
    let mut list = match BlocklistZoneHandler::new(alloc, origin, config) {
        Ok(list) => list,
        Err(_) => return Err(Refusal::OutOfMemory),
    };
    let mut reader = text;
    match list.add(alloc, &mut reader) {
        Ok(()) => Ok(list),
        Err(_) => {
            mem::drop(list);
            Err(Refusal::OutOfMemory)
        }
    }
}

// Reads a blocklist whose texts are UTF-8 and not too long.
fn list_under(
    alloc: Global,
    settings: &BlocklistSettings,
    action: BlocklistConsultAction,
    name: &[u8],
    text: &str,
    message: &str,
) -> Result<(Name, BlocklistZoneHandler), Refusal>
    requires action { action_of settings.now.action ≡ Some action }
    requires text { length text.now < 2 ^ 32 }
    requires message { length message.now ≤ 255 }
    ensures ok { IfOk result (λ made. IsBlocklist settings.now name.now text.now message.now made.1) }
    ensures name { IfOk result (λ made. made.0 ≡ made.1.origin) }
    ensures err { IfErr result (RefusesBlocklist settings.now name.now text.now message.now) }
{
    let origin = name_of(alloc, name)?;
    let own = origin.clone()?;
    let config = config_of(alloc, settings, action, message)?;
    let list = list_of(alloc, own, config, text.as_bytes())?;
    Ok((origin, list))
}

/// Reads a blocklist. Beside it is its origin.
pub(crate) fn blocklist_of(
    alloc: Global,
    settings: &BlocklistSettings,
    name: &[u8],
    text: &[u8],
    message: &[u8],
) -> Result<(Name, BlocklistZoneHandler), Refusal>
    ensures ok { IfOk result (λ made. IsBlocklist settings.now name.now text.now message.now made.1) }
    ensures name { IfOk result (λ made. made.0 ≡ made.1.origin) }
    ensures err { IfErr result (RefusesBlocklist settings.now name.now text.now message.now) }
{
    let Some(action) = action_of(settings.action) else {
        return Err(Refusal::WrongSetting);
    };
    if message.len() > 255 || text.len() > MOST {
        return Err(Refusal::TooLong);
    }
    match (str::from_utf8(text), str::from_utf8(message)) {
        (Ok(text), Ok(message)) => list_under(alloc, settings, action, name, text, message),
        _ => Err(Refusal::WrongText),
    }
}

// The most octets that are read of a blocklist.
const MOST: usize = 0xffff_ffff;
