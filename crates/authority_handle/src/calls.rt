//! The calls as other languages make them.

ghost use Rattle.std.specs.Prelude.{◌≡◌, ◌<◌, ◌^◌, length, IfErr, IfOk, IfSome, MatchOption, None, OnErr};
ghost use Rattle.authority_handle.specs.Calls.{AddsBlocklist, AddsZone, FillsStart, IsUnfit, RefusesMessage, Removes, ServesFrom, ServesInto, SetsAccess, SetsNsid, StandsIn, reply_of, transport_of};
ghost use Rattle.authority_handle.specs.Worlds.{new_world, world_in};
ghost use Rattle.authority_server.specs.Servers.{AreUnguarded};

use crate::blocklists::BlocklistSettings;
use crate::refusal::{Refusal, length_or_code, number};
use crate::server::Server;
use crate::sources::{Network, source_of};
use authority_load::LoadError;
use authority_server::Protocol;
use std::alloc::Global;
use std::io::Write;

/// A server without zones, which every address may ask.
pub fn empty(alloc: Global) -> Server
    ensures { world_in result ≡ new_world }
{
    Server::new(alloc)
}

/// Loads a zone, which replaces the chain of its name. If a line is refused, `refusal` gets its number and cause as text,
/// cut to the buffer and padded with zeros.
pub fn add_zone(
    server: &mut Server,
    kind: u8,
    origin: &[u8],
    text: &[u8],
    refusal: &mut [u8],
) -> i64
    ensures { AddsZone (world_in server.old) kind origin.now text.now result (world_in server.new) }
{
    let added = server.add_zone(kind, origin, text);
    if let Err(Refusal::Line(error)) = &added {
        write_cause(error, refusal);
    }
    number(added)
}

// Writes the line number and the cause, cut to the buffer and padded with zeros.
fn write_cause(error: &LoadError, buffer: &mut [u8]) {
    buffer.fill(0);
    let mut room = buffer;
    // (an error means that the text was cut)
    let _ = write!(room, "{error}");
}

/// Reads a blocklist, which replaces the chain of its name.
pub fn add_blocklist(
    server: &mut Server,
    settings: &BlocklistSettings,
    name: &[u8],
    text: &[u8],
    message: &[u8],
) -> i64
    ensures { AddsBlocklist (world_in server.old) settings.now name.now text.now message.now result (world_in server.new) }
{
    number(server.add_blocklist(settings, name, text, message))
}

/// Removes the chain of a name.
pub fn remove(server: &mut Server, name: &[u8]) -> i64
    ensures { Removes (world_in server.old) name.now result (world_in server.new) }
{
    number(server.remove(name))
}

/// Replaces the access list.
pub fn set_access(server: &mut Server, networks: &[Network]) -> i64
    ensures { SetsAccess (world_in server.old) networks.now result (world_in server.new) }
{
    number(server.set_access(networks))
}

/// Sets the NSID (RFC 5001); no octets unset it.
pub fn set_nsid(server: &mut Server, octets: &[u8]) -> i64
    ensures { SetsNsid (world_in server.old) octets.now result (world_in server.new) }
{
    number(server.set_nsid(octets))
}

// The transport of a message.
fn transport(stream: bool) -> Protocol
    ensures { result ≡ transport_of stream }
{
    if stream { Protocol::Tcp } else { Protocol::Udp }
}

// Copies octets to the start of a buffer, and counts them; None if there are none, or too many.
fn put(octets: &[u8], buffer: &mut [u8]) -> Option<usize>
    ensures put { MatchOption result (IsUnfit octets.now (length buffer.old)) (StandsIn octets.now buffer.new) }
    ensures len { length buffer.new ≡ length buffer.old }
    ensures small { IfSome result (λ count. count < 2 ^ 63) }
    ensures start { IfSome result (λ count. FillsStart count buffer.old buffer.new) }
    ensures unchanged { result ≡ None → buffer.new ≡ buffer.old }
{
    let count = octets.len();
    if count == 0 || buffer.len() < count {
        return None;
    }
    buffer[..count].copy_from_slice(octets);
    Some(count)
}

// Serves a message, and returns the length of its reply.
#[tactic(auto, using(crate::proofs::Replies::replied))]
fn reply_to(
    server: &mut Server,
    message: &[u8],
    address: &[u8],
    port: u16,
    stream: bool,
    now: u64,
    reply: &mut [u8],
) -> Result<usize, Refusal>
    ensures fixed { AreUnguarded (world_in server.old).chains → world_in server.new ≡ world_in server.old }
    ensures served { IfOk result (λ length. ServesFrom (world_in server.old) message.now address.now port stream now (reply_of length reply.new)
        (world_in server.new)) }
    ensures small { IfOk result (λ length. length < 2 ^ 63) }
    ensures start { IfOk result (λ length. FillsStart length reply.old reply.new) }
    ensures same { OnErr result (reply.new ≡ reply.old) }
    ensures refused { IfErr result (λ refusal. RefusesMessage (world_in server.old) message.now address.now port stream now (length reply.new) refusal
        (world_in server.new)) }
{
    let Some(source) = source_of(address, port) else {
        return Err(Refusal::WrongAddress);
    };
    match server
        .authority
        .serve(message, source, transport(stream), now)
    {
        Ok(None) => Ok(0),
        Ok(Some(octets)) => match put(&octets, reply) {
            Some(count) => Ok(count),
            None => Err(Refusal::NoRoom),
        },
        Err(_) => Err(Refusal::OutOfMemory),
    }
}

/// Serves a message, and writes its reply to the start of `reply`. Returns the length of the reply, 0 if there is none, or the
/// code of a refusal.
pub fn serve(
    server: &mut Server,
    message: &[u8],
    address: &[u8],
    port: u16,
    stream: bool,
    now: u64,
    reply: &mut [u8],
) -> i64
    ensures fixed { AreUnguarded (world_in server.old).chains → world_in server.new ≡ world_in server.old }
    ensures served { ServesInto (world_in server.old) message.now address.now port stream now reply.old result reply.new (world_in server.new) }
{
    length_or_code(reply_to(server, message, address, port, stream, now, reply))
}

/// Drops a server.
pub fn close(server: Server) {
    drop(server);
}
