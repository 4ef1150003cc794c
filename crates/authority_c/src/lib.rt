//! The C interface: a server in memory that the caller owns.
//!
//! C refers to a server by a pointer to `soarnef_size()` octets, aligned as `malloc` aligns them. Each call borrows that memory
//! and returns it.
#![tactic(auto)]

ghost use Rattle.std.specs.Prelude.{◌≡◌};
ghost use Rattle.std.specs.Borrow.{full_share, sem};
ghost use Rattle.std.specs.Mem.{type_size};
ghost use Rattle.std.specs.Ptr.{lies_at, room_at};
ghost use Rattle.authority_handle.specs.Calls.{AddsBlocklist, AddsZone, Removes, ServesInto, SetsAccess, SetsNsid};
ghost use Rattle.authority_handle.specs.Worlds.{new_world, world_in};
ghost use Rattle.authority_handle.specs.contracts.Server.{the_row};
ghost use Rattle.authority_handle.specs.declared.server.Server.{Server as Held};
ghost use Rattle.authority_handle.specs.authority_server.Servers.{AreUnguarded};

use authority_handle::{BlocklistSettings, Network, Server};
use std::alloc::Global;

/// The size of a server in octets.
#[unsafe(no_mangle)]
pub extern "C" fn soarnef_size() -> usize
    ensures { result ≡ type_size the_row }
{
    std::mem::size_of::<Server>()
}

/// Makes a server without zones.
#[unsafe(no_mangle)]
pub unsafe extern "C" fn soarnef_open(alloc: Global, at: *mut u8)
    requires* { sem 𝓛 (room_at the_row at) }
    ensures* { ∃ₛ (λ (server : Held). sem 𝓛 (lies_at the_row full_share at server) ∗ ⌜ world_in server ≡ new_world ⌝) }
{
    let at = at as *mut Server;
    at.write(authority_handle::empty(alloc));
}

/// Loads a zone, as `authority_handle::add_zone`.
#[unsafe(no_mangle)]
pub unsafe extern "C" fn soarnef_add_zone(
    at: *mut u8,
    kind: u8,
    origin: &[u8],
    text: &[u8],
    refusal: &mut [u8],
) -> i64
    ghost held: { Server }
    requires* { sem 𝓛 (lies_at the_row full_share at held) }
    ensures* { ∃ₛ (λ (server : Held). sem 𝓛 (lies_at the_row full_share at server)
        ∗ ⌜ AddsZone (world_in held) kind origin.now text.now result (world_in server) ⌝) }
{
    let at = at as *mut Server;
    authority_handle::add_zone(&mut *at, kind, origin, text, refusal)
}

/// Reads a blocklist, as `authority_handle::add_blocklist`.
#[unsafe(no_mangle)]
pub unsafe extern "C" fn soarnef_add_blocklist(
    at: *mut u8,
    settings: &BlocklistSettings,
    name: &[u8],
    text: &[u8],
    message: &[u8],
) -> i64
    ghost held: { Server }
    requires* { sem 𝓛 (lies_at the_row full_share at held) }
    ensures* { ∃ₛ (λ (server : Held). sem 𝓛 (lies_at the_row full_share at server)
        ∗ ⌜ AddsBlocklist (world_in held) settings.now name.now text.now message.now result (world_in server) ⌝) }
{
    let at = at as *mut Server;
    authority_handle::add_blocklist(&mut *at, settings, name, text, message)
}

/// Removes the chain of a name, as `authority_handle::remove`.
#[unsafe(no_mangle)]
pub unsafe extern "C" fn soarnef_remove(at: *mut u8, name: &[u8]) -> i64
    ghost held: { Server }
    requires* { sem 𝓛 (lies_at the_row full_share at held) }
    ensures* { ∃ₛ (λ (server : Held). sem 𝓛 (lies_at the_row full_share at server)
        ∗ ⌜ Removes (world_in held) name.now result (world_in server) ⌝) }
{
    let at = at as *mut Server;
    authority_handle::remove(&mut *at, name)
}

/// Replaces the access list, as `authority_handle::set_access`.
#[unsafe(no_mangle)]
pub unsafe extern "C" fn soarnef_set_access(at: *mut u8, networks: &[Network]) -> i64
    ghost held: { Server }
    requires* { sem 𝓛 (lies_at the_row full_share at held) }
    ensures* { ∃ₛ (λ (server : Held). sem 𝓛 (lies_at the_row full_share at server)
        ∗ ⌜ SetsAccess (world_in held) networks.now result (world_in server) ⌝) }
{
    let at = at as *mut Server;
    authority_handle::set_access(&mut *at, networks)
}

/// Sets the NSID, as `authority_handle::set_nsid`.
#[unsafe(no_mangle)]
pub unsafe extern "C" fn soarnef_set_nsid(at: *mut u8, octets: &[u8]) -> i64
    ghost held: { Server }
    requires* { sem 𝓛 (lies_at the_row full_share at held) }
    ensures* { ∃ₛ (λ (server : Held). sem 𝓛 (lies_at the_row full_share at server)
        ∗ ⌜ SetsNsid (world_in held) octets.now result (world_in server) ⌝) }
{
    let at = at as *mut Server;
    authority_handle::set_nsid(&mut *at, octets)
}

/// Serves a message, as `authority_handle::serve`.
#[unsafe(no_mangle)]
pub unsafe extern "C" fn soarnef_serve(
    at: *mut u8,
    message: &[u8],
    address: &[u8],
    port: u16,
    stream: bool,
    now: u64,
    reply: &mut [u8],
) -> i64
    ghost held: { Server }
    requires* { sem 𝓛 (lies_at the_row full_share at held) }
    ensures* { ∃ₛ (λ (server : Held). sem 𝓛 (lies_at the_row full_share at server)
        ∗ ⌜ (AreUnguarded (world_in held).chains → world_in server ≡ world_in held)
        × ServesInto (world_in held) message.now address.now port stream now reply.old result reply.new (world_in server) ⌝) }
{
    let at = at as *mut Server;
    authority_handle::serve(&mut *at, message, address, port, stream, now, reply)
}

/// Drops a server.
#[unsafe(no_mangle)]
pub unsafe extern "C" fn soarnef_close(at: *mut u8)
    ghost held: { Server }
    requires* { sem 𝓛 (lies_at the_row full_share at held) }
    ensures* { sem 𝓛 (room_at the_row at) }
{
    let at = at as *mut Server;
    authority_handle::close(at.read())
}
