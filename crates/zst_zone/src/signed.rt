//! Zones that keys sign.

use crate::handler::ZoneError;
use crate::in_memory::InMemoryZoneHandler;
use std::alloc::{AllocError, Global};
use zst_circle::ZoneSigner;
use zst_request::ZoneHandler;

/// A handler whose zone is signed by keys. A contract sees its zone and the list of its keys.
pub trait DnssecZoneHandler<K: ZoneSigner>: ZoneHandler {
    ghost use Rattle.std.specs.Prelude.{◌≡◌, ◌∷◌, ◌++◌, [], List, IfErr, IsOk, OnErr, OnOk};
    ghost use Rattle.zst_circle.specs.zst_handler.Zones.{Zone};
    ghost use Rattle.zst_zone.specs.Securings.{RefusesToSecure, SecuresBy};

    ghost zone: { Self → Zone };

    ghost keys: { Self → List K };

    /// Adds a key after the others. It signs nothing yet.
    fn add_zone_signing_key(&mut self, alloc: Global, key: K) -> Result<(), AllocError>
        ensures keys { OnOk result (keys self.new ≡ keys self.old ++ key ∷ []) }
        ensures zone { OnOk result (zone self.new ≡ zone self.old) }
        ensures err { OnErr result (self.new ≡ self.old) };

    /// Secures the zone by its keys at a moment in seconds since 1970. Without keys it changes nothing.
    fn secure_zone(&mut self, alloc: Global, now: u64) -> Result<(), ZoneError>
        ensures ok { OnOk result (SecuresBy K.gives K.fails (keys self.old) now (zone self.old) (zone self.new)) }
        ensures none { keys self.old ≡ [] → IsOk result }
        ensures keys { OnOk result (keys self.new ≡ keys self.old) }
        ensures refused { IfErr result (RefusesToSecure K.fails (keys self.old) now (zone self.old)) }
        ensures err { OnErr result (self.new ≡ self.old) };
}

impl<K: ZoneSigner> DnssecZoneHandler<K> for InMemoryZoneHandler<K> {
    ghost zone = { λ handler. handler.zone };

    ghost keys = { λ handler. handler.keys.items };

    fn add_zone_signing_key(&mut self, alloc: Global, key: K) -> Result<(), AllocError> {
        self.add_zone_signing_key(alloc, key)
    }

    fn secure_zone(&mut self, alloc: Global, now: u64) -> Result<(), ZoneError> {
        self.secure_zone(alloc, now)
    }
}
