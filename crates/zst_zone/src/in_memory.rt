//! A zone kept in memory, with the keys that sign it.

ghost use Rattle.std.specs.Prelude.{◌≡◌, ◌↔◌, ◌∷◌, ◌++◌, [], false, Some, None, IsTrue, option_copied, IfOk, IfErr, IsOk, OnOk, OnErr};
ghost use Rattle.zst_circle.specs.dnw_codes.declared.dns_class.DNSClass.TheVariants.{IN};
ghost use Rattle.zst_circle.specs.dnw_codes.declared.record_type.RecordType.TheVariants as types;
ghost use Rattle.zst_circle.specs.dnw_name.DomainName.{lowercase_name};
ghost use Rattle.zst_circle.specs.zst_record.RecordSets.{none_left};
ghost use Rattle.zst_circle.specs.zst_handler.Answers.{LookupAnswers};
ghost use Rattle.zst_circle.specs.zst_handler.Updates.{Upserts, ZoneReplaces, upsert_changes};
ghost use Rattle.zst_circle.specs.zst_handler.Zones.{rrset_at, empty_zone, AddsTo, AreInOrder, AreStored, ZoneReadsBack};
ghost use Rattle.zst_zone.specs.Makings.{PutsAll, RefusesAll, first_refusal};
ghost use Rattle.zst_zone.specs.Securings.{RefusesToSecure, SecuresBy};
ghost use Rattle.zst_zone.specs.Starts.{RefusesSet, first_data, minimum_of, serial_of};

use crate::handler::{StoredZone, ZoneError};
use std::alloc::{AllocError, Global};
use std::collections::BTreeMap;
use std::mem;
use zst_circle::{
    AuthLookup, AxfrPolicy, DNSClass, LookupControlFlow, LookupOptions, Name, NameKey, NxProofKind,
    Record, RecordSet, RecordType, RrKey, ZoneSets, ZoneSettings, ZoneSigner, ZoneType,
};

/// A zone kept in memory, and the keys that sign it.
#[derive(Drop)]
pub struct InMemoryZoneHandler<K> {
    /// The zone without its keys.
    pub zone: StoredZone,
    /// What signs the zone, in the order of the signatures.
    pub keys: Vec<K>,
}

impl<K> InMemoryZoneHandler<K> {
    /// The zone, with no keys.
    pub fn of(alloc: Global, zone: StoredZone) -> InMemoryZoneHandler<K>
        ensures zone { result.zone ≡ zone }
        ensures keys { result.keys.items ≡ [] }
    {
        InMemoryZoneHandler {
            zone,
            keys: Vec::new(alloc),
        }
    }

    /// A zone without records and keys.
    pub fn empty(
        alloc: Global,
        origin: Name,
        settings: ZoneSettings,
    ) -> Result<InMemoryZoneHandler<K>, AllocError>
        ensures zone { IfOk result (λ handler. handler.zone ≡ empty_zone origin settings) }
        ensures keys { IfOk result (λ handler. handler.keys.items ≡ []) }
    {
        let zone = StoredZone::empty(alloc, origin, settings)?;
        Ok(InMemoryZoneHandler::of(alloc, zone))
    }

    /// A zone of these sets without keys, as `StoredZone::new` makes it.
    pub fn new(
        alloc: Global,
        origin: Name,
        records: BTreeMap<RrKey, RecordSet>,
        settings: ZoneSettings,
    ) -> Result<InMemoryZoneHandler<K>, ZoneError>
        ensures ok { IfOk result (λ handler. (first_refusal records.entries ≡ None) × PutsAll (empty_zone origin settings) records.entries handler.zone) }
        ensures keys { IfOk result (λ handler. handler.keys.items ≡ []) }
        ensures refused { IfErr result (RefusesAll records.entries) }
    {
        let zone = StoredZone::new(alloc, origin, records, settings)?;
        Ok(InMemoryZoneHandler::of(alloc, zone))
    }

    /// Where the zone begins.
    pub fn origin(&self) -> &Name
        ensures value { result.now ≡ self.now.zone.origin }
        ensures ordered { AreInOrder self.now.zone.sets }
        ensures stored { AreStored self.now.zone.sets }
    {
        self.zone.origin()
    }

    /// The class of the zone, that of the Internet.
    pub fn class(&self) -> DNSClass
        ensures { result ≡ IN }
    {
        DNSClass::IN
    }

    /// The sets of the zone, by owner in canonical order, then by type.
    pub fn records(&self) -> &ZoneSets
        ensures { result.now ≡ self.now.zone.sets }
    {
        self.zone.records()
    }

    /// What this server is to the zone.
    pub fn zone_type(&self) -> ZoneType
        ensures { result ≡ self.now.zone.zone_type }
    {
        self.zone.zone_type()
    }

    /// Who may transfer the zone. A zone in memory has no guard.
    pub fn axfr_policy(&self) -> AxfrPolicy
        ensures value { result ≡ self.now.zone.axfr_policy }
        ensures guard { self.now.zone.guard ≡ None }
    {
        self.zone.axfr_policy()
    }

    /// How the zone proves that a name is absent, if it does.
    pub fn nx_proof_kind(&self) -> Option<&NxProofKind>
        ensures { option_copied result ≡ self.now.zone.nx_proof_kind }
    {
        self.zone.nx_proof_kind()
    }

    /// The set of a type at the origin.
    pub fn apex(&self, record_type: RecordType) -> Option<&RecordSet>
        ensures { option_copied result ≡ rrset_at self.now.zone.sets self.now.zone.origin record_type }
    {
        self.zone.apex(record_type)
    }

    /// The set of an owner and a type.
    pub fn get(&self, alloc: Global, at: &RrKey) -> Result<Option<&RecordSet>, AllocError>
        ensures { IfOk result (λ found. option_copied found ≡ rrset_at self.now.zone.sets at.now.name at.now.record_type) }
    {
        self.zone.get(alloc, at)
    }

    /// What `StoredZone::lookup` answers.
    pub fn lookup(
        &self,
        alloc: Global,
        name: &Name,
        record_type: RecordType,
        options: LookupOptions,
    ) -> Result<LookupControlFlow<AuthLookup<'_>>, AllocError>
        ensures { IfOk result (λ flow. LookupAnswers self.now.zone name.now record_type options flow) }
    {
        self.zone.lookup(alloc, name, record_type, options)
    }

    /// What `lookup` answers to the zone's origin and a type. It makes no key for the origin.
    pub fn lookup_origin(
        &self,
        alloc: Global,
        record_type: RecordType,
        options: LookupOptions,
    ) -> Result<LookupControlFlow<AuthLookup<'_>>, AllocError>
        ensures { IfOk result (λ flow. LookupAnswers self.now.zone self.now.zone.origin record_type options flow) }
    {
        self.zone.lookup_origin(alloc, record_type, options)
    }

    /// What `lookup` answers to a name, which has this key, and a type.
    pub fn lookup_at(
        &self,
        alloc: Global,
        name: &Name,
        key: &NameKey,
        record_type: RecordType,
        options: LookupOptions,
    ) -> Result<LookupControlFlow<AuthLookup<'_>>, AllocError>
        requires { key.now ≡ lowercase_name name.now }
        ensures { IfOk result (λ flow. LookupAnswers self.now.zone name.now record_type options flow) }
    {
        self.zone.lookup_at(alloc, name, key, record_type, options)
    }

    /// Whether each record of the zone and each signature may be served: it reads back alone, and no message owns its type.
    pub fn reads_back(&self) -> bool
        ensures { IsTrue result ↔ ZoneReadsBack self.now.zone }
    {
        self.zone.reads_back()
    }

    /// The serial number of the zone, that of the SOA at its origin; 0 without one.
    pub fn serial(&self) -> u32
        ensures { result ≡ serial_of (first_data (rrset_at self.now.zone.sets self.now.zone.origin types.SOA)) }
    {
        self.zone.serial()
    }

    /// How long a denial may be kept, in seconds: the field `minimum` of the SOA at the origin (RFC 2308 section 4); 0
    /// without one.
    pub fn minimum_ttl(&self) -> u32
        ensures { result ≡ minimum_of (first_data (rrset_at self.now.zone.sets self.now.zone.origin types.SOA)) }
    {
        self.zone.minimum_ttl()
    }

    /// Adds a record as `StoredZone::insert` does.
    pub fn insert(&mut self, alloc: Global, next: Record) -> Result<(), AllocError>
        ensures ok { OnOk result (AddsTo self.old.zone next self.new.zone) }
        ensures keys { self.new.keys ≡ self.old.keys }
        ensures err { OnErr result (self.new ≡ self.old) }
    {
        self.zone.insert(alloc, next)
    }

    /// Adds a record as an update does (RFC 2136 section 3.4.2.2), and says whether that changed the zone, as
    /// `StoredZone::upsert` does.
    pub fn upsert(&mut self, alloc: Global, next: Record, serial: u32) -> Result<bool, AllocError>
        ensures changed { IfOk result (λ changed. changed ≡ upsert_changes self.old.zone.sets next) }
        ensures ok { OnOk result (Upserts self.old.zone next self.new.zone) }
        ensures keys { self.new.keys ≡ self.old.keys }
        ensures err { OnErr result (self.new ≡ self.old) }
    {
        self.zone.upsert(alloc, next, serial)
    }

    /// What `upsert` does: a zone is changed by whoever holds it alone.
    pub fn upsert_mut(
        &mut self,
        alloc: Global,
        next: Record,
        serial: u32,
    ) -> Result<bool, AllocError>
        ensures changed { IfOk result (λ changed. changed ≡ upsert_changes self.old.zone.sets next) }
        ensures ok { OnOk result (Upserts self.old.zone next self.new.zone) }
        ensures keys { self.new.keys ≡ self.old.keys }
        ensures err { OnErr result (self.new ≡ self.old) }
    {
        self.upsert(alloc, next, serial)
    }

    /// Puts a set in place of the one of its owner and type.
    pub fn put_set(&mut self, alloc: Global, set: RecordSet) -> Result<(), ZoneError>
        ensures ok { OnOk result ((none_left set.records ≡ false) × ZoneReplaces self.old.zone set.name set.record_type (Some set) self.new.zone) }
        ensures keys { self.new.keys ≡ self.old.keys }
        ensures refused { IfErr result (λ e. RefusesSet set e × (self.new ≡ self.old)) }
    {
        self.zone.put_set(alloc, set)
    }

    /// Takes out the set of an owner and a type.
    pub fn remove_set(&mut self, alloc: Global, at: &RrKey) -> Result<Option<RecordSet>, AllocError>
        ensures value { IfOk result (λ taken. taken ≡ rrset_at self.old.zone.sets at.now.name at.now.record_type) }
        ensures ok { OnOk result (ZoneReplaces self.old.zone at.now.name at.now.record_type None self.new.zone) }
        ensures keys { self.new.keys ≡ self.old.keys }
        ensures err { OnErr result (self.new ≡ self.old) }
    {
        self.zone.remove_set(alloc, at)
    }

    /// Takes out all sets. The keys stay.
    pub fn clear(&mut self)
        ensures zone { self.new.zone ≡ record self.old.zone { sets = [] } }
        ensures keys { self.new.keys ≡ self.old.keys }
    {
        self.zone.clear();
    }

    /// What signs the zone, in the order of the signatures.
    pub fn secure_keys(&self) -> &[K]
        ensures { result.now ≡ self.now.keys.items }
    {
        self.keys.as_slice()
    }
}

impl<K: Drop> InMemoryZoneHandler<K> {
    /// Adds a key after the others. It signs nothing yet.
    pub fn add_zone_signing_key(&mut self, alloc: Global, key: K) -> Result<(), AllocError>
        ensures keys { OnOk result (self.new.keys.items ≡ self.old.keys.items ++ key ∷ []) }
        ensures zone { OnOk result (self.new.zone ≡ self.old.zone) }
        ensures err { OnErr result (self.new ≡ self.old) }
    {
        append(alloc, &mut self.keys, key)
    }

    /// What `add_zone_signing_key` does: a zone is changed by whoever holds it alone.
    pub fn add_zone_signing_key_mut(&mut self, alloc: Global, key: K) -> Result<(), AllocError>
        ensures keys { OnOk result (self.new.keys.items ≡ self.old.keys.items ++ key ∷ []) }
        ensures zone { OnOk result (self.new.zone ≡ self.old.zone) }
        ensures err { OnErr result (self.new ≡ self.old) }
    {
        self.add_zone_signing_key(alloc, key)
    }
}

impl<K: ZoneSigner> InMemoryZoneHandler<K> {
    /// Secures the zone by its keys, as `StoredZone::secure` does. Without keys it changes nothing.
    pub fn secure_zone(&mut self, alloc: Global, now: u64) -> Result<(), ZoneError>
        ensures ok { OnOk result (SecuresBy K.gives K.fails self.old.keys.items now self.old.zone self.new.zone) }
        ensures none { self.old.keys.items ≡ [] → IsOk result }
        ensures keys { self.new.keys ≡ self.old.keys }
        ensures refused { IfErr result (RefusesToSecure K.fails self.old.keys.items now self.old.zone) }
        ensures err { OnErr result (self.new ≡ self.old) }
    {
        if self.keys.is_empty() {
            return Ok(());
        }
        self.zone.secure(alloc, &self.keys, now)
    }

    /// What `secure_zone` does: a zone is changed by whoever holds it alone.
    pub fn secure_zone_mut(&mut self, alloc: Global, now: u64) -> Result<(), ZoneError>
        ensures ok { OnOk result (SecuresBy K.gives K.fails self.old.keys.items now self.old.zone self.new.zone) }
        ensures none { self.old.keys.items ≡ [] → IsOk result }
        ensures keys { self.new.keys ≡ self.old.keys }
        ensures refused { IfErr result (RefusesToSecure K.fails self.old.keys.items now self.old.zone) }
        ensures err { OnErr result (self.new ≡ self.old) }
    {
        self.secure_zone(alloc, now)
    }
}

// Adds a value after the others. Where memory is refused the list is the very same, its room and its place in memory too, which
// `Vec::push` doesn't promise.
fn append<T: Drop>(alloc: Global, values: &mut Vec<T>, value: T) -> Result<(), AllocError>
    ensures ok { OnOk result (values.new.items ≡ values.old.items ++ value ∷ []) }
    ensures err { OnErr result (values.new ≡ values.old) }
{
    let Some(room) = values.len().checked_add(1) else {
        mem::drop(value);
        return Err(AllocError);
    };
    let Ok(mut grown) = Vec::with_capacity(alloc, room) else {
        mem::drop(value);
        return Err(AllocError);
    };
    grown.append(values)?;
    grown.push_reserved(value);
    mem::drop(mem::replace(values, grown));
    Ok(())
}
