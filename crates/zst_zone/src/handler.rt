//! A zone kept in memory, and what it answers.

ghost use Rattle.std.specs.Prelude.{◌≡◌, ◌↔◌, [], true, false, Some, None, Err, IsTrue, option_copied, IfOk, IfErr, IsOkAnd, MatchOption, OnOk, OnErr};
ghost use Rattle.zst_circle.specs.dnw_name.DomainName.{is_at_or_below, lowercase_name};
ghost use Rattle.zst_circle.specs.zst_handler.Answers.{LookupAnswers, denial_error, records_in};
ghost use Rattle.zst_circle.specs.zst_handler.Lookups.{denial};
ghost use Rattle.zst_circle.specs.dnw_codes.RecordType.{same_record_type};
ghost use Rattle.zst_circle.specs.dnw_codes.declared.record_type.RecordType.TheVariants as types;
ghost use Rattle.zst_circle.specs.zst_map.Edits.{CanEdit, edited};
ghost use Rattle.zst_circle.specs.zst_record.RecordSets.{RRset, none_left};
ghost use Rattle.zst_circle.specs.zst_handler.Updates.{Upserts, ZoneReplaces, upsert_changes};
ghost use Rattle.zst_circle.specs.zst_handler.Zones.{exists_in, rrset_at, empty_zone, AddsTo, AreInOrder, AreStored, ZoneReadsBack};
ghost use Rattle.zst_request.specs.Handed.{transfer_records};
ghost use Rattle.zst_request.specs.Transfers.{own_refused, transfer_of};
ghost use Rattle.zst_zone.specs.Makings.{PutsAll, RefusesAll, first_refusal, is_own_key, refusal};
ghost use Rattle.zst_circle.specs.Secures.{Secures};
ghost use Rattle.zst_zone.specs.Securings.{RefusesToSecure, denial_ttl};
ghost use Rattle.zst_zone.specs.Starts.{RefusesSet, first_data, minimum_of, serial_of};

use crate::back::all_read_back;
use crate::lookup::{all_of, answer_alone, answer_from};
use std::alloc::{AllocError, Global};
use std::collections::BTreeMap;
use std::marker::Model;
use std::mem;
use thiserror::Error;
use zst_circle::{
    AnswerSet, AuthLookup, AxfrPolicy, Edit, LookupControlFlow, LookupError, LookupOptions,
    LookupRecords, Name, NameKey, NxProofKind, RData, Record, RecordSet, RecordType, ResponseCode,
    RrKey, Search, SignerFault, ZoneSets, ZoneSettings, ZoneSigner, ZoneType, secure,
};
use zst_request::{AxfrRecords, ZoneTransfer};

/// Why a zone is not changed or made. The numbers are stable.
#[derive(Clone, Copy, Debug, PartialEq, Eq, Error)]
pub enum ZoneError {
    /// A set is under another owner or type than its own.
    #[error("WrongKey")]
    WrongKey = 1,
    /// A set has no records.
    #[error("EmptySet")]
    EmptySet = 2,
    /// A signer gave no signature, or a hashed owner would pass 255 octets.
    #[error("SignerFailed")]
    SignerFailed = 3,
    /// Memory was refused.
    #[error("OutOfMemory")]
    OutOfMemory = 4,
}

/// A zone kept in memory: where it begins, how it may be used, and its sets.
#[derive(Drop)]
pub struct StoredZone {
    origin: Name,
    /// The origin's key, made once.
    origin_key: NameKey,
    zone_type: ZoneType,
    axfr_policy: AxfrPolicy,
    nx_proof_kind: Option<NxProofKind>,
    sets: ZoneSets,
}

impl Model for StoredZone {
    ghost use Rattle.std.specs.Prelude.{None};
    ghost use Rattle.zst_circle.specs.zst_handler.Zones.{Zone};
    ghost use Rattle.zst_zone.specs.Answering.{IsKept};

    ghost Value = { Zone };

    ghost view = { λ zone. record { origin = zone.origin; zone_type = zone.zone_type; axfr_policy = zone.axfr_policy; nx_proof_kind = zone.nx_proof_kind; guard = None; sets = zone.sets } };

    ghost invariant = { λ zone. IsKept zone.origin zone.origin_key zone.sets };
}

impl StoredZone {
    /// A zone without records.
    pub fn empty(
        alloc: Global,
        origin: Name,
        settings: ZoneSettings,
    ) -> Result<StoredZone, AllocError>
        ensures { IfOk result (λ zone. zone ≡ empty_zone origin settings) }
    {
        let origin_key = NameKey::of(alloc, &origin)?;
        Ok(StoredZone {
            origin,
            origin_key,
            zone_type: settings.zone_type,
            axfr_policy: settings.axfr_policy,
            nx_proof_kind: settings.nx_proof_kind,
            sets: ZoneSets::new(alloc),
        })
    }

    /// A zone of these sets, which are put there in the order of owners and types. None is made where a set is under another
    /// owner or type than its own, or has no records; the first of these says why. Sets are tested before the zone takes
    /// memory, so that a lack of memory hides no refusal.
    pub fn new(
        alloc: Global,
        origin: Name,
        records: BTreeMap<RrKey, RecordSet>,
        settings: ZoneSettings,
    ) -> Result<StoredZone, ZoneError>
        ensures ok { IfOk result (λ zone. (first_refusal records.entries ≡ None) × PutsAll (empty_zone origin settings) records.entries zone) }
        ensures refused { IfErr result (RefusesAll records.entries) }
    {
        if let Some(refused) = first_refusal(&records) {
            mem::drop(records);
            return Err(refused);
        }
        let Ok(mut zone) = StoredZone::empty(alloc, origin, settings) else {
            mem::drop(records);
            return Err(ZoneError::OutOfMemory);
        };
        let mut left = records;
        'sets: while let Some((at, set)) = left.pop_first() {
            mem::drop(at);
            if zone.put_filled(alloc, set).is_err() {
                return Err(ZoneError::OutOfMemory);
            }
        }
        Ok(zone)
    }

    /// Where the zone begins.
    pub fn origin(&self) -> &Name
        ensures value { result.now ≡ self.now.origin }
        ensures ordered { AreInOrder self.now.sets }
        ensures stored { AreStored self.now.sets }
    {
        &self.origin
    }

    /// The sets of the zone, by owner in canonical order, then by type.
    pub fn records(&self) -> &ZoneSets
        ensures { result.now ≡ self.now.sets }
    {
        &self.sets
    }

    /// What this server is to the zone.
    pub fn zone_type(&self) -> ZoneType
        ensures { result ≡ self.now.zone_type }
    {
        self.zone_type
    }

    /// Who may transfer the zone. A zone in memory has no guard.
    pub fn axfr_policy(&self) -> AxfrPolicy
        ensures value { result ≡ self.now.axfr_policy }
        ensures guard { self.now.guard ≡ None }
    {
        self.axfr_policy
    }

    // The code that answers an update: a zone in memory has no guard, so no message changes it.
    pub(crate) fn update_code(&self) -> ResponseCode
        ensures code { result ≡ ResponseCode.NotImp }
        ensures guard { self.now.guard ≡ None }
    {
        let _origin = &self.origin;
        ResponseCode::NotImp
    }

    /// How the zone proves that a name is absent, if it does.
    pub fn nx_proof_kind(&self) -> Option<&NxProofKind>
        ensures { option_copied result ≡ self.now.nx_proof_kind }
    {
        self.nx_proof_kind.as_ref()
    }

    /// The set of a type at the origin.
    pub fn apex(&self, record_type: RecordType) -> Option<&RecordSet>
        ensures { option_copied result ≡ rrset_at self.now.sets self.now.origin record_type }
    {
        self.sets.get(&self.origin_key, record_type)
    }

    /// The zone as it is transferred (RFC 5936 section 2.2); or Refused, unless the zone's own policy lets everybody have it. It
    /// takes no memory.
    pub fn transfer(
        &self,
        alloc: Global,
        options: LookupOptions,
    ) -> Result<ZoneTransfer<'_>, LookupError>
        ensures answer { MatchOption (own_refused self.now.axfr_policy)
            (IsOkAnd result (λ transfer. transfer_records transfer ≡ transfer_of self.now options.dnssec_ok))
            (λ code. result ≡ Err (LookupError.ResponseCode code)) }
        ensures guard { self.now.guard ≡ None }
    {
        match self.axfr_policy {
            AxfrPolicy::AllowAll => Ok(self.whole(alloc, options)),
            AxfrPolicy::Deny | AxfrPolicy::AllowSigned => {
                Err(LookupError::ResponseCode(ResponseCode::Refused))
            }
        }
    }

    // The zone as it is transferred; without an SOA at its origin, nothing.
    fn whole(&self, alloc: Global, options: LookupOptions) -> ZoneTransfer<'_>
        ensures { transfer_records result ≡ transfer_of self.now options.dnssec_ok }
    {
        let Some(soa) = self.apex(RecordType::SOA) else {
            return ZoneTransfer {
                start_soa: LookupRecords::Empty,
                records: AxfrRecords::new(&self.origin, options.dnssec_ok, Vec::new(alloc)),
                end_soa: LookupRecords::Empty,
            };
        };
        let sets = self.sets.lend();
        ZoneTransfer {
            start_soa: without_signatures(soa),
            records: AxfrRecords::of_zone(alloc, &self.origin, options.dnssec_ok, sets),
            end_soa: without_signatures(soa),
        }
    }

    /// Whether the name of a key is at or below the origin, whether or not they end at the root.
    pub fn is_in_zone(&self, key: &NameKey) -> bool
        ensures { result ≡ is_at_or_below key.now self.now.origin }
    {
        key.is_at_or_below(&self.origin_key)
    }

    /// The set of an owner and a type.
    pub fn get(&self, alloc: Global, at: &RrKey) -> Result<Option<&RecordSet>, AllocError>
        ensures { IfOk result (λ found. option_copied found ≡ rrset_at self.now.sets at.now.name at.now.record_type) }
    {
        let key = NameKey::of(alloc, &at.name)?;
        Ok(self.get_at(&key, at.record_type))
    }

    /// The set of a type at the name of a key.
    pub fn get_at(&self, key: &NameKey, record_type: RecordType) -> Option<&RecordSet>
        ensures { option_copied result ≡ rrset_at self.now.sets key.now record_type }
    {
        self.sets.get(key, record_type)
    }

    /// What the zone answers to a name and a type, or why it answers nothing (RFC 1034 section 4.3.2): the name servers of
    /// a cut at or above the name; else the set of the name and the type, an alias and the sets to which it leads, or what
    /// the nearest wildcard has. A question for any type is answered by all sets of the name. The additional data of name
    /// servers, mail servers and services are the addresses of each of their targets.
    pub fn lookup(
        &self,
        alloc: Global,
        name: &Name,
        record_type: RecordType,
        options: LookupOptions,
    ) -> Result<LookupControlFlow<AuthLookup<'_>>, AllocError>
        ensures { IfOk result (λ flow. LookupAnswers self.now name.now record_type options flow) }
    {
        let key = NameKey::of(alloc, name)?;
        self.lookup_at(alloc, name, &key, record_type, options)
    }

    /// What `lookup` answers to the zone's origin and a type. It makes no key for the origin.
    pub fn lookup_origin(
        &self,
        alloc: Global,
        record_type: RecordType,
        options: LookupOptions,
    ) -> Result<LookupControlFlow<AuthLookup<'_>>, AllocError>
        ensures { IfOk result (λ flow. LookupAnswers self.now self.now.origin record_type options flow) }
    {
        match record_type {
            RecordType::SOA => self.lookup_start(alloc, options),
            _ => self.lookup_at(alloc, &self.origin, &self.origin_key, record_type, options),
        }
    }

    // What `lookup` answers to the zone's origin and the type SOA: most often that record alone.
    fn lookup_start(
        &self,
        alloc: Global,
        options: LookupOptions,
    ) -> Result<LookupControlFlow<AuthLookup<'_>>, AllocError>
        ensures { IfOk result (λ flow. LookupAnswers self.now self.now.origin RecordType.SOA options flow) }
    {
        let (name, key) = (&self.origin, &self.origin_key);
        match self.sets.find_start(key, RecordType::SOA)? {
            Search::Found(first) if first.set.record_type() == RecordType::SOA => {
                let found = answer_alone(&self.sets, alloc, name, RecordType::SOA, options, first)?;
                Ok(LookupControlFlow::Continue(Ok(found)))
            }
            _ => self.lookup_at(alloc, name, key, RecordType::SOA, options),
        }
    }

    /// What `lookup` answers to a name, which has this key, and a type.
    #[inline(always)]
    pub fn lookup_at(
        &self,
        alloc: Global,
        name: &Name,
        key: &NameKey,
        record_type: RecordType,
        options: LookupOptions,
    ) -> Result<LookupControlFlow<AuthLookup<'_>>, AllocError>
        requires { key.now ≡ lowercase_name name.now }
        ensures { IfOk result (λ flow. LookupAnswers self.now name.now record_type options flow) }
    {
        if record_type == RecordType::ANY {
            return self.lookup_any(alloc, name, key, record_type, options);
        }
        match self.sets.find(key, record_type)? {
            Search::Found(first) => {
                let found = answer_from(&self.sets, alloc, name, record_type, options, first)?;
                Ok(LookupControlFlow::Continue(Ok(found)))
            }
            Search::Absent { exists } => {
                Ok(LookupControlFlow::Continue(Err(self.denied(key, exists))))
            }
        }
    }

    // What `lookup` answers to a name, which has this key, and the type ANY: all sets of the name.
    fn lookup_any(
        &self,
        alloc: Global,
        name: &Name,
        key: &NameKey,
        record_type: RecordType,
        options: LookupOptions,
    ) -> Result<LookupControlFlow<AuthLookup<'_>>, AllocError>
        requires key { key.now ≡ lowercase_name name.now }
        requires any { same_record_type record_type types.ANY ≡ true }
        ensures { IfOk result (λ flow. LookupAnswers self.now name.now record_type options flow) }
    {
        match all_of(alloc, self.sets.sets_at(key), options)? {
            Some(found) => Ok(LookupControlFlow::Continue(Ok(found))),
            None => Ok(LookupControlFlow::Continue(Err(self.denial(key)?))),
        }
    }

    /// Why nothing is found for the name of a key, where nothing is: the name exists, or does not exist in the zone, or is
    /// outside it (RFC 2308 section 2).
    pub fn denial(&self, key: &NameKey) -> Result<LookupError, AllocError>
        ensures { IfOk result (λ e. e ≡ denial_error (denial self.now key.now)) }
    {
        Ok(self.denied(key, self.sets.exists(key)?))
    }

    // Why nothing is found for the name of a key, which exists or doesn't.
    fn denied(&self, key: &NameKey, exists: bool) -> LookupError
        requires { exists ≡ exists_in self.now.sets key.now }
        ensures { result ≡ denial_error (denial self.now key.now) }
    {
        if exists {
            return LookupError::NameExists;
        }
        if self.is_in_zone(key) {
            LookupError::ResponseCode(ResponseCode::NXDomain)
        } else {
            LookupError::ResponseCode(ResponseCode::Refused)
        }
    }

    /// Whether each record of the zone and each signature may be served: it reads back alone, and no message owns its type.
    pub fn reads_back(&self) -> bool
        ensures { IsTrue result ↔ ZoneReadsBack self.now }
    {
        all_read_back(&self.sets)
    }

    /// The serial number of the zone, that of the SOA at its origin; 0 without one.
    pub fn serial(&self) -> u32
        ensures { result ≡ serial_of (first_data (rrset_at self.now.sets self.now.origin types.SOA)) }
    {
        match self.start() {
            Some(RData::SOA(soa)) => soa.serial,
            _ => 0,
        }
    }

    /// How long a denial may be kept, in seconds: the field `minimum` of the SOA at the origin (RFC 2308 section 4); 0
    /// without one.
    pub fn minimum_ttl(&self) -> u32
        ensures { result ≡ minimum_of (first_data (rrset_at self.now.sets self.now.origin types.SOA)) }
    {
        match self.start() {
            Some(RData::SOA(soa)) => soa.minimum,
            _ => 0,
        }
    }

    // The data of the SOA at the origin.
    fn start(&self) -> Option<&RData>
        ensures { option_copied result ≡ first_data (rrset_at self.now.sets self.now.origin types.SOA) }
    {
        let set = self.apex(RecordType::SOA)?;
        let first = set.as_slice().first()?;
        Some(&first.rdata)
    }

    /// Adds a record to the set of its owner and type, in place of the one with equal data; where there is no such set,
    /// one is made. It makes one key.
    pub fn insert(&mut self, alloc: Global, next: Record) -> Result<(), AllocError>
        ensures ok { OnOk result (AddsTo self.old next self.new) }
        ensures err { OnErr result (self.new ≡ self.old) }
    {
        let Ok(key) = NameKey::of(alloc, &next.name) else {
            mem::drop(next);
            return Err(AllocError);
        };
        self.insert_at(alloc, key, next)
    }

    /// Adds a record as `insert` does, under the key of its owner.
    pub fn insert_at(&mut self, alloc: Global, key: NameKey, next: Record) -> Result<(), AllocError>
        requires { key ≡ lowercase_name next.name }
        ensures ok { OnOk result (AddsTo self.old next self.new) }
        ensures err { OnErr result (self.new ≡ self.old) }
    {
        self.sets.add(alloc, key, next)
    }

    /// Adds a record as an update does (RFC 2136 section 3.4.2.2), and tells whether that changed the zone. A record of
    /// another class than IN isn't taken; nor one that would stand beside an alias, or an alias beside others; nor one
    /// that is there with its time to live; nor an SOA whose serial number isn't above the stored one's. Equal data are
    /// replaced, and so is what there is one of at most: SOA, CNAME, ANAME. A changed set loses its signatures. The
    /// serial number of the update isn't kept.
    pub fn upsert(&mut self, alloc: Global, next: Record, _serial: u32) -> Result<bool, AllocError>
        ensures changed { IfOk result (λ changed. changed ≡ upsert_changes self.old.sets next) }
        ensures ok { OnOk result (Upserts self.old next self.new) }
        ensures err { OnErr result (self.new ≡ self.old) }
    {
        let Ok(key) = NameKey::of(alloc, &next.name) else {
            mem::drop(next);
            return Err(AllocError);
        };
        self.sets.upsert(alloc, key, next)
    }

    /// Puts a set in place of the one of its owner and type.
    pub fn put_set(&mut self, alloc: Global, set: RecordSet) -> Result<(), ZoneError>
        ensures ok { OnOk result ((none_left set.records ≡ false) × ZoneReplaces self.old set.name set.record_type (Some set) self.new) }
        ensures refused { IfErr result (λ e. RefusesSet set e × (self.new ≡ self.old)) }
    {
        if set.is_empty() {
            mem::drop(set);
            return Err(ZoneError::EmptySet);
        }
        self.put_filled(alloc, set)
            .map_err(|_| ZoneError::OutOfMemory)
    }

    // Puts a set that has records in place of the one of its owner and type.
    fn put_filled(&mut self, alloc: Global, set: RecordSet) -> Result<(), AllocError>
        requires { none_left set.records ≡ false }
        ensures ok { OnOk result (ZoneReplaces self.old set.name set.record_type (Some set) self.new) }
        ensures err { OnErr result (self.new ≡ self.old) }
    {
        let Ok(key) = NameKey::of(alloc, set.name()) else {
            mem::drop(set);
            return Err(AllocError);
        };
        self.put_at(alloc, key, set)
    }

    /// Puts a set that has records, and whose owner has this key, in place of the one of its owner and type.
    pub fn put_at(&mut self, alloc: Global, key: NameKey, set: RecordSet) -> Result<(), AllocError>
        requires key { key ≡ lowercase_name set.name }
        requires filled { none_left set.records ≡ false }
        ensures ok { OnOk result (ZoneReplaces self.old set.name set.record_type (Some set) self.new) }
        ensures err { OnErr result (self.new ≡ self.old) }
    {
        let _held = set.as_slice();
        self.sets.put(alloc, key, set)
    }

    /// Changes the set of an owner, which has this key, and a type where it is. It takes no memory.
    pub fn edit_at(&mut self, key: &NameKey, record_type: RecordType, edit: Edit)
        requires { (set : RRset) × (rrset_at self.old.sets key.now record_type ≡ Some set) × CanEdit edit set }
        ensures { (set : RRset) → rrset_at self.old.sets key.now record_type ≡ Some set → CanEdit edit set
            → ZoneReplaces self.old key.now record_type (Some (edited edit set)) self.new }
    {
        self.sets.edit(key, record_type, edit);
    }

    /// Takes out the set of an owner, which has this key, and a type. It takes no memory.
    pub fn remove_at(&mut self, key: &NameKey, record_type: RecordType) -> Option<RecordSet>
        ensures value { result ≡ rrset_at self.old.sets key.now record_type }
        ensures set { ZoneReplaces self.old key.now record_type None self.new }
    {
        self.sets.remove(key, record_type)
    }

    /// Takes out the set of an owner and a type.
    pub fn remove_set(&mut self, alloc: Global, at: &RrKey) -> Result<Option<RecordSet>, AllocError>
        ensures value { IfOk result (λ taken. taken ≡ rrset_at self.old.sets at.now.name at.now.record_type) }
        ensures ok { OnOk result (ZoneReplaces self.old at.now.name at.now.record_type None self.new) }
        ensures err { OnErr result (self.new ≡ self.old) }
    {
        let key = NameKey::of(alloc, &at.name)?;
        Ok(self.remove_at(&key, at.record_type))
    }

    /// Secures the zone: makes the circle of its kind of proof with the time to live of a denial, raises the serial number of
    /// its SOA, and signs the sets of authoritative names by each key (RFC 4035 section 2, RFC 5155 section 7.1). Sets move,
    /// and no record is copied.
    pub fn secure<K: ZoneSigner>(
        &mut self,
        alloc: Global,
        keys: &[K],
        now: u64,
    ) -> Result<(), ZoneError>
        ensures ok { OnOk result (Secures K.gives K.fails keys.now now self.old (denial_ttl self.old) self.new) }
        ensures refused { IfErr result (RefusesToSecure K.fails keys.now now self.old) }
        ensures err { OnErr result (self.new ≡ self.old) }
    {
        let ttl = self.minimum_ttl();
        let proof = self.nx_proof_kind.as_ref();
        let (origin, key) = (&self.origin, &self.origin_key);
        match secure(alloc, origin, key, proof, ttl, keys, now, &mut self.sets) {
            Ok(()) => Ok(()),
            Err(SignerFault::Failed) => Err(ZoneError::SignerFailed),
            Err(SignerFault::OutOfMemory) => Err(ZoneError::OutOfMemory),
        }
    }

    /// Takes out all sets.
    pub fn clear(&mut self)
        ensures { self.new ≡ record self.old { sets = [] } }
    {
        self.sets.clear();
    }
}

// The records of a set, without its signatures.
fn without_signatures(set: &RecordSet) -> LookupRecords<'_>
    ensures { records_in result ≡ set.now.records }
{
    LookupRecords::new(LookupOptions { dnssec_ok: false }, AnswerSet::own(set))
}

// Why the first set is refused that is.
fn first_refusal(records: &BTreeMap<RrKey, RecordSet>) -> Option<ZoneError>
    ensures { result ≡ first_refusal records.now.entries }
{
    for (at, set) in records.iter() {
        if let Some(refused) = refusal(at, set) {
            return Some(refused);
        }
    }
    None
}

// Why a set is refused under a key.
fn refusal(at: &RrKey, set: &RecordSet) -> Option<ZoneError>
    ensures { result ≡ refusal (at.now, set.now) }
{
    if !is_own_key(at, set) {
        return Some(ZoneError::WrongKey);
    }
    if set.is_empty() {
        return Some(ZoneError::EmptySet);
    }
    None
}

// Whether a set is under its own owner and type.
fn is_own_key(at: &RrKey, set: &RecordSet) -> bool
    ensures { result ≡ is_own_key at.now set.now }
{
    at.record_type == set.record_type() && *at.name == *set.name()
}
