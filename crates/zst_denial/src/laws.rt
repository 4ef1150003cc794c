//! What the NSEC records of a secured zone deny, and what keeps a zone secured.
ghost use Rattle.std.specs.Prelude.{Bool, ◌≡◌, ◌<◌, ◌^◌, true, false, Some, None, IsSome, ◌∷◌, []};
ghost use Rattle.zst_handler.specs.Zones.{AreStored, Zone, ZoneReadsBack, exists_in, rrset_at};
ghost use Rattle.zst_handler.specs.dnw_codes.declared.record_type.RecordType.{RecordType};
ghost use Rattle.zst_handler.specs.dnw_codes.declared.record_type.RecordType.TheVariants.{NSEC, RRSIG};
ghost use Rattle.zst_handler.specs.dnw_codes.RecordType.{record_type_number, same_record_type};
ghost use Rattle.zst_handler.specs.dnw_name.DomainName.{DomainName};
ghost use Rattle.zst_handler.specs.zst_record.RecordSets.{RRset};
ghost use Rattle.zst_handler.specs.zst_record.declared.records.Record.{Record};
ghost use Rattle.zst_denial.specs.Circles.{IsAuthoritativeName, IsSecured, is_delegation};
ghost use Rattle.zst_denial.specs.Denials.{Covers, IsPrecedingSet, Lacks};
ghost use Rattle.zst_denial.specs.Hashed.{Hashing, IsSecuredByHash};
ghost use Rattle.zst_denial.specs.Kept.{HaveSameCircle};

/// A law: in a secured zone whose records read back, the set for a name that doesn't exist is one record, which covers the
/// name (RFC 4035 section 3.1.3.2).
pub fn absent_names_are_covered()
    ensures { (zone : Zone) (name owner : DomainName) (set : RRset) → IsSecured zone → AreStored zone.sets → ZoneReadsBack zone
        → exists_in zone.sets name ≡ false → IsPrecedingSet zone NSEC name owner set
        → (only : Record) × (set.records ≡ only ∷ []) × Covers name only }
{}

/// A law: in a secured zone whose records read back, no NSEC record covers an authoritative name.
pub fn present_names_are_not_covered()
    ensures { (zone : Zone) (name owner : DomainName) (set : RRset) (only : Record) → IsSecured zone → AreStored zone.sets → ZoneReadsBack zone
        → IsAuthoritativeName NSEC zone name → rrset_at zone.sets owner NSEC ≡ Some set → set.records ≡ only ∷ [] → Covers name only → ⊥ }
{}

/// A law: in a secured zone whose records read back, the set for an authoritative name is one record of its own, which lacks
/// each type that the name doesn't own, but RRSIG (RFC 4035 section 3.1.3.1).
pub fn unowned_types_are_lacked()
    ensures { (zone : Zone) (name owner : DomainName) (set : RRset) (t : RecordType) → IsSecured zone → AreStored zone.sets → ZoneReadsBack zone
        → IsAuthoritativeName NSEC zone name → record_type_number t < 2 ^ 16 → same_record_type t RRSIG ≡ false → rrset_at zone.sets name t ≡ None
        → IsPrecedingSet zone NSEC name owner set → (only : Record) × (set.records ≡ only ∷ []) × Lacks name t only }
{}

/// A law: in a secured zone whose records read back, no NSEC record lacks a type that an authoritative name owns, unless the
/// name is a delegation.
pub fn owned_types_are_not_lacked()
    ensures { (zone : Zone) (name owner : DomainName) (set : RRset) (only : Record) (t : RecordType) → IsSecured zone → AreStored zone.sets → ZoneReadsBack zone
        → IsAuthoritativeName NSEC zone name → record_type_number t < 2 ^ 16 → is_delegation zone name ≡ false → IsSome (rrset_at zone.sets name t)
        → rrset_at zone.sets owner NSEC ≡ Some set → set.records ≡ only ∷ [] → Lacks name t only → ⊥ }
{}

/// A law: a zone secured by NSEC stays so where its owners, their types and the NSEC records stay.
pub fn unchanged_circles_secure()
    ensures { (old new : Zone) → HaveSameCircle old new → IsSecured old → IsSecured new }
{}

/// A law: a zone secured by NSEC3 stays so where its owners, their types and the records of NSEC3 and NSEC3PARAM stay.
pub fn unchanged_digests_secure()
    ensures { (by : Hashing) (opt_out : Bool) (old new : Zone) → HaveSameCircle old new → IsSecuredByHash by opt_out old → IsSecuredByHash by opt_out new }
{}
