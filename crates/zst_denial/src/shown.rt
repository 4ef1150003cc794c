//! The sets that a zone shows for a name, and what they deny.
ghost use Rattle.std.specs.Prelude.{Bool, List, ◌≡◌, ◌<◌, ◌^◌, false, None};
ghost use Rattle.std.specs.List.{AllByRecursion};
ghost use Rattle.zst_handler.specs.Zones.{AreStored, Zone, ZoneReadsBack, exists_in, rrset_at};
ghost use Rattle.zst_handler.specs.dnw_codes.declared.record_type.RecordType.{RecordType};
ghost use Rattle.zst_handler.specs.dnw_codes.declared.record_type.RecordType.TheVariants.{NSEC, NSEC3, RRSIG};
ghost use Rattle.zst_handler.specs.dnw_codes.RecordType.{record_type_number, same_record_type};
ghost use Rattle.zst_handler.specs.dnw_name.DomainName.{DomainName};
ghost use Rattle.zst_handler.specs.zst_record.RecordSets.{RRset};
ghost use Rattle.zst_denial.specs.Circles.{IsAuthoritativeName, IsSecured};
ghost use Rattle.zst_denial.specs.Denials.{Covers, HasOne, IsNsecDenial, IsSetOf, Lacks, SomeOf};
ghost use Rattle.zst_denial.specs.HashDenials.{IsNsec3Denial};
ghost use Rattle.zst_denial.specs.Hashed.{Hashing};

/// A law: the sets of a denial are the zone's own.
pub fn denials_are_stored()
    ensures nsec { (zone : Zone) (name : DomainName) (sets : List RRset) → IsNsecDenial zone name sets → AllByRecursion (IsSetOf zone NSEC) sets }
    ensures nsec3 { (by : Hashing) (zone : Zone) (name : DomainName) (t : RecordType) (wild : Bool) (sets : List RRset)
        → IsNsec3Denial by zone name t wild sets → AllByRecursion (IsSetOf zone NSEC3) sets }
{}

/// A law: in a secured zone whose records read back and whose origin is authoritative, one set of the denial of a name that
/// doesn't exist covers it (RFC 4035 section 3.1.3.2).
pub fn absent_names_are_denied()
    ensures { (zone : Zone) (name : DomainName) (sets : List RRset) → IsSecured zone → AreStored zone.sets → ZoneReadsBack zone
        → IsAuthoritativeName NSEC zone zone.origin → exists_in zone.sets name ≡ false → IsNsecDenial zone name sets
        → SomeOf (HasOne (Covers name)) sets }
{}

/// A law: in such a zone one set of the denial of an authoritative name lacks each type that the name doesn't own, but RRSIG
/// (RFC 4035 section 3.1.3.1).
pub fn unowned_types_are_denied()
    ensures { (zone : Zone) (name : DomainName) (t : RecordType) (sets : List RRset) → IsSecured zone → AreStored zone.sets → ZoneReadsBack zone
        → IsAuthoritativeName NSEC zone zone.origin → IsAuthoritativeName NSEC zone name → record_type_number t < 2 ^ 16
        → same_record_type t RRSIG ≡ false → rrset_at zone.sets name t ≡ None → IsNsecDenial zone name sets
        → SomeOf (HasOne (Lacks name t)) sets }
{}
