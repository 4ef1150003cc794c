//! Record data in order (RFC 4034 6.3), and hashed.
ghost use Rattle.std.specs.Prelude.{◌≡◌, List, ℕ, Some};
ghost use Rattle.std.proofs.Common.{refl};
ghost use Rattle.std.specs.Cmp.{po, partial_equiv_from_equiv};
ghost use Rattle.std.specs.List.{fold};
ghost use Rattle.drd_types.specs.drd_fields.Equality.{Tells};
ghost use Rattle.drd_types.specs.drd_fields.Order.{Orders};
ghost use Rattle.drd_rdata.specs.declared.rdata.RData.TheVariants as variant;
ghost use Rattle.drd_rdata.specs.Order.{type_number, data_form, compared_fields, data_cmp, rdata_cmp, rdata_eq, HasCanonical, data_input, rdata_input};
ghost use Rattle.drd_rdata.specs.OrderLaws.{rdata_total, rdata_equiv, rdata_ties, rdata_fed};

use crate::rdata::RData;
use drd_names_keys::CSYNC;
use drd_svcb::{HTTPS, SVCB};
use drd_types::{FieldData, Fields, OPT, cmp_list, hash_list};
use std::cmp::Ordering;
use std::hash::{Hash, Hasher};

impl RData {
    /// The data field by field, lent. Sets of types, options and the parameters of services are no lists of fields: CSYNC,
    /// OPT, SVCB and HTTPS data lend none, as data of an update and of type 0.
    pub fn fields(&self) -> Fields<'_>
        ensures { result ≡ compared_fields self.now }
    {
        match self {
            RData::A(a) => a.fields(),
            RData::AAAA(aaaa) => aaaa.fields(),
            RData::ANAME(aname) => aname.fields(),
            RData::CAA(caa) => caa.fields(),
            RData::CERT(cert) => cert.fields(),
            RData::CNAME(cname) => cname.fields(),
            RData::HINFO(hinfo) => hinfo.fields(),
            RData::MX(mx) => mx.fields(),
            RData::NAPTR(naptr) => naptr.fields(),
            RData::NULL(null) => null.fields(),
            RData::NS(ns) => ns.fields(),
            RData::OPENPGPKEY(openpgpkey) => openpgpkey.fields(),
            RData::PTR(ptr) => ptr.fields(),
            RData::SMIMEA(smimea) => smimea.fields(),
            RData::SOA(soa) => soa.fields(),
            RData::SRV(srv) => srv.fields(),
            RData::SSHFP(sshfp) => sshfp.fields(),
            RData::TLSA(tlsa) => tlsa.fields(),
            RData::TXT(txt) => txt.fields(),
            RData::Unknown { rdata, .. } => rdata.fields(),
            RData::CSYNC(_)
            | RData::HTTPS(_)
            | RData::OPT(_)
            | RData::SVCB(_)
            | RData::Update0(_)
            | RData::ZERO => Fields::new(&[]),
        }
    }

    // Whether the data are those of an update without octets, have the form of their type, or are octets of which only the
    // type is known.
    fn form(&self) -> u8
        ensures { result ≡ data_form self.now }
    {
        match self {
            RData::Update0(_) => 0,
            RData::Unknown { .. } => 2,
            _ => 1,
        }
    }

    // The order of data of one type and form.
    fn cmp_data(&self, other: &RData) -> Ordering
        requires number { type_number self.now ≡ type_number other.now }
        requires form { data_form self.now ≡ data_form other.now }
        ensures value { result ≡ data_cmp self.now other.now }
        ensures canonical { (xs ys : List ℕ) → HasCanonical self.now xs → HasCanonical other.now ys → Orders result xs ys }
    {
        match self {
            RData::CSYNC(csync) => cmp_set(csync, other),
            RData::HTTPS(https) => cmp_https(https, other),
            RData::OPT(opt) => cmp_options(opt, other),
            RData::SVCB(svcb) => cmp_service(svcb, other),
            _ => cmp_list(self.fields().as_slice(), other.fields().as_slice()),
        }
    }

    // The order by the numbers of the types, then by form, then of the data.
    fn cmp_all(&self, other: &RData) -> Ordering
        ensures value { result ≡ rdata_cmp self.now other.now }
        ensures canonical { (xs ys : List ℕ) → type_number self.now ≡ type_number other.now → data_form self.now ≡ data_form other.now
            → HasCanonical self.now xs → HasCanonical other.now ys → Orders result xs ys }
    {
        match self.record_type().cmp(&other.record_type()) {
            Ordering::Equal => match self.form().cmp(&other.form()) {
                Ordering::Equal => self.cmp_data(other),
                unequal => unequal,
            },
            unequal => unequal,
        }
    }

    // Feeds the data of the type to a hasher.
    fn hash_data<H: Hasher>(&self, state: &mut H)
        ensures { state.new ≡ fold H.write state.old (data_input self.now) }
    {
        match self {
            RData::CSYNC(csync) => csync.hash(state),
            RData::HTTPS(https) => https.hash(state),
            RData::OPT(opt) => opt.hash(state),
            RData::SVCB(svcb) => svcb.hash(state),
            _ => hash_list(self.fields().as_slice(), state),
        }
    }
}

// The order of a set of types and data of its type.
fn cmp_set(value: &CSYNC, other: &RData) -> Ordering
    ensures value { (w : CSYNC) → other.now ≡ variant.CSYNC w → result ≡ data_cmp (variant.CSYNC value.now) other.now }
    ensures canonical { (w : CSYNC) → other.now ≡ variant.CSYNC w → (xs ys : List ℕ) → HasCanonical (variant.CSYNC value.now) xs → HasCanonical other.now ys
        → Orders result xs ys }
{
    match other {
        RData::CSYNC(theirs) => value.cmp_data(theirs),
        _ => Ordering::Equal,
    }
}

// The order of a web service and data of its type.
fn cmp_https(value: &HTTPS, other: &RData) -> Ordering
    ensures value { (w : HTTPS) → other.now ≡ variant.HTTPS w → result ≡ data_cmp (variant.HTTPS value.now) other.now }
    ensures canonical { (w : HTTPS) → other.now ≡ variant.HTTPS w → (xs ys : List ℕ) → HasCanonical (variant.HTTPS value.now) xs → HasCanonical other.now ys
        → Orders result xs ys }
{
    match other {
        RData::HTTPS(theirs) => value.cmp_data(theirs),
        _ => Ordering::Equal,
    }
}

// The order of options and data of its type.
fn cmp_options(value: &OPT, other: &RData) -> Ordering
    ensures value { (w : OPT) → other.now ≡ variant.OPT w → result ≡ data_cmp (variant.OPT value.now) other.now }
    ensures canonical { (w : OPT) → other.now ≡ variant.OPT w → (xs ys : List ℕ) → HasCanonical (variant.OPT value.now) xs → HasCanonical other.now ys
        → Orders result xs ys }
{
    match other {
        RData::OPT(theirs) => value.cmp_data(theirs),
        _ => Ordering::Equal,
    }
}

// The order of a service and data of its type.
fn cmp_service(value: &SVCB, other: &RData) -> Ordering
    ensures value { (w : SVCB) → other.now ≡ variant.SVCB w → result ≡ data_cmp (variant.SVCB value.now) other.now }
    ensures canonical { (w : SVCB) → other.now ≡ variant.SVCB w → (xs ys : List ℕ) → HasCanonical (variant.SVCB value.now) xs → HasCanonical other.now ys
        → Orders result xs ys }
{
    match other {
        RData::SVCB(theirs) => value.cmp_data(theirs),
        _ => Ordering::Equal,
    }
}

impl PartialEq for RData {
    ghost eq = { rdata_eq };

    ghost laws = { partial_equiv_from_equiv rdata_equiv };

    /// Whether type, form and data are the same. Of data that were read for one type this is so exactly where their canonical
    /// octets are the same (RFC 4034 6.3).
    fn eq(&self, other: &RData) -> bool
        ensures value { result ≡ rdata_eq self.now other.now }
        ensures canonical { (xs ys : List ℕ) → type_number self.now ≡ type_number other.now → data_form self.now ≡ data_form other.now
            → HasCanonical self.now xs → HasCanonical other.now ys → Tells result xs ys }
    {
        self.cmp(other).is_eq()
    }
}

impl Eq for RData {
    ghost laws = { rdata_equiv };
}

impl Ord for RData {
    ghost cmp = { rdata_cmp };

    ghost total = { rdata_total };

    ghost matches_partial_cmp = { λ a b. refl };

    ghost matches_eq = { rdata_ties };

    /// The order by the numbers of the types. Of one type, data of an update without octets stand first, and data that were
    /// read are in the order of their canonical octets, from the left (RFC 4034 6.3). No memory is taken.
    fn cmp(&self, other: &RData) -> Ordering
        ensures value { result ≡ rdata_cmp self.now other.now }
        ensures canonical { (xs ys : List ℕ) → type_number self.now ≡ type_number other.now → data_form self.now ≡ data_form other.now
            → HasCanonical self.now xs → HasCanonical other.now ys → Orders result xs ys }
    {
        self.cmp_all(other)
    }
}

impl PartialOrd for RData {
    ghost partial_cmp = { λ a b. Some (rdata_cmp a b) };

    ghost laws = { po rdata_total rdata_ties };

    fn partial_cmp(&self, other: &RData) -> Option<Ordering> {
        Some(self.cmp(other))
    }
}

impl Hash for RData {
    ghost hash_input = { rdata_input };

    ghost respects_eq = { rdata_fed };

    fn hash<H: Hasher>(&self, state: &mut H) {
        self.record_type().hash(state);
        self.form().hash(state);
        self.hash_data(state);
    }
}
