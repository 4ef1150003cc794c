//! Names are compared, and equal, ordered and hashed without regard to case (RFC 4034 6.1).
ghost use Rattle.std.specs.Prelude.{◌≡◌, ◌-◌, ◌↔◌, IsTrue, All, drop, fold, reverse, true, length};
ghost use Rattle.std.specs.List.{flat_map};
ghost use Rattle.std.specs.Cmp.{partial_order_from_own_ties};
ghost use Rattle.std.specs.Cmp.Lexicographic.{slice_cmp, pointwise};
ghost use Rattle.std.specs.Cmp.Rules.{comparing};
ghost use Rattle.std.specs.Ordering.{as_partial_cmp, nat_cmp, is_le};
ghost use Rattle.std.proofs.Common.{rules};
ghost use Rattle.dnw_net.specs.dnw_label.Label.{IsLabel, label_eq};
ghost use Rattle.dnw_net.specs.dnw_label.LabelHash.{label_writes};
ghost use Rattle.dnw_name.specs.DomainName.{DomainName, is_at_or_below, name_eq, name_cmp, name_cmp_by};
ghost use Rattle.dnw_name.specs.NameOrderLaws.{name_eq-by_cmp};

use crate::name::Name;
use dnw_net::{CaseInsensitive, CaseSensitive, LabelCmp, LabelIter, cmp_octets, hash_octets};
use std::cmp::Ordering;
use std::hash::{Hash, Hasher};

impl Name {
    /// The order of two names by an order of octets.
    fn cmp_with_f<F: LabelCmp>(&self, other: &Name) -> Ordering
        ensures { result ≡ name_cmp_by (slice_cmp F.octet_cmp) self.now other.now }
    {
        match self.is_fqdn.cmp(&other.is_fqdn) {
            Ordering::Equal => cmp_labels::<F>(self.iter(), other.iter()),
            unequal => unequal,
        }
    }

    /// The canonical order with regard to case.
    pub fn cmp_case(&self, other: &Name) -> Ordering
        ensures { result ≡ name_cmp_by (slice_cmp nat_cmp) self.now other.now }
    {
        self.cmp_with_f::<CaseSensitive>(other)
    }

    /// Whether two names are the same, with regard to case.
    pub fn eq_case(&self, other: &Name) -> bool
        ensures { IsTrue result ↔ (self.now ≡ other.now) }
    {
        self.is_fqdn == other.is_fqdn && self.eq_ignore_root_case(other)
    }

    /// Whether the name handed in is this one or lies below it, flags aside.
    pub fn zone_of(&self, name: &Name) -> bool
        ensures value { result ≡ is_at_or_below name.now self.now }

        // Where the flags agree, a zone's origin stands before all its names, and they stand together.
        ensures first { is_at_or_below name.now self.now ≡ true → self.now.fqdn ≡ name.now.fqdn
            → is_le (name_cmp self.now name.now) ≡ true }
        ensures together { is_at_or_below name.now self.now ≡ true → self.now.fqdn ≡ name.now.fqdn
            → (between : DomainName) → is_le (name_cmp self.now between) ≡ true
            → is_le (name_cmp between name.now) ≡ true → is_at_or_below between self.now ≡ true }
    {
        let start = name.labels.len().saturating_sub(self.labels.len());
        self.iter().eq_ignore_ascii_case(&name.iter().behind(start))
    }

    /// Whether the name handed in ends in these very labels, flags aside.
    pub fn zone_of_case(&self, name: &Name) -> bool
        ensures { IsTrue result ↔ (drop (length name.now.labels - length self.now.labels) name.now.labels ≡ self.now.labels) }
    {
        let start = name.labels.len().saturating_sub(self.labels.len());
        name.iter().behind(start).eq_case(&self.iter())
    }

    /// Whether two names have the same labels up to case, flags aside.
    pub fn eq_ignore_root(&self, other: &Name) -> bool
        ensures { result ≡ pointwise label_eq self.now.labels other.now.labels }
    {
        self.iter().eq_ignore_ascii_case(&other.iter())
    }

    /// Whether two names have the very same labels, flags aside.
    pub fn eq_ignore_root_case(&self, other: &Name) -> bool
        ensures { IsTrue result ↔ (self.now.labels ≡ other.now.labels) }
    {
        self.iter().eq_case(&other.iter())
    }
}

impl PartialEq for Name {
    ghost eq = { name_eq };

    ghost laws = { Prim.search (comparing, rules) depth 12 };

    fn eq(&self, other: &Name) -> bool {
        self.is_fqdn == other.is_fqdn && self.eq_ignore_root(other)
    }
}

impl Eq for Name {
    ghost laws = { Prim.search (comparing, rules) depth 12 };
}

impl Ord for Name {
    ghost cmp = { name_cmp };

    ghost total = { Prim.search (comparing, rules) depth 12 };

    ghost matches_partial_cmp = { Prim.search (comparing, rules) };

    ghost matches_eq = { name_eq-by_cmp };

    fn cmp(&self, other: &Name) -> Ordering {
        self.cmp_with_f::<CaseInsensitive>(other)
    }
}

impl PartialOrd for Name {
    ghost partial_cmp = { as_partial_cmp name_cmp };

    ghost laws = { partial_order_from_own_ties (Prim.search (comparing, rules) depth 12) name_eq-by_cmp };

    fn partial_cmp(&self, other: &Name) -> Option<Ordering> {
        Some(self.cmp(other))
    }
}

impl Hash for Name {
    ghost use Rattle.dnw_name.specs.NameHash.{name_writes};
    ghost use Rattle.dnw_name.specs.NameHashLaws.{name_writes-alike};

    ghost hash_input = { name_writes };

    ghost respects_eq = { name_writes-alike };

    fn hash<H: Hasher>(&self, state: &mut H) {
        self.is_fqdn.hash(state);
        state.write_usize(self.labels.len());
        hash_labels(self.iter(), state);
    }
}

// Feeds a hasher each label.
fn hash_labels<H: Hasher>(labels: LabelIter<'_>, state: &mut H)
    requires { All IsLabel labels }
    ensures { state.new ≡ fold H.write state.old (flat_map label_writes labels.entry) }
{
    let mut left = labels;
    'labels: while let Some(label) = left.next() {
        hash_octets(label, state);
    }
}

// The order of labels from the right, by an order of octets.
fn cmp_labels<F: LabelCmp>(l: LabelIter<'_>, r: LabelIter<'_>) -> Ordering
    ensures { result ≡ slice_cmp (slice_cmp F.octet_cmp) (reverse l.entry) (reverse r.entry) }
{
    let mut left = l;
    let mut right = r;
    'labels: while let Some(x) = left.next_back() {
        let Some(y) = right.next_back() else {
            return Ordering::Greater;
        };
        match cmp_octets::<F>(x, y) {
            Ordering::Equal => {}
            unequal => return unequal,
        }
    }
    0.cmp(&right.len())
}
