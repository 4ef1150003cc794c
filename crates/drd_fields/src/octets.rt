//! Strings and names in order.
ghost use Rattle.std.specs.Prelude.{◌≡◌, ◌∷◌, [], ◌++◌, List, ℕ, true, length, map, nat_eq};
ghost use Rattle.std.specs.Ordering.{nat_cmp};
ghost use Rattle.std.specs.Cmp.Lexicographic.{slice_cmp};
ghost use Rattle.std.specs.List.{flat_map};
ghost use Rattle.std.specs.Str.{str_to_ascii_lowercase};
ghost use Rattle.drd_fields.specs.Writing.{string_octets};
ghost use Rattle.drd_fields.specs.Fields.{name};
ghost use Rattle.drd_fields.specs.Equality.{canonical_field};
ghost use Rattle.drd_fields.specs.Order.{OrdersFronts, field_cmp, octets_cmp, labels_octets};

use dnw_encoder::{LabelIter, Name};
use std::cmp::Ordering;

// The order of two strings behind their lengths.
pub(crate) fn cmp_string(s: &[u8], t: &[u8]) -> Ordering
    ensures { result ≡ octets_cmp (string_octets s.now) (string_octets t.now) }
{
    match s.len().cmp(&t.len()) {
        Ordering::Equal => s.cmp(t),
        unequal => unequal,
    }
}

// The order of strings one behind the other, each behind its length.
#[tactic(auto, using(crate::proofs::OrderLaws::cmp_strings))]
pub(crate) fn cmp_strings(s: &[Vec<u8>], t: &[Vec<u8>]) -> Ordering
    ensures { result ≡ octets_cmp (flat_map string_octets (map (λ v. v.items) s.now)) (flat_map string_octets (map (λ v. v.items) t.now)) }
{
    let mut left = s;
    let mut right = t;
    'strings: while let (Some((x, xs)), Some((y, ys))) = (left.split_first(), right.split_first()) {
        match cmp_string(x, y) {
            Ordering::Equal => {
                left = xs;
                right = ys;
            }
            unequal => return unequal,
        }
    }
    left.len().cmp(&right.len())
}

// The order of two names: a relative one first, then their labels.
#[tactic(auto, using(crate::proofs::OrderLaws::name_orders))]
pub(crate) fn cmp_name(n: &Name, m: &Name) -> Ordering
    ensures value { result ≡ field_cmp (name n.now) (name m.now) }
    ensures canonical { n.now.fqdn ≡ true → m.now.fqdn ≡ true
        → OrdersFronts result (canonical_field (name n.now)) (canonical_field (name m.now)) }
{
    match n.is_fqdn().cmp(&m.is_fqdn()) {
        Ordering::Equal => cmp_labels(n.iter(), m.iter()),
        unequal => unequal,
    }
}

// The order of labels from the left, in lower case and behind their lengths, up to the end of each.
#[tactic(auto, using(crate::proofs::OrderLaws::cmp_more, crate::proofs::OrderLaws::cmp_ends, crate::proofs::OrderLaws::cmp_ended))]
fn cmp_labels(s: LabelIter<'_>, t: LabelIter<'_>) -> Ordering
    ensures { result ≡ octets_cmp (labels_octets s.entry) (labels_octets t.entry) }
{
    let mut left = s;
    let mut right = t;
    'labels: while let Some(x) = left.next() {
        let Some(y) = right.next() else {
            return Ordering::Greater;
        };
        match cmp_label(x, y) {
            Ordering::Equal => {}
            unequal => return unequal,
        }
    }
    if right.len() == 0 {
        Ordering::Equal
    } else {
        Ordering::Less
    }
}

// The order of two labels in lower case behind their lengths.
fn cmp_label(s: &[u8], t: &[u8]) -> Ordering
    ensures { result ≡ octets_cmp (string_octets (str_to_ascii_lowercase s.now)) (string_octets (str_to_ascii_lowercase t.now)) }
{
    match s.len().cmp(&t.len()) {
        Ordering::Equal => cmp_lower(s, t),
        unequal => unequal,
    }
}

// The order of two texts in lower case.
fn cmp_lower(s: &[u8], t: &[u8]) -> Ordering
    ensures { result ≡ octets_cmp (str_to_ascii_lowercase s.now) (str_to_ascii_lowercase t.now) }
{
    let mut left = s;
    let mut right = t;
    'octets: while let (Some((x, xs)), Some((y, ys))) = (left.split_first(), right.split_first()) {
        match x.to_ascii_lowercase().cmp(&y.to_ascii_lowercase()) {
            Ordering::Equal => {
                left = xs;
                right = ys;
            }
            unequal => return unequal,
        }
    }
    left.len().cmp(&right.len())
}
