//! The labels of a name, one after another.
ghost use Rattle.std.specs.Prelude.{◌≡◌, ◌-◌, ◌↔◌, IsTrue, All, drop, length, Some, IfOk, IfSome};
ghost use Rattle.std.specs.Cmp.Lexicographic.{pointwise};
ghost use Rattle.std.specs.Iterator.{YieldsFirstRef, YieldsLastRef, item_count, at_most, UpTo};
ghost use Rattle.std.specs.Iterator.SizeHint.{IsWithinCount};
ghost use Rattle.dnw_label.specs.Label.{IsLabel, label_eq};
ghost use Rattle.dnw_label.specs.Labels.{HoldLabels, labels_of, label_octets};

use std::marker::Model;

/// The labels of a name from the left, or from the right by `rev`. A contract sees it as those that are left.
#[derive(Drop)]
pub struct LabelIter<'a> {
    octets: &'a [u8],
    lengths: &'a [u8],
}

impl<'a> Model for LabelIter<'a> {
    ghost use Rattle.std.specs.Prelude.{ℕ, List};
    ghost use Rattle.dnw_label.specs.Labels.{HoldLabels, labels_of};

    ghost Value = { List (List ℕ) };

    ghost view = { λ iter. labels_of iter.lengths.now iter.octets.now };

    ghost invariant = { λ iter. HoldLabels iter.octets.now iter.lengths.now (labels_of iter.lengths.now iter.octets.now) };
}

impl<'a> LabelIter<'a> {
    // The labels of these lengths that octets hold.
    pub(crate) fn of_octets(octets: &'a [u8], lengths: &'a [u8]) -> LabelIter<'a>
        requires { HoldLabels octets.now lengths.now (labels_of lengths.now octets.now) }
        ensures { result ≡ labels_of lengths.now octets.now }
    {
        LabelIter { octets, lengths }
    }

    /// The octets of the labels that are left, each behind the one of its length (RFC 1035 3.1).
    pub fn octets(&self) -> &'a [u8]
        ensures octets { result.now ≡ label_octets self.now }
        ensures each { All IsLabel self.now }
    {
        self.octets
    }

    // The lengths of the labels that are left.
    pub(crate) fn lengths(&self) -> &'a [u8]
        ensures { HoldLabels (label_octets self.now) result.now self.now }
    {
        self.lengths
    }

    /// The labels behind so many, or none where there are no more.
    pub fn behind(self, count: usize) -> LabelIter<'a>
        ensures { result ≡ drop count self.entry }
    {
        let mut labels = self;
        'labels: for _passed in 0..count.min(labels.len()) {
            let _ = labels.next();
        }
        labels
    }

    /// Whether these labels are the same as others, up to the case of ASCII letters.
    pub fn eq_ignore_ascii_case(&self, other: &LabelIter<'_>) -> bool
        ensures { result ≡ pointwise label_eq self.now other.now }
    {
        // (an octet of a length is no letter)
        self.octets.eq_ignore_ascii_case(other.octets)
    }

    /// Whether these labels are the same as others, with regard to case.
    pub fn eq_case(&self, other: &LabelIter<'_>) -> bool
        ensures { IsTrue result ↔ (self.now ≡ other.now) }
    {
        self.octets == other.octets
    }
}

impl<'a> Iterator for LabelIter<'a> {
    type Item = &'a [u8];

    ghost next_gives = { YieldsFirstRef (λ labels. labels) };

    ghost remaining = { item_count (λ labels. labels) };

    fn next(&mut self) -> Option<&'a [u8]> {
        let (length, lengths) = self.lengths.split_first()?;
        let (_, behind) = self.octets.split_at(1);
        let (label, octets) = behind.split_at(usize::from(*length));
        self.octets = octets;
        self.lengths = lengths;
        Some(label)
    }

    fn size_hint(&self) -> (usize, Option<usize>)
        ensures lower { IsWithinCount result.0 (at_most (length self.now)) }
        ensures upper { IfSome result.1 (UpTo (at_most (length self.now))) }
        ensures exact { (result.0 ≡ length self.now) × (result.1 ≡ Some result.0) }
    {
        (self.lengths.len(), Some(self.lengths.len()))
    }
}

impl<'a> DoubleEndedIterator for LabelIter<'a> {
    ghost next_back_gives = { YieldsLastRef (λ labels. labels) };

    fn next_back(&mut self) -> Option<&'a [u8]> {
        let (length, lengths) = self.lengths.split_last()?;
        let (front, label) = self
            .octets
            .split_at(self.octets.len() - usize::from(*length));
        self.octets = &front[..front.len() - 1];
        self.lengths = lengths;
        Some(label)
    }
}

impl ExactSizeIterator for LabelIter<'_> {
    fn len(&self) -> usize {
        self.lengths.len()
    }
}
