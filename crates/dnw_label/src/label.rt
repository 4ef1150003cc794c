//! One label of a name.
ghost use Rattle.std.specs.Prelude.{◌≡◌, false, ◌==◌, ◌<◌, ◌≤◌, length, fold, IsOk, IfOk, IfErr, IsErrOf, IsErrAnd, OnOk, OnErr, ◌⊎◌};
ghost use Rattle.std.specs.Cmp.{partial_order_from_own_ties};
ghost use Rattle.std.specs.Cmp.Lexicographic.{slice_cmp};
ghost use Rattle.std.specs.Cmp.Rules.{comparing};
ghost use Rattle.std.specs.Ordering.{nat_cmp, on, as_partial_cmp};
ghost use Rattle.std.specs.Str.{str_to_ascii_lowercase};
ghost use Rattle.std.proofs.Common.{rules};
ghost use Rattle.dnw_codes.specs.ProtoError.{IsMemory, IsMessage};
ghost use Rattle.dnw_codes.specs.declared.error.DecodeError.TheVariants.{LabelBytesTooLong};
ghost use Rattle.dnw_label.specs.Label.{IsLabel, label_eq, label_cmp, wildcard_label, is_wildcard_label};
ghost use Rattle.dnw_label.specs.LabelHash.{label_writes};
ghost use Rattle.dnw_label.specs.LabelRefusals.{RefusesLabel};
ghost use Rattle.dnw_label.specs.LabelRefusalsLaws.{label_causes, no_causes};

use dnw_codes::{DecodeError, ProtoError};
use smallvec::SmallVec;
use std::alloc::{AllocError, Global};
use std::cmp::Ordering;
use std::convert::AsSlice;
use std::hash::{Hash, Hasher};
use std::marker::Model;

/// An order of octets, by which labels are compared.
pub trait LabelCmp {
    ghost use Rattle.std.specs.Prelude.{ℕ};
    ghost use Rattle.std.specs.declared.cmp.Ordering.{Ordering as Order};
    ghost use Rattle.std.specs.Cmp.{IsTotalOrder};

    ghost octet_cmp: { ℕ → ℕ → Order };

    /// The order of two octets.
    fn cmp_u8(l: u8, r: u8) -> Ordering
        ensures { result ≡ octet_cmp l r };

    // A total preorder: octets that compare as equal may differ.
    ghost total: { IsTotalOrder octet_cmp };
}

/// The order of octets as numbers.
pub struct CaseSensitive;

impl LabelCmp for CaseSensitive {
    ghost octet_cmp = { nat_cmp };

    ghost total = { Prim.search (comparing, rules) };

    fn cmp_u8(l: u8, r: u8) -> Ordering {
        l.cmp(&r)
    }
}

/// The order of octets without regard to the case of ASCII letters (RFC 4034 6.1).
pub struct CaseInsensitive;

impl LabelCmp for CaseInsensitive {
    ghost use Rattle.std.specs.Char.{to_ascii_lowercase};

    ghost octet_cmp = { on to_ascii_lowercase nat_cmp };

    ghost total = { Prim.search (comparing, rules) };

    fn cmp_u8(l: u8, r: u8) -> Ordering {
        l.to_ascii_lowercase().cmp(&r.to_ascii_lowercase())
    }
}

/// One label of a name: 1 to 63 octets (RFC 1035 2.3.4). A contract sees it as its octets.
///
/// Labels are equal, ordered and hashed without regard to the case of ASCII letters.
#[derive(Drop)]
pub struct Label(SmallVec<u8, 24>);

impl Model for Label {
    ghost use Rattle.std.specs.Prelude.{ℕ, List};

    ghost Value = { List ℕ };

    ghost use Rattle.dnw_label.specs.Label.{IsLabel};

    ghost view = { λ label. label.0.items };

    ghost invariant = { λ label. IsLabel label.0.items };
}

impl Label {
    /// A label of these octets. Refused are none, by a message, and more than 63, by `LabelBytesTooLong`
    /// (RFC 1035 2.3.4).
    pub fn from_raw_bytes(alloc: Global, bytes: &[u8]) -> Result<Label, ProtoError>
        ensures ok { IfOk result (λ label. label ≡ bytes.now) }
        ensures label { OnOk result (IsLabel bytes.now) }
        ensures empty { length bytes.now ≡ 0 → IsErrAnd result IsMessage }
        ensures too_long { 63 < length bytes.now → IsErrOf result (ProtoError.Decode (LabelBytesTooLong (length bytes.now))) }
        ensures refused { IsLabel bytes.now → IfErr result IsMemory }
        ensures cause { IfErr result (λ e. IsMemory e ⊎ RefusesLabel bytes.now e) }
    {
        check_len(bytes.len())?;
        match SmallVec::from_slice(alloc, bytes) {
            Ok(octets) => Ok(Label(octets)),
            Err(refused) => Err(ProtoError::Memory(refused)),
        }
    }

    // The label of these octets, refused as by `from_raw_bytes`.
    pub(crate) fn of_octets(octets: SmallVec<u8, 24>) -> Result<Label, ProtoError>
        ensures ok { IfOk result (λ label. (label ≡ octets.items) × IsLabel octets.items) }
        ensures refused { IsLabel octets.items → IsOk result }
        ensures cause { IfErr result (RefusesLabel octets.items) }
    {
        check_len(octets.len())?;
        Ok(Label(octets))
    }

    /// The octets of the label.
    pub fn as_bytes(&self) -> &[u8]
        ensures octets { result.now ≡ self.now }
        ensures label { IsLabel self.now }
    {
        self.0.as_slice()
    }

    /// The number of octets.
    pub fn len(&self) -> usize
        ensures value { result ≡ length self.now }
        ensures label { IsLabel self.now }
    {
        self.0.len()
    }

    /// Whether there is no octet, which never is.
    pub fn is_empty(&self) -> bool
        ensures { result ≡ false }
    {
        false
    }

    /// The label `*`.
    pub fn wildcard(alloc: Global) -> Label
        ensures { result ≡ wildcard_label }
    {
        Label(SmallVec::from_slice(alloc, b"*").unwrap())
    }

    /// Whether this is the label `*`.
    pub fn is_wildcard(&self) -> bool
        ensures { result ≡ is_wildcard_label self.now }
    {
        self.as_bytes() == b"*".as_slice()
    }

    /// The label in lower case.
    pub fn to_lowercase(&self) -> Result<Label, AllocError>
        ensures { IfOk result (λ label. label ≡ str_to_ascii_lowercase self.now) }
    {
        let octets = self.as_bytes();
        let mut lower = SmallVec::with_capacity(*self.0.allocator(), octets.len())?;
        'octets: for octet in octets {
            lower.push(octet.to_ascii_lowercase())?;
        }
        Ok(Label(lower))
    }

    /// Puts the label into lower case.
    pub fn make_lowercase(&mut self)
        ensures { self.new ≡ str_to_ascii_lowercase self.old }
    {
        self.0.as_mut_slice().make_ascii_lowercase();
    }

    /// Whether two labels are the same up to the case of ASCII letters.
    pub fn eq_ignore_ascii_case(&self, other: &Label) -> bool
        ensures { result ≡ label_eq self.now other.now }
    {
        self.as_bytes().eq_ignore_ascii_case(other.as_bytes())
    }

    /// The order of two labels by an order of octets: the first octets that differ decide, and a prefix comes first.
    pub fn cmp_with_f<F: LabelCmp>(&self, other: &Label) -> Ordering
        ensures { result ≡ slice_cmp F.octet_cmp self.now other.now }
    {
        cmp_octets::<F>(self.as_bytes(), other.as_bytes())
    }
}

// Whether a label may have so many octets.
fn check_len(len: usize) -> Result<(), ProtoError>
    ensures ok { OnOk result ((0 < len) × (len ≤ 63)) }
    ensures empty { len ≡ 0 → IsErrAnd result IsMessage }
    ensures too_long { 63 < len → IsErrOf result (ProtoError.Decode (LabelBytesTooLong len)) }
    ensures refused { OnErr result ((len ≡ 0) ⊎ (63 < len)) }
{
    if len == 0 {
        return Err(ProtoError::Message("a label has at least one octet"));
    }
    if len > 63 {
        return Err(ProtoError::Decode(DecodeError::LabelBytesTooLong(len)));
    }
    Ok(())
}

/// The order of two labels by an order of octets: the first octets that differ decide, and a prefix comes first.
pub fn cmp_octets<F: LabelCmp>(l: &[u8], r: &[u8]) -> Ordering
    ensures { result ≡ slice_cmp F.octet_cmp l.now r.now }
{
    let shared = l.len().min(r.len());
    'octets: for i in 0..shared {
        match F::cmp_u8(l[i], r[i]) {
            Ordering::Equal => {}
            unequal => return unequal,
        }
    }
    l.len().cmp(&r.len())
}

impl Clone for Label {
    ghost is_clone = { λ label copy. copy ≡ label };

    fn clone(&self) -> Result<Label, AllocError> {
        Ok(Label(SmallVec::from_slice(*self.0.allocator(), self.as_bytes())?))
    }
}

impl AsSlice<u8> for Label {
    ghost items = { λ label. label };

    fn as_slice(&self) -> &[u8] {
        self.as_bytes()
    }
}

impl PartialEq for Label {
    ghost eq = { label_eq };

    ghost laws = { Prim.search (comparing, rules) };

    fn eq(&self, other: &Label) -> bool {
        self.eq_ignore_ascii_case(other)
    }
}

impl Eq for Label {
    ghost laws = { Prim.search (comparing, rules) };
}

impl Ord for Label {
    ghost cmp = { label_cmp };

    ghost total = { Prim.search (comparing, rules) };

    ghost matches_partial_cmp = { Prim.search (comparing, rules) };

    ghost matches_eq = { Prim.search (comparing, rules) };

    fn cmp(&self, other: &Label) -> Ordering {
        self.cmp_with_f::<CaseInsensitive>(other)
    }
}

impl PartialOrd for Label {
    ghost partial_cmp = { as_partial_cmp label_cmp };

    ghost laws = { partial_order_from_own_ties (Prim.search (comparing, rules)) (Prim.search (comparing, rules)) };

    fn partial_cmp(&self, other: &Label) -> Option<Ordering> {
        Some(self.cmp(other))
    }
}

impl Hash for Label {
    ghost use Rattle.dnw_label.specs.LabelHash.{label_writes};
    ghost use Rattle.dnw_label.specs.LabelHashLaws.{label_writes-alike};

    ghost hash_input = { label_writes };

    ghost respects_eq = { label_writes-alike };

    fn hash<H: Hasher>(&self, state: &mut H) {
        hash_octets(self.as_bytes(), state);
    }
}

/// Feeds a hasher a label, which is 1 to 63 octets: its length, and its octets in lower case.
pub fn hash_octets<H: Hasher>(label: &[u8], state: &mut H)
    requires { IsLabel label.now }
    ensures { state.new ≡ fold H.write state.old (label_writes label.now) }
{
    let mut buffer = [0; 63];
    let (lower, _) = buffer.split_at_mut(label.len());
    lower.copy_from_slice(label);
    lower.make_ascii_lowercase();
    state.write_u8(label.len() as u8);
    state.write(lower);
}

/// What can be made a label: octets, a text, a label.
pub trait IntoLabel: Sized {
    ghost use Rattle.std.specs.Prelude.{ℕ, List, ◌≡◌, ◌⊎◌, IfOk, IfErr, OnOk};
    ghost use Rattle.dnw_codes.specs.declared.error.ProtoError.{ProtoError as WireError};
    ghost use Rattle.dnw_label.specs.LabelRefusals.{AreCauses};

    ghost octets: { Self → List ℕ };

    ghost accepts: { Self → Type 0 };

    ghost refuses: { Self → WireError → Type 0 };

    // An error has its cause only where nothing is accepted.
    ghost laws: { (own : Self) → AreCauses (accepts own) (refuses own) };

    /// The label of these octets. Where it isn't accepted as one, the error says why.
    fn into_label(self, alloc: Global) -> Result<Label, ProtoError>
        ensures ok { IfOk result (λ label. label ≡ octets self) }
        ensures accepted { OnOk result (accepts self) }
        ensures refused { accepts self → IfErr result IsMemory }
        ensures cause { IfErr result (λ e. IsMemory e ⊎ refuses self e) };
}

impl IntoLabel for Label {
    ghost octets = { λ label. label };

    ghost accepts = { λ _. Unit {0} };

    ghost refuses = { λ _ _. ⊥ };

    ghost laws = { λ _. no_causes (Unit {0}) };

    fn into_label(self, _alloc: Global) -> Result<Label, ProtoError> {
        Ok(self)
    }
}

impl IntoLabel for &Label {
    ghost octets = { λ label. label.now };

    ghost accepts = { λ _. Unit {0} };

    ghost refuses = { λ _ _. ⊥ };

    ghost laws = { λ _. no_causes (Unit {0}) };

    fn into_label(self, alloc: Global) -> Result<Label, ProtoError> {
        match SmallVec::from_slice(alloc, self.as_bytes()) {
            Ok(octets) => Ok(Label(octets)),
            Err(refused) => Err(ProtoError::Memory(refused)),
        }
    }
}

impl IntoLabel for &[u8] {
    ghost octets = { λ bytes. bytes.now };

    ghost accepts = { λ bytes. IsLabel bytes.now };

    ghost refuses = { λ bytes. RefusesLabel bytes.now };

    ghost laws = { λ bytes. label_causes bytes.now };

    fn into_label(self, alloc: Global) -> Result<Label, ProtoError> {
        Label::from_raw_bytes(alloc, self)
    }
}

impl IntoLabel for Vec<u8> {
    ghost octets = { λ bytes. bytes.items };

    ghost accepts = { λ bytes. IsLabel bytes.items };

    ghost refuses = { λ bytes. RefusesLabel bytes.items };

    ghost laws = { λ bytes. label_causes bytes.items };

    fn into_label(self, alloc: Global) -> Result<Label, ProtoError> {
        Label::from_raw_bytes(alloc, &self)
    }
}
