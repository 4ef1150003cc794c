//! Names of labels that come one after another.
ghost use Rattle.std.specs.Prelude.{◌≡◌, ◌⊎◌, ◌+◌, ◌≤◌, ◌++◌, ◌∷◌, [], length, true, List, map, All, IfOk, IfErr, OnSome};
ghost use Rattle.std.specs.Iterator.{Drains, Yields};
ghost use Rattle.dnw_net.specs.dnw_codes.ProtoError.{IsMemory};
ghost use Rattle.dnw_name.specs.DomainName.{domain_name, IsDomainName, labels_len};
ghost use Rattle.dnw_name.specs.NameRefusals.{RefusesOctets};

use crate::name::Name;
use dnw_net::{DecodeError, IntoLabel, ProtoError};
use std::alloc::Global;

impl Name {
    /// The fully qualified name of these labels, from the left. It is refused where one of them is, or where
    /// they take more than 255 octets; from an iterator without end no more are taken than that.
    pub fn from_labels<L: IntoLabel, I: Iterator<Item = L>>(
        alloc: Global,
        labels: I,
    ) -> Result<Name, ProtoError>
        requires { I.can_next labels }
        ensures ok { IfOk result (λ name. (items : List L) × Drains I.next_gives labels items
            × (name ≡ domain_name true (map L.octets items)) × All L.accepts items) }
        ensures refused { IfErr result (λ e. IsMemory e ⊎ ((items : List L) × (rest : I) × Yields I.next_gives labels items rest
            × (All L.accepts items → IsDomainName (domain_name true (map L.octets items)) → ⊥))) }
        ensures cause { IfErr result (λ e. IsMemory e ⊎ ((items : List L) × (label : L) × (rest : I)
            × Yields I.next_gives labels (items ++ label ∷ []) rest × All L.accepts items × (labels_len (map L.octets items) + 1 ≤ 255)
            × (L.refuses label e ⊎ (L.accepts label × RefusesOctets (labels_len (map L.octets items) + length (L.octets label) + 2) e)))) }
    {
        let mut left = labels;
        let mut name = Name::root(alloc);
        'labels: for _taken in 0..128u8 {
            let Some(label) = next_of(&mut left) else {
                return Ok(name);
            };
            name = match name.append_label(label) {
                Ok(longer) => longer,
                Err(refused) => return Err(refused),
            };
        }
        let octets = name.len() + 1;
        Err(ProtoError::Decode(DecodeError::DomainNameTooLong(octets)))
    }
}

// The next item of an iterator that may have no end.
fn next_of<I: Iterator>(items: &mut I) -> Option<I::Item>
    requires { I.can_next items.old }
    ensures steps { I.next_gives items.old result items.new }
    ensures goes { OnSome result (I.can_next items.new) }
{
    items.next()
}
