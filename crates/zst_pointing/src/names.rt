//! Names that end as another one does.

ghost use Rattle.std.specs.Prelude.{◌≡◌, ◌+◌, ◌-◌, ◌≤◌, ◌++◌, ℕ, length, MatchOption};
ghost use Rattle.smallvec.specs.SmallVec.{HasRoomFor};
ghost use Rattle.drd_fields.specs.dnw_label.Labels.{label_octets};
ghost use Rattle.zst_record.specs.dnw_decoder.Octets.{octets_16};
ghost use Rattle.zst_record.specs.dnw_decoder.Spelling.{pointer_octets};
ghost use Rattle.zst_record.specs.dnw_name.DomainName.{IsDomainName};
ghost use Rattle.zst_pointing.specs.Names.{IsNear, IsOwn, near_octets, octets_of, spelling_octets};

use smallvec::SmallVec;
use zst_record::Name;

// How many octets of labels a name shares with another at most, but for all that the other has.
const MOST_SHARED: usize = 126;

/// How many octets of a name's labels stand before those that end another name too, spelled alike.
pub(crate) fn own_octets(name: &Name, other: &Name) -> usize
    ensures { IsOwn name.now other.now result }
{
    let mut own = name.as_octets().len();
    let (mut labels, mut others) = (name.iter(), other.iter());
    'labels: while let Some(label) = labels.next_back() {
        match others.next_back() {
            Some(other) if other == label => own -= 1 + label.len(),
            _ => return own,
        }
    }
    own
}

// The pointer to the labels that end a name, which stands in full behind a header: so many octets of them.
fn pointer(asked: &Name, shared: usize) -> u16
    requires { shared ≤ octets_of asked.now }
    ensures { octets_16 result ≡ pointer_octets (12 + (octets_of asked.now - shared)) }
{
    0xC00C + (asked.as_octets().len() - shared) as u16
}

/// A name as it stands behind the question's: its own labels, then the end or a pointer.
#[derive(Clone, Copy)]
pub(crate) struct Spelling<'n> {
    pub(crate) own: &'n [u8],
    pub(crate) pointer: Option<u16>,
}

impl<'n> Spelling<'n> {
    /// How a name is spelled behind one that is asked for, of which it shares few octets or all.
    pub(crate) fn of(asked: &Name, name: &'n Name) -> Option<Spelling<'n>>
        ensures spelled { MatchOption result ((own : ℕ) → IsNear asked.now name.now own → ⊥)
            (λ spelling. IsNear asked.now name.now (length spelling.own.now)
            × (spelling_octets spelling ≡ near_octets asked.now name.now (length spelling.own.now))) }
        ensures name { IsDomainName name.now }
    {
        let labels = name.as_octets();
        let own = own_octets(name, asked);
        let shared = labels.len() - own;
        if shared > MOST_SHARED && shared != asked.as_octets().len() {
            return None;
        }
        let pointer = if shared == 0 {
            None
        } else {
            Some(pointer(asked, shared))
        };
        Some(Spelling {
            own: &labels[..own],
            pointer,
        })
    }

    /// How many octets it takes.
    pub(crate) fn len(&self) -> usize
        ensures { result ≡ length (spelling_octets self.now) }
    {
        match self.pointer {
            Some(_) => self.own.len() + 2,
            None => self.own.len() + 1,
        }
    }

    /// Puts it behind other octets, for which there is room.
    pub(crate) fn push(&self, octets: &mut SmallVec<u8, 64>)
        requires { HasRoomFor octets.old (length (spelling_octets self.now)) }
        ensures items { octets.new.items ≡ octets.old.items ++ spelling_octets self.now }
        ensures capacity { octets.old.capacity ≤ octets.new.capacity }
    {
        push(octets, self.own);
        match self.pointer {
            Some(pointer) => push(octets, &pointer.to_be_bytes()),
            None => octets.push_reserved(0),
        }
    }
}

/// Puts octets behind others, for which there is room.
pub(crate) fn push(octets: &mut SmallVec<u8, 64>, more: &[u8])
    requires { HasRoomFor octets.old (length more.now) }
    ensures items { octets.new.items ≡ octets.old.items ++ more.now }
    ensures capacity { octets.old.capacity ≤ octets.new.capacity }
{
    // There is room, and so no growth is refused.
    let _ = octets.extend_from_slice(more);
}
