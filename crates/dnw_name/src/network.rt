//! Networks of names (RFC 1035 3.5, RFC 3596 2.5).
ghost use Rattle.std.specs.Prelude.{ℕ, ◌≡◌, List, IfOk, IfErr, OnOk, IfSome, IfNone};
ghost use Rattle.std.specs.Result.{IsOkAnd};
ghost use Rattle.std.specs.declared.net.ip_addr.IpAddr.{IpAddr as Address};
ghost use Rattle.dnw_net.specs.Networks.{address_bits};
ghost use Rattle.dnw_net.specs.ArpaLabels.{IsAddress};
ghost use Rattle.dnw_name.specs.Arpa.{arpa_name, IsArpaName, EndsInArpa, EndsInZone, RefusesArpaName};

use crate::name::Name;
use dnw_net::{IpNet, LabelIter, ProtoError, net_of_v4, net_of_v6};

impl Name {
    /// The network of a name below `in-addr.arpa.` or `ip6.arpa.`: a label for each octet, or hexadecimal digit, of
    /// the prefix, the last one first. It is refused by a message where the name is relative or where its end is
    /// another, and by `ParseInt` where a label is no such number, without leading zeros, or where there are more
    /// than those of an address.
    pub fn parse_arpa_name(&self) -> Result<IpNet, ProtoError>
        ensures ok { IfOk result (λ net. IsArpaName self.now net.addr net.prefix_len) }
        ensures zone { OnOk result (EndsInZone self.now) }
        ensures cause { IfErr result (RefusesArpaName self.now) }

        // There is no other network of the name, and where there is one it is the answer.
        ensures only { (addr : Address) (prefix : ℕ) → IsArpaName self.now addr prefix
            → IsOkAnd result (λ net. (net.addr ≡ addr) × (net.prefix_len ≡ prefix)) }

        // The name of an address gives it back, whole.
        ensures address { (addr : Address) → IsAddress addr → self.now ≡ arpa_name addr
            → IsOkAnd result (λ net. (net.addr ≡ addr) × (net.prefix_len ≡ address_bits addr)) }
    {
        let Some((kind, labels)) = labels_below_arpa(self) else {
            return Err(ProtoError::Message("not below arpa."));
        };
        if kind.eq_ignore_ascii_case(b"in-addr") {
            return net_of_v4(labels);
        }
        if kind.eq_ignore_ascii_case(b"ip6") {
            return net_of_v6(labels);
        }
        Err(ProtoError::Message("neither in-addr.arpa. nor ip6.arpa."))
    }
}

// The last label before `arpa.` at the end of a fully qualified name, and those before it.
fn labels_below_arpa(name: &Name) -> Option<(&[u8], LabelIter<'_>)>
    ensures some { IfSome result (λ found. EndsInArpa name.now found.1 found.0.now) }
    ensures none { IfNone result ((addr : Address) (prefix : ℕ) → IsArpaName name.now addr prefix → ⊥) }
    ensures other { IfNone result ((below : List (List ℕ)) (kind : List ℕ) → EndsInArpa name.now below kind → ⊥) }
{
    if !name.is_fqdn() {
        return None;
    }
    let mut labels = name.iter();
    let top = labels.next_back()?;
    if !top.eq_ignore_ascii_case(b"arpa") {
        return None;
    }
    let kind = labels.next_back()?;
    Some((kind, labels))
}
