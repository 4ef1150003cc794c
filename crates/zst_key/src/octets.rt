//! Octets whose plain order is the canonical order of names.
ghost use Rattle.std.specs.Prelude.{ℕ, ◌≡◌, ◌+◌, ◌++◌, ◌<◌, ◌≤◌, get_or, length, min, take, true, IfOk, IsOk};
ghost use Rattle.std.specs.Cmp.Lexicographic.{slice_cmp};
ghost use Rattle.std.specs.Bool.{beq};
ghost use Rattle.std.specs.Ordering.{nat_cmp};
ghost use Rattle.std.specs.Str.{bytes_eq};
ghost use Rattle.smallvec.specs.SmallVec.{HasRoomFor, small_vec_len};
ghost use Rattle.dnw_name.specs.DomainName.{DomainName, name_len};
ghost use Rattle.zst_key.specs.Ancestors.{GoesToShared, parent};
ghost use Rattle.zst_key.specs.NameKeys.{IsLastEnd, ShareFront, rank, label_key, name_key};

use dnw_name::{Name, word};
use smallvec::SmallVec;
use std::alloc::{AllocError, Global};
use std::cmp::Ordering;

/// How many octets of a key stand where the key does, and take no memory of their own: names of up to 39 octets.
pub(crate) const INLINE: usize = 40;

// The rank of each octet: a capital's is that of its small letter.
#[rattlefmt::skip]
static RANKS: [u8; 256] = [
      1,   2,   3,   4,   5,   6,   7,   8,   9,  10,  11,  12,  13,  14,  15,  16,
     17,  18,  19,  20,  21,  22,  23,  24,  25,  26,  27,  28,  29,  30,  31,  32,
     33,  34,  35,  36,  37,  38,  39,  40,  41,  42,  43,  44,  45,  46,  47,  48,
     49,  50,  51,  52,  53,  54,  55,  56,  57,  58,  59,  60,  61,  62,  63,  64,
     65,  72,  73,  74,  75,  76,  77,  78,  79,  80,  81,  82,  83,  84,  85,  86,
     87,  88,  89,  90,  91,  92,  93,  94,  95,  96,  97,  66,  67,  68,  69,  70,
     71,  72,  73,  74,  75,  76,  77,  78,  79,  80,  81,  82,  83,  84,  85,  86,
     87,  88,  89,  90,  91,  92,  93,  94,  95,  96,  97,  98,  99, 100, 101, 102,
    103, 104, 105, 106, 107, 108, 109, 110, 111, 112, 113, 114, 115, 116, 117, 118,
    119, 120, 121, 122, 123, 124, 125, 126, 127, 128, 129, 130, 131, 132, 133, 134,
    135, 136, 137, 138, 139, 140, 141, 142, 143, 144, 145, 146, 147, 148, 149, 150,
    151, 152, 153, 154, 155, 156, 157, 158, 159, 160, 161, 162, 163, 164, 165, 166,
    167, 168, 169, 170, 171, 172, 173, 174, 175, 176, 177, 178, 179, 180, 181, 182,
    183, 184, 185, 186, 187, 188, 189, 190, 191, 192, 193, 194, 195, 196, 197, 198,
    199, 200, 201, 202, 203, 204, 205, 206, 207, 208, 209, 210, 211, 212, 213, 214,
    215, 216, 217, 218, 219, 220, 221, 222, 223, 224, 225, 226, 227, 228, 229, 230,
];

// The octets of a name's key: the flag, then the labels from the root down, each octet by its rank, without regard to
// case. So the octets of a suffix are a front, and plain order is the canonical order of names (RFC 4034 6.1).
pub(crate) fn octets_of<const N: usize>(
    alloc: Global,
    name: &Name,
) -> Result<SmallVec<u8, N>, AllocError>
    ensures key { IfOk result (λ octets. octets.items ≡ name_key name.now) }
    ensures short { name_len name.now < N → IsOk result }
{
    let mut octets = SmallVec::with_capacity(alloc, name.len() + 1)?;
    octets.push_reserved(u8::from(name.is_fqdn()));
    let mut labels = name.iter();
    'labels: while let Some(label) = labels.next_back() {
        push_label(&mut octets, label);
    }
    Ok(octets)
}

// Appends a label's octets by their ranks, then 0, for which there is room. A label of one octet starts no loop, since a
// name may have many of them.
fn push_label<const N: usize>(octets: &mut SmallVec<u8, N>, label: &[u8])
    requires { HasRoomFor octets.old (length label.now + 1) }
    ensures items { octets.new.items ≡ octets.old.items ++ label_key label.now }
    ensures len { small_vec_len octets.new ≡ small_vec_len octets.old + (length label.now + 1) }
    ensures capacity { octets.new.capacity ≡ octets.old.capacity }
{
    if let Some((first, rest)) = label.split_first() {
        octets.push_reserved(rank(*first));
        'octets: for i in 0..rest.len() {
            octets.push_reserved(rank(rest[i]));
        }
    }
    octets.push_reserved(0);
}

// Behind which octet, from a place down, a label or the flag ends.
fn last_end(octets: &[u8], from: usize) -> usize
    requires { from ≤ length octets.now }
    ensures { IsLastEnd octets.now from result }
{
    let mut end = from;
    'octets: while 1 < end && octets[end - 1] != 0 {
        end -= 1;
    }
    end
}

// Where the octets of the name above end in those of a key; of a name without labels, where its own do.
pub(crate) fn parent_end(octets: &[u8]) -> usize
    requires { 0 < length octets.now }
    ensures within { result ≤ length octets.now }
    ensures parent { (name : DomainName) → octets.now ≡ name_key name → take result octets.now ≡ name_key (parent name) }
{
    last_end(octets, (octets.len() - 1).max(1))
}

// The place of an octet among the octets without capitals, from 1 on.
fn rank(octet: u8) -> u8
    ensures { result ≡ rank octet }
{
    RANKS[usize::from(octet)]
}

// How many octets at their fronts are the same.
fn same_front(octets: &[u8], others: &[u8]) -> usize
    ensures { ShareFront octets.now others.now result }
{
    let both = octets.len().min(others.len());
    let mut same = 0;
    'octets: while same < both && octets[same] == others[same] {
        same += 1;
    }
    same
}

// Where the octets end of the nearest name, from that of a key up, that another key's name equals or lies below, where both
// end at the root or neither does.
pub(crate) fn shared_end(octets: &[u8], others: &[u8]) -> usize
    ensures within { result ≤ length octets.now }
    ensures shared { (old other : DomainName) → octets.now ≡ name_key old → others.now ≡ name_key other → beq old.fqdn other.fqdn ≡ true
        → (new : DomainName) × (take result octets.now ≡ name_key new) × GoesToShared old other new }
{
    last_end(octets, same_front(octets, others))
}

// Whether the last eight octets tell that octets aren't the same. Keys of one zone have the same ones in front.
#[inline(always)]
fn ends_apart(first: &[u8], second: &[u8]) -> bool
    ensures { result ≡ true → first.now ≡ second.now → ⊥ }
{
    let size = first.len();
    size != second.len() || size >= 8 && word(first, size - 8) != word(second, size - 8)
}

// Whether octets are the same.
#[inline]
pub(crate) fn are_same(first: &[u8], second: &[u8]) -> bool
    ensures { result ≡ bytes_eq first.now second.now }
{
    !ends_apart(first, second) && first == second
}

// The order of octets, eight at a time. Most keys have up to 24: these are compared without a loop.
#[inline]
pub(crate) fn order(first: &[u8], second: &[u8]) -> Ordering
    ensures { result ≡ slice_cmp nat_cmp first.now second.now }
{
    let both = first.len().min(second.len());
    if both < 8 {
        return first.cmp(second);
    }
    let (x, y) = (word(first, 0), word(second, 0));
    if x != y {
        return x.cmp(&y);
    }
    if both <= 16 {
        return order_from(first, second, 8);
    }
    let (x, y) = (word(first, 8), word(second, 8));
    if x != y {
        return x.cmp(&y);
    }
    order_from(first, second, 16)
}

// The order of octets that are the same up to a place; the last eight that both have may overlap those before.
#[inline(always)]
fn order_from(first: &[u8], second: &[u8], from: usize) -> Ordering
    requires first { 8 ≤ length first.now }
    requires second { 8 ≤ length second.now }
    requires both { from ≤ min (length first.now) (length second.now) }
    requires alike { (i : ℕ) → i < from → get_or first.now i 0 ≡ get_or second.now i 0 }
    ensures { result ≡ slice_cmp nat_cmp first.now second.now }
{
    let last = first.len().min(second.len()) - 8;
    let mut at = from;
    'words: while at < last {
        let (x, y) = (word(first, at), word(second, at));
        if x != y {
            return x.cmp(&y);
        }
        at += 8;
    }
    let (x, y) = (word(first, last), word(second, last));
    if x != y {
        return x.cmp(&y);
    }
    first.len().cmp(&second.len())
}
