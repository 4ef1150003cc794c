//! Strings that are fed to a hasher.
ghost use Rattle.std.specs.Prelude.{◌≡◌, map};
ghost use Rattle.std.specs.List.{fold, flat_map};
ghost use Rattle.drd_fields.specs.Order.{string_input};

use std::hash::Hasher;

// Feeds a string to a hasher: its length, then its octets in one write.
pub(crate) fn hash_string<H: Hasher>(string: &[u8], state: &mut H)
    ensures { state.new ≡ fold H.write state.old (string_input string.now) }
{
    state.write_usize(string.len());
    state.write(string);
}

// Feeds strings to a hasher, one behind the other.
pub(crate) fn hash_strings<H: Hasher>(strings: &[Vec<u8>], state: &mut H)
    ensures { state.new ≡ fold H.write state.old (flat_map string_input (map (λ s. s.items) strings.now)) }
{
    'strings: for string in strings {
        hash_string(string, state);
    }
}
